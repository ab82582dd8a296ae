// Rings of one key.
use attr_tuples::{Tuple, parse_tuple};
use key_ring::KeyRing;
use std::alloc::Global;
use std::test::Fail;

fn ring_with(alloc: Global, key: Tuple) -> Result<KeyRing, Fail> {
    let mut ring = KeyRing::new(alloc);
    match ring.add(key) {
        Ok(_) => Ok(ring),
        Err(_) => Err("no key".into()),
    }
}

/// A ring that has the key of this text alone.
pub fn ring_of(alloc: Global, key: &[u8]) -> Result<KeyRing, Fail> {
    let key = parse_tuple(alloc, key)?;
    ring_with(alloc, key)
}
