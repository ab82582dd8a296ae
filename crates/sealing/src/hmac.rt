// HMAC with MD5 (RFC 2104).

ghost use Rattle.std.specs.Prelude.{◌≡◌, ◌-◌, ◌≤◌, ◌++◌, length, replicate};
ghost use Rattle.sealing.specs.Hmac.{block_key, masked, hmac};

use md5::{DIGEST_LEN, Digest, Md5};

// B of RFC 2104: the length in bytes of the block that MD5 works on.
const BLOCK_LEN: usize = 64;

// The bytes of RFC 2104's ipad and opad.
const INNER_PAD: u8 = 0x36;

const OUTER_PAD: u8 = 0x5c;

// The bytes of `key`, which fit a block, and zeros after them.
fn zero_padded(key: &[u8]) -> [u8; BLOCK_LEN]
    requires { length key.now ≤ BLOCK_LEN }
    ensures { result ≡ key.now ++ replicate (BLOCK_LEN - length key.now) 0 }
{
    let mut block = [0u8; BLOCK_LEN];
    block[..key.len()].copy_from_slice(key);
    block
}

// The key as one block.
#[tactic(auto, unfolding(crate::specs::Hmac::block_key))]
fn block_key(key: &[u8]) -> [u8; BLOCK_LEN]
    ensures { result ≡ block_key key.now }
{
    if key.len() > BLOCK_LEN {
        zero_padded(&Md5::digest(key))
    } else {
        zero_padded(key)
    }
}

// The block with each byte exclusive-ored with `pad`.
fn masked(mut block: [u8; BLOCK_LEN], pad: u8) -> [u8; BLOCK_LEN]
    ensures { result ≡ masked pad block }
{
    for byte in &mut block {
        *byte ^= pad;
    }
    block
}

/// The HMAC of `text` under `key` with MD5 (RFC 2104), in 16 bytes.
///
/// Any lengths are served. A key of more than 64 bytes stands for its MD5 digest.
#[tactic(auto, unfolding(crate::specs::Hmac::hmac))]
pub fn hmac_md5(key: &[u8], text: &[u8]) -> [u8; 16]
    ensures { result ≡ hmac key.now text.now }
{
    let block = block_key(key);
    let inner = Md5::new_with_prefix(masked(block, INNER_PAD))
        .chain_update(text)
        .finalize();
    Md5::new_with_prefix(masked(block, OUTER_PAD))
        .chain_update(inner)
        .finalize()
}
