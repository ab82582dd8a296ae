// What tests expect of a value: one call each, so that what is shown of a failure is proved once.

use agent_talks::Told;
use std::alloc::Global;
use std::fmt::Debug;
use std::process::Abort;
use talks::print_answer;
use wire_base::{Bytes, NoMemory};

/// The test fails here unless the two are equal.
pub fn expect<T: PartialEq + Debug>(rt: &impl Abort, found: &T, wanted: &T) {
    assert_eq!(rt; found, wanted);
}

fn print_told(rt: &impl Abort, told: Option<Told>, out: &mut Bytes) -> Result<(), NoMemory> {
    match told {
        Some(Told::Answer(answer)) => print_answer(&answer, out),
        Some(Told::TooSmall) => panic!(rt; "too small"),
        None => panic!(rt; "no answer"),
    }
}

/// The test fails here unless a read was told this answer.
pub fn expect_told(
    rt: &impl Abort,
    alloc: Global,
    told: Option<Told>,
    wanted: &[u8],
) -> Result<(), NoMemory> {
    let mut out = Bytes::new(alloc);
    print_told(rt, told, &mut out)?;
    expect(rt, &out.as_slice(), &wanted);
    Ok(())
}
