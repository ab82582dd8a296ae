// Reads of a source that is read ahead, by what they give.
use crate::{Got, MemSource, ReadAhead, Source};
use std::test::Fail;

// Twenty bytes in a room of eight, of which the second read fails once.
#[test]
fn gives_what_the_other_gives(rt: HostRuntime) -> Result<(), Fail> {
    let alloc = rt.alloc();
    let content = Vec::from_slice(alloc, b"abcdefghijklmnopqrst")?;
    let fails = Vec::from_slice(alloc, &[2])?;
    let mut source = ReadAhead::new(alloc, 8, MemSource::new(content, fails)).map_err(
        |_| "out of memory",
    )?;
    let mut out = [b'-'; 5];
    for (want, text) in [
        (Got::Bytes(5), b"abcde"),
        (Got::Bytes(3), b"fghde"),
        (Got::Failed, b"fghde"),
        (Got::Bytes(5), b"ijklm"),
        (Got::Bytes(3), b"noplm"),
        (Got::Bytes(4), b"qrstm"),
        (Got::End, b"qrstm"),
        (Got::End, b"qrstm"),
    ] {
        assert_eq!(&rt; source.read(&mut out), want);
        assert_eq!(&rt; &out, text);
    }
    Ok(())
}
