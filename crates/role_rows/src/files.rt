// Files that lie where the program runs.
use anyhow::bail;
use std::fs::File;
use wire_streams::{ReadSource, read_whole};

/// How many bytes a file has at most.
const MOST_BYTES: usize = 10_000_000;

/// The bytes of a file.
pub(crate) fn read_file(rt: &HostRuntime, name: Option<&[u8]>) -> anyhow::Result<Vec<u8>> {
    let Some(name) = name else {
        bail!("no file is named");
    };
    let Ok(name) = std::str::from_utf8(name) else {
        bail!("the name of a file is no text");
    };
    match read_whole(
        rt.alloc(),
        MOST_BYTES,
        &mut ReadSource::new(File::open(rt, name)?),
    ) {
        Ok(bytes) => Ok(bytes),
        Err(_) => bail!("a file can't be read"),
    }
}
