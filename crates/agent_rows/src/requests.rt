// The requests that rows leave to their verbs, and the replies that are wanted to them.
use crate::frames::{frame, put_data};
use crate::tree_files::put_qid;
use crate::unlike::Unlike;
use std::alloc::Global;
use wire_base::{Bytes, put_str, put_u16, put_u32, put_u64};

/// The size that a version is asked for, and agreed on.
const MSIZE: u32 = 8216;

/// How many bytes a read asks for.
const WIDE: u32 = 8192;

const NO_TAG: u16 = 65535;

const NO_FID: u32 = 0xffff_ffff;

/// A request, and the reply that is wanted.
#[derive(Drop)]
pub(crate) struct Exchange {
    pub(crate) request: Bytes,
    pub(crate) reply: Bytes,
}

// A request of this kind and body, and a reply of the next kind.
fn exchanged(
    alloc: Global,
    kind: u8,
    tag: u16,
    asked: &[u8],
    replied: &[u8],
) -> Result<Exchange, Unlike> {
    Ok(Exchange {
        request: frame(alloc, kind, tag, asked)?,
        reply: frame(alloc, kind.saturating_add(1), tag, replied)?,
    })
}

/// A version, which is agreed on.
pub(crate) fn version(alloc: Global) -> Result<Exchange, Unlike> {
    let mut body = Bytes::new(alloc);
    put_u32(MSIZE, &mut body)?;
    put_str(b"9P2000", &mut body)?;
    exchanged(alloc, 100, NO_TAG, body.as_slice(), body.as_slice())
}

/// Fid 0 is attached to the root.
pub(crate) fn attach(alloc: Global) -> Result<Exchange, Unlike> {
    let mut body = Bytes::new(alloc);
    put_u32(0, &mut body)?;
    put_u32(NO_FID, &mut body)?;
    put_str(b"ann", &mut body)?;
    put_str(b"", &mut body)?;
    let mut root = Bytes::new(alloc);
    put_qid(b"/", &mut root)?;
    exchanged(alloc, 104, 1, body.as_slice(), root.as_slice())
}

// The body of a walk from the root to a file of the folder.
fn walk_body(alloc: Global, fid: u32, file: &[u8]) -> Result<Bytes, Unlike> {
    let mut body = Bytes::new(alloc);
    put_u32(0, &mut body)?;
    put_u32(fid, &mut body)?;
    put_u16(2, &mut body)?;
    put_str(b"factotum", &mut body)?;
    if file.len() > 65535 {
        return Err(Unlike::Field);
    }
    put_str(file, &mut body)?;
    Ok(body)
}

/// A walk from fid 0, the root, to a file of the folder.
pub(crate) fn walk(alloc: Global, fid: u32, file: &[u8]) -> Result<Exchange, Unlike> {
    let body = walk_body(alloc, fid, file)?;
    let mut qids = Bytes::new(alloc);
    put_u16(2, &mut qids)?;
    put_qid(b"factotum", &mut qids)?;
    put_qid(file, &mut qids)?;
    exchanged(alloc, 110, 1, body.as_slice(), qids.as_slice())
}

/// A fid that stands at a file is opened.
pub(crate) fn open(alloc: Global, fid: u32, file: &[u8], mode: u8) -> Result<Exchange, Unlike> {
    let mut body = Bytes::new(alloc);
    put_u32(fid, &mut body)?;
    body.push(mode)?;
    let mut opened = Bytes::new(alloc);
    put_qid(file, &mut opened)?;
    put_u32(0, &mut opened)?;
    exchanged(alloc, 112, 1, body.as_slice(), opened.as_slice())
}

/// A text is written whole.
pub(crate) fn write(alloc: Global, fid: u32, text: &[u8]) -> Result<Exchange, Unlike> {
    let size = u32::try_from(text.len()).map_err(|_| Unlike::Field)?;
    let mut body = Bytes::new(alloc);
    put_u32(fid, &mut body)?;
    put_u64(0, &mut body)?;
    put_data(text, &mut body)?;
    exchanged(alloc, 118, 1, body.as_slice(), &size.to_le_bytes())
}

/// As many bytes are read as a read may ask for.
pub(crate) fn read(alloc: Global, fid: u32, tag: u16) -> Result<Bytes, Unlike> {
    let mut body = Bytes::new(alloc);
    put_u32(fid, &mut body)?;
    put_u64(0, &mut body)?;
    put_u32(WIDE, &mut body)?;
    frame(alloc, 116, tag, body.as_slice())
}

/// The reply to a read that has these bytes.
pub(crate) fn read_reply(alloc: Global, tag: u16, text: &[u8]) -> Result<Bytes, Unlike> {
    let mut body = Bytes::new(alloc);
    put_data(text, &mut body)?;
    frame(alloc, 117, tag, body.as_slice())
}
