// The frames of a port's requests.
ghost use Rattle.std.specs.Prelude.{◌≡◌, ◌<◌, ◌^◌, true, length, IfOk};
ghost use Rattle.wire_base.specs.Texts.{is_text};
ghost use Rattle.nine.specs.Messages.{t_frame, t_given};
ghost use Rattle.nine.specs.Decoding.{IsFrame};
ghost use Rattle.door_ports.specs.Exchanges as exchanges;
ghost use Rattle.door_ports.specs.Exchanges.{under};
ghost use Rattle.door_ports.specs.Files.{file_name};

use nine::{TBody, TMsg, encode_t};
use std::alloc::Global;
use wire_base::{Bytes, NoMemory, Text, TextList};

const NO_TAG: u16 = 65535;

const NO_FID: u32 = 4294967295;

const MOST_MESSAGE: u32 = 8216;

const READ_COUNT: u32 = 8192;

/// A mode in which a file is read and written.
const BOTH_WAYS: u8 = 2;

// A request under a tag.
fn under(alloc: Global, tag: u16, body: TBody) -> Result<Bytes, NoMemory>
    requires given { t_given body }
    requires short { length (t_frame (record { tag = tag; body = body })) < 2 ^ 32 }
    ensures is { IfOk result (λ frame. frame ≡ under tag body) }
    ensures frame { IfOk result (λ frame. IsFrame frame) }
{
    let mut frame = Bytes::new(alloc);
    encode_t(&TMsg { tag, body }, &mut frame)?;
    Ok(frame)
}

/// Bytes are written by a fid.
pub(crate) fn writes(alloc: Global, fid: u32, content: Bytes) -> Result<Bytes, NoMemory>
    requires { length content < 2 ^ 31 }
    ensures is { IfOk result (λ frame. frame ≡ exchanges.writes fid content) }
    ensures frame { IfOk result (λ frame. IsFrame frame) }
{
    let body = TBody::Write {
        fid,
        offset: 0,
        content,
    };
    under(alloc, 0, body)
}

/// A fid is read under its own number as the tag, of which a tag has the two low bytes.
pub(crate) fn reads(alloc: Global, fid: u32) -> Result<Bytes, NoMemory>
    ensures is { IfOk result (λ frame. frame ≡ exchanges.reads fid) }
    ensures frame { IfOk result (λ frame. IsFrame frame) }
{
    let body = TBody::Read {
        fid,
        offset: 0,
        count: READ_COUNT,
    };
    under(alloc, (fid % 65536) as u16, body)
}

/// A fid is given up.
pub(crate) fn clunks(alloc: Global, fid: u32) -> Result<Bytes, NoMemory>
    ensures is { IfOk result (λ frame. frame ≡ exchanges.clunks fid) }
    ensures frame { IfOk result (λ frame. IsFrame frame) }
{
    under(alloc, 0, TBody::Clunk { fid })
}

/// A fid is opened for both.
pub(crate) fn opens(alloc: Global, fid: u32) -> Result<Bytes, NoMemory>
    ensures is { IfOk result (λ frame. frame ≡ exchanges.opens fid) }
    ensures frame { IfOk result (λ frame. IsFrame frame) }
{
    let body = TBody::Open {
        fid,
        mode: BOTH_WAYS,
    };
    under(alloc, 0, body)
}

// A text that is written out in the code.
fn fixed(alloc: Global, text: &[u8]) -> Result<Text, NoMemory>
    requires { is_text text.now ≡ true }
    ensures { IfOk result (λ made. made ≡ text.now) }
{
    match Text::from_slice(alloc, text)? {
        Some(made) => Ok(made),
        None => unreachable!(),
    }
}

/// The version is agreed on.
pub(crate) fn agrees(alloc: Global) -> Result<Bytes, NoMemory>
    ensures is { IfOk result (λ frame. frame ≡ exchanges.agrees) }
    ensures frame { IfOk result (λ frame. IsFrame frame) }
{
    let body = TBody::Version {
        msize: MOST_MESSAGE,
        version: fixed(alloc, b"9P2000")?,
    };
    under(alloc, NO_TAG, body)
}

/// Fid 0 comes to name the root.
pub(crate) fn attaches(alloc: Global) -> Result<Bytes, NoMemory>
    ensures is { IfOk result (λ frame. frame ≡ exchanges.attaches) }
    ensures frame { IfOk result (λ frame. IsFrame frame) }
{
    let body = TBody::Attach {
        fid: 0,
        afid: NO_FID,
        uname: fixed(alloc, b"world")?,
        aname: fixed(alloc, b"")?,
    };
    under(alloc, 0, body)
}

/// A file of the agent that a port opens.
#[derive(Clone, Copy, PartialEq, Eq)]
pub enum File {
    Ctl,
    Rpc,
}

// Its name.
fn name_of(alloc: Global, file: File) -> Result<Text, NoMemory>
    ensures { IfOk result (λ name. name ≡ file_name file) }
{
    match file {
        File::Ctl => fixed(alloc, b"ctl"),
        File::Rpc => fixed(alloc, b"rpc"),
    }
}

/// A fid comes to name a file of the agent.
pub(crate) fn walks(alloc: Global, fid: u32, file: File) -> Result<Bytes, NoMemory>
    ensures is { IfOk result (λ frame. frame ≡ exchanges.walks fid (file_name file)) }
    ensures frame { IfOk result (λ frame. IsFrame frame) }
{
    let mut wname = TextList::new(alloc);
    wname.push(fixed(alloc, b"factotum")?)?;
    wname.push(name_of(alloc, file)?)?;
    let body = TBody::Walk {
        fid: 0,
        newfid: fid,
        wname,
    };
    under(alloc, 0, body)
}
