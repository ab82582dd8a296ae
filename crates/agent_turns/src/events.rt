// The events by which a node is driven: requests on its one connection.
ghost use Rattle.std.specs.Prelude.{◌≡◌, ◌<◌, ◌^◌, true, length, IfOk};
ghost use Rattle.nine.specs.Messages.{t_frame, t_given};
ghost use Rattle.wire_base.specs.Texts.{is_text};
ghost use Rattle.agent_core.specs.Events.{IsEvent};
ghost use Rattle.agent_turns.specs.Texts.{file_name};
ghost use Rattle.world_history.specs.Driving as driving;
ghost use Rattle.world_history.specs.Driving.{agrees, asking, attaches};

use crate::takes::CONNECTION;
use agent_history::Event;
use nine::{TBody, TMsg, encode_t};
use std::alloc::Global;
use wire_base::{Bytes, NoMemory, Text, TextList};

const NO_TAG: u16 = 65535;

const NO_FID: u32 = 4294967295;

const MOST_MESSAGE: u32 = 8216;

const READ_COUNT: u32 = 8192;

/// A mode in which a file is read and written.
const BOTH_WAYS: u8 = 2;

/// No random word.
const NO_WORD: [u8; 8] = [0; 8];

// A request under a tag, with a random word.
fn asking(alloc: Global, tag: u16, word: [u8; 8], body: TBody) -> Result<Event, NoMemory>
    requires given { t_given body }
    requires short { length (t_frame (record { tag = tag; body = body })) < 2 ^ 32 }
    ensures is { IfOk result (λ event. event ≡ asking tag word body) }
    ensures event { IfOk result (λ event. IsEvent event) }
{
    let mut frame = Bytes::new(alloc);
    encode_t(&TMsg { tag, body }, &mut frame)?;
    Ok(Event::Request {
        conn: CONNECTION,
        frame,
        word,
    })
}

/// Bytes are written by a fid.
pub fn writes(alloc: Global, fid: u32, content: Bytes) -> Result<Event, NoMemory>
    requires { length content < 2 ^ 31 }
    ensures is { IfOk result (λ event. event ≡ driving.writes fid content) }
    ensures event { IfOk result (λ event. IsEvent event) }
{
    let body = TBody::Write {
        fid,
        offset: 0,
        content,
    };
    asking(alloc, 0, NO_WORD, body)
}

/// A fid is read under its own number as the tag, of which a tag has the two low bytes, with a random word.
pub fn reads(alloc: Global, fid: u32, word: [u8; 8]) -> Result<Event, NoMemory>
    ensures is { IfOk result (λ event. event ≡ driving.reads fid word) }
    ensures event { IfOk result (λ event. IsEvent event) }
{
    let body = TBody::Read {
        fid,
        offset: 0,
        count: READ_COUNT,
    };
    asking(alloc, (fid % 65536) as u16, word, body)
}

/// A fid is given up.
pub fn clunks(alloc: Global, fid: u32) -> Result<Event, NoMemory>
    ensures is { IfOk result (λ event. event ≡ driving.clunks fid) }
    ensures event { IfOk result (λ event. IsEvent event) }
{
    asking(alloc, 0, NO_WORD, TBody::Clunk { fid })
}

/// A fid is opened for both.
pub fn opens(alloc: Global, fid: u32) -> Result<Event, NoMemory>
    ensures is { IfOk result (λ event. event ≡ driving.opens fid) }
    ensures event { IfOk result (λ event. IsEvent event) }
{
    let body = TBody::Open {
        fid,
        mode: BOTH_WAYS,
    };
    asking(alloc, 0, NO_WORD, body)
}

// A text that is written out in the code.
fn fixed(alloc: Global, text: &[u8]) -> Result<Text, NoMemory>
    requires { is_text text.now ≡ true }
    ensures { IfOk result (λ made. made ≡ text.now) }
{
    match Text::from_slice(alloc, text)? {
        Some(made) => Ok(made),
        None => unreachable!(),
    }
}

/// The version is agreed on.
pub(crate) fn agrees(alloc: Global) -> Result<Event, NoMemory>
    ensures is { IfOk result (λ event. event ≡ agrees) }
    ensures event { IfOk result (λ event. IsEvent event) }
{
    let body = TBody::Version {
        msize: MOST_MESSAGE,
        version: fixed(alloc, b"9P2000")?,
    };
    asking(alloc, NO_TAG, NO_WORD, body)
}

/// Fid 0 comes to name the root.
pub(crate) fn attaches(alloc: Global) -> Result<Event, NoMemory>
    ensures is { IfOk result (λ event. event ≡ attaches) }
    ensures event { IfOk result (λ event. IsEvent event) }
{
    let body = TBody::Attach {
        fid: 0,
        afid: NO_FID,
        uname: fixed(alloc, b"world")?,
        aname: fixed(alloc, b"")?,
    };
    asking(alloc, 0, NO_WORD, body)
}

/// A file of the agent, by which a node is driven.
#[derive(Clone, Copy, PartialEq, Eq)]
pub enum File {
    Ctl,
    Rpc,
}

// Its name.
fn name_of(alloc: Global, file: File) -> Result<Text, NoMemory>
    ensures { IfOk result (λ name. name ≡ file_name file) }
{
    match file {
        File::Ctl => fixed(alloc, b"ctl"),
        File::Rpc => fixed(alloc, b"rpc"),
    }
}

/// A fid comes to name a file of the agent.
pub fn walks(alloc: Global, fid: u32, file: File) -> Result<Event, NoMemory>
    ensures is { IfOk result (λ event. event ≡ driving.walks fid (file_name file)) }
    ensures event { IfOk result (λ event. IsEvent event) }
{
    let mut wname = TextList::new(alloc);
    wname.push(fixed(alloc, b"factotum")?)?;
    wname.push(name_of(alloc, file)?)?;
    let body = TBody::Walk {
        fid: 0,
        newfid: fid,
        wname,
    };
    asking(alloc, 0, NO_WORD, body)
}
