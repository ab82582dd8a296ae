// The line of a frame.
ghost use Rattle.std.specs.Prelude.{◌≡◌, ◌++◌, OnOk, OnErr};
ghost use Rattle.nine.specs.Encoded.{Extends};
ghost use Rattle.nine.specs.Decoding.{IsFrame, t_reading, r_reading};
ghost use Rattle.nine_print.specs.Lines.{type_of, tag_of, bad_text, t_line_of, r_line_of, line_of};

use crate::reply::put_reply;
use crate::request::put_request;
use crate::value::{put_number, put_tag};
use nine::{DecodeFault, decode_r, decode_t};
use std::alloc::Global;
use wire_base::{Bytes, NoMemory, u8_at, u16_at};

fn type_of(frame: &[u8]) -> u8
    ensures { result ≡ type_of frame.now }
{
    match u8_at(frame, 4) {
        Ok((byte, _)) => byte,
        Err(_) => 0,
    }
}

fn tag_of(frame: &[u8]) -> u16
    ensures { result ≡ tag_of frame.now }
{
    match u16_at(frame, 5) {
        Ok((tag, _)) => tag,
        Err(_) => 0,
    }
}

// The line of a frame of this type and tag that has its first fault there.
fn put_bad(
    alloc: Global,
    at: u64,
    kind: u8,
    tag: u16,
    fault: u32,
    out: &mut Bytes,
) -> Result<(), NoMemory>
    ensures ok { OnOk result (out.new ≡ out.old ++ bad_text at kind tag fault) }
    ensures err { OnErr result (Extends out.old out.new) }
{
    put_number(alloc, b"bad message: type ", kind as u64, out)?;
    put_tag(alloc, tag, out)?;
    put_number(alloc, b" fault at ", fault as u64, out)?;
    put_number(alloc, b" of the frame at ", at, out)?;
    out.push(b'\n')
}

fn put_request_at(
    alloc: Global,
    secrets: bool,
    at: u64,
    frame: &[u8],
    out: &mut Bytes,
) -> Result<(), NoMemory>
    requires { IsFrame frame.now }
    ensures ok { OnOk result (out.new ≡ out.old ++ t_line_of secrets at frame.now (t_reading frame.now)) }
    ensures err { OnErr result (Extends out.old out.new) }
{
    match decode_t(alloc, frame) {
        Ok(message) => put_request(alloc, secrets, &message, out),
        Err(DecodeFault::Bad { at: fault }) => put_bad(
            alloc,
            at,
            type_of(frame),
            tag_of(frame),
            fault,
            out,
        ),
        Err(DecodeFault::NoMemory) => Err(NoMemory),
    }
}

fn put_reply_at(
    alloc: Global,
    secrets: bool,
    at: u64,
    frame: &[u8],
    out: &mut Bytes,
) -> Result<(), NoMemory>
    requires { IsFrame frame.now }
    ensures ok { OnOk result (out.new ≡ out.old ++ r_line_of secrets at frame.now (r_reading frame.now)) }
    ensures err { OnErr result (Extends out.old out.new) }
{
    match decode_r(alloc, frame) {
        Ok(message) => put_reply(alloc, secrets, &message, out),
        Err(DecodeFault::Bad { at: fault }) => put_bad(
            alloc,
            at,
            type_of(frame),
            tag_of(frame),
            fault,
            out,
        ),
        Err(DecodeFault::NoMemory) => Err(NoMemory),
    }
}

#[tactic(auto, unfolding(crate::specs::Lines::line_of))]
fn append_line(
    alloc: Global,
    secrets: bool,
    at: u64,
    frame: &[u8],
    out: &mut Bytes,
) -> Result<(), NoMemory>
    requires { IsFrame frame.now }
    ensures ok { OnOk result (out.new ≡ out.old ++ line_of secrets at frame.now) }
    ensures err { OnErr result (Extends out.old out.new) }
{
    if type_of(frame) & 1 == 0 {
        put_request_at(alloc, secrets, at, frame, out)
    } else {
        put_reply_at(alloc, secrets, at, frame, out)
    }
}

/// Appends the line of a whole frame that begins at this place of a stream, with secrets or without.
///
/// It is the line of the message that the frame is, of the direction that its type byte tells, or tells the place of
/// the first fault.
pub fn put_line(
    alloc: Global,
    secrets: bool,
    at: u64,
    frame: &[u8],
    out: &mut Bytes,
) -> Result<(), NoMemory>
    requires { IsFrame frame.now }
    ensures ok { OnOk result (out.new ≡ out.old ++ line_of secrets at frame.now) }
    ensures err { OnErr result (out.new ≡ out.old) }
{
    let before = out.len();
    let done = append_line(alloc, secrets, at, frame, out);
    out.undo_on_err(before, done)
}
