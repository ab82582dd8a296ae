// Replies, read field by field from the left.
ghost use Rattle.std.specs.Prelude.{◌≡◌, ◌<◌, Err, IfOk, Ok, true};
ghost use Rattle.std.specs.Int.{w16};
ghost use Rattle.wire_base.specs.Readers.{Finds, Gives, times, listed};
ghost use Rattle.nine.specs.declared.message.RMsg.{RMsg};
ghost use Rattle.nine.specs.Messages.{r_given, IsReply};
ghost use Rattle.nine.specs.Decoding.{IsFrame, qid_parts_at, qid_at, version_reply_at, auth_reply_at, attach_reply_at, error_reply_at, walk_reply_at, open_reply_at, create_reply_at, read_reply_at, write_reply_at, stat_reply_at, bare_reply_at, r_body_at, r_reading};
ghost use Rattle.nine.specs.Decoded.{Decodes, HasType, r_takes_memory};

use crate::fault::DecodeFault;
use crate::message::{RBody, RMsg};
use crate::qid::{Qid, QidList};
use std::alloc::Global;
use wire_base::{
    BadField, Bytes, CodecFault, block_at, end_at, short_block_at, text_at, u8_at, u16_at, u32_at,
    u64_at,
};

const MOST_QIDS: u16 = 16;

// type[1] vers[4] path[8]
fn qid_parts(frame: &[u8], at: usize) -> Result<(Qid, usize), BadField>
    ensures { Finds (λ x. x) result (qid_parts_at frame.now at) }
{
    let (kind, at) = u8_at(frame, at)?;
    let (vers, at) = u32_at(frame, at)?;
    let (path, at) = u64_at(frame, at)?;
    Ok((Qid { kind, vers, path }, at))
}

// The same, with a fault at its first byte.
#[tactic(auto, unfolding(crate::specs::Decoding::qid_at))]
fn qid(frame: &[u8], at: usize) -> Result<(Qid, usize), BadField>
    ensures { Finds (λ x. x) result (qid_at frame.now at) }
{
    match qid_parts(frame, at) {
        Ok(found) => Ok(found),
        Err(_) => Err(BadField { at }),
    }
}

// So many qids, one behind the other.
fn qids_at(
    alloc: Global,
    count: u16,
    bytes: &[u8],
    at: usize,
) -> Result<(QidList, usize), CodecFault>
    ensures { Gives (λ x. x) result (times qid_at count bytes.now at) }
{
    let mut qids = QidList::new(alloc);
    let mut next = at;
    for _ in 0..count {
        let (qid, after) = qid(bytes, next)?;
        qids.push(qid)?;
        next = after;
    }
    Ok((qids, next))
}

#[tactic(auto, unfolding(wire_base::specs::Readers::listed))]
fn qids(alloc: Global, bytes: &[u8], at: usize) -> Result<(QidList, usize), CodecFault>
    ensures { Gives (λ x. x) result (listed w16 16 qid_at bytes.now at) }
{
    let (count, next) = u16_at(bytes, at)?;
    if count > MOST_QIDS {
        return Err(CodecFault::Bad(BadField { at }));
    }
    qids_at(alloc, count, bytes, next)
}

#[tactic(auto, unfolding(crate::specs::Decoding::version_reply_at))]
fn version(alloc: Global, frame: &[u8], at: usize) -> Result<(RBody, usize), CodecFault>
    ensures { Gives (λ x. x) result (version_reply_at frame.now at) }
{
    let (msize, at) = u32_at(frame, at)?;
    let (version, at) = text_at(alloc, frame, at)?;
    Ok((RBody::Version { msize, version }, at))
}

#[tactic(auto, unfolding(crate::specs::Decoding::auth_reply_at))]
fn auth(frame: &[u8], at: usize) -> Result<(RBody, usize), BadField>
    ensures { Finds (λ x. x) result (auth_reply_at frame.now at) }
{
    let (aqid, at) = qid(frame, at)?;
    Ok((RBody::Auth { aqid }, at))
}

#[tactic(auto, unfolding(crate::specs::Decoding::attach_reply_at))]
fn attach(frame: &[u8], at: usize) -> Result<(RBody, usize), BadField>
    ensures { Finds (λ x. x) result (attach_reply_at frame.now at) }
{
    let (qid, at) = qid(frame, at)?;
    Ok((RBody::Attach { qid }, at))
}

#[tactic(auto, unfolding(crate::specs::Decoding::error_reply_at))]
fn error(alloc: Global, frame: &[u8], at: usize) -> Result<(RBody, usize), CodecFault>
    ensures { Gives (λ x. x) result (error_reply_at frame.now at) }
{
    let (ename, at) = text_at(alloc, frame, at)?;
    Ok((RBody::Error { ename }, at))
}

#[tactic(auto, unfolding(crate::specs::Decoding::walk_reply_at))]
fn walk(alloc: Global, frame: &[u8], at: usize) -> Result<(RBody, usize), CodecFault>
    ensures { Gives (λ x. x) result (walk_reply_at frame.now at) }
{
    let (wqid, at) = qids(alloc, frame, at)?;
    Ok((RBody::Walk { wqid }, at))
}

#[tactic(auto, unfolding(crate::specs::Decoding::open_reply_at))]
fn open(frame: &[u8], at: usize) -> Result<(RBody, usize), BadField>
    ensures { Finds (λ x. x) result (open_reply_at frame.now at) }
{
    let (qid, at) = qid(frame, at)?;
    let (iounit, at) = u32_at(frame, at)?;
    Ok((RBody::Open { qid, iounit }, at))
}

#[tactic(auto, unfolding(crate::specs::Decoding::create_reply_at))]
fn create(frame: &[u8], at: usize) -> Result<(RBody, usize), BadField>
    ensures { Finds (λ x. x) result (create_reply_at frame.now at) }
{
    let (qid, at) = qid(frame, at)?;
    let (iounit, at) = u32_at(frame, at)?;
    Ok((RBody::Create { qid, iounit }, at))
}

#[tactic(auto, unfolding(crate::specs::Decoding::read_reply_at))]
fn read(alloc: Global, frame: &[u8], at: usize) -> Result<(RBody, usize), CodecFault>
    ensures { Gives (λ x. x) result (read_reply_at frame.now at) }
{
    let (content, at) = block_at(frame, at)?;
    let content = Bytes::from_slice(alloc, content)?;
    Ok((RBody::Read { content }, at))
}

#[tactic(auto, unfolding(crate::specs::Decoding::write_reply_at))]
fn write(frame: &[u8], at: usize) -> Result<(RBody, usize), BadField>
    ensures { Finds (λ x. x) result (write_reply_at frame.now at) }
{
    let (count, at) = u32_at(frame, at)?;
    Ok((RBody::Write { count }, at))
}

#[tactic(auto, unfolding(crate::specs::Decoding::stat_reply_at))]
fn stat(alloc: Global, frame: &[u8], at: usize) -> Result<(RBody, usize), CodecFault>
    ensures { Gives (λ x. x) result (stat_reply_at frame.now at) }
{
    let (stat, at) = short_block_at(frame, at)?;
    let stat = Bytes::from_slice(alloc, stat)?;
    Ok((RBody::Stat { stat }, at))
}

// The fields of a reply of this type.
#[tactic(auto, unfolding(crate::specs::Decoding::r_body_at, crate::specs::Decoding::bare_reply_at))]
fn body(alloc: Global, kind: u8, frame: &[u8], at: usize) -> Result<(RBody, usize), CodecFault>
    ensures read { Gives (λ x. x) result (r_body_at kind frame.now at) }
    ensures memory { result ≡ Err CodecFault.NoMemory → r_takes_memory kind ≡ true }
{
    match kind {
        101 => version(alloc, frame, at),
        103 => Ok(auth(frame, at)?),
        105 => Ok(attach(frame, at)?),
        107 => error(alloc, frame, at),
        109 => Ok((RBody::Flush, at)),
        111 => walk(alloc, frame, at),
        113 => Ok(open(frame, at)?),
        115 => Ok(create(frame, at)?),
        117 => read(alloc, frame, at),
        119 => Ok(write(frame, at)?),
        121 => Ok((RBody::Clunk, at)),
        123 => Ok((RBody::Remove, at)),
        125 => stat(alloc, frame, at),
        127 => Ok((RBody::Wstat, at)),
        _ => Err(CodecFault::Bad(BadField { at: 4 })),
    }
}

#[tactic(auto, unfolding(crate::specs::Decoding::r_reading))]
fn reply(alloc: Global, frame: &[u8]) -> Result<RMsg, CodecFault>
    ensures read { Gives (λ x. x) result (r_reading frame.now) }
    ensures memory { result ≡ Err CodecFault.NoMemory → HasType r_takes_memory frame.now }
{
    let (kind, _) = u8_at(frame, 4)?;
    let (tag, _) = u16_at(frame, 5)?;
    let (body, end) = body(alloc, kind, frame, 7)?;
    end_at(frame, end)?;
    Ok(RMsg { tag, body })
}

/// The reply that a frame spells, all of its bytes.
///
/// The frame is whole: it has at least 7 bytes, and its size field is their number.
pub fn decode_r(alloc: Global, frame: &[u8]) -> Result<RMsg, DecodeFault>
    requires { IsFrame frame.now }
    // What is read is spelled by all the bytes.
    ensures found { IfOk result (λ m. IsReply frame.now m) }
    // What is read can be written again.
    ensures given { IfOk result (λ m. r_given m.body) }
    // What is spelled is read, unless memory runs out.
    ensures only { (m : RMsg) → IsReply frame.now m → Decodes result (Ok m) }
    // Which fault it is.
    ensures exact { Decodes result (r_reading frame.now) }
    // Memory is wanted only where a message of the frame's type has a text, bytes or a list.
    ensures memory { result ≡ Err DecodeFault.NoMemory → HasType r_takes_memory frame.now }
{
    match reply(alloc, frame) {
        Ok(message) => Ok(message),
        Err(CodecFault::NoMemory) => Err(DecodeFault::NoMemory),
        Err(CodecFault::Bad(bad)) => Err(DecodeFault::Bad { at: bad.at as u32 }),
    }
}
