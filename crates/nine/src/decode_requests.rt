// Requests, read field by field from the left.
ghost use Rattle.std.specs.Prelude.{◌≡◌, ◌<◌, Err, IfOk, Ok, true};
ghost use Rattle.std.specs.Int.{w16};
ghost use Rattle.wire_base.specs.Readers.{Finds, Gives, string, times, listed};
ghost use Rattle.nine.specs.declared.message.TMsg.{TMsg};
ghost use Rattle.nine.specs.Messages.{t_given, IsRequest};
ghost use Rattle.nine.specs.Decoding.{IsFrame, version_at, auth_at, attach_at, flush_at, walk_at, open_at, create_at, read_at, write_at, clunk_at, remove_at, stat_at, wstat_at, t_body_at, t_reading};
ghost use Rattle.nine.specs.Decoded.{Decodes, HasType, t_takes_memory};

use crate::fault::DecodeFault;
use crate::message::{TBody, TMsg};
use std::alloc::Global;
use wire_base::{
    BadField, Bytes, CodecFault, TextList, block_at, end_at, short_block_at, text_at, u8_at,
    u16_at, u32_at, u64_at,
};

const MOST_NAMES: u16 = 16;

// So many strings, one behind the other.
fn texts_at(
    alloc: Global,
    count: u16,
    bytes: &[u8],
    at: usize,
) -> Result<(TextList, usize), CodecFault>
    ensures { Gives (λ x. x) result (times string count bytes.now at) }
{
    let mut texts = TextList::new(alloc);
    let mut next = at;
    for _ in 0..count {
        let (text, after) = text_at(alloc, bytes, next)?;
        texts.push(text)?;
        next = after;
    }
    Ok((texts, next))
}

#[tactic(auto, unfolding(wire_base::specs::Readers::listed))]
fn names(alloc: Global, bytes: &[u8], at: usize) -> Result<(TextList, usize), CodecFault>
    ensures { Gives (λ x. x) result (listed w16 16 string bytes.now at) }
{
    let (count, next) = u16_at(bytes, at)?;
    if count > MOST_NAMES {
        return Err(CodecFault::Bad(BadField { at }));
    }
    texts_at(alloc, count, bytes, next)
}

#[tactic(auto, unfolding(crate::specs::Decoding::version_at))]
fn version(alloc: Global, frame: &[u8], at: usize) -> Result<(TBody, usize), CodecFault>
    ensures { Gives (λ x. x) result (version_at frame.now at) }
{
    let (msize, at) = u32_at(frame, at)?;
    let (version, at) = text_at(alloc, frame, at)?;
    Ok((TBody::Version { msize, version }, at))
}

#[tactic(auto, unfolding(crate::specs::Decoding::auth_at))]
fn auth(alloc: Global, frame: &[u8], at: usize) -> Result<(TBody, usize), CodecFault>
    ensures { Gives (λ x. x) result (auth_at frame.now at) }
{
    let (afid, at) = u32_at(frame, at)?;
    let (uname, at) = text_at(alloc, frame, at)?;
    let (aname, at) = text_at(alloc, frame, at)?;
    Ok((TBody::Auth { afid, uname, aname }, at))
}

#[tactic(auto, unfolding(crate::specs::Decoding::attach_at))]
fn attach(alloc: Global, frame: &[u8], at: usize) -> Result<(TBody, usize), CodecFault>
    ensures { Gives (λ x. x) result (attach_at frame.now at) }
{
    let (fid, at) = u32_at(frame, at)?;
    let (afid, at) = u32_at(frame, at)?;
    let (uname, at) = text_at(alloc, frame, at)?;
    let (aname, at) = text_at(alloc, frame, at)?;
    let body = TBody::Attach {
        fid,
        afid,
        uname,
        aname,
    };
    Ok((body, at))
}

#[tactic(auto, unfolding(crate::specs::Decoding::flush_at))]
fn flush(frame: &[u8], at: usize) -> Result<(TBody, usize), BadField>
    ensures { Finds (λ x. x) result (flush_at frame.now at) }
{
    let (oldtag, at) = u16_at(frame, at)?;
    Ok((TBody::Flush { oldtag }, at))
}

#[tactic(auto, unfolding(crate::specs::Decoding::walk_at))]
fn walk(alloc: Global, frame: &[u8], at: usize) -> Result<(TBody, usize), CodecFault>
    ensures { Gives (λ x. x) result (walk_at frame.now at) }
{
    let (fid, at) = u32_at(frame, at)?;
    let (newfid, at) = u32_at(frame, at)?;
    let (wname, at) = names(alloc, frame, at)?;
    Ok((TBody::Walk { fid, newfid, wname }, at))
}

#[tactic(auto, unfolding(crate::specs::Decoding::open_at))]
fn open(frame: &[u8], at: usize) -> Result<(TBody, usize), BadField>
    ensures { Finds (λ x. x) result (open_at frame.now at) }
{
    let (fid, at) = u32_at(frame, at)?;
    let (mode, at) = u8_at(frame, at)?;
    Ok((TBody::Open { fid, mode }, at))
}

#[tactic(auto, unfolding(crate::specs::Decoding::create_at))]
fn create(alloc: Global, frame: &[u8], at: usize) -> Result<(TBody, usize), CodecFault>
    ensures { Gives (λ x. x) result (create_at frame.now at) }
{
    let (fid, at) = u32_at(frame, at)?;
    let (name, at) = text_at(alloc, frame, at)?;
    let (perm, at) = u32_at(frame, at)?;
    let (mode, at) = u8_at(frame, at)?;
    let body = TBody::Create {
        fid,
        name,
        perm,
        mode,
    };
    Ok((body, at))
}

#[tactic(auto, unfolding(crate::specs::Decoding::read_at))]
fn read(frame: &[u8], at: usize) -> Result<(TBody, usize), BadField>
    ensures { Finds (λ x. x) result (read_at frame.now at) }
{
    let (fid, at) = u32_at(frame, at)?;
    let (offset, at) = u64_at(frame, at)?;
    let (count, at) = u32_at(frame, at)?;
    Ok((TBody::Read { fid, offset, count }, at))
}

#[tactic(auto, unfolding(crate::specs::Decoding::write_at))]
fn write(alloc: Global, frame: &[u8], at: usize) -> Result<(TBody, usize), CodecFault>
    ensures { Gives (λ x. x) result (write_at frame.now at) }
{
    let (fid, at) = u32_at(frame, at)?;
    let (offset, at) = u64_at(frame, at)?;
    let (content, at) = block_at(frame, at)?;
    let content = Bytes::from_slice(alloc, content)?;
    let body = TBody::Write {
        fid,
        offset,
        content,
    };
    Ok((body, at))
}

#[tactic(auto, unfolding(crate::specs::Decoding::clunk_at))]
fn clunk(frame: &[u8], at: usize) -> Result<(TBody, usize), BadField>
    ensures { Finds (λ x. x) result (clunk_at frame.now at) }
{
    let (fid, at) = u32_at(frame, at)?;
    Ok((TBody::Clunk { fid }, at))
}

#[tactic(auto, unfolding(crate::specs::Decoding::remove_at))]
fn remove(frame: &[u8], at: usize) -> Result<(TBody, usize), BadField>
    ensures { Finds (λ x. x) result (remove_at frame.now at) }
{
    let (fid, at) = u32_at(frame, at)?;
    Ok((TBody::Remove { fid }, at))
}

#[tactic(auto, unfolding(crate::specs::Decoding::stat_at))]
fn stat(frame: &[u8], at: usize) -> Result<(TBody, usize), BadField>
    ensures { Finds (λ x. x) result (stat_at frame.now at) }
{
    let (fid, at) = u32_at(frame, at)?;
    Ok((TBody::Stat { fid }, at))
}

#[tactic(auto, unfolding(crate::specs::Decoding::wstat_at))]
fn wstat(alloc: Global, frame: &[u8], at: usize) -> Result<(TBody, usize), CodecFault>
    ensures { Gives (λ x. x) result (wstat_at frame.now at) }
{
    let (fid, at) = u32_at(frame, at)?;
    let (stat, at) = short_block_at(frame, at)?;
    let stat = Bytes::from_slice(alloc, stat)?;
    Ok((TBody::Wstat { fid, stat }, at))
}

// The fields of a request of this type.
#[tactic(auto, unfolding(crate::specs::Decoding::t_body_at))]
fn body(alloc: Global, kind: u8, frame: &[u8], at: usize) -> Result<(TBody, usize), CodecFault>
    ensures read { Gives (λ x. x) result (t_body_at kind frame.now at) }
    ensures memory { result ≡ Err CodecFault.NoMemory → t_takes_memory kind ≡ true }
{
    match kind {
        100 => version(alloc, frame, at),
        102 => auth(alloc, frame, at),
        104 => attach(alloc, frame, at),
        108 => Ok(flush(frame, at)?),
        110 => walk(alloc, frame, at),
        112 => Ok(open(frame, at)?),
        114 => create(alloc, frame, at),
        116 => Ok(read(frame, at)?),
        118 => write(alloc, frame, at),
        120 => Ok(clunk(frame, at)?),
        122 => Ok(remove(frame, at)?),
        124 => Ok(stat(frame, at)?),
        126 => wstat(alloc, frame, at),
        _ => Err(CodecFault::Bad(BadField { at: 4 })),
    }
}

#[tactic(auto, unfolding(crate::specs::Decoding::t_reading))]
fn request(alloc: Global, frame: &[u8]) -> Result<TMsg, CodecFault>
    ensures read { Gives (λ x. x) result (t_reading frame.now) }
    ensures memory { result ≡ Err CodecFault.NoMemory → HasType t_takes_memory frame.now }
{
    let (kind, _) = u8_at(frame, 4)?;
    let (tag, _) = u16_at(frame, 5)?;
    let (body, end) = body(alloc, kind, frame, 7)?;
    end_at(frame, end)?;
    Ok(TMsg { tag, body })
}

/// The request that a frame spells, all of its bytes.
///
/// The frame is whole: it has at least 7 bytes, and its size field is their number.
pub fn decode_t(alloc: Global, frame: &[u8]) -> Result<TMsg, DecodeFault>
    requires { IsFrame frame.now }
    // What is read is spelled by all the bytes.
    ensures found { IfOk result (λ m. IsRequest frame.now m) }
    // What is read can be written again.
    ensures given { IfOk result (λ m. t_given m.body) }
    // What is spelled is read, unless memory runs out.
    ensures only { (m : TMsg) → IsRequest frame.now m → Decodes result (Ok m) }
    // Which fault it is.
    ensures exact { Decodes result (t_reading frame.now) }
    // Memory is wanted only where a message of the frame's type has a text, bytes or a list.
    ensures memory { result ≡ Err DecodeFault.NoMemory → HasType t_takes_memory frame.now }
{
    match request(alloc, frame) {
        Ok(message) => Ok(message),
        Err(CodecFault::NoMemory) => Err(DecodeFault::NoMemory),
        Err(CodecFault::Bad(bad)) => Err(DecodeFault::Bad { at: bad.at as u32 }),
    }
}
