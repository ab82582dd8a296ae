// What is measured: six frames, three of each direction, read or written in each round. A sum of what comes out keeps
// any of it from being left out.
ghost use Rattle.nine.specs.Decoding.{IsFrame};
ghost use Rattle.nine.specs.Messages.{t_given, r_given};
ghost use Rattle.std.specs.Prelude.{IfSome};

use nine::{RBody, RMsg, TBody, TMsg, decode_r, decode_t, encode_r, encode_t};
use std::alloc::Global;
use wire_base::{Bytes, u32_at};

static REQUESTS: [&[u8]; 3] = [
    b" \x00\x00\x00n\x02\x00\x00\x00\x00\x00\x01\x00\x00\x00\x02\x00\x08\x00factotum\x03\x00ctl",
    b"\x17\x00\x00\x00t\x05\x00\x01\x00\x00\x00\x00\x00\x00\x00\x00\x00\x00\x00\x00 \x00\x00",
    b"8\x00\x00\x00v\x04\x00\x01\x00\x00\x00\x00\x00\x00\x00\x00\x00\x00\x00!\x00\x00\x00key proto=apop user=a !password=b",
];

static REPLIES: [&[u8]; 3] = [
    b"#\x00\x00\x00o\x02\x00\x02\x00\x80\x00\x00\x00\x00\x01\x00\x00\x00\x00\x00\x00\x00\x00\x00\x00\x00\x00\x03\x00\x00\x00\x00\x00\x00\x00",
    b",\x00\x00\x00u\x05\x00!\x00\x00\x00key proto=apop user=a !password?\x0a",
    b"\x0b\x00\x00\x00w\x04\x00!\x00\x00\x00",
];

// The bytes are as many as their size says.
fn check_whole(frame: &[u8]) -> Option<&[u8]>
    ensures { IfSome result (λ whole. IsFrame whole.now) }
{
    match u32_at(frame, 0) {
        Ok((size, 4)) if frame.len() >= 7 && size as usize == frame.len() => Some(frame),
        _ => None,
    }
}

// A number that depends on what was read.
fn t_mark(m: &TMsg) -> u64 {
    let of_body = match &m.body {
        TBody::Walk { fid, newfid, wname } => {
            (*fid as u64) ^ (*newfid as u64) ^ (wname.as_slice().len() as u64)
        }
        TBody::Read { fid, offset, count } => (*fid as u64) ^ *offset ^ (*count as u64),
        TBody::Write {
            fid,
            offset,
            content,
        } => (*fid as u64) ^ *offset ^ (content.len() as u64),
        _ => 0,
    };
    of_body ^ (m.tag as u64)
}

fn r_mark(m: &RMsg) -> u64 {
    let of_body = match &m.body {
        RBody::Walk { wqid } => wqid.as_slice().len() as u64,
        RBody::Read { content } => content.len() as u64,
        RBody::Write { count } => *count as u64,
        _ => 0,
    };
    of_body ^ (m.tag as u64)
}

// The marks of all frames, read once.
fn decode_all(alloc: Global, sum: u64) -> Option<u64> {
    let mut sum = sum;
    for frame in REQUESTS {
        let message = decode_t(alloc, check_whole(frame)?).ok()?;
        sum = sum.wrapping_mul(3).wrapping_add(t_mark(&message));
    }
    for frame in REPLIES {
        let message = decode_r(alloc, check_whole(frame)?).ok()?;
        sum = sum.wrapping_mul(3).wrapping_add(r_mark(&message));
    }
    Some(sum)
}

/// What so many rounds of reading come to. None where a frame is refused or memory runs out.
pub fn decoded_sum(alloc: Global, rounds: u64) -> Option<u64> {
    let mut sum = 0;
    for _ in 0..rounds {
        sum = decode_all(alloc, sum)?;
    }
    Some(sum)
}

// The messages of the frames, in pairs.
fn messages(alloc: Global, number: usize) -> Option<(TMsg, RMsg)>
    ensures { IfSome result (λ pair. t_given pair.0.body × r_given pair.1.body) }
{
    let request = decode_t(alloc, check_whole(REQUESTS.get(number)?)?).ok()?;
    let reply = decode_r(alloc, check_whole(REPLIES.get(number)?)?).ok()?;
    Some((request, reply))
}

// Writes a pair in place of what the output holds, and takes its length and its last byte in.
fn encode_pair(request: &TMsg, reply: &RMsg, out: &mut Bytes, sum: u64) -> Option<u64>
    requires request { t_given request.now.body }
    requires reply { r_given reply.now.body }
{
    out.clear();
    encode_t(request, out).ok()?;
    encode_r(reply, out).ok()?;
    let last = *out.as_slice().last()?;
    Some(
        sum.wrapping_mul(3)
            .wrapping_add(out.len() as u64 ^ last as u64),
    )
}

// So many rounds with one pair.
fn encode_rounds(
    request: &TMsg,
    reply: &RMsg,
    out: &mut Bytes,
    rounds: u64,
    sum: u64,
) -> Option<u64>
    requires request { t_given request.now.body }
    requires reply { r_given reply.now.body }
{
    let mut sum = sum;
    for _ in 0..rounds {
        sum = encode_pair(request, reply, out, sum)?;
    }
    Some(sum)
}

/// What so many rounds of writing come to, those of each pair together. None where memory runs out.
pub fn encoded_sum(alloc: Global, rounds: u64) -> Option<u64> {
    let mut out = Bytes::new(alloc);
    let mut sum = 0;
    for number in 0..3 {
        let (request, reply) = messages(alloc, number)?;
        sum = encode_rounds(&request, &reply, &mut out, rounds, sum)?;
    }
    Some(sum)
}
