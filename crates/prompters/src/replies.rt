// What a reply says: to which request it belongs, whether it refuses it, and the question that it holds.
ghost use Rattle.std.specs.Prelude.{◌≡◌, IfOk, drop};
ghost use Rattle.prompters.specs.Replies.{file_read, has_tag, is_kind, is_refusal, question_read, refuses_by};

use side_files::{PromptKind, Question, parse_question};
use std::alloc::Global;
use wire_base::{NoMemory, get_str, get_u16, u8_at};

/// What a read is refused by, where the line is longer than what it asks for.
pub const TOO_SMALL: &[u8; 14] = b"read too small";

/// Whether a reply has this tag.
pub fn has_tag(tag: u16, reply: &[u8]) -> bool
    ensures { result ≡ has_tag tag reply.now }
{
    match get_u16(reply, 5) {
        Some(found) => found == tag,
        None => false,
    }
}

fn is_kind(kind: u8, reply: &[u8]) -> bool
    ensures { result ≡ is_kind kind reply.now }
{
    match u8_at(reply, 4) {
        Ok((found, _)) => found == kind,
        Err(_) => false,
    }
}

/// Whether a reply refuses its request.
pub fn is_refusal(reply: &[u8]) -> bool
    ensures { result ≡ is_refusal reply.now }
{
    is_kind(107, reply)
}

/// Whether a reply refuses its request by this text.
pub fn is_refused_by(text: &[u8], reply: &[u8]) -> bool
    ensures { result ≡ refuses_by text.now reply.now }
{
    if !is_refusal(reply) {
        return false;
    }
    match get_str(reply, 7) {
        Some(found) => found == text,
        None => false,
    }
}

/// The file whose read this is the reply to, if it is one.
pub fn file_read(reply: &[u8]) -> Option<PromptKind>
    ensures { result ≡ file_read reply.now }
{
    if has_tag(1, reply) {
        Some(PromptKind::Confirm)
    } else if has_tag(2, reply) {
        Some(PromptKind::Needkey)
    } else {
        None
    }
}

/// The question that the reply to a read holds. None exactly where it holds none.
pub fn question_read(alloc: Global, reply: &[u8]) -> Result<Option<Question>, NoMemory>
    ensures { IfOk result (λ question. question ≡ question_read reply.now) }
{
    if is_kind(117, reply) {
        parse_question(alloc, content_of(reply))
    } else {
        Ok(None)
    }
}

// The content that a read brings.
fn content_of(reply: &[u8]) -> &[u8]
    ensures { result.now ≡ drop 11 reply.now }
{
    if reply.len() > 11 {
        reply.split_at(11).1
    } else {
        b"".as_slice()
    }
}
