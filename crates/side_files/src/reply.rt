// What is written to a file of questions.
ghost use Rattle.std.specs.Prelude.{◌≡◌, IfOk, Ok};
ghost use Rattle.side_files.specs.Replies.{agrees, replies, reply_of, tag_among};

use crate::question::{number_in, without_newline};
use attr_tuples::{Attr, Tuple, TupleFault, is_named, parse_tuple, value_of};
use std::alloc::Global;
use wire_base::NoMemory;

/// A reply to a question.
#[derive(Clone, Copy, Debug, PartialEq, Eq)]
pub struct Reply {
    /// The tag of the question.
    pub tag: u64,
    /// Whether it is agreed that a key be used. A question for a key takes any reply.
    pub agrees: bool,
}

/// Reads a reply: a tuple whose first attribute named `tag` gives a decimal number below 2^64. It agrees where the first value
/// of `answer` is `yes`. One newline at its end counts for nothing. None exactly where the text isn't so.
#[tactic(auto, unfolding(crate::specs::Replies::reply_of))]
pub fn parse_reply(alloc: Global, text: &[u8]) -> Result<Option<Reply>, NoMemory>
    ensures { IfOk result (λ reply. reply ≡ reply_of text.now) }
{
    match parse_tuple(alloc, without_newline(text)) {
        Ok(tuple) => Ok(read_reply(&tuple)),
        Err(TupleFault::NotText { .. }) => Ok(None),
        Err(TupleFault::Quote { .. }) => Ok(None),
        Err(TupleFault::Name { .. }) => Ok(None),
        Err(TupleFault::TooMany) => Ok(None),
        Err(TupleFault::NoMemory) => Err(NoMemory),
    }
}

fn read_reply(tuple: &Tuple) -> Option<Reply>
    ensures { result ≡ replies (Ok tuple.now) }
{
    match find_tag(tuple.attrs()) {
        Some(tag) => Some(Reply {
            tag,
            agrees: check_agrees(tuple),
        }),
        None => None,
    }
}

fn check_agrees(tuple: &Tuple) -> bool
    ensures { result ≡ agrees tuple.now }
{
    match value_of(tuple, b"answer".as_slice()) {
        Some(text) => text.as_slice() == b"yes".as_slice(),
        None => false,
    }
}

// The number that the first attribute named `tag` gives.
fn find_tag(attrs: &[Attr]) -> Option<u64>
    ensures { result ≡ tag_among attrs.now }
{
    for attr in attrs {
        if is_named(attr, b"tag".as_slice()) {
            return number_in(&attr.value);
        }
    }
    None
}
