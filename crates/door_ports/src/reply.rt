// What an agent replies, read off its frame.
ghost use Rattle.std.specs.Prelude.{◌≡◌, ◌<◌, IfOk, option_map};
ghost use Rattle.door_ports.specs.Replies.{silence_of, text_at, told_in};
ghost use Rattle.door_ports.specs.declared.reply.TheConstants.{KIND_AT};

use agent_history::StepAnswer;
use std::alloc::Global;
use wire_base::{Bytes, NoMemory};

/// What a request came to. It has no Debug, as all that is read of an agent.
#[derive(Drop)]
pub enum Reply {
    /// The connection was hung up, or the agent stopped.
    Gone,
    /// There was no reply to take.
    Silent,
    /// It was refused by this text.
    Refused(Bytes),
    /// These bytes were read.
    Read(Bytes),
    /// Anything else: it was done.
    Done,
}

// Where the type of a message stands, and where the text of a refusal and the content of a read begin.
const KIND_AT: usize = 4;

const TEXT_AT: usize = 9;

const CONTENT_AT: usize = 11;

// The types of these two.
const ERROR: u8 = 107;

const READ: u8 = 117;

// What stands behind so many bytes of a frame of this type.
#[tactic(auto, unfolding(crate::specs::Replies::text_at))]
fn text_at(frame: &[u8], kind: u8, skip: usize) -> Option<&[u8]>
    requires { KIND_AT < skip }
    ensures { option_map (λ text. text.now) result ≡ text_at kind skip frame.now }
{
    if frame.len() < skip || frame[KIND_AT] != kind {
        return None;
    }
    let (_, text) = frame.split_at(skip);
    Some(text)
}

/// What a frame tells.
pub(crate) fn read_reply(alloc: Global, frame: &[u8]) -> Result<Reply, NoMemory>
    ensures { IfOk result (λ reply. reply ≡ told_in frame.now) }
{
    if let Some(text) = text_at(frame, ERROR, TEXT_AT) {
        return Ok(Reply::Refused(Bytes::from_slice(alloc, text)?));
    }
    if let Some(content) = text_at(frame, READ, CONTENT_AT) {
        return Ok(Reply::Read(Bytes::from_slice(alloc, content)?));
    }
    Ok(Reply::Done)
}

/// What a take tells that puts out no reply.
pub(crate) fn silence_of(answer: StepAnswer) -> Reply
    ensures { result ≡ silence_of answer }
{
    match answer {
        StepAnswer::Gone => Reply::Gone,
        StepAnswer::Done
        | StepAnswer::Reply
        | StepAnswer::NoReply
        | StepAnswer::Ask { .. }
        | StepAnswer::DropCall { .. }
        | StepAnswer::NoAsk
        | StepAnswer::Stopped => Reply::Silent,
    }
}
