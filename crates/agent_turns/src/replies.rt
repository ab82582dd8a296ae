// What replies say, by their frames.
ghost use Rattle.std.specs.Prelude.{◌≡◌, ◌∷◌, ◌++◌, ◌+◌, [], OnOk, IfOk};
ghost use Rattle.agent_turns.specs.Frames.{all_frame_steps, frame_steps, are_taken, told_frames};
ghost use Rattle.world_history.specs.Talking.{answer_steps, is_out, leaves_untaken};

use crate::driven_replies::{content_in, error_in};
use crate::steps::{next, put_out, put_refused, put_reply};
use std::alloc::Global;
use wire_base::{Bytes, NoMemory};
use wire_histories::Step;

// An answer to what was given that says that it wasn't taken.
#[tactic(auto, unfolding(world_history::specs::Talking::leaves_untaken))]
fn leaves_untaken(text: &[u8]) -> bool
    ensures { result ≡ leaves_untaken text.now }
{
    text.starts_with(b"phase ")
        || (text == b"protocol not started".as_slice()
            || (text.starts_with(b"toosmall ")
                || (text == b"error message too long".as_slice()
                    || (text.starts_with(b"needkey ")
                        || text == b"error confirmation denied".as_slice()))))
}

// Whether an answer, if it is one, says that what was given was taken.
fn says_taken(frame: &[u8]) -> bool
    ensures { result ≡ are_taken (frame.now ∷ []) }
{
    match content_in(frame) {
        Some(text) => !leaves_untaken(text),
        None => false,
    }
}

/// Whether what was given was taken: the read waits for its answer, or the answer doesn't say otherwise.
pub(crate) fn are_taken(frames: &[Bytes]) -> bool
    ensures { result ≡ are_taken frames.now }
{
    match frames {
        [] => true,
        [frame, ..] => says_taken(frame.as_slice()),
    }
}

// An answer, and the number of the next message behind it.
#[tactic(auto, unfolding(world_history::specs::Talking::answer_steps))]
fn put_answer(
    alloc: Global,
    number: u32,
    conv: &[u8],
    broke: bool,
    text: &[u8],
    steps: &mut Vec<Step>,
) -> Result<u32, NoMemory>
    ensures steps { OnOk result (steps.new.items
        ≡ steps.old.items ++ answer_steps number conv.now broke text.now) }
    ensures next { IfOk result (λ more. more
        ≡ number + is_out (answer_steps number conv.now broke text.now)) }
{
    if text == b"ok".as_slice() {
        return Ok(number);
    }
    if let Some(bytes) = text.strip_prefix(b"ok ".as_slice()) {
        put_out(alloc, number, conv, bytes, steps)?;
        return next(number);
    }
    if broke {
        return Ok(number);
    }
    put_reply(alloc, conv, text, steps)?;
    Ok(number)
}

// A reply, and the number of the next message behind it.
fn put_frame(
    alloc: Global,
    number: u32,
    conv: &[u8],
    broke: bool,
    frame: &[u8],
    steps: &mut Vec<Step>,
) -> Result<u32, NoMemory>
    ensures steps { OnOk result (steps.new.items
        ≡ steps.old.items ++ frame_steps number conv.now broke frame.now) }
    ensures next { IfOk result (λ more. more
        ≡ number + is_out (frame_steps number conv.now broke frame.now)) }
{
    if let Some(text) = content_in(frame) {
        return put_answer(alloc, number, conv, broke, text, steps);
    }
    if let Some(text) = error_in(frame) {
        put_reply(alloc, conv, text, steps)?;
    }
    Ok(number)
}

/// Replies, from a message on.
pub(crate) fn put_frames(
    alloc: Global,
    number: u32,
    conv: &[u8],
    broke: bool,
    frames: &[Bytes],
    steps: &mut Vec<Step>,
) -> Result<(), NoMemory>
    ensures { OnOk result (steps.new.items
        ≡ steps.old.items ++ all_frame_steps number conv.now broke frames.now) }
{
    let mut at = number;
    for frame in frames {
        at = put_frame(alloc, at, conv, broke, frame.as_slice(), steps)?;
    }
    Ok(())
}

// A reply on ctl.
fn put_told(alloc: Global, node: &[u8], frame: &[u8], steps: &mut Vec<Step>) -> Result<(), NoMemory>
    ensures { OnOk result (steps.new.items
        ≡ steps.old.items ++ told_frames node.now (frame.now ∷ [])) }
{
    match error_in(frame) {
        Some(text) => put_refused(alloc, node, text, steps),
        None => Ok(()),
    }
}

/// Replies on ctl.
pub(crate) fn put_all_told(
    alloc: Global,
    node: &[u8],
    frames: &[Bytes],
    steps: &mut Vec<Step>,
) -> Result<(), NoMemory>
    ensures { OnOk result (steps.new.items
        ≡ steps.old.items ++ told_frames node.now frames.now) }
{
    for frame in frames {
        put_told(alloc, node, frame.as_slice(), steps)?;
    }
    Ok(())
}
