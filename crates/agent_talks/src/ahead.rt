// What is seen of a conversation before and behind what it meets, and the line of its start.
ghost use Rattle.std.specs.Prelude.{◌≡◌, List, false, true, is_some, IfOk, Some};
ghost use Rattle.talks.specs.Lines.{is_end};
ghost use Rattle.talks.specs.Standings.{outcome_of};
ghost use Rattle.agent_history.specs.Deeds.{Deed};
ghost use Rattle.agent_talks.specs.Speaks.{Speak, stands};
ghost use Rattle.agent_talks.specs.Ahead.{ShowsOf, new_template, start_by};
ghost use Rattle.conversations.specs.Asking.{template_begun};
ghost use Rattle.conversations.specs.Fits.{Shows};

use crate::Talks;
use crate::end_line::build_start;
use attr_tuples::Tuple;
use conversations::{Conversation, read_template};
use roles::Outcome;
use std::alloc::Global;
use wire_base::{Bytes, NoMemory};

// How a conversation that stands stands as to its end; None where it hasn't started. It takes no memory.
pub(crate) fn outcome_at(talks: &Talks, conv: u64) -> Option<Outcome>
    ensures { ShowsOf talks.now conv outcome_of result }
{
    match talks.conversation(conv) {
        Some(conversation) => conversation.outcome(),
        None => None,
    }
}

// Whether it has come to its end. It takes no memory.
pub(crate) fn is_over_at(talks: &Talks, conv: u64) -> bool
    ensures { ShowsOf talks.now conv (λ s. is_end (outcome_of s)) result }
{
    is_end(outcome_at(talks, conv))
}

fn is_end(outcome: Option<Outcome>) -> bool
    ensures { result ≡ is_end outcome }
{
    match outcome {
        None | Some(Outcome::Running) => false,
        Some(Outcome::Accepted(_)) => true,
        Some(Outcome::Finished) => true,
        Some(Outcome::Broken(_)) => true,
    }
}

// The template by which a conversation that stands is to start, where it wasn't started and its request is a start.
pub(crate) fn read_start(alloc: Global, talks: &Talks, conv: u64) -> Result<Option<Tuple>, NoMemory>
    ensures { IfOk result (λ template. ShowsOf talks.now conv new_template template) }
{
    match talks.conversation(conv) {
        Some(conversation) => read_new(alloc, conversation),
        None => Ok(None),
    }
}

fn read_new(alloc: Global, conversation: &Conversation) -> Result<Option<Tuple>, NoMemory>
    ensures { IfOk result (λ template. Shows conversation.now new_template template) }
{
    if conversation.start_template().is_some() {
        return Ok(None);
    }
    match conversation.start_text() {
        Some(text) => read_template(alloc, text),
        None => Ok(None),
    }
}

// The line of the start of a conversation that was begun, where it is to be told once it has started.
pub(crate) fn build_waiting(
    alloc: Global,
    talks: &Talks,
    conv: u64,
) -> Result<Option<Bytes>, NoMemory>
    ensures { IfOk result (λ line. ShowsOf talks.now conv
        (λ s. start_by true conv (outcome_of s) (template_begun s.begun)) line) }
{
    match talks.conversation(conv) {
        Some(conversation) => build_begun(alloc, conv, conversation),
        None => Ok(None),
    }
}

fn build_begun(
    alloc: Global,
    conv: u64,
    conversation: &Conversation,
) -> Result<Option<Bytes>, NoMemory>
    ensures { IfOk result (λ line. Shows conversation.now
        (λ s. start_by true conv (outcome_of s) (template_begun s.begun)) line) }
{
    if conversation.outcome().is_some() {
        return Ok(None);
    }
    match conversation.start_template() {
        Some(template) => Ok(Some(build_start(alloc, conv, template)?)),
        None => Ok(None),
    }
}
