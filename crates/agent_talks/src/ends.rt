// The lines of ends that are made ahead, by the numbers of the conversations.
ghost use Rattle.std.specs.Prelude.{◌≡◌, List, ℕ, false, true, Some, OnErr, OnOk};
ghost use Rattle.std.specs.Option.{option_to_list};
ghost use Rattle.attr_tuples.specs.declared.attr.Attr.{Attr};
ghost use Rattle.talks.specs.Protocols.{is_over};
ghost use Rattle.talks.specs.Lines.{end_line};
ghost use Rattle.agent_talks.specs.Changes.{left_at, left_one};
ghost use Rattle.agent_talks.specs.Ends.{EndsFor};
ghost use Rattle.agent_talks.specs.Ahead.{IsMadeFor, SameLines, line_in};

use crate::end_line::EndLine;
use crate::ready::ReadyLine;
use crate::{Leaving, Speaker, leaves};
use roles::Outcome;
use std::collections::BTreeMap;
use wire_base::{Bytes, NoMemory};

pub(crate) type EndLines = BTreeMap<u64, ReadyLine>;

// The line of a conversation is kept from now on, in the place of one that it had.
pub(crate) fn keep_line(ends: &mut EndLines, conv: u64, line: EndLine) -> Result<(), NoMemory>
    requires done { line.done.left ≡ 64 }
    requires error { line.error.left ≡ 64 }
    ensures kept { OnOk result ((template : List Attr) → EndsFor conv template line
        → IsMadeFor true conv template (line_in ends.new conv)) }
    ensures others { (other : ℕ) → (conv ≡ other → ⊥)
        → line_in ends.new other ≡ line_in ends.old other }
    ensures same { OnErr result (SameLines ends.old ends.new) }
{
    ends.insert(conv, ReadyLine { line })?;
    Ok(())
}

// The line that tells this outcome of a conversation, where that is an end. It isn't kept any more then. It takes no memory.
pub(crate) fn take_line(ends: &mut EndLines, conv: u64, outcome: &Outcome) -> Option<Bytes>
    ensures line { (template : List Attr)
        → IsMadeFor (is_over outcome.now) conv template (line_in ends.old conv)
        → option_to_list result ≡ end_line conv template (Some outcome.now) }
    ensures others { (other : ℕ) → (conv ≡ other → ⊥)
        → line_in ends.new other ≡ line_in ends.old other }
    ensures kept { is_over outcome.now ≡ false → ends.new ≡ ends.old }
{
    if !is_over(outcome) {
        return None;
    }
    match ends.remove(&conv) {
        Some(ready) => ready.line.tell(outcome),
        None => None,
    }
}

fn is_over(outcome: &Outcome) -> bool
    ensures { result ≡ is_over outcome.now }
{
    match outcome {
        Outcome::Running => false,
        Outcome::Accepted(_) | Outcome::Finished | Outcome::Broken(_) => true,
    }
}

// The lines of conversations that end are kept no longer. It takes no memory.
pub(crate) fn drop_lines(ends: &mut EndLines, speakers: &[Speaker], leaving: Leaving)
    ensures { (conv : ℕ) → line_in ends.new conv
        ≡ left_at leaving speakers.now conv (line_in ends.old conv) }
{
    for speaker in speakers {
        drop_line(ends, leaving, speaker);
    }
}

// The line of one is kept no longer, where it ends.
fn drop_line(ends: &mut EndLines, leaving: Leaving, speaker: &Speaker)
    ensures { (conv : ℕ) → line_in ends.new conv
        ≡ left_one leaving speaker.now conv (line_in ends.old conv) }
{
    if leaves(leaving, speaker) {
        ends.remove(&speaker.conv);
    }
}
