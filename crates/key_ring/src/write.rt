// The lines of a write, read and then carried out.
ghost use Rattle.std.specs.Prelude.{◌≡◌, ◌+◌, ◌<◌, ◌≤◌, ◌^◌, ◌∷◌, [], List, ℕ, Some, length, option_map, IfNone, IfOk, IfSome, IsOk, OnErr, OnOk, get_or, true};
ghost use Rattle.std.specs.Option.{option_or};
ghost use Rattle.key_lists.specs.CtlLines.{after_lines, lines_fault, lines_of};
ghost use Rattle.key_ring.specs.Faults.{has_no_tuple, line_text};
ghost use Rattle.key_ring.specs.WriteSteps.{SayTheSame, edit_text, kept, unread};
ghost use Rattle.key_ring.specs.Switches.{switches};

use crate::fault::LineFault;
use crate::line::{Said, read_line};
use crate::ring::KeyRing;
use attr_tuples::cut_line;
use key_lists::{EditFault, EditList};
use std::alloc::Global;
use wire_base::NoMemory;

/// What became of a write of ctl.
#[derive(Clone, Copy, Debug, PartialEq, Eq)]
pub struct Written {
    /// Why the first line is refused that is, if one is.
    pub fault: Option<LineFault>,
    /// Whether the lines that were carried out switch the further lines of the log an odd number of times.
    pub switches: bool,
}

/// Lines that were read: the edits that they say, of each whether an odd number of lines `debug` stands before it, and
/// whether that number is odd behind them all.
#[derive(Drop)]
pub struct ReadLines {
    pub edits: EditList,
    pub odd: Vec<bool>,
    pub is_odd: bool,
}

/// Carries a write of ctl out: its lines in order, but for empty ones, up to the first that is refused. The lines
/// before that one stand, and why it is refused is answered. After want of memory no line of the write stands, and a
/// verb that isn't known is refused before memory is taken for a line behind it.
pub fn write_ctl(alloc: Global, ring: &mut KeyRing, content: &[u8]) -> Result<Written, NoMemory>
    requires { ring.old.ever_added + length content.now < 2 ^ 64 }

    // The ring holds the keys after the lines, and the text told is that of the first refused one.
    ensures keys { OnOk result (ring.new ≡ after_lines ring.old (lines_of content.now)) }
    ensures told { IfOk result (λ w. option_map line_text w.fault
        ≡ lines_fault ring.old (lines_of content.now)) }
    ensures switches { IfOk result (λ w. w.switches
        ≡ switches ring.old (lines_of content.now)) }

    // No more keys were added than there are bytes; and where no line has a tuple, no memory is taken.
    ensures few { ring.new.ever_added ≤ ring.old.ever_added + length content.now }
    ensures takes_none { has_no_tuple (lines_of content.now) ≡ true → IsOk result }

    // After want of memory the keys are as before.
    ensures err { OnErr result (ring.new ≡ ring.old) }
{
    let mut lines = ReadLines {
        edits: EditList::new(alloc),
        odd: Vec::new(alloc),
        is_odd: false,
    };
    let last = read_lines(alloc, content, &mut lines)?;
    let ReadLines { edits, odd, is_odd } = lines;
    let batch = ring.edit_all(edits)?;
    Ok(Written {
        fault: first_fault(batch.refused, last),
        switches: is_odd_before(&odd, batch.count, is_odd),
    })
}

// Whether an odd number of lines `debug` stands before the edit of this number, or else behind all.
fn is_odd_before(odd: &[bool], count: usize, is_odd: bool) -> bool
    ensures { result ≡ get_or odd.now count is_odd }
{
    match odd.get(count) {
        Some(odd) => *odd,
        None => is_odd,
    }
}

// A refused edit is told before a line that can't be read, which stands behind it.
fn first_fault(refused: Option<EditFault>, last: Option<LineFault>) -> Option<LineFault>
    ensures { option_map line_text result
        ≡ option_or (option_map edit_text refused) (option_map line_text last) }
{
    match refused {
        Some(EditFault::Add(fault)) => Some(LineFault::Add(fault)),
        Some(EditFault::Delete(fault)) => Some(LineFault::Delete(fault)),
        None => last,
    }
}

// Reads the lines behind others, up to the first line that can't be read, and answers why.
fn read_lines(
    alloc: Global,
    content: &[u8],
    lines: &mut ReadLines,
) -> Result<Option<LineFault>, NoMemory>
    ensures said { OnOk result (SayTheSame lines.old lines.new (lines_of content.now) []) }
    ensures fault { IfOk result (λ fault. option_map line_text fault
        ≡ unread (lines_of content.now)) }
    ensures few { OnOk result (length lines.new.edits ≤ length lines.old.edits
        + length content.now) }
    ensures takes_none { has_no_tuple (lines_of content.now) ≡ true → IsOk result
        × (lines.new.edits ≡ lines.old.edits) }
{
    let mut left = Some(content);
    while let Some(text) = left {
        let (line, rest) = cut_line(text);
        if let Some(fault) = take_line(alloc, line, lines)? {
            return Ok(Some(fault));
        }
        left = rest;
    }
    Ok(None)
}

// Reads a line behind others, or answers why it can't be read.
fn take_line(
    alloc: Global,
    line: &[u8],
    lines: &mut ReadLines,
) -> Result<Option<LineFault>, NoMemory>
    ensures taken { IfOk result (λ fault. IfNone fault ((more : List (List ℕ))
        → SayTheSame lines.old lines.new (kept (line.now ∷ more)) (kept more))) }
    ensures read { IfOk result (λ fault. IfNone fault ((more : List (List ℕ))
        → unread (kept (line.now ∷ more)) ≡ unread (kept more))) }
    ensures stopped { IfOk result (λ fault. IfSome fault (λ f. (more : List (List ℕ))
        → SayTheSame lines.old lines.new (kept (line.now ∷ more)) [])) }
    ensures told { IfOk result (λ fault. IfSome fault (λ f. (more : List (List ℕ))
        → unread (kept (line.now ∷ more)) ≡ Some (line_text f))) }
    ensures few { OnOk result (length lines.new.edits ≤ length lines.old.edits
        + length line.now) }
    ensures takes_none { (more : List (List ℕ)) → has_no_tuple (kept (line.now ∷ more)) ≡ true
        → IsOk result × (lines.new.edits ≡ lines.old.edits) }
    ensures bare { IfOk result (λ fault. IfNone fault ((more : List (List ℕ))
        → has_no_tuple (kept (line.now ∷ more)) ≡ true → has_no_tuple (kept more) ≡ true)) }
{
    if line.is_empty() {
        return Ok(None);
    }
    match read_line(alloc, line)? {
        Said::OnKeys(edit) => {
            lines.odd.push(lines.is_odd)?;
            lines.edits.push(edit)?;
            Ok(None)
        }
        Said::Debug => {
            lines.is_odd = !lines.is_odd;
            Ok(None)
        }
        Said::Nothing(fault) => Ok(Some(fault)),
    }
}
