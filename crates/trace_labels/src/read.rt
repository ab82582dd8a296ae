// A text of labels, read from a source.
ghost use Rattle.std.specs.Prelude.{◌≡◌, ◌≤◌, ◌<◌, ◌^◌, ◌++◌, ◌∷◌, [], true, false, not, length, map, Ok, IfOk, IfErr};
ghost use Rattle.wire_streams.specs.Causes.{CountsOutcome};
ghost use Rattle.trace_labels.specs.Lines.{IsLine, Line};
ghost use Rattle.trace_labels.specs.Labels.{AreUpTo, IsBad, is_repeated, label_lines};
ghost use Rattle.trace_labels.specs.Reads.{FailsSo, ReadsLabels, reading_failed};
ghost use Rattle.trace_labels.specs.Said.{said};

use crate::line::{LabelLine, parse_label_line};
use crate::unread::Unread;
use attr_tuples::cut_line;
use std::alloc::Global;
use wire_base::{List, NoMemory};
use wire_streams::{Source, WholeFault, read_whole};

/// How many bytes a text of labels may have.
pub const MOST_BYTES: usize = 4194304;

/// What was read of a text of labels.
#[derive(Drop)]
pub struct Labels {
    /// Its lines before the first bad one, in order.
    pub lines: List<LabelLine>,
    /// The number of the first line, counted from 1, that has no form that a line has, or says again what an earlier one
    /// says; None exactly where there is none.
    pub bad: Option<u32>,
}

/// Why no labels were read.
#[derive(Clone, Copy, Debug, PartialEq, Eq)]
pub enum LabelsFault {
    /// A read of the source failed.
    ReadFault,
    /// The text has more bytes than a text of labels may have.
    Flood,
    /// Memory ran out.
    NoMemory,
}

/// Reads the labels of a source, to its end.
pub fn read_labels<S: Source>(alloc: Global, source: &mut S) -> Result<Labels, LabelsFault>
    ensures ok { IfOk result (λ labels.
        ReadsLabels (S.left source.old) (S.left source.new) labels.lines labels.bad) }
    ensures err { IfErr result (λ fault. FailsSo fault (S.left source.old) (S.left source.new)) }
    ensures counted { S.faults source.old ≤ S.faults source.new }
    ensures exact { CountsOutcome (S.faults source.old) (S.faults source.new)
        (reading_failed result) }
{
    match read_whole(alloc, MOST_BYTES, source) {
        Ok(text) => match read_lines(alloc, &text) {
            Ok(labels) => Ok(labels),
            Err(NoMemory) => Err(LabelsFault::NoMemory),
        },
        Err(WholeFault::Failed) => Err(LabelsFault::ReadFault),
        Err(WholeFault::Flood) => Err(LabelsFault::Flood),
        Err(WholeFault::NoMemory) => Err(LabelsFault::NoMemory),
    }
}

// The first line of a text, and what stands behind its newline.
fn cut_first(text: &[u8]) -> (&[u8], &[u8])
    requires { 0 < length text.now }
    ensures parts { label_lines text.now ≡ result.0.now ∷ label_lines result.1.now }
    ensures shorter { length result.1.now < length text.now }
{
    let (line, rest) = cut_line(text);
    match rest {
        Some(rest) => (line, rest),
        None => (line, b"".as_slice()),
    }
}

fn read_lines(alloc: Global, text: &[u8]) -> Result<Labels, NoMemory>
    requires { length text.now < 2 ^ 32 }
    ensures { IfOk result (λ labels.
        AreUpTo (label_lines text.now) (map said labels.lines) labels.bad) }
{
    let mut lines = List::new(alloc);
    let mut number = 0;
    let mut left = text;
    while !left.is_empty() {
        let (line, rest) = cut_first(left);
        number += 1;
        if !take_line(alloc, line, &mut lines)? {
            let bad = Some(number);
            return Ok(Labels { lines, bad });
        }
        left = rest;
    }
    Ok(Labels { lines, bad: None })
}

// Puts a line behind those that were read, where it is one and repeats none of them. False exactly where it is bad.
fn take_line(alloc: Global, text: &[u8], lines: &mut List<LabelLine>) -> Result<bool, NoMemory>
    ensures good { result ≡ Ok true → (line : Line) × IsLine line text.now
        × (is_repeated line (map said lines.old) ≡ false)
        × (map said lines.new ≡ map said lines.old ++ line ∷ []) }
    ensures bad { result ≡ Ok false → IsBad (map said lines.old) text.now
        × (lines.new ≡ lines.old) }
{
    match parse_label_line(alloc, text) {
        Ok(line) => take_new(line, lines),
        Err(Unread::BadForm) => Ok(false),
        Err(Unread::NoMemory) => Err(NoMemory),
    }
}

// Puts a line behind those that were read, unless it repeats one of them.
fn take_new(line: LabelLine, lines: &mut List<LabelLine>) -> Result<bool, NoMemory>
    ensures new { IfOk result (λ new. new ≡ not (is_repeated (said line) (map said lines.old))) }
    ensures put { result ≡ Ok true → lines.new ≡ lines.old ++ line ∷ [] }
    ensures same { result ≡ Ok false → lines.new ≡ lines.old }
{
    if repeats_any(&line, lines) {
        return Ok(false);
    }
    lines.push(line)?;
    Ok(true)
}

fn repeats_any(line: &LabelLine, lines: &List<LabelLine>) -> bool
    ensures { result ≡ is_repeated (said line.now) (map said lines.now) }
{
    for other in lines.as_slice() {
        if line.repeats(other) {
            return true;
        }
    }
    false
}
