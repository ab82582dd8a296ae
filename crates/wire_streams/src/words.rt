//! Words of eight bytes that are drawn by chance, by the words that are to come and a count of faults; words in
//! memory, and words that are read from a source.
ghost use Rattle.std.specs.Io.KnownBytes.{Consumes};
ghost use Rattle.std.specs.Prelude.{◌≡◌, ◌≤◌, IsFalse, IsTrue, List, None, Option, Some, length, ℕ};
ghost use Rattle.std.specs.Result.{is_err};
ghost use Rattle.wire_streams.specs.Causes.{CountsOutcome};
ghost use Rattle.wire_streams.specs.Words.{Draws, EndsEarly};

use crate::memory::FaultPlan;
use crate::source::{Got, Source};

/// A draw failed and gave no word.
#[derive(Clone, Copy, Debug, PartialEq, Eq)]
pub struct WordFault;

/// Where words come from.
pub trait Words {
    /// The words to come, the next one first, where the object tells them.
    ghost to_come: { Self → Option (List (List ℕ)) };

    /// How many draws have failed.
    ghost faults: { Self → ℕ };

    /// Draws the next word. A draw that fails counts one fault and leaves the words to come.
    fn word8(&mut self) -> Result<[u8; 8], WordFault>
        ensures words { Draws (to_come self.old) (to_come self.new) result }
        ensures counted { faults self.old ≤ faults self.new }
        ensures exact { CountsOutcome (faults self.old) (faults self.new) (is_err result) };
}

/// The words that it was made with, in their order; at their end each draw fails.
#[derive(Debug, Drop)]
pub struct MemWords {
    content: Vec<[u8; 8]>,
    at: usize,
    plan: FaultPlan,
}

impl MemWords {
    ghost use Rattle.wire_streams.specs.Memory.{calls_of, failing_calls, faults_of};
    ghost use Rattle.wire_streams.specs.Words.{words_left, words_plan};

    /// The words of `content`; the draws whose numbers are in `fails` fail, counted from 1.
    pub fn new(content: Vec<[u8; 8]>, fails: Vec<u64>) -> MemWords
        ensures content { words_left result ≡ content.items }
        ensures listed { failing_calls (words_plan result) ≡ fails.items }
        ensures calls { calls_of (words_plan result) ≡ 0 }
        ensures faults { faults_of (words_plan result) ≡ 0 }
    {
        MemWords {
            content,
            at: 0,
            plan: FaultPlan::new(fails),
        }
    }
}

impl Words for MemWords {
    ghost use Rattle.wire_streams.specs.Memory.{CountsCall, fails_next, faults_of};
    ghost use Rattle.wire_streams.specs.Words.{ends_or_fails, words_left, words_plan};

    ghost to_come = { λ words. Some (words_left words) };

    ghost faults = { λ words. faults_of (words_plan words) };

    fn word8(&mut self) -> Result<[u8; 8], WordFault>
        ensures words { Draws (Some (words_left self.old)) (Some (words_left self.new)) result }
        ensures counted { faults_of (words_plan self.old) ≤ faults_of (words_plan self.new) }
        ensures exact { CountsOutcome (faults_of (words_plan self.old))
            (faults_of (words_plan self.new)) (is_err result) }

        // A draw fails exactly where its number is listed or no word is left.
        ensures planned { is_err result ≡ ends_or_fails self.old }
        ensures call { CountsCall (words_plan self.old) (words_plan self.new) (is_err result) }
    {
        if self.plan.begin_call() {
            return Err(WordFault);
        }
        match self.content.get(self.at) {
            Some(word) => {
                self.at += 1;
                Ok(*word)
            }
            None => {
                self.plan.count_fault();
                Err(WordFault)
            }
        }
    }
}

/// Words of eight bytes of a source each. It tells no words. Each draw that finds fewer than eight bytes, or whose
/// read fails, is counted, up to the last value of the counter; the bytes that it found are lost.
#[derive(Debug, Drop)]
pub struct ReadWords<S> {
    inner: S,
    faults: u64,
}

impl<S> ReadWords<S> {
    ghost use Rattle.wire_streams.specs.Words.{source_of, word_faults};

    /// Words of the bytes that `inner` gives.
    pub fn new(inner: S) -> ReadWords<S>
        ensures inner { source_of result ≡ inner }
        ensures faults { word_faults result ≡ 0 }
    {
        ReadWords { inner, faults: 0 }
    }
}

impl<S: Source> Words for ReadWords<S> {
    ghost use Rattle.std.specs.Prelude.{IfOk, OnErr, OnOk};
    ghost use Rattle.wire_streams.specs.Words.{source_of, word_faults};

    ghost to_come = { λ _. None };

    ghost faults = { λ words. word_faults words };

    fn word8(&mut self) -> Result<[u8; 8], WordFault>
        ensures words { Draws None None result }
        ensures counted { word_faults self.old ≤ word_faults self.new }
        ensures exact { CountsOutcome (word_faults self.old) (word_faults self.new)
            (is_err result) }

        // The word is the next eight bytes of the source; there are fewer, or a read failed.
        ensures given { IfOk result (λ word.
            Consumes (S.left (source_of self.old)) (S.left (source_of self.new)) word) }
        ensures steady { OnOk result
            (S.faults (source_of self.new) ≡ S.faults (source_of self.old)) }
        ensures cause { OnErr result
            (EndsEarly 8 (S.left (source_of self.old)) (S.left (source_of self.new))
            (S.faults (source_of self.old)) (S.faults (source_of self.new))) }
    {
        let mut word = [0u8; 8];
        if fill(&mut self.inner, &mut word) {
            Ok(word)
        } else {
            self.faults = self.faults.saturating_add(1);
            Err(WordFault)
        }
    }
}

/// Reads until `out` is full, and says whether it is: a source that ends before, or fails, doesn't fill it.
fn fill<S: Source>(source: &mut S, out: &mut [u8]) -> bool
    ensures length { length out.new ≡ length out.old }
    ensures filled { IsTrue result → Consumes (S.left source.old) (S.left source.new) out.new }
    ensures steady { IsTrue result → S.faults source.new ≡ S.faults source.old }
    ensures early { IsFalse result
        → EndsEarly (length out.old) (S.left source.old) (S.left source.new)
        (S.faults source.old) (S.faults source.new) }
{
    let mut at = 0;
    while at < out.len() {
        match source.read(&mut out[at..]) {
            Got::Bytes(count) => at += count,
            Got::End | Got::Failed => return false,
        }
    }
    true
}
