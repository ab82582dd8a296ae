// The source that is read ahead.
ghost use Rattle.std.specs.Prelude.{◌≡◌, ◌<◌, ◌≤◌, IfOk, length};

use crate::held_ahead::Held;
use crate::{Got, Source};
use std::alloc::Global;
use wire_base::NoMemory;

/// A source that gives what another gives, and reads of that one as many bytes at a time as its room has, whatever is asked
/// of it. What it hands out is overwritten in its room, and what it read and hasn't handed out when it is dropped.
#[derive(Drop)]
pub struct ReadAhead<S> {
    inner: S,
    held: Held,
}

impl<S> ReadAhead<S> {
    ghost use Rattle.std.specs.Prelude.{[]};
    ghost use Rattle.wire_streams.specs.Ahead.{bytes_ahead, source_below};

    /// A source of what `inner` gives, with a room of so many bytes.
    pub fn new(alloc: Global, size: usize, inner: S) -> Result<ReadAhead<S>, NoMemory>
    where
        S: Drop,
        requires { 0 < size }
        ensures inner { IfOk result (λ source. source_below source ≡ inner) }
        ensures none { IfOk result (λ source. bytes_ahead source ≡ []) }
    {
        let held = Held::new(alloc, size)?;
        Ok(ReadAhead { inner, held })
    }
}

impl<S: Source> Source for ReadAhead<S> {
    ghost use Rattle.std.specs.Io.KnownBytes.{prepend_known};
    ghost use Rattle.wire_streams.specs.Causes.{CountsOutcome};
    ghost use Rattle.wire_streams.specs.Streams.{Reads, read_failed};
    ghost use Rattle.wire_streams.specs.Ahead.{bytes_ahead, source_below};

    // What it has read, and behind that what the other has left.
    ghost left = { λ source. prepend_known (bytes_ahead source) (S.left (source_below source)) };

    ghost faults = { λ source. S.faults (source_below source) };

    fn read(&mut self, out: &mut [u8]) -> Got
        requires { 0 < length out.old }
        ensures bytes { Reads (prepend_known (bytes_ahead self.old) (S.left (source_below self.old)))
            (prepend_known (bytes_ahead self.new) (S.left (source_below self.new)))
            result out.new }
        ensures counted { S.faults (source_below self.old) ≤ S.faults (source_below self.new) }
        ensures exact { CountsOutcome (S.faults (source_below self.old))
            (S.faults (source_below self.new)) (read_failed result) }
    {
        if !self.held.is_empty() {
            return Got::Bytes(self.held.take_into(out));
        }
        match self.held.refill(&mut self.inner) {
            Got::Bytes(_) => Got::Bytes(self.held.take_into(out)),
            Got::End => Got::End,
            Got::Failed => Got::Failed,
        }
    }
}
