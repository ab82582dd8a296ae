//! A sink of bytes, by what it holds and by a count of its faults.

/// What one write to a sink did.
#[derive(Clone, Copy, Debug, PartialEq, Eq)]
pub enum Put {
    /// So many bytes of the piece's front were taken; at least one.
    Took(usize),
    /// The write failed and nothing was taken.
    Failed,
}

/// Where bytes go to.
pub trait Sink {
    ghost use Rattle.std.specs.Prelude.{◌<◌, ◌≤◌, List, Option, length, ℕ};
    ghost use Rattle.wire_streams.specs.Causes.{CountsOutcome};
    ghost use Rattle.wire_streams.specs.Streams.{Writes, write_failed};

    /// The bytes taken so far, where the sink tells them.
    ghost holds: { Self → Option (List ℕ) };

    /// How many writes have failed.
    ghost faults: { Self → ℕ };

    /// Takes a front of `piece`, which isn't empty. A write that fails counts one fault, any other none.
    fn write(&mut self, piece: &[u8]) -> Put
        requires { 0 < length piece.now }
        ensures bytes { Writes (holds self.old) (holds self.new) result piece.now }
        ensures counted { faults self.old ≤ faults self.new }
        ensures exact { CountsOutcome (faults self.old) (faults self.new) (write_failed result) };
}
