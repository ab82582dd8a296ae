//! A source of bytes, by what it still has to give and by a count of its faults.

/// What one read of a source gave.
#[derive(Clone, Copy, Debug, PartialEq, Eq)]
pub enum Got {
    /// So many bytes stand at the front of the buffer; at least one.
    Bytes(usize),
    /// Nothing is left.
    End,
    /// The read failed and gave nothing.
    Failed,
}

/// Where bytes come from.
pub trait Source {
    ghost use Rattle.std.specs.Prelude.{◌<◌, ◌≤◌, List, Option, length, ℕ};
    ghost use Rattle.wire_streams.specs.Causes.{CountsOutcome};
    ghost use Rattle.wire_streams.specs.Streams.{Reads, read_failed};

    /// The bytes left to give, where the source tells them.
    ghost left: { Self → Option (List ℕ) };

    /// How many reads have failed.
    ghost faults: { Self → ℕ };

    /// Reads into the front of `out`, which isn't empty. A read that fails counts one fault, any other none.
    fn read(&mut self, out: &mut [u8]) -> Got
        requires { 0 < length out.old }
        ensures bytes { Reads (left self.old) (left self.new) result out.new }
        ensures counted { faults self.old ≤ faults self.new }
        ensures exact { CountsOutcome (faults self.old) (faults self.new) (read_failed result) };
}
