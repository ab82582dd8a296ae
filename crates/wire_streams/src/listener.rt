//! Where connections come from, by those that are to come and by a count of faults.

use crate::sink::Sink;
use crate::source::Source;

/// No connection was accepted.
#[derive(Clone, Copy, Debug, PartialEq, Eq)]
pub struct ListenFault;

/// Where connections come from.
pub trait Listener {
    ghost use Rattle.std.specs.Prelude.{◌≤◌, List, Option, ℕ};
    ghost use Rattle.std.specs.Result.{is_err};
    ghost use Rattle.wire_streams.specs.Causes.{CountsOutcome};
    ghost use Rattle.wire_streams.specs.Listening.{Accepts};

    /// What a connection's peer sends.
    type In: Source;

    /// What is sent to a connection's peer.
    type Out: Sink;

    /// The connections to come, the next one first, where the listener tells them.
    ghost to_come: { Self → Option (List (Self.In × Self.Out)) };

    /// How often accepting has failed.
    ghost faults: { Self → ℕ };

    /// Waits for the next connection: what its peer sends, and what is sent to it. Accepting that fails counts one fault
    /// and leaves the connections to come.
    fn accept(&mut self) -> Result<(Self::In, Self::Out), ListenFault>
        ensures accepted { Accepts (to_come self.old) (to_come self.new) result }
        ensures counted { faults self.old ≤ faults self.new }
        ensures exact { CountsOutcome (faults self.old) (faults self.new) (is_err result) };
}
