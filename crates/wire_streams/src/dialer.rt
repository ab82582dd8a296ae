//! A dialer, which asks the authentication server, by the calls that were made of it and the answers to come, and
//! by a count of its faults.
ghost use Rattle.std.specs.Prelude.{◌≡◌, ◌≢◌, ◌≤◌, Option, ℕ};
ghost use Rattle.wire_streams.specs.Causes.{CountsOutcome};
ghost use Rattle.wire_streams.specs.Dials.{Dialed, IsAnswer, Makes, exchanged, has_failed};
ghost use Rattle.wire_streams.specs.declared.dialer.Made.TheVariants.{Close};

use wire_base::{Bytes, Shape};

/// How many bytes an answer of the authentication server may have; the longest of authsrv(6), a byte and two
/// tickets, has 145.
pub const MOST_ANSWER: usize = 160;

/// What one exchange gave.
#[derive(Clone, Copy, Debug, PartialEq, Eq)]
pub enum Dial {
    /// The answer was heard.
    Heard,
    /// There is no answer.
    Failed,
    /// No memory for the answer.
    NoMemory,
}

/// What one exchange came to, as a record of it tells.
#[derive(Drop)]
pub enum Outcome {
    /// It was answered so.
    Answered(Bytes),
    /// It failed.
    Unanswered,
    /// There was no memory for its answer.
    NoRoom,
}

/// A call that was made of a dialer.
#[derive(Drop)]
pub enum Made {
    /// A request was sent, and came to this.
    Exchange {
        conv: u64,
        request: Bytes,
        shape: Shape,
        outcome: Outcome,
    },
    /// A connection was given up.
    Close {
        conv: u64,
    },
}

/// What asks the authentication server.
pub trait Dialer {
    /// The calls made, the first one first, and the answers to come, where the dialer tells them.
    ghost told: { Self → Option Dialed };

    /// How many exchanges have failed.
    ghost faults: { Self → ℕ };

    /// Sends the request, and puts the answer in the place of what `out` holds, which stays where none is heard.
    /// `Tickets` uses a connection of its own. `Challenge` opens one under the number `conv` and keeps it; `Vouch`
    /// uses that one and gives it up afterwards.
    fn exchange(&mut self, conv: u64, request: &[u8], shape: Shape, out: &mut Bytes) -> Dial
        ensures told { Makes (told self.old) (told self.new)
            (exchanged conv request.now shape result out.new) }
        ensures heard { result ≡ Dial.Heard → IsAnswer out.new }
        ensures kept { result ≢ Dial.Heard → out.new ≡ out.old }
        ensures counted { faults self.old ≤ faults self.new }
        ensures exact { CountsOutcome (faults self.old) (faults self.new) (has_failed result) };

    /// Gives up the connection that was opened under this number, and does nothing where there is none.
    fn close(&mut self, conv: u64)
        ensures told { Makes (told self.old) (told self.new) (Close conv) }
        ensures exact { faults self.new ≡ faults self.old };
}
