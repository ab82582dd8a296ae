// A sink that may have no room now.
ghost use Rattle.std.specs.Prelude.{◌≡◌, ◌<◌, ◌≤◌, length};
ghost use Rattle.wire_streams.specs.Causes.{CountsOutcome};
ghost use Rattle.wire_streams.specs.Offers.{OffersSo, offer_failed, offered};

use crate::{MemSink, Put, Sink, SteadySink};

/// What an offer of bytes came to.
#[derive(Clone, Copy, Debug, PartialEq, Eq)]
pub enum Offer {
    /// So many bytes of the piece's front were taken; at least one.
    Took(usize),
    /// There is no room now, and nothing was taken.
    Full,
    /// The write failed and nothing was taken.
    Failed,
}

/// A sink that takes what it has room for, without waiting.
pub trait Offers: Sink {
    ghost use Rattle.std.specs.Prelude.{◌<◌, ◌≤◌, length};
    ghost use Rattle.wire_streams.specs.Causes.{CountsOutcome};
    ghost use Rattle.wire_streams.specs.Offers.{OffersSo, offer_failed};

    /// Takes a front of `piece`, which isn't empty, where there is room. An offer that fails counts one fault, any other
    /// none.
    fn offer(&mut self, piece: &[u8]) -> Offer
        requires { 0 < length piece.now }
        ensures bytes { OffersSo (Self.holds self.old) (Self.holds self.new) result piece.now }
        ensures counted { Self.faults self.old ≤ Self.faults self.new }
        ensures exact { CountsOutcome (Self.faults self.old) (Self.faults self.new)
            (offer_failed result) };
}

// What a write came to, as an offer.
fn offered(put: Put) -> Offer
    ensures { result ≡ offered put }
{
    match put {
        Put::Took(count) => Offer::Took(count),
        Put::Failed => Offer::Failed,
    }
}

impl Offers for MemSink {
    fn offer(&mut self, piece: &[u8]) -> Offer {
        offered(self.write(piece))
    }
}

impl Offers for SteadySink {
    fn offer(&mut self, piece: &[u8]) -> Offer {
        offered(self.write(piece))
    }
}
