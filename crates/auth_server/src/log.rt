//! Where it is noted what came of each request, by what was. A log is given no secret: what was asked is what the client
//! sent in the clear.

use sealing::TicketReq;

/// What came of a request whose fields are well.
#[derive(Clone, Copy, Debug, PartialEq, Eq)]
pub enum Outcome {
    /// Two tickets under keys of the table, for a host that may speak for the user.
    Granted,
    /// Two tickets, of whose keys one at least was made up.
    Refused,
    /// A challenge.
    Challenged,
    /// A vouch: the answer to the challenge was right.
    Vouched,
    /// The answer to the challenge was wrong.
    Wrong,
}

/// What is noted of a request.
#[derive(Clone, Copy, Debug, PartialEq, Eq)]
pub enum Notice {
    /// A request of this kind has a bad field.
    Bad { kind: u8 },
    /// The fields of a request, and what came of it.
    Judged { asked: TicketReq, outcome: Outcome },
}

/// Where it is noted what came of each request.
pub trait Log {
    ghost use Rattle.std.specs.Prelude.{◌∷◌, [], List, Option};
    ghost use Rattle.wire_streams.specs.Spawning.{Gains};
    ghost use Rattle.auth_server.specs.declared.log.Notice.{Notice as Noted};

    /// What was noted, the first request first, where the object tells that.
    ghost noted: { Self → Option (List Noted) };

    /// Notes what came of a request. The answer is written behind this, so the client waits for as long as it takes.
    fn note(&mut self, notice: &Notice)
        ensures { Gains (noted self.old) (noted self.new) (notice.now ∷ []) };
}

/// No log: what it is told is lost.
#[derive(Clone, Copy, Debug, PartialEq, Eq)]
pub(crate) struct NoLog;

impl Log for NoLog {
    ghost use Rattle.std.specs.Prelude.{None};

    ghost noted = { λ _. None };

    fn note(&mut self, _: &Notice) {}
}
