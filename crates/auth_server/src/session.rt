// One client's session: the challenge that it holds, and how many of its answers were wrong.
ghost use Rattle.std.specs.Prelude.{◌≡◌};
ghost use Rattle.auth_server.specs.Answers.{digits_for};

use sealing::{AUTH_APOP, RecordWriter, apop_answer, cram_answer};
use std::marker::Model;

/// How many bytes a challenge has at most: a digit for each half of a word's byte, a domain, and three signs.
pub(crate) const MOST_CHALLENGE: usize = 66;

/// How many wrong answers end a session.
const MOST_WRONG: u8 = 5;

/// What a step of a session came to.
#[derive(Clone, Copy, Debug, PartialEq, Eq)]
pub enum AsStep {
    /// The request was answered.
    Replied,
    /// It was answered, and was the session's fifth wrong answer, which ends it.
    TooManyWrong,
}

/// What a request of a mail server is to the challenge that its session holds.
#[derive(Clone, Copy, PartialEq, Eq)]
pub(crate) enum Verdict {
    /// None is held for its kind: it is for one.
    First,
    /// It answers the challenge, rightly.
    Right,
    /// It doesn't.
    Wrong,
}

/// A challenge that was given out, for requests of a kind.
#[derive(Drop)]
pub(crate) struct Challenge {
    pub(crate) kind: u8,
    pub(crate) text: RecordWriter<MOST_CHALLENGE>,
}

impl Model for Challenge {
    ghost use Rattle.auth_server.specs.Requests.{Challenge as Given};

    ghost Value = { Given };

    ghost view = { λ c. record { kind = c.kind; text = c.text } };
}

/// One client's session. It has no Debug, as the server has none.
#[derive(Drop)]
pub struct Session {
    pub(crate) held: Option<Challenge>,
    wrong: u8,
}

impl Model for Session {
    ghost use Rattle.auth_server.specs.Standing.{Standing};

    ghost Value = { Standing };

    ghost view = { λ s. record { held = s.held; wrong = s.wrong } };
}

impl Session {
    ghost use Rattle.std.specs.Prelude.{◌≡◌, ◌<◌, ◌+◌, ◌↔◌, [], None, Some, true, nat_le};
    ghost use Rattle.auth_server.specs.Answers.{most_wrong};
    ghost use Rattle.auth_server.specs.Requests.{is_for};
    ghost use Rattle.auth_server.specs.Standing.{Stands};

    /// A session without requests.
    pub fn new() -> Session
        ensures value { result ≡ record { held = None; wrong = 0 } }
        ensures stands { Stands [] result }
    {
        Session {
            held: None,
            wrong: 0,
        }
    }

    /// Whether it holds a challenge for requests of this kind.
    pub(crate) fn holds(&self, kind: u8) -> bool
        ensures { result ≡ is_for kind self.now.held }
    {
        match &self.held {
            Some(challenge) => challenge.kind == kind,
            None => false,
        }
    }

    /// Holds a challenge from now on, and no other.
    pub(crate) fn hold(&mut self, challenge: Challenge)
        ensures { self.new ≡ record { held = Some challenge; wrong = self.old.wrong } }
    {
        self.held = Some(challenge);
    }

    /// Gives the challenge up.
    pub(crate) fn give_up(&mut self)
        ensures { self.new ≡ record { held = None; wrong = self.old.wrong } }
    {
        self.held = None;
    }

    /// Counts a wrong answer.
    pub(crate) fn count_wrong(&mut self)
        requires { self.old.wrong < most_wrong }
        ensures { self.new ≡ record { held = self.old.held; wrong = self.old.wrong + 1 } }
    {
        self.wrong += 1;
    }

    /// What the step came to that was the last.
    pub(crate) fn last_step(&self) -> AsStep
        ensures over { (result ≡ AsStep.TooManyWrong) ↔ (nat_le most_wrong self.now.wrong ≡ true) }
        ensures replied { result ≡ AsStep.Replied → self.now.wrong < most_wrong }
    {
        if self.wrong < MOST_WRONG {
            AsStep::Replied
        } else {
            AsStep::TooManyWrong
        }
    }
}

/// The digits that answer a challenge of a kind, under a password.
pub(crate) fn digits_for(kind: u8, challenge: &[u8], password: &[u8]) -> [u8; 32]
    ensures { result ≡ digits_for kind challenge.now password.now }
{
    if kind == AUTH_APOP {
        apop_answer(challenge, password)
    } else {
        cram_answer(challenge, password)
    }
}
