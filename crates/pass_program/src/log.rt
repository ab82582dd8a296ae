//! Where events are told, by those that were.
ghost use Rattle.std.specs.Prelude.{◌≡◌, ◌++◌, OnErr, OnOk, length, take};
ghost use Rattle.pass_program.specs.Notes.{event_text, event_words};

use crate::refusal::{Event, Refusal};
use auth_program::append_shown;
use wire_base::{Bytes, Name, NoMemory};

/// Where what becomes of users is told. It is given their names and nothing that they sent besides.
pub trait Log {
    ghost use Rattle.std.specs.Prelude.{List, Option, [], ◌∷◌, ℕ};
    ghost use Rattle.wire_streams.specs.Spawning.{Gains};
    ghost use Rattle.pass_program.specs.declared.refusal.Event.{Event as Told};

    /// The events that were noted, with their users, where the object tells them.
    ghost noted: { Self → Option (List (List ℕ × Told)) };

    /// Notes an event of a user.
    fn note(&mut self, user: &Name<28>, event: Event)
        ensures { Gains (noted self.old) (noted self.new) ((user.now, event) ∷ []) };
}

/// No log: what it is told is lost.
#[derive(Clone, Copy, Debug, PartialEq, Eq)]
pub struct NoLog;

impl Log for NoLog {
    ghost use Rattle.std.specs.Prelude.{None};

    ghost noted = { λ _. None };

    fn note(&mut self, _: &Name<28>, _: Event) {}
}

// What became of a user, in words.
fn event_words(event: Event) -> &'static [u8]
    ensures { result.now ≡ event_words event }
{
    match event {
        Event::Refused(Refusal::BadRequest) => b"bad request",
        Event::Refused(Refusal::BadOldPassword) => b"bad old password",
        Event::Refused(Refusal::BadNewPassword) => b"bad new password",
        Event::Refused(Refusal::NoSecretKept) => b"no secret kept",
        Event::Refused(Refusal::TableNotWritten) => b"table not written",
        Event::Changed => b"password changed",
    }
}

#[tactic(auto, using(wire_base::proofs::FrontLemmas::kept_then))]
fn append_event(user: &Name<28>, event: Event, out: &mut Bytes) -> Result<(), NoMemory>
    ensures ok { OnOk result (out.new ≡ out.old ++ event_text user.now event) }
    ensures err { OnErr result (take (length out.old) out.new ≡ out.old) }
{
    out.append(b"pass_change: ")?;
    append_shown(user.text(), out)?;
    out.append(b": ")?;
    out.append(event_words(event))?;
    out.push(b'\n')
}

/// Appends the line of an event for standard error: the user's name, each byte of which that isn't a visible sign of ASCII is
/// shown as `?`, and what became of him.
pub fn print_event(user: &Name<28>, event: Event, out: &mut Bytes) -> Result<(), NoMemory>
    ensures ok { OnOk result (out.new ≡ out.old ++ event_text user.now event) }
    ensures err { OnErr result (out.new ≡ out.old) }
{
    let before = out.len();
    let done = append_event(user, event, out);
    out.undo_on_err(before, done)
}
