//! Where attaches are told, by those that were asked for.
ghost use Rattle.std.specs.Prelude.{◌≡◌, ◌++◌, OnErr, OnOk, length, option_map, take};
ghost use Rattle.attach_program.specs.Notes.{attach_text};

use auth_program::append_shown;
use wire_base::{Bytes, NoMemory};

/// Where what becomes of attaches is told. It is given for whom each was asked, and the text of the refusal, if it was refused,
/// and nothing that the client sent besides.
pub trait Log {
    ghost use Rattle.std.specs.Prelude.{List, Option, [], ◌∷◌, ℕ};
    ghost use Rattle.wire_streams.specs.Spawning.{Gains};
    ghost use Rattle.attach_program.specs.Notes.{Note};

    /// What was noted, where the object tells it.
    ghost noted: { Self → Option (List Note) };

    /// Notes that an attach for a user was granted, or refused by this text.
    fn note(&mut self, uname: &[u8], refusal: Option<&[u8]>)
        ensures { Gains (noted self.old) (noted self.new)
            ((uname.now, option_map (λ text. text.now) refusal.entry) ∷ []) };
}

/// No log: what it is told is lost.
#[derive(Clone, Copy, Debug, PartialEq, Eq)]
pub struct NoLog;

impl Log for NoLog {
    ghost use Rattle.std.specs.Prelude.{None};

    ghost noted = { λ _. None };

    fn note(&mut self, _: &[u8], _: Option<&[u8]>) {}
}

#[tactic(auto, using(wire_base::proofs::FrontLemmas::kept_then))]
fn append_attach(uname: &[u8], refusal: Option<&[u8]>, out: &mut Bytes) -> Result<(), NoMemory>
    ensures ok { OnOk result (out.new
        ≡ out.old ++ attach_text uname.now (option_map (λ text. text.now) refusal.entry)) }
    ensures err { OnErr result (take (length out.old) out.new ≡ out.old) }
{
    out.append(b"auth_attach: ")?;
    append_shown(uname, out)?;
    out.append(b": ")?;
    out.append(refusal.unwrap_or(b"attached"))?;
    out.push(b'\n')
}

/// Appends the line of an attach for standard error: the user's name, each byte of which that isn't a visible sign of ASCII is
/// shown as `?`, and the refusal's text, or that he is attached.
pub fn print_attach(uname: &[u8], refusal: Option<&[u8]>, out: &mut Bytes) -> Result<(), NoMemory>
    ensures ok { OnOk result (out.new
        ≡ out.old ++ attach_text uname.now (option_map (λ text. text.now) refusal.entry)) }
    ensures err { OnErr result (out.new ≡ out.old) }
{
    let before = out.len();
    let done = append_attach(uname, refusal, out);
    out.undo_on_err(before, done)
}
