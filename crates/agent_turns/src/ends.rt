// How a conversation came to its end.
ghost use Rattle.std.specs.Prelude.{◌≡◌, ◌∷◌, ◌++◌, [], OnOk};
ghost use Rattle.talks.specs.Lines.{cause_text, is_end};
ghost use Rattle.wire_histories.specs.declared.step.Step.TheVariants.{Accept, Fail};
ghost use Rattle.world_history.specs.Talking.{breaks, end_of, end_steps, is_broken};

use crate::steps::put;
use roles::{Cause, Outcome};
use std::alloc::Global;
use wire_base::{AuthInfo, Bytes, NoMemory};
use wire_histories::Step;

fn is_end(outcome: Option<Outcome>) -> bool
    ensures { result ≡ is_end outcome }
{
    match outcome {
        None => false,
        Some(Outcome::Running) => false,
        Some(Outcome::Accepted(_)) => true,
        Some(Outcome::Finished) => true,
        Some(Outcome::Broken(_)) => true,
    }
}

fn is_broken(outcome: Option<Outcome>) -> bool
    ensures { result ≡ is_broken outcome }
{
    match outcome {
        Some(Outcome::Broken(_)) => true,
        None => false,
        Some(Outcome::Running) => false,
        Some(Outcome::Accepted(_)) => false,
        Some(Outcome::Finished) => false,
    }
}

/// Whether it broke by what came between.
pub(crate) fn breaks(before: Option<Outcome>, now: Option<Outcome>) -> bool
    ensures { result ≡ breaks before now }
{
    !is_end(before) && is_broken(now)
}

// Why it broke.
fn cause_text(cause: Cause) -> &'static [u8]
    ensures { result.now ≡ cause_text cause }
{
    match cause {
        Cause::WrongKind => b"wrong kind".as_slice(),
        Cause::WrongChallenge => b"wrong challenge".as_slice(),
        Cause::WrongUser => b"wrong user".as_slice(),
        Cause::NotOffered => b"not offered".as_slice(),
        Cause::ServerSaidNo => b"server said no".as_slice(),
        Cause::NoServer => b"no server".as_slice(),
        Cause::NoRoom => b"out of memory".as_slice(),
        Cause::BadKey => b"badkey".as_slice(),
    }
}

fn put_accepted(
    alloc: Global,
    conv: &[u8],
    info: AuthInfo,
    steps: &mut Vec<Step>,
) -> Result<(), NoMemory>
    ensures { OnOk result (steps.new.items
        ≡ steps.old.items ++ Accept conv.now info.cuid info.suid ∷ []) }
{
    let step = Step::Accept {
        conv: Bytes::from_slice(alloc, conv)?,
        cuid: Bytes::from_slice(alloc, info.cuid.text())?,
        suid: Bytes::from_slice(alloc, info.suid.text())?,
    };
    put(step, steps)
}

fn put_broken(
    alloc: Global,
    conv: &[u8],
    cause: Cause,
    steps: &mut Vec<Step>,
) -> Result<(), NoMemory>
    ensures { OnOk result (steps.new.items
        ≡ steps.old.items ++ Fail conv.now (cause_text cause) ∷ []) }
{
    let step = Step::Fail {
        conv: Bytes::from_slice(alloc, conv)?,
        cause: Bytes::from_slice(alloc, cause_text(cause))?,
    };
    put(step, steps)
}

// How it stands now, where that is its end.
fn put_end_of(
    alloc: Global,
    conv: &[u8],
    now: Option<Outcome>,
    steps: &mut Vec<Step>,
) -> Result<(), NoMemory>
    ensures { OnOk result (steps.new.items ≡ steps.old.items ++ end_of conv.now now) }
{
    match now {
        None => Ok(()),
        Some(Outcome::Running) => Ok(()),
        Some(Outcome::Finished) => Ok(()),
        Some(Outcome::Accepted(info)) => put_accepted(alloc, conv, info, steps),
        Some(Outcome::Broken(cause)) => put_broken(alloc, conv, cause, steps),
    }
}

/// The end that came between.
pub(crate) fn put_end(
    alloc: Global,
    conv: &[u8],
    before: Option<Outcome>,
    now: Option<Outcome>,
    steps: &mut Vec<Step>,
) -> Result<(), NoMemory>
    ensures { OnOk result (steps.new.items ≡ steps.old.items ++ end_steps conv.now before now) }
{
    if is_end(before) {
        return Ok(());
    }
    put_end_of(alloc, conv, now, steps)
}
