// Why a line isn't carried out.
use auth_program::ScriptCause;
use wire_base::NoMemory;
use wire_histories::Step;

/// Why a line isn't carried out.
#[derive(Clone, Copy)]
pub(crate) enum Stop {
    Refused(ScriptCause),
    NoMemory,
}

impl From<NoMemory> for Stop {
    ghost use Rattle.std.specs.Prelude.{◌≡◌};
    ghost use Rattle.world_run.specs.declared.stops.Stop.TheVariants as stops;

    ghost from_gives = { λ _ stop. stop ≡ stops.NoMemory };

    fn from(_: NoMemory) -> Self {
        Stop::NoMemory
    }
}

pub(crate) const BAD_LINE: Stop = Stop::Refused(ScriptCause::BadLine);

pub(crate) const UNKNOWN_NODE: Stop = Stop::Refused(ScriptCause::UnknownNode);

pub(crate) const UNKNOWN_CONV: Stop = Stop::Refused(ScriptCause::UnknownConv);

pub(crate) const NO_SUCH_MESSAGE: Stop = Stop::Refused(ScriptCause::NoSuchMessage);

/// The steps that a line causes, or why it causes none.
pub(crate) type Done = Result<Vec<Step>, Stop>;
