// Why words aren't read.
use wire_base as base;

/// Why a text isn't read as a line of labels.
#[derive(Clone, Copy, Debug, PartialEq, Eq)]
pub enum Unread {
    /// It isn't of any form that a line has.
    BadForm,
    /// Memory ran out.
    NoMemory,
}

impl From<base::NoMemory> for Unread {
    ghost use Rattle.std.specs.Prelude.{◌≡◌};
    ghost use Rattle.trace_labels.specs.declared.unread.Unread.TheVariants.{NoMemory};

    ghost from_gives = { λ _ e. e ≡ NoMemory };

    fn from(_: base::NoMemory) -> Self {
        Unread::NoMemory
    }
}
