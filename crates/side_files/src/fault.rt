// Why a line isn't read, and why a reply isn't taken.
use wire_base as base;

/// The first line has more bytes than may be read. It stays.
#[derive(Clone, Copy, Debug, PartialEq, Eq)]
pub struct TooSmall;

/// Why no line is read. The line stays.
#[derive(Clone, Copy, Debug, PartialEq, Eq)]
pub enum PromptFault {
    /// The first line has more bytes than may be read.
    TooSmall,
    NoMemory,
}

/// No question that was read has this tag.
#[derive(Clone, Copy, Debug, PartialEq, Eq)]
pub struct UnknownTag;

impl From<base::NoMemory> for PromptFault {
    ghost use Rattle.std.specs.Prelude.{◌≡◌};
    ghost use Rattle.side_files.specs.declared.fault.PromptFault.TheVariants.{NoMemory};

    ghost from_gives = { λ _ e. e ≡ NoMemory };

    fn from(_: base::NoMemory) -> Self {
        PromptFault::NoMemory
    }
}
