// Why a text is no tuple, and why tuples can't be merged.
use std::alloc::AllocFailed;
use wire_base as base;

/// What is wrong with a text that should be a tuple, or want of memory. Offsets count bytes from 0.
#[derive(Clone, Copy, Debug, PartialEq, Eq)]
pub enum TupleFault {
    /// The first byte that is no UTF-8, or is below 0x20 and no tab.
    NotText { at: u64 },
    /// The `'` at this offset isn't closed.
    Quote { at: u64 },
    /// The word that begins at this offset has a name that is empty, is `!` alone, or holds a blank, a tab, a `'` or
    /// a `?`.
    Name { at: u64 },
    /// There is a 37th word.
    TooMany,
    NoMemory,
}

impl From<base::NoMemory> for TupleFault {
    ghost use Rattle.std.specs.Prelude.{◌≡◌};
    ghost use Rattle.attr_tuples.specs.declared.fault.TupleFault.TheVariants.{NoMemory};

    ghost from_gives = { λ _ e. e ≡ NoMemory };

    fn from(_: base::NoMemory) -> Self {
        TupleFault::NoMemory
    }
}

impl<T: Drop> From<AllocFailed<T>> for TupleFault {
    ghost use Rattle.std.specs.Prelude.{◌≡◌};
    ghost use Rattle.attr_tuples.specs.declared.fault.TupleFault.TheVariants.{NoMemory};

    ghost from_gives = { λ _ e. e ≡ NoMemory };

    fn from(_: AllocFailed<T>) -> Self {
        TupleFault::NoMemory
    }
}

/// Why two tuples could not be merged.
#[derive(Clone, Copy, Debug, PartialEq, Eq)]
pub enum MergeFault {
    /// There would be more than 36 attributes.
    TooMany,
    NoMemory,
}

impl From<base::NoMemory> for MergeFault {
    ghost use Rattle.std.specs.Prelude.{◌≡◌};
    ghost use Rattle.attr_tuples.specs.declared.fault.MergeFault.TheVariants.{NoMemory};

    ghost from_gives = { λ _ e. e ≡ NoMemory };

    fn from(_: base::NoMemory) -> Self {
        MergeFault::NoMemory
    }
}

impl<T: Drop> From<AllocFailed<T>> for MergeFault {
    ghost use Rattle.std.specs.Prelude.{◌≡◌};
    ghost use Rattle.attr_tuples.specs.declared.fault.MergeFault.TheVariants.{NoMemory};

    ghost from_gives = { λ _ e. e ≡ NoMemory };

    fn from(_: AllocFailed<T>) -> Self {
        MergeFault::NoMemory
    }
}
