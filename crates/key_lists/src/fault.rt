// Why a line of ctl that adds or deletes keys is refused.
ghost use Rattle.std.specs.Prelude.{◌≡◌};
ghost use Rattle.key_lists.specs.declared.fault.AddFault.TheVariants.{NoMemory};

use std::alloc::{AllocError, AllocFailed};

/// Why a key isn't added. The first of these that is so is told, in the order in which they stand here.
#[derive(Clone, Copy, Debug, PartialEq, Eq)]
pub enum AddFault {
    /// An attribute asks for a value.
    AskInKey,
    /// No attribute is named `proto`.
    NoProto,
    /// `proto` is named more than once, or its value isn't p9sk1, apop or cram.
    UnknownProto,
    /// No attribute is named `user`.
    NoUser,
    /// A key of p9sk1 has no attribute named `dom`.
    NoDom,
    /// `user` or `dom` is named more than once, without a value, or with one that is no name.
    BadName,
    /// There is no secret that the protocol can use.
    NoSecret,
    /// A key of p9sk1 has a `!hex` that isn't 14 hexadecimal digits.
    BadHex,
    /// The ring is full, and no key of it is replaced.
    Full,
    /// No memory for the key. Only this may come at any time, and then the ring is as before.
    NoMemory,
}

impl<T: Drop> From<AllocFailed<T>> for AddFault {
    ghost from_gives = { λ _ e. e ≡ NoMemory };

    fn from(_: AllocFailed<T>) -> Self {
        AddFault::NoMemory
    }
}

impl From<AllocError> for AddFault {
    ghost from_gives = { λ _ e. e ≡ NoMemory };

    fn from(_: AllocError) -> Self {
        AddFault::NoMemory
    }
}

impl From<wire_base::NoMemory> for AddFault {
    ghost from_gives = { λ _ e. e ≡ NoMemory };

    fn from(_: wire_base::NoMemory) -> Self {
        AddFault::NoMemory
    }
}

/// Why no key is deleted. The first of these that is so is told, in the order in which they stand here.
#[derive(Clone, Copy, Debug, PartialEq, Eq)]
pub enum DeleteFault {
    /// A secret attribute of the template carries a value.
    SecretValue,
    /// No key matches the template.
    NoneMatched,
}
