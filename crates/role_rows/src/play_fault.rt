// Why a row isn't played.
use std::alloc::AllocError;
use wire_base::NoMemory;

/// Why a row isn't played.
#[derive(Clone, Copy, Debug, PartialEq, Eq)]
pub(crate) enum PlayFault {
    /// It can't be carried out, for this cause.
    Row(&'static str),
    NoMemory,
}

impl From<NoMemory> for PlayFault {
    fn from(_: NoMemory) -> Self {
        PlayFault::NoMemory
    }
}

impl From<AllocError> for PlayFault {
    fn from(_: AllocError) -> Self {
        PlayFault::NoMemory
    }
}
