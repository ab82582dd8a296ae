// What may be waited for by a descriptor.
use crate::{MemSource, SteadySource};
use std::os::fd::RawFd;

/// What may have a descriptor by which the system tells that there is something.
pub trait Watched {
    /// The number of its descriptor; None where there is always something.
    fn descriptor(&self) -> Option<RawFd>;
}

impl Watched for MemSource {
    fn descriptor(&self) -> Option<RawFd> {
        None
    }
}

impl Watched for SteadySource {
    fn descriptor(&self) -> Option<RawFd> {
        None
    }
}
