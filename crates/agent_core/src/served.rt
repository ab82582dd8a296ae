// What a frame that was served came to.

/// How the replies of a connection were taken.
#[derive(Clone, Copy, Debug, PartialEq, Eq)]
pub struct Served {
    /// How many replies were taken.
    pub taken: u64,
    /// Why no more were.
    pub end: TakeEnd,
}

/// Why no more replies of a connection were taken.
#[derive(Clone, Copy, Debug, PartialEq, Eq)]
pub enum TakeEnd {
    /// None is left, or the connection was hung up.
    NoneLeft,
    /// Memory was short for the next one, which stays to be taken.
    NoRoom,
    /// The agent stopped.
    Stopped,
}
