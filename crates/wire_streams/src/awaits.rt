// What waits until something may be done on a connection.

/// What would be done next on a connection.
#[derive(Clone, Copy, Debug, PartialEq, Eq)]
pub struct Wants {
    /// Bytes would be read.
    pub bytes: bool,
    /// Bytes would be written.
    pub room: bool,
    /// Replies would be taken, which others may bring about.
    pub replies: bool,
}

/// What may be done.
#[derive(Clone, Copy, Debug, PartialEq, Eq)]
pub enum Ready {
    /// There are bytes to read, or their end.
    Bytes,
    /// There is room for bytes to write.
    Room,
    /// There may be replies.
    Replies,
}

/// What waits until something may be done of what would be. It carries no claim: who is told has to look for himself, and may
/// wait where he was told wrongly.
pub trait Awaits {
    /// Waits, and says what may be done.
    fn await_one(&mut self, wants: Wants) -> Ready;
}

/// What never waits: there are always bytes, or their end.
#[derive(Clone, Copy, Debug)]
pub struct AtOnce;

impl Awaits for AtOnce {
    fn await_one(&mut self, _wants: Wants) -> Ready {
        Ready::Bytes
    }
}
