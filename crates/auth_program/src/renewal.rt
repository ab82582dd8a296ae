// What comes of a look at the files of a server's tables.
use crate::status::Status;

/// What came of a look at the files.
#[derive(Clone, Copy, Debug, PartialEq, Eq)]
pub enum Renewal {
    /// Neither has changed.
    Same,
    /// Both were read, and are in force from now on.
    Read,
    /// They were refused as a whole, and why: what was in force stays so.
    Refused(Status),
}
