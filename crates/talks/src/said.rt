// What a request has learnt of its user, and by which files he may be asked.
use wire_base::List;

/// What a request of a conversation has learnt of its user.
#[derive(Drop)]
pub struct Said {
    /// The numbers of the keys to whose use he agreed, in the order in which he was asked.
    pub agreed: List<u64>,
    /// The numbers of the keys whose use he denied.
    pub denied: List<u64>,
    /// Whether he was asked for a key.
    pub asked: bool,
}

/// Which of the two files by which a user is asked are open.
#[derive(Clone, Copy, Debug, PartialEq, Eq)]
pub struct Asking {
    pub confirm: bool,
    pub needkey: bool,
}
