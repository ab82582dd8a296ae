// The server's name for a file.
use wire_base::List;

/// A qid: the type byte of the file, its version and its path.
#[derive(Clone, Copy, Debug, PartialEq, Eq)]
pub struct Qid {
    pub kind: u8,
    pub vers: u32,
    pub path: u64,
}

/// Qids, in order.
pub type QidList = List<Qid>;
