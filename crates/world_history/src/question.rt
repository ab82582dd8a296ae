// The questions that an agent puts out.
use wire_base::{Bytes, List};

/// A question for the authentication server: its number, and its bytes.
#[derive(Debug, Drop)]
pub struct Question {
    pub call: u64,
    pub bytes: Bytes,
}

/// Questions, in the order in which they were put out.
pub type Questions = List<Question>;
