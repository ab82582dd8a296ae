// A question before and after it is read.
use wire_base::Bytes;

/// A question that nobody has read: its tag, the conversation that asks, and its line with the newline.
#[derive(Debug, Drop)]
pub struct Prompt {
    pub tag: u64,
    pub conv: u64,
    pub line: Bytes,
}

/// A question that was read: its tag, and the conversation that asks.
#[derive(Clone, Copy, Debug, PartialEq, Eq)]
pub struct Asker {
    pub tag: u64,
    pub conv: u64,
}
