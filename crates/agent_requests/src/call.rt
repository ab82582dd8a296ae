// What every request carries.
use std::alloc::Global;

/// A request: where its memory comes from, its connection, its tag, and the word that was drawn for it.
#[derive(Clone, Copy, Drop)]
pub struct Call {
    pub alloc: Global,
    pub conn: u64,
    pub tag: u16,
    pub word: [u8; 8],
}
