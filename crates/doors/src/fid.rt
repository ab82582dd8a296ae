// What the fids of a connection name.
use crate::file::DoorFile;
use wire_base::{Bytes, Text};

/// What a fid of the tree names.
#[derive(Drop)]
pub struct FileFid {
    pub file: DoorFile,
    /// The user for whom it was attached.
    pub uname: Text,
    pub is_open: bool,
    /// Where its next read of a directory may begin, beside 0: where the latest read since its open ended.
    pub next: u64,
}

/// What a fid names by which a user is authenticated. It has no Debug, as all that was read of an agent.
#[derive(Drop)]
pub struct AuthFid {
    /// The conversation of the port.
    pub conv: u64,
    pub uname: Text,
    pub aname: Text,
    /// The bytes of the port's latest answer that no read had room for.
    pub kept: Bytes,
}

/// What a fid names: a file of the tree, or a conversation.
#[derive(Drop)]
pub enum Names {
    File(FileFid),
    Conversation(AuthFid),
}

/// A fid that is held, and what it names.
#[derive(Drop)]
pub struct Held {
    pub fid: u32,
    pub names: Names,
}
