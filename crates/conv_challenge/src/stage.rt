// How far a conversation has come.

use roles::SkKey;
use wire_base::{Bytes, Name, Text};

/// The most bytes of a challenge.
pub const MOST_CHALLENGE: usize = 128;

/// The protocol of a conversation: it says how digits are made of a challenge and a password.
#[derive(Clone, Copy, Debug, PartialEq, Eq)]
pub enum Proto {
    Apop,
    Cram,
}

/// The side that a conversation takes.
#[derive(Clone, Copy, Debug, PartialEq, Eq)]
pub enum Side {
    Client,
    Server,
}

/// Between which two moves a conversation stands, with what was taken and found in the moves that passed, as it came. It
/// has no Debug, which would print keys and passwords.
#[derive(Drop)]
pub enum Stage {
    /// A client, before the challenge is given.
    ClientFirst,
    /// The challenge was given, and a key is needed.
    ClientKey {
        challenge: Bytes,
    },
    /// Before the digits are got.
    ClientSecond {
        challenge: Bytes,
        password: Text,
    },
    /// The digits were got.
    ClientDone {
        challenge: Bytes,
        password: Text,
    },
    /// A server, which needs a key.
    ServerKey,
    /// The key was found, and a challenge of the authentication server is needed.
    ServerAsk {
        key: SkKey,
    },
    /// Before the challenge is got.
    ServerFirst {
        key: SkKey,
        challenge: Bytes,
    },
    /// Before the user's name is given.
    ServerSecond {
        key: SkKey,
        challenge: Bytes,
    },
    /// Before the user's digits are given.
    ServerThird {
        key: SkKey,
        challenge: Bytes,
        user: Name<28>,
    },
    /// The digits were given, and the authentication server is to vouch for the user.
    ServerVouch {
        key: SkKey,
        challenge: Bytes,
        user: Name<28>,
        digits: [u8; 32],
    },
    /// The user is accepted, by a ticket and an authenticator of the authentication server.
    ServerDone {
        key: SkKey,
        challenge: Bytes,
        user: Name<28>,
        digits: [u8; 32],
        vouch: [u8; 85],
    },
}
