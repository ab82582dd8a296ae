// How far a conversation has come.

use crate::key::SkKey;
use wire_base::Name;

/// The side that a conversation takes.
#[derive(Clone, Copy, Debug, PartialEq, Eq)]
pub enum Role {
    Client,
    Server,
    /// A client that asks to be this user, whatever user its key is of.
    Speakfor { user: Name<28> },
}

/// Between which two moves of p9sk1 a conversation stands, with what was taken and found in the moves that passed, as it
/// came (authsrv(6) of the Plan 9 manual). It has no Debug, which would print keys.
#[derive(Clone, Copy)]
pub enum Stage {
    /// A client, before its challenge is got.
    ClientFirst,
    /// Before the server's request is given.
    ClientSecond,
    /// A request was given, and a key is needed.
    ClientKey {
        request: [u8; 141],
    },
    /// The key was found, and the authentication server's answer is needed.
    ClientAsk {
        request: [u8; 141],
        key: SkKey,
    },
    /// Two tickets were heard, and are to be got with an authenticator: one that the key opens, and the server's.
    ClientThird {
        request: [u8; 141],
        key: SkKey,
        tickets: [u8; 144],
    },
    /// Before the server's authenticator is given.
    ClientFourth {
        request: [u8; 141],
        key: SkKey,
        tickets: [u8; 144],
    },
    /// The server's authenticator was given.
    ClientDone {
        request: [u8; 141],
        key: SkKey,
        tickets: [u8; 144],
        proof: [u8; 13],
    },
    /// A server, which needs a key.
    ServerKey,
    /// Before the client's challenge is given.
    ServerFirst {
        key: SkKey,
    },
    /// Before the request is got.
    ServerSecond {
        key: SkKey,
        theirs: [u8; 8],
    },
    /// Before the client's ticket and authenticator are given.
    ServerThird {
        key: SkKey,
        theirs: [u8; 8],
    },
    /// The client is accepted, and the server's authenticator is to be got.
    ServerFourth {
        key: SkKey,
        theirs: [u8; 8],
        shown: [u8; 85],
    },
    /// The server's authenticator was got.
    ServerDone {
        key: SkKey,
        theirs: [u8; 8],
        shown: [u8; 85],
    },
}
