// The steps of a record.
use wire_base::Bytes;

/// The protocol that a conversation started with.
#[derive(Clone, Copy, Debug, PartialEq, Eq)]
pub enum Protocol {
    P9sk1,
    P9any,
    Apop,
    Cram,
}

/// The part that a conversation plays.
#[derive(Clone, Copy, Debug, PartialEq, Eq)]
pub enum Role {
    Client,
    Server,
    Speakfor,
}

/// One step of a record. Messages are numbered from 0 in the order in which they are recorded.
#[derive(Debug, Drop)]
pub enum Step {
    /// A conversation started, with this random word.
    Start {
        conv: Bytes,
        protocol: Protocol,
        role: Role,
        word: [u8; 8],
    },
    /// A conversation gave a message.
    Out {
        number: u32,
        conv: Bytes,
        bytes: Bytes,
    },
    /// A conversation took these bytes.
    In {
        conv: Bytes,
        bytes: Bytes,
    },
    /// A conversation's question for the authentication server.
    Ask {
        number: u32,
        conv: Bytes,
        bytes: Bytes,
    },
    /// A conversation heard the authentication server's answer.
    Heard {
        conv: Bytes,
        bytes: Bytes,
    },
    /// A conversation heard that there is no answer.
    Unheard {
        conv: Bytes,
    },
    /// A conversation accepted: the users on the client's machine and on the server's.
    Accept {
        conv: Bytes,
        cuid: Bytes,
        suid: Bytes,
    },
    /// A conversation broke.
    Fail {
        conv: Bytes,
        cause: Bytes,
    },
    /// An answer to a conversation's request that isn't ok and with which it didn't break.
    Reply {
        conv: Bytes,
        answer: Bytes,
    },
    /// A node refused a line of ctl.
    Refused {
        node: Bytes,
        answer: Bytes,
    },
    /// A session of the authentication server took a request, with its three random words.
    AsGot {
        session: Bytes,
        bytes: Bytes,
        words: [[u8; 8]; 3],
    },
    /// A session of the authentication server answered.
    AsGave {
        number: u32,
        session: Bytes,
        bytes: Bytes,
    },
    /// A session of the authentication server ended.
    AsEnd {
        session: Bytes,
    },
    /// A node was restarted: its conversations are gone, and so are its keys.
    Restart {
        node: Bytes,
    },
    /// The authentication server's tables were read again.
    Reload,
}
