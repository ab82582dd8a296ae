// The messages, a variant each, with the fields of section 5 of the Plan 9 manual in the order of the wire.
use crate::qid::{Qid, QidList};
use wire_base::{Bytes, Text, TextList};

/// A request: its tag and what is asked.
#[derive(Debug, Drop)]
pub struct TMsg {
    pub tag: u16,
    pub body: TBody,
}

/// What a client asks.
#[derive(Debug, Drop)]
pub enum TBody {
    /// The largest message and the version that the client knows.
    Version {
        msize: u32,
        version: Text,
    },
    /// A fid over which the user is authenticated.
    Auth {
        afid: u32,
        uname: Text,
        aname: Text,
    },
    /// A fid for the root of the tree.
    Attach {
        fid: u32,
        afid: u32,
        uname: Text,
        aname: Text,
    },
    /// The request of this tag is to be given up.
    Flush {
        oldtag: u16,
    },
    /// A new fid for what is found from a fid by at most 16 names.
    Walk {
        fid: u32,
        newfid: u32,
        wname: TextList,
    },
    Open {
        fid: u32,
        mode: u8,
    },
    /// A new file in the directory of a fid, which then names it, open.
    Create {
        fid: u32,
        name: Text,
        perm: u32,
        mode: u8,
    },
    Read {
        fid: u32,
        offset: u64,
        count: u32,
    },
    Write {
        fid: u32,
        offset: u64,
        content: Bytes,
    },
    Clunk {
        fid: u32,
    },
    Remove {
        fid: u32,
    },
    Stat {
        fid: u32,
    },
    /// The bytes of a stat, as they came: at most 65,535.
    Wstat {
        fid: u32,
        stat: Bytes,
    },
}

/// A reply: the tag of its request and what is answered.
#[derive(Debug, Drop)]
pub struct RMsg {
    pub tag: u16,
    pub body: RBody,
}

/// What a server answers.
#[derive(Debug, Drop)]
pub enum RBody {
    Version { msize: u32, version: Text },
    Auth { aqid: Qid },
    Attach { qid: Qid },
    /// Why the request was refused.
    Error { ename: Text },
    Flush,
    /// The qids of the names that were found, at most 16.
    Walk { wqid: QidList },
    Open { qid: Qid, iounit: u32 },
    Create { qid: Qid, iounit: u32 },
    Read { content: Bytes },
    Write { count: u32 },
    Clunk,
    Remove,
    /// The bytes of a stat, at most 65,535.
    Stat { stat: Bytes },
    Wstat,
}
