// The events of an agent, each of them one step, and what a step answers.
use wire_base::{Bytes, Shape};

/// What happens to an agent. It has no Debug, which would print the secrets that a frame writes.
#[derive(Drop)]
pub enum Event {
    /// A whole frame came on a connection, together with a word that was drawn for it.
    Request {
        conn: u64,
        frame: Bytes,
        word: [u8; 8],
    },
    /// A connection was hung up.
    Hang {
        conn: u64,
    },
    /// The authentication server answered the question of this number, by at most 160 bytes.
    Answer {
        call: u64,
        bytes: Bytes,
    },
    /// The question of this number stays without an answer.
    NoAnswer {
        call: u64,
    },
    /// There was no memory for the answer to the question of this number.
    NoRoom {
        call: u64,
    },
    /// The oldest reply of a connection that wasn't taken yet is asked for.
    Take {
        conn: u64,
    },
    /// The oldest that wasn't taken yet is asked for, of the questions for the authentication server and of the connections
    /// to it that are needed no more.
    TakeAsk,
    /// The agent stops for good.
    Stop,
}

/// What a step answers, beside the bytes that it puts out.
#[derive(Clone, Copy, Debug, PartialEq, Eq)]
pub enum StepAnswer {
    /// It was carried out.
    Done,
    /// A reply was put out.
    Reply,
    /// There is no reply to take.
    NoReply,
    /// The connection was hung up, or the agent stopped.
    Gone,
    /// A question of a conversation was put out.
    Ask { call: u64, conv: u64, shape: Shape },
    /// A conversation needs the connection to the authentication server no more that it kept.
    DropCall { conv: u64 },
    /// There is neither to take.
    NoAsk,
    /// The agent stopped.
    Stopped,
}
