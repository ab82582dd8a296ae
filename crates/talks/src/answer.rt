// Answers, as they are read.

use attr_tuples::Tuple;
use wire_base::{AuthInfo, Bytes};

/// What a request is answered, one variant a text. It has no Debug, which would print secrets.
#[derive(Drop)]
pub enum RpcAnswer {
    /// It is done.
    Ok,
    /// It is done, and these bytes were got.
    Got(Bytes),
    /// The conversation was at its end before, with an authinfo.
    DoneHaveai,
    /// It was at its end before, without one.
    Done,
    /// A start whose template gives a secret.
    SecretInTemplate,
    /// A start of a protocol that isn't spoken.
    UnknownProto,
    /// A start in a role that the protocol hasn't.
    UnknownRole,
    /// A start that speaks for somebody who is no user.
    BadUser,
    /// A start whose argument is no template.
    BadTemplate,
    WrongKind,
    WrongChallenge,
    WrongUser,
    NotOffered,
    ServerSaidNo,
    NoServer,
    /// This key opens nothing; its public attributes are shown.
    BadKey(Tuple),
    TooLong,
    /// The message has to have so many bytes.
    TooSmall(u32),
    /// A key is needed that matches this template.
    NeedKey(Tuple),
    /// The user of a key didn't agree that it is used.
    Denied,
    /// There was no memory for the authentication server's answer.
    NoRoom,
    AwaitsRead,
    AwaitsWrite,
    Broken,
    NotStarted,
    AlreadyStarted,
    /// Who was accepted, and the secret.
    Info(AuthInfo),
    NoInfo,
    /// The attributes of the conversation, without secrets.
    Attributes(Tuple),
}
