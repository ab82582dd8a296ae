// What a call of a conversation answers.
ghost use Rattle.std.specs.Prelude.{◌≡◌, ◌≢◌};
ghost use Rattle.roles.specs.Courses.{refusal};

/// Why a conversation isn't started. The first of these that is so is told, in the order in which they stand here.
#[derive(Clone, Copy, Debug, PartialEq, Eq)]
pub enum StartFault {
    /// A secret attribute of the template carries a value.
    SecretValue,
    /// `proto` is missing, or names no protocol that is spoken.
    UnknownProto,
    /// `role` is missing, or names no role of the protocol.
    UnknownRole,
    /// The role is speakfor, and `user` isn't 1 to 27 bytes, each above the blank.
    BadUser,
    /// No memory for the conversation. Only this may come at any time.
    NoMemory,
}

/// Why a conversation is broken. Nothing follows in it.
#[derive(Clone, Copy, Debug, PartialEq, Eq)]
pub enum Cause {
    /// A message isn't of the kind that the protocol has here, or a field of it is bad.
    WrongKind,
    /// It is about another challenge than that of this login: it may be an old one.
    WrongChallenge,
    /// It names another user.
    WrongUser,
    /// It offers another domain than the one asked for.
    NotOffered,
    /// The authentication server refused.
    ServerSaidNo,
    /// The authentication server wasn't reached.
    NoServer,
    /// There was no memory for the authentication server's answer.
    NoRoom,
    /// The key doesn't open what the authentication server sealed for it.
    BadKey,
}

/// What a conversation that isn't at a call waits for.
#[derive(Clone, Copy, Debug, PartialEq, Eq)]
pub enum PhaseWord {
    /// The next message is to be got from it.
    AwaitsRead,
    /// The next message is to be given to it.
    AwaitsWrite,
    /// It is broken, and waits for nothing.
    Broken,
}

/// What a call of a conversation came to.
#[derive(Clone, Copy, Debug, PartialEq, Eq)]
pub enum Gave {
    /// The move was made.
    Ok,
    /// Something is needed first: a key, or an answer of the authentication server.
    Wait,
    /// The next move isn't this call. Nothing changed.
    Phase(PhaseWord),
    /// The message has to have so many bytes. Nothing changed.
    TooSmall(u32),
    /// The message has more bytes than it may have. Nothing changed.
    TooLong,
    /// The last move was made before, and there is an authinfo or none.
    Done { haveai: bool },
    /// The conversation is broken: the key opens nothing.
    BadKey,
    /// The conversation is broken by this cause, which isn't the key.
    Refused(Cause),
    /// No memory. The conversation is as before.
    NoMemory,
}

/// What a call answers that breaks a conversation.
pub fn refuse(cause: Cause) -> Gave
    ensures value { result ≡ refusal cause }
    ensures told { result ≢ Gave.NoMemory }
{
    match cause {
        Cause::BadKey => Gave::BadKey,
        Cause::WrongKind | Cause::WrongChallenge | Cause::WrongUser | Cause::NotOffered => {
            Gave::Refused(cause)
        }
        Cause::ServerSaidNo | Cause::NoServer | Cause::NoRoom => Gave::Refused(cause),
    }
}
