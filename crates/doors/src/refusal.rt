// Why a request is refused.
ghost use Rattle.std.specs.Prelude.{◌≡◌, ◌<◌, length};
ghost use Rattle.doors.specs.Refusals.{refusal_text};

use wire_base::NoMemory;

/// Why a request is refused.
#[derive(Clone, Copy, Debug, PartialEq, Eq)]
pub enum Refusal {
    /// The frame is longer than the largest message that was agreed.
    OverMsize,
    /// The frame is no message.
    BadMessage,
    /// No version is agreed.
    NoVersion,
    /// The largest message that is offered has fewer than 256 bytes.
    MsizeTooSmall,
    /// No fid is named by which a user may be authenticated.
    BadAfid,
    /// The fid that was to be new is held.
    InUse,
    /// As many fids are held as may be.
    TooMany,
    /// The agent refused a conversation, or is gone.
    Unavailable,
    /// The afid of an attach names no conversation.
    AuthenticationRequired,
    /// The afid's conversation is for another user or another tree.
    WrongAttach,
    /// The afid's conversation doesn't say that this user was accepted.
    NotAuthenticated,
    /// The fid isn't held.
    UnknownFid,
    /// The fid is open.
    AlreadyOpen,
    /// A walk by names began at a file that is no directory.
    NotDirectory,
    /// The first name of a walk isn't there.
    NotFound,
    /// The mode has bits that no mode of open(5) has.
    BadMode,
    /// The file, or what the fid is for, doesn't allow it.
    Denied,
    /// The fid isn't open.
    NotOpen,
    /// The fid isn't open for writing.
    NotOpenForWriting,
    /// A directory was read neither from 0 nor from where its latest read ended.
    BadOffset,
    /// What is written is longer than a request to a conversation may be.
    RpcTooLong,
}

impl Refusal {
    /// The text that tells a client of it.
    pub fn text(self) -> &'static [u8]
        ensures text { result.now ≡ refusal_text self }
        ensures short { length result.now < 64 }
    {
        match self {
            Refusal::OverMsize => b"message over msize",
            Refusal::BadMessage => b"bad message",
            Refusal::NoVersion => b"no version",
            Refusal::MsizeTooSmall => b"msize too small",
            Refusal::BadAfid => b"bad afid",
            Refusal::InUse => b"fid in use",
            Refusal::TooMany => b"too many fids",
            Refusal::Unavailable => b"authentication unavailable",
            Refusal::AuthenticationRequired => b"authentication required",
            Refusal::WrongAttach => b"wrong attach",
            Refusal::NotAuthenticated => b"not authenticated",
            Refusal::UnknownFid => b"unknown fid",
            Refusal::AlreadyOpen => b"already open",
            Refusal::NotDirectory => b"not a directory",
            Refusal::NotFound => b"file not found",
            Refusal::BadMode => b"bad open mode",
            Refusal::Denied => b"permission denied",
            Refusal::NotOpen => b"not open",
            Refusal::NotOpenForWriting => b"not open for writing",
            Refusal::BadOffset => b"bad directory offset",
            Refusal::RpcTooLong => b"rpc too long",
        }
    }
}

/// Why a request wasn't carried out.
#[derive(Clone, Copy, Debug, PartialEq, Eq)]
pub enum Refused {
    For(Refusal),
    NoMemory,
}

impl From<NoMemory> for Refused {
    ghost use Rattle.std.specs.Prelude.{◌≡◌};
    ghost use Rattle.doors.specs.declared.refusal.Refused.TheVariants.{NoMemory};

    ghost from_gives = { λ _ e. e ≡ NoMemory };

    fn from(_: NoMemory) -> Self {
        Refused::NoMemory
    }
}
