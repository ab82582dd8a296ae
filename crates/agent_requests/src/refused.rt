// Why a request is refused.
ghost use Rattle.std.specs.Prelude.{◌≡◌, ◌<◌, length};
ghost use Rattle.mailboxes.specs.Kept.{error_frame, reply_bytes};
ghost use Rattle.agent_requests.specs.Connections.{refusal_text};

use file_tree::FidFault;
use key_ring::LineFault;
use mailboxes::{ErrorText, Reply};
use wire_base::NoMemory;

/// Why a request is refused: nothing was changed.
#[derive(Clone, Copy, Debug, PartialEq, Eq)]
pub enum Refusal {
    /// The frame is longer than the largest message that was agreed.
    OverMsize,
    /// The frame is no message.
    BadMessage,
    /// No version is agreed.
    NoVersion,
    /// A read of the connection waits under the same tag.
    DuplicateTag,
    /// The largest message that is offered has fewer than 256 bytes.
    MsizeTooSmall,
    /// Nobody is authenticated here.
    NoAuthentication,
    /// An attach comes with an afid.
    BadAfid,
    /// The file is open, and one fid alone may have it open.
    ExclusiveUse,
    /// As many conversations stand as may.
    TooManyConversations,
    /// The conversation has a request that wasn't answered, or a read waits for its answer.
    RpcBusy,
    /// The conversation has no request, so that there is nothing to read.
    NoRpcPending,
    /// As many reads of the connection wait as may.
    TooManyWaiting,
    /// What is written is longer than a request of rpc may be.
    RpcTooLong,
    /// What is written is no request of rpc.
    UnknownRpcVerb,
    /// What is written to confirm or needkey is no reply.
    BadReply,
    /// No conversation waits for the reply to the question of a tag.
    UnknownTag,
    /// The line doesn't fit the read, and is kept.
    ReadTooSmall,
    /// It isn't allowed on any file.
    PermissionDenied,
    /// The fid isn't open.
    NotOpen,
    /// The fid isn't open for reading.
    NotOpenForReading,
    /// The fid isn't open for writing.
    NotOpenForWriting,
    /// The fid, or the file that it names, doesn't allow it.
    OfFid(FidFault),
    /// A line of ctl is refused; those before it stand.
    OfLine(LineFault),
}

impl Refusal {
    /// The text of the reply that tells it.
    pub fn text(self) -> &'static [u8]
        ensures text { result.now ≡ refusal_text self }
        ensures short { length result.now < 64 }
    {
        match self {
            Refusal::OverMsize => b"message over msize",
            Refusal::BadMessage => b"bad message",
            Refusal::NoVersion => b"no version",
            Refusal::DuplicateTag => b"duplicate tag",
            Refusal::MsizeTooSmall => b"msize too small",
            Refusal::NoAuthentication => b"authentication not required",
            Refusal::BadAfid => b"bad afid",
            Refusal::ExclusiveUse => b"exclusive use file already open",
            Refusal::TooManyConversations => b"too many conversations",
            Refusal::RpcBusy => b"rpc busy",
            Refusal::NoRpcPending => b"no rpc pending",
            Refusal::TooManyWaiting => b"too many waiting",
            Refusal::RpcTooLong => b"rpc too long",
            Refusal::UnknownRpcVerb => b"unknown rpc verb",
            Refusal::BadReply => b"bad reply",
            Refusal::UnknownTag => b"unknown tag",
            Refusal::ReadTooSmall => b"read too small",
            Refusal::PermissionDenied => b"permission denied",
            Refusal::NotOpen => b"not open",
            Refusal::NotOpenForReading => b"not open for reading",
            Refusal::NotOpenForWriting => b"not open for writing",
            Refusal::OfFid(fault) => fault.text(),
            Refusal::OfLine(fault) => fault.text(),
        }
    }

    /// The reply that tells it. It takes no memory.
    pub fn reply(self, tag: u16) -> Reply
        ensures { reply_bytes result ≡ error_frame (refusal_text self) tag }
    {
        Reply::Refused {
            tag,
            text: ErrorText::new(self.text()),
        }
    }
}

/// Why a request wasn't answered by what it asked for. It changed nothing, but that a remove gives up its fid and that the
/// lines of ctl before a refused one stand.
#[derive(Clone, Copy, Debug, PartialEq, Eq)]
pub enum Refused {
    For(Refusal),
    NoMemory,
}

/// What a request that was tried comes to: its reply, or none where it waits for it.
pub(crate) type Tried = Result<Option<Reply>, Refused>;

impl From<NoMemory> for Refused {
    ghost use Rattle.std.specs.Prelude.{◌≡◌};
    ghost use Rattle.agent_requests.specs.declared.refused.Refused.TheVariants.{NoMemory};

    ghost from_gives = { λ _ e. e ≡ NoMemory };

    fn from(_: NoMemory) -> Self {
        Refused::NoMemory
    }
}

impl From<Refusal> for Refused {
    ghost use Rattle.std.specs.Prelude.{◌≡◌};
    ghost use Rattle.agent_requests.specs.declared.refused.Refused.TheVariants.{For};

    ghost from_gives = { λ r e. e ≡ For r };

    fn from(refusal: Refusal) -> Self {
        Refused::For(refusal)
    }
}

impl From<FidFault> for Refused {
    ghost use Rattle.std.specs.Prelude.{◌≡◌};
    ghost use Rattle.agent_requests.specs.Connections.{refused_by};

    ghost from_gives = { λ fault e. e ≡ refused_by fault };

    fn from(fault: FidFault) -> Self {
        match fault {
            FidFault::NoMemory => Refused::NoMemory,
            fault => Refused::For(Refusal::OfFid(fault)),
        }
    }
}
