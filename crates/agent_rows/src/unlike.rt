// Why a row can't be played, or isn't as its agent answers.
use wire_base::NoMemory;

/// Why a row can't be played, or what is another than its verb wants.
#[derive(Clone, Copy, Debug, PartialEq, Eq)]
pub(crate) enum Unlike {
    NoMemory,
    /// Memory ran out for an event or a question, and once more when it was put again.
    Twice,
    /// No row has this verb.
    Verb,
    /// A field is missing, or isn't what stands at its place.
    Field,
    /// No bytes have this name.
    Name,
    /// No message has this name, or the bytes are no whole frame.
    Frame,
    /// An answer of the authentication server has more bytes than it may.
    Answer,
    /// The agent answered an event otherwise.
    Event,
    /// Bytes were put out with an answer that has none, or none with one that has some.
    Bytes,
    /// A request had another reply.
    Reply,
    /// There is one more reply.
    More,
    /// The question has another call.
    Call,
    /// The authentication server isn't asked, or not so.
    Question,
}

impl Unlike {
    /// The cause in words.
    pub(crate) fn text(self) -> &'static str {
        match self {
            Unlike::NoMemory => "out of memory",
            Unlike::Twice => "out of memory twice",
            Unlike::Verb => "no such verb",
            Unlike::Field => "a field is missing, or isn't what stands there",
            Unlike::Name => "no such name",
            Unlike::Frame => "no such frame",
            Unlike::Answer => "too long for an answer",
            Unlike::Event => "the agent answered otherwise",
            Unlike::Bytes => "bytes where there are none, or none where there are some",
            Unlike::Reply => "another reply",
            Unlike::More => "one more reply",
            Unlike::Call => "a question of another call",
            Unlike::Question => "no such question",
        }
    }
}

impl From<NoMemory> for Unlike {
    fn from(_: NoMemory) -> Self {
        Unlike::NoMemory
    }
}
