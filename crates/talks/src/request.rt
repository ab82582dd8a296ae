// Requests, as they are written.
ghost use Rattle.std.specs.Prelude.{◌≡◌, option_map};
ghost use Rattle.talks.specs.Requests.{Reads, argument_in, behind_verb};

/// How many bytes a request has at most.
pub const MOST_REQUEST: usize = 4096;

/// A request. It has no Debug, which would print what is written.
#[derive(Clone, Copy)]
pub enum Request<'a> {
    /// Starts the conversation by this template.
    Start(&'a [u8]),
    /// Gets the next message.
    Read,
    /// Gives this message.
    Write(&'a [u8]),
    /// Asks who was accepted, and for the secret.
    AuthInfo,
    /// Asks for the attributes of the conversation.
    Attr,
}

/// Why what was written is no request. The first of these that is so is told.
#[derive(Clone, Copy, Debug, PartialEq, Eq)]
pub enum RpcFault {
    /// It has more than 4096 bytes.
    TooLong,
    /// It doesn't begin with a verb that stands alone or before a blank.
    UnknownVerb,
}

/// Reads a request: `start`, `read`, `write`, `authinfo` or `attr`, alone or with a blank and an argument behind it.
/// It takes no memory.
#[tactic(auto, unfolding(crate::specs::Requests::request_of))]
pub fn parse_request(written: &[u8]) -> Result<Request<'_>, RpcFault>
    ensures { Reads result written.now }
{
    if written.len() > MOST_REQUEST {
        Err(RpcFault::TooLong)
    } else if let Some(template) = argument_in(written, b"start".as_slice()) {
        Ok(Request::Start(template))
    } else if argument_in(written, b"read".as_slice()).is_some() {
        Ok(Request::Read)
    } else if let Some(message) = argument_in(written, b"write".as_slice()) {
        Ok(Request::Write(message))
    } else if argument_in(written, b"authinfo".as_slice()).is_some() {
        Ok(Request::AuthInfo)
    } else if argument_in(written, b"attr".as_slice()).is_some() {
        Ok(Request::Attr)
    } else {
        Err(RpcFault::UnknownVerb)
    }
}

// The argument behind a verb, where the text is that verb's.
fn argument_in<'a>(text: &'a [u8], verb: &[u8]) -> Option<&'a [u8]>
    ensures { option_map (λ argument. argument.now) result ≡ argument_in verb.now text.now }
{
    match text.strip_prefix(verb) {
        Some(behind) => behind_verb(behind),
        None => None,
    }
}

fn behind_verb(behind: &[u8]) -> Option<&[u8]>
    ensures { option_map (λ argument. argument.now) result ≡ behind_verb behind.now }
{
    match behind {
        [] => Some(behind),
        [b' ', argument @ ..] => Some(argument),
        [_, ..] => None,
    }
}
