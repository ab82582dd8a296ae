// What a frame tells by its bytes: its type, and a field of it.
ghost use Rattle.std.specs.Prelude.{◌≡◌, option_map};
ghost use Rattle.attach_program.specs.Notes.{attacher, is_kind, refusal_in};

use wire_base::get_str;

// Where the type of a message stands, where the uname of an attach does, and where the text of a refusal begins.
const KIND_AT: usize = 4;

const UNAME_AT: usize = 15;

const TEXT_AT: usize = 9;

const ATTACH: u8 = 104;

const ERROR: u8 = 107;

/// Whether a frame is of a type.
pub(crate) fn is_kind(kind: u8, frame: &[u8]) -> bool
    ensures { result ≡ is_kind kind frame.now }
{
    frame.len() > KIND_AT && frame[KIND_AT] == kind
}

/// For whom a frame asks to attach, where it does.
pub(crate) fn attacher(frame: &[u8]) -> Option<&[u8]>
    ensures { option_map (λ uname. uname.now) result ≡ attacher frame.now }
{
    if is_kind(ATTACH, frame) {
        get_str(frame, UNAME_AT)
    } else {
        None
    }
}

/// The text of a reply that refuses.
pub(crate) fn refusal_in(reply: &[u8]) -> Option<&[u8]>
    ensures { option_map (λ text. text.now) result ≡ refusal_in reply.now }
{
    if is_kind(ERROR, reply) {
        let first = reply.len().min(TEXT_AT);
        Some(reply.split_at(first).1)
    } else {
        None
    }
}
