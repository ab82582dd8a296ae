// Texts that a NUL ends.
ghost use Rattle.std.specs.Prelude.{◌≡◌, ◌==◌, ◌++◌, ◌∷◌, [], OnErr, OnOk};
ghost use Rattle.std.specs.List.{position};
ghost use Rattle.conv_p9any.specs.Steps.{Reads};
ghost use Rattle.conv_p9any.specs.Texts.{text_with_nul};

use crate::stage::MOST_TEXT;
use roles::Gave;
use wire_base::{Bytes, NoMemory};

/// The text in a message, or what is told where it has none.
#[tactic(auto, unfolding(crate::specs::Texts::text_in, sealing::specs::Fields::before_nul))]
pub fn read_text(bytes: &[u8]) -> Result<&[u8], Gave>
    ensures { Reads result bytes.now }
{
    if bytes.len() > MOST_TEXT {
        return Err(Gave::TooLong);
    }
    match find_nul(bytes) {
        Some(end) if end + 1 == bytes.len() => Ok(&bytes[..end]),
        Some(_) => Err(Gave::TooLong),
        None => Err(Gave::TooSmall(bytes.len() as u32 + 1)),
    }
}

fn find_nul(bytes: &[u8]) -> Option<usize>
    ensures { result ≡ position (λ b. b == 0) bytes.now }
{
    bytes.iter().position(|byte| *byte == 0)
}

/// Puts a text and its NUL behind what stands.
pub fn put_text(text: &[u8], out: &mut Bytes) -> Result<(), NoMemory>
    ensures ok { OnOk result (out.new ≡ out.old ++ text_with_nul text.now) }
    ensures err { OnErr result (out.new ≡ out.old) }
{
    let before = out.len();
    out.append(text)?;
    let done = out.push(0);
    out.undo_on_err(before, done)
}
