// Values as they are printed: in quotes where a reader would cut them.
ghost use Rattle.std.specs.Prelude.{◌≡◌, ◌++◌, length, take, OnOk, OnErr};
ghost use Rattle.std.specs.List.{list_any};
ghost use Rattle.attr_tuples.specs.Words.{ends_unquoted, needs_quotes, quoted, quoted_byte, value_text};

use wire_base::{Bytes, NoMemory};

/// Appends a value: in quotes exactly where it is empty or holds a blank, a tab or a `'`, each `'` inside them twice.
/// Without memory `out` is as before.
pub fn put_value(text: &[u8], out: &mut Bytes) -> Result<(), NoMemory>
    ensures ok { OnOk result (out.new ≡ out.old ++ value_text text.now) }
    ensures err { OnErr result (out.new ≡ out.old) }
{
    if !check_needs_quotes(text) {
        return out.append(text);
    }
    let before = out.len();
    let done = append_quoted(text, out);
    out.undo_on_err(before, done)
}

fn check_needs_quotes(text: &[u8]) -> bool
    ensures { result ≡ needs_quotes text.now }
{
    text.is_empty() || holds_end(text)
}

fn holds_end(text: &[u8]) -> bool
    ensures { result ≡ list_any ends_unquoted text.now }
{
    text.iter()
        .any(|byte| *byte == b' ' || *byte == b'\t' || *byte == b'\'')
}

// What is appended before memory runs out stays, here and below.
#[tactic(auto, using(wire_base::proofs::FrontLemmas::kept_then))]
fn append_quoted(text: &[u8], out: &mut Bytes) -> Result<(), NoMemory>
    ensures ok { OnOk result (out.new ≡ out.old ++ quoted text.now) }
    ensures err { OnErr result (take (length out.old) out.new ≡ out.old) }
{
    out.push(b'\'')?;
    for byte in text {
        append_quoted_byte(*byte, out)?;
    }
    out.push(b'\'')
}

fn append_quoted_byte(byte: u8, out: &mut Bytes) -> Result<(), NoMemory>
    ensures ok { OnOk result (out.new ≡ out.old ++ quoted_byte byte) }
    ensures err { OnErr result (take (length out.old) out.new ≡ out.old) }
{
    if byte == b'\'' {
        out.push(b'\'')?;
    }
    out.push(byte)
}
