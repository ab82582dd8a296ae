// Words of a line, each behind a blank. What is appended before memory runs out stays.
ghost use Rattle.std.specs.Prelude.{◌≡◌, ◌++◌, ◌∷◌, [], length, take, OnOk, OnErr};
ghost use Rattle.std.specs.Fmt.{decimal};
ghost use Rattle.hex.specs.Hex.{encode_lower};
ghost use Rattle.attr_tuples.specs.Words.{value_text};
ghost use Rattle.wire_histories.specs.Lines.{word};

use wire_base::{Bytes, NoMemory};

/// Appends a word.
#[tactic(auto, using(wire_base::proofs::FrontLemmas::kept_then))]
pub(crate) fn put_word(out: &mut Bytes, text: &[u8]) -> Result<(), NoMemory>
    ensures ok { OnOk result (out.new ≡ out.old ++ word text.now) }
    ensures err { OnErr result (take (length out.old) out.new ≡ out.old) }
{
    out.push(b' ')?;
    out.append(text)
}

/// Appends a number in decimal.
pub(crate) fn put_number(out: &mut Bytes, number: u32) -> Result<(), NoMemory>
    ensures ok { OnOk result (out.new ≡ out.old ++ word (decimal number)) }
    ensures err { OnErr result (take (length out.old) out.new ≡ out.old) }
{
    let mut buffer = itoa::Buffer::new();
    put_word(out, buffer.format(number).as_bytes())
}

/// Appends bytes as hexadecimal digits in lower case; no bytes are an empty word.
#[tactic(auto, using(wire_base::proofs::FrontLemmas::kept_then, crate::proofs::LineLemmas::encode_more))]
pub(crate) fn put_digits(out: &mut Bytes, bytes: &[u8]) -> Result<(), NoMemory>
    ensures ok { OnOk result (out.new ≡ out.old ++ word (encode_lower bytes.now)) }
    ensures err { OnErr result (take (length out.old) out.new ≡ out.old) }
{
    out.push(b' ')?;
    for byte in bytes {
        out.append(&digits_of(*byte))?;
    }
    Ok(())
}

fn digits_of(byte: u8) -> [u8; 2]
    ensures { result ≡ encode_lower (byte ∷ []) }
{
    let mut digits = [0; 2];
    hex::encode_to_slice(&[byte], &mut digits).unwrap();
    digits
}

/// Appends a name as the value of an attribute is printed: in quotes where it is empty or holds a blank, a tab or a `'`.
#[tactic(auto, using(wire_base::proofs::FrontLemmas::kept_then))]
pub(crate) fn put_value(out: &mut Bytes, text: &[u8]) -> Result<(), NoMemory>
    ensures ok { OnOk result (out.new ≡ out.old ++ word (value_text text.now)) }
    ensures err { OnErr result (take (length out.old) out.new ≡ out.old) }
{
    out.push(b' ')?;
    attr_tuples::put_value(text, out)
}
