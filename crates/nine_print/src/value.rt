// The values of a message, written as text behind what the output holds.
ghost use Rattle.std.specs.Prelude.{◌≡◌, ◌++◌, [], OnOk, OnErr, IfOk, string_bytes, length, take, ◌≤◌};
ghost use Rattle.nine.specs.Encoded.{Extends};
ghost use Rattle.std.specs.List.{flat_map};
ghost use Rattle.std.specs.Fmt.{decimal};
ghost use Rattle.hex.specs.Hex.{encode_lower};
ghost use Rattle.nine_print.specs.Values.{number_text, fid_text, tag_text, perm_text, is_seen, byte_text, string_text, letter_text, kind_text, qid_shown, open_part, open_front, shown_part, is_printable, piece_text, dots, content_text};

use nine::Qid;
use std::alloc::Global;
use wire_base::{Bytes, NoMemory};

const NOFID: u32 = 0xffff_ffff;

const NOTAG: u16 = 0xffff;

// How many bytes of a content are shown at most.
const MOST_SHOWN: usize = 64;

fn digits(alloc: Global, n: u64) -> Result<String, NoMemory>
    ensures { IfOk result (λ text. string_bytes text ≡ decimal n) }
{
    Ok(format!(in alloc; "{n}")?)
}

fn hex_digits(alloc: Global, bytes: &[u8]) -> Result<String, NoMemory>
    ensures { IfOk result (λ text. string_bytes text ≡ encode_lower bytes.now) }
{
    Ok(hex::encode(alloc, bytes)?)
}

#[tactic(auto, unfolding(crate::specs::Values::number_text))]
pub(crate) fn put_number(
    alloc: Global,
    name: &[u8],
    n: u64,
    out: &mut Bytes,
) -> Result<(), NoMemory>
    ensures ok { OnOk result (out.new ≡ out.old ++ number_text name.now n) }
    ensures err { OnErr result (Extends out.old out.new) }
{
    let text = digits(alloc, n)?;
    out.append(name)?;
    out.append(text.as_bytes())
}

#[tactic(auto, unfolding(crate::specs::Values::fid_text))]
pub(crate) fn put_fid(alloc: Global, name: &[u8], fid: u32, out: &mut Bytes) -> Result<(), NoMemory>
    ensures ok { OnOk result (out.new ≡ out.old ++ fid_text name.now fid) }
    ensures err { OnErr result (Extends out.old out.new) }
{
    if fid == NOFID {
        out.append(name)?;
        out.append(b"NOFID")
    } else {
        put_number(alloc, name, fid as u64, out)
    }
}

#[tactic(auto, unfolding(crate::specs::Values::tag_text))]
pub(crate) fn put_tag(alloc: Global, tag: u16, out: &mut Bytes) -> Result<(), NoMemory>
    ensures ok { OnOk result (out.new ≡ out.old ++ tag_text tag) }
    ensures err { OnErr result (Extends out.old out.new) }
{
    if tag == NOTAG {
        out.append(b" tag NOTAG")
    } else {
        put_number(alloc, b" tag ", tag as u64, out)
    }
}

#[tactic(auto, unfolding(crate::specs::Values::perm_text))]
pub(crate) fn put_perm(
    alloc: Global,
    name: &[u8],
    perm: u32,
    out: &mut Bytes,
) -> Result<(), NoMemory>
    ensures ok { OnOk result (out.new ≡ out.old ++ perm_text name.now perm) }
    ensures err { OnErr result (Extends out.old out.new) }
{
    let text = hex_digits(alloc, &perm.to_be_bytes())?;
    out.append(name)?;
    out.append(text.as_bytes())
}

fn check_seen(byte: u8) -> bool
    ensures { result ≡ is_seen byte }
{
    byte >= b' ' && byte <= b'~'
}

fn put_byte(alloc: Global, byte: u8, out: &mut Bytes) -> Result<(), NoMemory>
    ensures ok { OnOk result (out.new ≡ out.old ++ byte_text byte) }
    ensures err { OnErr result (Extends out.old out.new) }
{
    match byte {
        b'\n' => out.append(b"\\n"),
        b'\t' => out.append(b"\\t"),
        b'\'' | b'\\' => out.append(&[b'\\', byte]),
        _ if check_seen(byte) => out.push(byte),
        _ => {
            let text = hex_digits(alloc, &[byte])?;
            out.append(b"\\x")?;
            out.append(text.as_bytes())
        }
    }
}

fn put_bytes(alloc: Global, bytes: &[u8], out: &mut Bytes) -> Result<(), NoMemory>
    ensures ok { OnOk result (out.new ≡ out.old ++ flat_map byte_text bytes.now) }
    ensures err { OnErr result (Extends out.old out.new) }
{
    for byte in bytes {
        put_byte(alloc, *byte, out)?;
    }
    Ok(())
}

#[tactic(auto, unfolding(crate::specs::Values::string_text))]
pub(crate) fn put_string(
    alloc: Global,
    name: &[u8],
    text: &[u8],
    out: &mut Bytes,
) -> Result<(), NoMemory>
    ensures ok { OnOk result (out.new ≡ out.old ++ string_text name.now text.now) }
    ensures err { OnErr result (Extends out.old out.new) }
{
    out.append(name)?;
    out.push(b'\'')?;
    put_bytes(alloc, text, out)?;
    out.push(b'\'')
}

fn put_letter(kind: u8, bit: u8, letter: u8, out: &mut Bytes) -> Result<(), NoMemory>
    ensures ok { OnOk result (out.new ≡ out.old ++ letter_text kind bit letter) }
    ensures err { OnErr result (out.new ≡ out.old) }
{
    if kind & bit == 0 {
        Ok(())
    } else {
        out.push(letter)
    }
}

fn put_kind(kind: u8, out: &mut Bytes) -> Result<(), NoMemory>
    ensures ok { OnOk result (out.new ≡ out.old ++ kind_text kind) }
    ensures err { OnErr result (Extends out.old out.new) }
{
    put_letter(kind, 0x80, b'd', out)?;
    put_letter(kind, 0x40, b'a', out)?;
    put_letter(kind, 0x20, b'l', out)?;
    put_letter(kind, 0x08, b'A', out)
}

#[tactic(auto, unfolding(crate::specs::Values::qid_shown))]
pub(crate) fn put_qid(
    alloc: Global,
    name: &[u8],
    qid: &Qid,
    out: &mut Bytes,
) -> Result<(), NoMemory>
    ensures ok { OnOk result (out.new ≡ out.old ++ qid_shown name.now qid.now) }
    ensures err { OnErr result (Extends out.old out.new) }
{
    let path = hex_digits(alloc, &qid.path.to_be_bytes())?;
    out.append(name)?;
    out.push(b'(')?;
    out.append(path.as_bytes())?;
    put_number(alloc, b" ", qid.vers as u64, out)?;
    out.push(b' ')?;
    put_kind(qid.kind, out)?;
    out.push(b')')
}

// How many bytes of a content may be shown, where a `!` stands before on its line or not.
fn open_len(marked: bool, bytes: &[u8]) -> usize
    ensures part { take result bytes.now ≡ open_part marked bytes.now }
    ensures short { result ≤ length bytes.now }
{
    match bytes {
        [] => 0,
        [byte, rest @ ..] => {
            if marked && *byte == b'=' {
                1
            } else {
                1 + open_len(*byte != b'\n' && (marked || *byte == b'!'), rest)
            }
        }
    }
}

// The bytes of a content that are looked at.
#[tactic(auto, using(crate::proofs::PieceLaws::short_front))]
fn front_of(content: &[u8]) -> &[u8]
    ensures { result.now ≡ take 64 content.now }
{
    if content.len() > MOST_SHOWN {
        content.split_at(MOST_SHOWN).0
    } else {
        content
    }
}

// What of the front of a content may be shown.
fn open_front(content: &[u8]) -> &[u8]
    ensures { result.now ≡ open_front content.now }
{
    let front = front_of(content);
    front.split_at(open_len(false, front)).0
}

// What of a content is shown, with secrets or without.
fn shown_of(secrets: bool, content: &[u8]) -> &[u8]
    ensures { result.now ≡ shown_part secrets content.now }
{
    let front = open_front(content);
    if secrets || check_printable(front) {
        front
    } else {
        b""
    }
}

fn check_printable(bytes: &[u8]) -> bool
    ensures { result ≡ is_printable bytes.now }
{
    bytes.iter().all(|byte| check_seen(*byte) || *byte == b'\n' || *byte == b'\t')
}

#[tactic(auto, unfolding(crate::specs::Values::piece_text))]
fn put_piece(alloc: Global, bytes: &[u8], out: &mut Bytes) -> Result<(), NoMemory>
    ensures ok { OnOk result (out.new ≡ out.old ++ piece_text bytes.now) }
    ensures err { OnErr result (Extends out.old out.new) }
{
    if check_printable(bytes) {
        put_string(alloc, b"", bytes, out)
    } else {
        let text = hex_digits(alloc, bytes)?;
        out.append(text.as_bytes())
    }
}

fn put_dots(part: &[u8], whole: &[u8], out: &mut Bytes) -> Result<(), NoMemory>
    ensures ok { OnOk result (out.new ≡ out.old ++ dots part.now whole.now) }
    ensures err { OnErr result (Extends out.old out.new) }
{
    if part.len() < whole.len() {
        out.append(b"..")
    } else {
        Ok(())
    }
}

#[tactic(auto, unfolding(crate::specs::Values::content_text))]
pub(crate) fn put_content(
    alloc: Global,
    secrets: bool,
    name: &[u8],
    content: &[u8],
    out: &mut Bytes,
) -> Result<(), NoMemory>
    ensures ok { OnOk result (out.new ≡ out.old ++ content_text secrets name.now content.now) }
    ensures err { OnErr result (Extends out.old out.new) }
{
    let part = shown_of(secrets, content);
    put_number(alloc, name, content.len() as u64, out)?;
    out.push(b' ')?;
    put_piece(alloc, part, out)?;
    put_dots(part, content, out)
}
