// The lines of a round, each with its newline.
ghost use Rattle.std.specs.Prelude.{◌≡◌, ◌++◌, ◌∷◌, [], OnOk};
ghost use Rattle.std.specs.Fmt.{decimal};
ghost use Rattle.hex.specs.Hex.{encode_lower};
ghost use Rattle.world_scripts.specs.Pieces.{Whole, Spelled};
ghost use Rattle.world_scripts.specs.Lines.{Open, Start, Read, Write, Answer, NoAnswer, AsGive, Close, word};
ghost use Rattle.world_scripts.specs.Rounds.{client_tuple, gives, server_tuple, zeros};
ghost use Rattle.world_scripts.specs.Generated.{line};

use wire_base::{Bytes, NoMemory};

/// 85 bytes of zeros, in digits.
const ZEROS: [u8; 170] = [b'0'; 170];

// A word behind a blank.
fn put_word(out: &mut Bytes, text: &[u8]) -> Result<(), NoMemory>
    ensures { OnOk result (out.new ≡ out.old ++ word text.now) }
{
    out.push(b' ')?;
    out.append(text)
}

/// A number in decimal.
pub(crate) fn put_number(out: &mut Bytes, number: u64) -> Result<(), NoMemory>
    ensures { OnOk result (out.new ≡ out.old ++ decimal number) }
{
    let mut buffer = itoa::Buffer::new();
    out.append(buffer.format(number).as_bytes())
}

// A message whole, behind a blank.
fn put_message(out: &mut Bytes, message: u64) -> Result<(), NoMemory>
    ensures { OnOk result (out.new ≡ out.old ++ word (109 ∷ decimal message)) }
{
    out.append(b" m".as_slice())?;
    put_number(out, message)
}

// Eight bytes as hexadecimal digits, behind a blank.
fn put_random(out: &mut Bytes, random: &[u8; 8]) -> Result<(), NoMemory>
    ensures { OnOk result (out.new ≡ out.old ++ word (encode_lower random.now)) }
{
    let mut digits = [0; 16];
    hex::encode_to_slice(random, &mut digits).unwrap();
    put_word(out, &digits)
}

// The word of a line and what it is about.
fn put_named(out: &mut Bytes, title: &[u8], name: &[u8]) -> Result<(), NoMemory>
    ensures { OnOk result (out.new ≡ out.old ++ (title.now ++ word name.now)) }
{
    out.append(title)?;
    put_word(out, name)
}

/// A conversation is opened.
#[tactic(auto, unfolding(crate::specs::Generated::line))]
pub(crate) fn put_open(out: &mut Bytes, node: &[u8], conv: &[u8]) -> Result<(), NoMemory>
    ensures { OnOk result (out.new ≡ out.old ++ line (Open node.now conv.now)) }
{
    put_named(out, b"open".as_slice(), node)?;
    put_word(out, conv)?;
    out.push(b'\n')
}

// A conversation starts.
#[tactic(auto, unfolding(crate::specs::Generated::line))]
fn put_start(out: &mut Bytes, conv: &[u8], random: &[u8; 8], tuple: &[u8]) -> Result<(), NoMemory>
    ensures { OnOk result (out.new ≡ out.old ++ line (Start conv.now random.now tuple.now)) }
{
    put_named(out, b"start".as_slice(), conv)?;
    put_random(out, random)?;
    put_word(out, tuple)?;
    out.push(b'\n')
}

/// A client starts.
pub(crate) fn put_client(out: &mut Bytes, conv: &[u8], random: &[u8; 8]) -> Result<(), NoMemory>
    ensures { OnOk result (out.new
        ≡ out.old ++ line (Start conv.now random.now client_tuple)) }
{
    put_start(out, conv, random, b"proto=p9sk1 role=client".as_slice())
}

/// A server starts.
pub(crate) fn put_server(out: &mut Bytes, conv: &[u8], random: &[u8; 8]) -> Result<(), NoMemory>
    ensures { OnOk result (out.new
        ≡ out.old ++ line (Start conv.now random.now server_tuple)) }
{
    put_start(out, conv, random, b"proto=p9sk1 role=server".as_slice())
}

/// A conversation is read.
#[tactic(auto, unfolding(crate::specs::Generated::line))]
pub(crate) fn put_read(out: &mut Bytes, conv: &[u8]) -> Result<(), NoMemory>
    ensures { OnOk result (out.new ≡ out.old ++ line (Read conv.now)) }
{
    put_named(out, b"read".as_slice(), conv)?;
    out.push(b'\n')
}

/// A conversation is given a message.
#[tactic(auto, unfolding(crate::specs::Generated::line))]
pub(crate) fn put_given(out: &mut Bytes, conv: &[u8], message: u64) -> Result<(), NoMemory>
    ensures { OnOk result (out.new ≡ out.old ++ line (gives conv.now message)) }
{
    put_named(out, b"write".as_slice(), conv)?;
    put_message(out, message)?;
    out.push(b'\n')
}

/// A conversation is given zeros.
#[tactic(auto, unfolding(crate::specs::Generated::line))]
pub(crate) fn put_zeros(out: &mut Bytes, conv: &[u8]) -> Result<(), NoMemory>
    ensures { OnOk result (out.new ≡ out.old ++ line (Write conv.now (Spelled zeros ∷ []))) }
{
    put_named(out, b"write".as_slice(), conv)?;
    out.append(b" x".as_slice())?;
    out.append(&ZEROS)?;
    out.push(b'\n')
}

/// A conversation's question is answered.
#[tactic(auto, unfolding(crate::specs::Generated::line))]
pub(crate) fn put_answer(out: &mut Bytes, conv: &[u8], message: u64) -> Result<(), NoMemory>
    ensures { OnOk result (out.new
        ≡ out.old ++ line (Answer conv.now (Whole (decimal message) ∷ []))) }
{
    put_named(out, b"answer".as_slice(), conv)?;
    put_message(out, message)?;
    out.push(b'\n')
}

/// It isn't answered.
#[tactic(auto, unfolding(crate::specs::Generated::line))]
pub(crate) fn put_no_answer(out: &mut Bytes, conv: &[u8]) -> Result<(), NoMemory>
    ensures { OnOk result (out.new ≡ out.old ++ line (NoAnswer conv.now)) }
{
    put_named(out, b"noanswer".as_slice(), conv)?;
    out.push(b'\n')
}

/// A session of the authentication server is given a question.
#[tactic(auto, unfolding(crate::specs::Generated::line))]
pub(crate) fn put_asked(
    out: &mut Bytes,
    session: &[u8],
    message: u64,
    first: &[u8; 8],
    second: &[u8; 8],
    third: &[u8; 8],
) -> Result<(), NoMemory>
    ensures { OnOk result (out.new ≡ out.old
        ++ line (AsGive session.now (Whole (decimal message) ∷ []) first.now second.now third.now)) }
{
    put_named(out, b"asgive".as_slice(), session)?;
    put_message(out, message)?;
    put_random(out, first)?;
    put_random(out, second)?;
    put_random(out, third)?;
    out.push(b'\n')
}

/// A conversation is closed.
#[tactic(auto, unfolding(crate::specs::Generated::line))]
pub(crate) fn put_close(out: &mut Bytes, conv: &[u8]) -> Result<(), NoMemory>
    ensures { OnOk result (out.new ≡ out.old ++ line (Close conv.now)) }
{
    put_named(out, b"close".as_slice(), conv)?;
    out.push(b'\n')
}
