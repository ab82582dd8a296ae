// The rounds of a script.
ghost use Rattle.std.specs.Prelude.{◌≡◌, ◌++◌, ◌≤◌, ◌+◌, ◌<◌, ◌^◌, IfOk, OnOk};
ghost use Rattle.world_scripts.specs.Rounds.{answering, challenging, client_of, ending, kind_of, middle, name, recorded, round_lines, server_of, session_of, starting};
ghost use Rattle.world_scripts.specs.Generated.{lines_text};

use crate::made_line::{
    put_answer, put_asked, put_client, put_close, put_given, put_no_answer, put_number, put_open,
    put_read, put_server, put_zeros,
};
use std::alloc::Global;
use wire_base::{Bytes, NoMemory};

/// What the server of a round is given in the end.
#[derive(Clone, Copy, Debug, PartialEq, Eq)]
pub enum Kind {
    /// The client's own message.
    Honest,
    /// That of the client of the round before.
    Replayed,
    /// None: the client's question isn't answered.
    Unanswered,
    /// Zeros.
    Blank,
}

/// The words that a round draws.
#[derive(Clone, Copy)]
pub struct Drawn {
    /// Those of the two starts.
    pub client: [u8; 8],
    pub server: [u8; 8],
    /// Those of the authentication server.
    pub first: [u8; 8],
    pub second: [u8; 8],
    pub third: [u8; 8],
}

/// The kind of a round.
pub(crate) fn kind_of(round: u32) -> Kind
    ensures { result ≡ kind_of round }
{
    match round % 4 {
        0 => Kind::Honest,
        1 => Kind::Replayed,
        2 => Kind::Unanswered,
        _ => Kind::Blank,
    }
}

/// How many messages a round of a kind records.
pub(crate) fn recorded(kind: Kind) -> u64
    ensures value { result ≡ recorded kind }
    ensures few { result ≤ 6 }
{
    match kind {
        Kind::Honest => 6,
        Kind::Replayed => 5,
        Kind::Unanswered => 3,
        Kind::Blank => 5,
    }
}

// A letter and a number.
fn name(alloc: Global, letter: u8, round: u32) -> Result<Bytes, NoMemory>
    ensures { IfOk result (λ made. made ≡ name letter round) }
{
    let mut made = Bytes::new(alloc);
    made.push(letter)?;
    put_number(&mut made, u64::from(round))?;
    Ok(made)
}

// The names of a round.
#[derive(Drop)]
struct Names {
    round: u32,
    client: Bytes,
    server: Bytes,
    session: Bytes,
    ghost is_client: { client ≡ client_of round },
    ghost is_server: { server ≡ server_of round },
    ghost is_session: { session ≡ session_of round },
}

impl Names {
    ghost use Rattle.std.specs.Prelude.{◌≡◌, IfOk};

    fn new(alloc: Global, round: u32) -> Result<Names, NoMemory>
        ensures { IfOk result (λ names. names.round ≡ round) }
    {
        Ok(Names {
            round,
            client: name(alloc, b'c', round)?,
            server: name(alloc, b's', round)?,
            session: name(alloc, b'r', round)?,
        })
    }
}

// Both conversations start.
fn put_starting(out: &mut Bytes, names: &Names, drawn: &Drawn) -> Result<(), NoMemory>
    ensures { OnOk result (out.new
        ≡ out.old ++ lines_text (starting names.now.round drawn.now)) }
{
    let (client, server) = (names.client.as_slice(), names.server.as_slice());
    put_open(out, b"a".as_slice(), client)?;
    put_open(out, b"b".as_slice(), server)?;
    put_client(out, client, &drawn.client)?;
    put_server(out, server, &drawn.server)
}

// Their challenges are carried.
fn put_challenging(out: &mut Bytes, names: &Names, first: u64) -> Result<(), NoMemory>
    requires { first + 6 < 2 ^ 64 }
    ensures { OnOk result (out.new
        ≡ out.old ++ lines_text (challenging names.now.round first)) }
{
    let (client, server) = (names.client.as_slice(), names.server.as_slice());
    put_read(out, client)?;
    put_given(out, server, first)?;
    put_read(out, server)?;
    put_given(out, client, first + 1)
}

// The client's question is answered.
fn put_answering(out: &mut Bytes, names: &Names, first: u64, drawn: &Drawn) -> Result<(), NoMemory>
    requires { first + 6 < 2 ^ 64 }
    ensures { OnOk result (out.new
        ≡ out.old ++ lines_text (answering names.now.round first drawn.now)) }
{
    let (client, session) = (names.client.as_slice(), names.session.as_slice());
    put_asked(
        out,
        session,
        first + 2,
        &drawn.first,
        &drawn.second,
        &drawn.third,
    )?;
    put_answer(out, client, first + 3)?;
    put_read(out, client)
}

// The rest of an honest round.
fn put_honest(out: &mut Bytes, names: &Names, first: u64, drawn: &Drawn) -> Result<(), NoMemory>
    requires { first + 6 < 2 ^ 64 }
    ensures { OnOk result (out.new ≡ out.old
        ++ lines_text (middle Kind.Honest names.now.round first first drawn.now)) }
{
    let (client, server) = (names.client.as_slice(), names.server.as_slice());
    put_answering(out, names, first, drawn)?;
    put_given(out, server, first + 4)?;
    put_read(out, server)?;
    put_given(out, client, first + 5)
}

// How a round goes on.
fn put_middle(
    out: &mut Bytes,
    names: &Names,
    kind: Kind,
    before: u64,
    first: u64,
    drawn: &Drawn,
) -> Result<(), NoMemory>
    requires before { before + 6 < 2 ^ 64 }
    requires first { first + 6 < 2 ^ 64 }
    ensures { OnOk result (out.new ≡ out.old
        ++ lines_text (middle kind names.now.round before first drawn.now)) }
{
    match kind {
        Kind::Honest => put_honest(out, names, first, drawn),
        Kind::Replayed => {
            put_answering(out, names, first, drawn)?;
            put_given(out, names.server.as_slice(), before + 4)
        }
        Kind::Unanswered => put_no_answer(out, names.client.as_slice()),
        Kind::Blank => {
            put_answering(out, names, first, drawn)?;
            put_zeros(out, names.server.as_slice())
        }
    }
}

// Both are closed.
fn put_ending(out: &mut Bytes, names: &Names) -> Result<(), NoMemory>
    ensures { OnOk result (out.new ≡ out.old ++ lines_text (ending names.now.round)) }
{
    put_close(out, names.client.as_slice())?;
    put_close(out, names.server.as_slice())
}

/// A round, where the first message of the round before it and its own have these numbers.
pub(crate) fn put_round(
    alloc: Global,
    out: &mut Bytes,
    round: u32,
    before: u64,
    first: u64,
    drawn: &Drawn,
) -> Result<(), NoMemory>
    requires before { before + 6 < 2 ^ 64 }
    requires first { first + 6 < 2 ^ 64 }
    ensures { OnOk result (out.new
        ≡ out.old ++ lines_text (round_lines round before first drawn.now)) }
{
    let names = Names::new(alloc, round)?;
    put_starting(out, &names, drawn)?;
    put_challenging(out, &names, first)?;
    put_middle(out, &names, kind_of(round), before, first, drawn)?;
    put_ending(out, &names)
}
