// The steps of records, as rows spell them.
use crate::texts::{argument, number_at, put_hex};
use anyhow::bail;
use row_files::Row;
use std::alloc::Global;
use wire_base::Bytes;
use wire_histories::{Protocol, Role, Step};

// A copy of a field.
fn bytes_at(alloc: Global, row: &Row, at: usize) -> anyhow::Result<Bytes> {
    Ok(Bytes::from_slice(alloc, argument(row, at)?)?)
}

/// Eight bytes, which a field has in hexadecimal digits.
pub(crate) fn word_at(alloc: Global, row: &Row, at: usize) -> anyhow::Result<[u8; 8]> {
    let mut bytes = Bytes::new(alloc);
    put_hex(argument(row, at)?, &mut bytes)?;
    match bytes.as_slice().as_chunks::<8>() {
        ([word], []) => Ok(*word),
        _ => bail!("a word has eight bytes"),
    }
}

fn message_number(row: &Row) -> anyhow::Result<u32> {
    Ok(u32::try_from(number_at(row, 2)?)?)
}

fn protocol_of(word: &[u8]) -> anyhow::Result<Protocol> {
    match word {
        b"p9sk1" => Ok(Protocol::P9sk1),
        b"p9any" => Ok(Protocol::P9any),
        b"apop" => Ok(Protocol::Apop),
        b"cram" => Ok(Protocol::Cram),
        _ => bail!("no such protocol"),
    }
}

fn role_of(word: &[u8]) -> anyhow::Result<Role> {
    match word {
        b"client" => Ok(Role::Client),
        b"server" => Ok(Role::Server),
        b"speakfor" => Ok(Role::Speakfor),
        _ => bail!("no such role"),
    }
}

// `start CONV PROTOCOL ROLE WORD`.
fn start_of(alloc: Global, row: &Row) -> anyhow::Result<Step> {
    let protocol = protocol_of(argument(row, 3)?)?;
    let role = role_of(argument(row, 4)?)?;
    let word = word_at(alloc, row, 5)?;
    let conv = bytes_at(alloc, row, 2)?;
    Ok(Step::Start {
        conv,
        protocol,
        role,
        word,
    })
}

// `asgot SESSION BYTES WORD WORD WORD`.
fn got_of(alloc: Global, row: &Row) -> anyhow::Result<Step> {
    let words = [
        word_at(alloc, row, 4)?,
        word_at(alloc, row, 5)?,
        word_at(alloc, row, 6)?,
    ];
    let session = bytes_at(alloc, row, 2)?;
    let bytes = bytes_at(alloc, row, 3)?;
    Ok(Step::AsGot {
        session,
        bytes,
        words,
    })
}

// `accept CONV USER USER`.
fn accept_of(alloc: Global, row: &Row) -> anyhow::Result<Step> {
    let conv = bytes_at(alloc, row, 2)?;
    let cuid = bytes_at(alloc, row, 3)?;
    let suid = bytes_at(alloc, row, 4)?;
    Ok(Step::Accept { conv, cuid, suid })
}

// A step of a name and bytes.
fn plain_of(alloc: Global, row: &Row) -> anyhow::Result<Step> {
    let conv = bytes_at(alloc, row, 2)?;
    let bytes = bytes_at(alloc, row, 3)?;
    match row.field(1) {
        Some(b"in") => Ok(Step::In { conv, bytes }),
        Some(b"heard") => Ok(Step::Heard { conv, bytes }),
        Some(b"fail") => Ok(Step::Fail { conv, cause: bytes }),
        Some(b"reply") => Ok(Step::Reply {
            conv,
            answer: bytes,
        }),
        Some(b"refused") => Ok(Step::Refused {
            node: conv,
            answer: bytes,
        }),
        _ => bail!("no such step"),
    }
}

// A step of a message: its number, a name and bytes.
fn message_of(alloc: Global, row: &Row) -> anyhow::Result<Step> {
    let number = message_number(row)?;
    let conv = bytes_at(alloc, row, 3)?;
    let bytes = bytes_at(alloc, row, 4)?;
    match row.field(1) {
        Some(b"out") => Ok(Step::Out {
            number,
            conv,
            bytes,
        }),
        Some(b"ask") => Ok(Step::Ask {
            number,
            conv,
            bytes,
        }),
        _ => Ok(Step::AsGave {
            number,
            session: conv,
            bytes,
        }),
    }
}

/// The step that a row `VERB STEP ..` spells.
pub(crate) fn step_of(alloc: Global, row: &Row) -> anyhow::Result<Step> {
    match argument(row, 1)? {
        b"start" => start_of(alloc, row),
        b"out" | b"ask" | b"asgave" => message_of(alloc, row),
        b"accept" => accept_of(alloc, row),
        b"asgot" => got_of(alloc, row),
        b"unheard" => Ok(Step::Unheard {
            conv: bytes_at(alloc, row, 2)?,
        }),
        b"asend" => Ok(Step::AsEnd {
            session: bytes_at(alloc, row, 2)?,
        }),
        b"restart" => Ok(Step::Restart {
            node: bytes_at(alloc, row, 2)?,
        }),
        b"reload" => Ok(Step::Reload),
        _ => plain_of(alloc, row),
    }
}
