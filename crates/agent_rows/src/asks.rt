// Rows that are requests, and what is replied to them.
use crate::carrying::{ask, converse, take};
use crate::frames::frame_of;
use crate::looks::put_decimal;
use crate::named::Names;
use crate::requests::{Exchange, attach, open, read, version, walk, write};
use crate::unlike::Unlike;
use crate::verbs::{Verb, fid_of, fields_from, number_at, tag_of_wait};
use agent_core::Agent;
use row_files::Row;
use std::alloc::Global;
use wire_base::{Bytes, NoMemory};

/// The word that is drawn where no row says one.
pub(crate) const NO_WORD: [u8; 8] = [0; 8];

// A request that has the reply that is wanted.
fn goes_well(
    alloc: Global,
    agent: &mut Agent,
    conn: u64,
    exchange: &Exchange,
) -> Result<(), Unlike> {
    let came = converse(alloc, agent, conn, NO_WORD, exchange.request.as_slice())?;
    if came.as_slice() != exchange.reply.as_slice() {
        return Err(Unlike::Reply);
    }
    Ok(())
}

// A connection agrees on a version and attaches.
fn begin(alloc: Global, agent: &mut Agent, conn: u64) -> Result<(), Unlike> {
    goes_well(alloc, agent, conn, &version(alloc)?)?;
    goes_well(alloc, agent, conn, &attach(alloc)?)
}

// A fid walks to a file, and opens it.
fn open_file(alloc: Global, agent: &mut Agent, conn: u64, row: &Row) -> Result<(), Unlike> {
    let fid = fid_of(row)?;
    let file = row.field(4).ok_or(Unlike::Field)?;
    let mode = u8::try_from(number_at(row, 5)?).map_err(|_| Unlike::Field)?;
    goes_well(alloc, agent, conn, &walk(alloc, fid, file)?)?;
    goes_well(alloc, agent, conn, &open(alloc, fid, file, mode)?)
}

// A text is written whole.
fn write_text(
    alloc: Global,
    agent: &mut Agent,
    conn: u64,
    names: &Names,
    row: &Row,
) -> Result<(), Unlike> {
    let text = names.text(alloc, fields_from(row, 4))?;
    let exchange = write(alloc, fid_of(row)?, text.as_slice())?;
    goes_well(alloc, agent, conn, &exchange)
}

// Appends the line that adds the key of a numbered user, in a domain of his own.
fn put_key_line(alloc: Global, number: u64, lines: &mut Bytes) -> Result<(), NoMemory> {
    lines.append(b"key proto=apop user=u")?;
    put_decimal(alloc, number, lines)?;
    lines.append(b" dom=d")?;
    put_decimal(alloc, number, lines)?;
    lines.append(b" !password=x\n")
}

// The keys of users of these numbers are written at once.
fn write_keys(alloc: Global, agent: &mut Agent, conn: u64, row: &Row) -> Result<(), Unlike> {
    let mut lines = Bytes::new(alloc);
    for number in number_at(row, 4)?..number_at(row, 5)? {
        put_key_line(alloc, number, &mut lines)?;
    }
    let exchange = write(alloc, fid_of(row)?, lines.as_slice())?;
    goes_well(alloc, agent, conn, &exchange)
}

// What a read is replied.
fn read_bytes(
    alloc: Global,
    agent: &mut Agent,
    conn: u64,
    word: [u8; 8],
    row: &Row,
) -> Result<Bytes, Unlike> {
    let request = read(alloc, fid_of(row)?, 1)?;
    converse(alloc, agent, conn, word, request.as_slice())
}

// A read that has no reply yet.
fn wait(
    alloc: Global,
    agent: &mut Agent,
    conn: u64,
    word: [u8; 8],
    row: &Row,
) -> Result<Bytes, Unlike> {
    let fid = fid_of(row)?;
    let request = read(alloc, fid, tag_of_wait(fid)?)?;
    converse(alloc, agent, conn, word, request.as_slice())
}

// The one reply that is there.
fn take_last(alloc: Global, agent: &mut Agent, conn: u64) -> Result<Bytes, Unlike> {
    let reply = take(alloc, agent, conn)?;
    let more = take(alloc, agent, conn)?;
    if !more.as_slice().is_empty() {
        return Err(Unlike::More);
    }
    Ok(reply)
}

// A frame of the row, and its reply, if it has one.
fn ask_frame(
    alloc: Global,
    agent: &mut Agent,
    conn: u64,
    names: &Names,
    word: [u8; 8],
    row: &Row,
) -> Result<Bytes, Unlike> {
    let request = frame_of(alloc, names, fields_from(row, 3))?;
    converse(alloc, agent, conn, word, request.as_slice())
}

// A frame of the row, and no look at replies.
fn send_frame(
    alloc: Global,
    agent: &mut Agent,
    conn: u64,
    names: &Names,
    row: &Row,
) -> Result<(), Unlike> {
    let request = frame_of(alloc, names, fields_from(row, 3))?;
    ask(alloc, agent, conn, NO_WORD, request.as_slice())
}

// Requests whose replies the verb itself wants.
fn play_known(
    alloc: Global,
    agent: &mut Agent,
    names: &Names,
    verb: Verb,
    row: &Row,
) -> Result<(), Unlike> {
    let conn = number_at(row, 2)?;
    match verb {
        Verb::Send => send_frame(alloc, agent, conn, names, row),
        Verb::Begin => begin(alloc, agent, conn),
        Verb::Open => open_file(alloc, agent, conn, row),
        Verb::Keys => write_keys(alloc, agent, conn, row),
        _ => write_text(alloc, agent, conn, names, row),
    }
}

/// Plays a row that is a request or more: the reply, where the row says which it has to be.
pub(crate) fn play_request(
    alloc: Global,
    agent: &mut Agent,
    names: &Names,
    word: [u8; 8],
    verb: Verb,
    row: &Row,
) -> Result<Bytes, Unlike> {
    let conn = number_at(row, 2)?;
    match verb {
        Verb::Ask => ask_frame(alloc, agent, conn, names, word, row),
        Verb::Take => take(alloc, agent, conn),
        Verb::Told => take_last(alloc, agent, conn),
        Verb::Read => read_bytes(alloc, agent, conn, word, row),
        Verb::Rpc => {
            write_text(alloc, agent, conn, names, row)?;
            read_bytes(alloc, agent, conn, word, row)
        }
        Verb::Wait => {
            write_text(alloc, agent, conn, names, row)?;
            wait(alloc, agent, conn, word, row)
        }
        _ => {
            play_known(alloc, agent, names, verb, row)?;
            Ok(Bytes::new(alloc))
        }
    }
}
