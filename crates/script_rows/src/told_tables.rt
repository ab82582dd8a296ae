// Rows of scripts and what they tell of the authentication server.
use crate::came::Came;
use crate::texts::argument;
use anyhow::bail;
use auth_server::{AsStep, AuthCore, Session};
use row_files::{Report, Row};
use std::alloc::Global;
use wire_base::Bytes;
use world_history::read_tables;

/// The kind of a request of APOP.
const APOP: u8 = 7;

/// How many bytes such a request has where no challenge is held.
const REQUEST_BYTES: usize = 141;

/// The words that are drawn for it.
static WORDS: [[u8; 8]; 3] = [
    [0x10, 0x11, 0x12, 0x13, 0x14, 0x15, 0x16, 0x17],
    [0x20, 0x21, 0x22, 0x23, 0x24, 0x25, 0x26, 0x27],
    [0x30, 0x31, 0x32, 0x33, 0x34, 0x35, 0x36, 0x37],
];

// Appends the answer to a first request of APOP.
fn put_challenge(core: &AuthCore, out: &mut Bytes) -> anyhow::Result<()> {
    let mut session = Session::new();
    let mut request = [0; REQUEST_BYTES];
    request[0] = APOP;
    match core.need(&session, request[0]) {
        Some(REQUEST_BYTES) => {}
        _ => bail!("a request of another size is needed"),
    }
    match core.step(&mut session, request.as_slice(), &WORDS, out)? {
        AsStep::Replied => Ok(()),
        AsStep::TooManyWrong => bail!("the session is over"),
    }
}

// Puts the number of a bad line.
fn put_bad(bad: Option<u32>, came: &mut Came) -> anyhow::Result<()> {
    match bad {
        Some(line) => came.put_number(u64::from(line)),
        None => Ok(came.put(b"none")?),
    }
}

fn play_row(alloc: Global, row: &Row, came: &mut Came) -> anyhow::Result<()> {
    let tables = read_tables(alloc, argument(row, 1)?)?;
    put_bad(tables.bad_key, came)?;
    put_bad(tables.bad_speak, came)?;
    let mut out = Bytes::new(alloc);
    put_challenge(&tables.core, &mut out)?;
    Ok(came.put(out.as_slice())?)
}

/// Plays rows `told SCRIPT`.
pub(crate) fn play(
    alloc: Global,
    file: &str,
    rows: &[Row],
    report: &mut Report,
) -> anyhow::Result<()> {
    for row in rows {
        let mut came = Came::new(alloc);
        let played = play_row(alloc, row, &mut came);
        came.tell(file, row, played, report)?;
    }
    Ok(())
}
