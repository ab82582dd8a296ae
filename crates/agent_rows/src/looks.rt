// What an agent tells of a fid's conversation, as rows have it.
use agent_core::Agent;
use key_ring::Key;
use roles::{Cause, Outcome};
use sealing::write_info;
use std::alloc::Global;
use wire_base::{Bytes, NoMemory};

fn cause_text(cause: Cause) -> &'static str {
    match cause {
        Cause::WrongKind => "wrong kind",
        Cause::WrongChallenge => "wrong challenge",
        Cause::WrongUser => "wrong user",
        Cause::NotOffered => "not offered",
        Cause::ServerSaidNo => "server said no",
        Cause::NoServer => "no server",
        Cause::NoRoom => "out of memory",
        Cause::BadKey => "badkey",
    }
}

// An outcome: a word, and what it is about.
fn outcome_text(alloc: Global, outcome: Option<Outcome>) -> Result<Bytes, NoMemory> {
    let mut text = Bytes::new(alloc);
    match outcome {
        None => {}
        Some(Outcome::Running) => text.append(b"running")?,
        Some(Outcome::Finished) => text.append(b"finished")?,
        Some(Outcome::Accepted(info)) => {
            text.append(b"accepted ")?;
            write_info(&info, &mut text)?;
        }
        Some(Outcome::Broken(cause)) => {
            text.append(b"broken ")?;
            text.append(cause_text(cause).as_bytes())?;
        }
    }
    Ok(text)
}

// A key: its serial, and its user.
fn key_text(alloc: Global, key: Option<&Key>) -> Result<Bytes, NoMemory> {
    let mut text = Bytes::new(alloc);
    if let Some(key) = key {
        put_decimal(alloc, key.serial(), &mut text)?;
        text.push(b' ')?;
        text.append(key.user().as_slice())?;
    }
    Ok(text)
}

/// Appends a number in decimal.
pub(crate) fn put_decimal(alloc: Global, number: u64, out: &mut Bytes) -> Result<(), NoMemory> {
    let digits = format!(in alloc; "{number}")?;
    out.append(digits.as_bytes())
}

/// The outcome of a fid's conversation; nothing where there is none.
pub(crate) fn outcome_of(
    alloc: Global,
    agent: &Agent,
    conn: u64,
    fid: u32,
) -> Result<Bytes, NoMemory> {
    outcome_text(alloc, agent.outcome(conn, fid))
}

/// The key that a fid's conversation has chosen; nothing where there is none.
pub(crate) fn key_of(alloc: Global, agent: &Agent, conn: u64, fid: u32) -> Result<Bytes, NoMemory> {
    key_text(alloc, agent.chosen(conn, fid))
}
