// Lines of the log and of the files of questions: which are told, and which are lost.
use crate::fields::{Came, byte_at, bytes_at, number_at, text_at, verb_of, word_at};
use crate::prompts::{kind_at, reserve, tell_handed};
use crate::tuples::tuple_at;
use agent_talks::{EndLine, LineFiles, build_start};
use anyhow::bail;
use attr_tuples::Tuple;
use file_tree::Node;
use roles::{Cause, Outcome};
use row_files::{Report, Row};
use side_files::{LogRing, PromptKind};
use std::alloc::Global;
use std::marker::Send;
use wire_base::{AuthInfo, Bytes, Name};

pub(crate) fn play(
    alloc: Global,
    file: &str,
    rows: &[Row],
    report: &mut Report,
) -> anyhow::Result<()> {
    let mut log = LogRing::new(alloc)?;
    let mut files = LineFiles::new(alloc)?;
    may_change_threads(&log);
    for row in rows {
        let mut came = Came::new(alloc);
        step(alloc, &mut log, &mut files, row, &mut came)?;
        report.compare(alloc, file, row, came.fields())?;
    }
    Ok(())
}

/// That this compiles shows that a value may change threads.
pub(crate) fn may_change_threads<T: Send>(_value: &T) {}

fn step(
    alloc: Global,
    log: &mut LogRing,
    files: &mut LineFiles,
    row: &Row,
    came: &mut Came,
) -> anyhow::Result<()> {
    match verb_of(row) {
        "end" => end(alloc, row, came),
        "start" => start(alloc, number_at(row, 1)?, &tuple_at(alloc, row, 2)?, came),
        "fill" => fill(alloc, log, byte_at(row, 1)?),
        "take" => take(alloc, log, word_at(row, 1)?, came),
        "hand-out" => tell_handed(log.hand_out(word_at(row, 1)?), came),
        _ => ask(files, row, came),
    }
}

// The line by which the end of the third conversation is told.
fn end(alloc: Global, row: &Row, came: &mut Came) -> anyhow::Result<()> {
    let outcome = outcome_at(row, 2)?;
    let template = tuple_at(alloc, row, 1)?;
    tell_end(alloc, &template, &outcome, came)
}

fn tell_end(
    alloc: Global,
    template: &Tuple,
    outcome: &Outcome,
    came: &mut Came,
) -> anyhow::Result<()> {
    let line = EndLine::new(alloc, 3, template)?;
    match line.tell(outcome) {
        Some(told) => came.bytes(told.as_slice())?,
        None => came.word("none")?,
    }
    Ok(())
}

// How a conversation came out.
fn outcome_at(row: &Row, at: usize) -> anyhow::Result<Outcome> {
    match text_at(row, at) {
        "accepted" => accepted(bytes_at(row, at.saturating_add(1))),
        "finished" => Ok(Outcome::Finished),
        "running" => Ok(Outcome::Running),
        "no-server" => Ok(Outcome::Broken(Cause::NoServer)),
        "bad-key" => Ok(Outcome::Broken(Cause::BadKey)),
        _ => bail!("line {}: field {} is no outcome", row.line, at),
    }
}

// A client ann is accepted as this user.
fn accepted(user: &[u8]) -> anyhow::Result<Outcome> {
    match (Name::from_text(b"ann"), Name::from_text(user)) {
        (Some(cuid), Some(suid)) => Ok(Outcome::Accepted(AuthInfo {
            cuid,
            suid,
            secret: [1; 8],
        })),
        _ => bail!("no name"),
    }
}

// The line by which a start is told.
fn start(alloc: Global, conv: u64, template: &Tuple, came: &mut Came) -> anyhow::Result<()> {
    let line = build_start(alloc, conv, template)?;
    Ok(came.bytes(line.as_slice())?)
}

// Lines of one byte each, which counts them, are put into the log.
fn fill(alloc: Global, log: &mut LogRing, count: u8) -> anyhow::Result<()> {
    for number in 0..count {
        log.push(Bytes::from_slice(alloc, &[number, b'\n'])?);
    }
    Ok(())
}

fn take(alloc: Global, log: &mut LogRing, count: u32, came: &mut Came) -> anyhow::Result<()> {
    let mut out = Bytes::new(alloc);
    came.shown(&log.take(count, &mut out))?;
    Ok(came.bytes(out.as_slice())?)
}

// A question by the files of lines.
fn ask(files: &mut LineFiles, row: &Row, came: &mut Came) -> anyhow::Result<()> {
    match verb_of(row) {
        "reserve" => reserve(&mut files.asks.confirm, bytes_at(row, 1)),
        "ask" => {
            files.ask(PromptKind::Confirm, number_at(row, 1)?);
            Ok(())
        }
        "read-confirm" => tell_handed(files.hand_out(Node::Confirm, word_at(row, 1)?), came),
        "asker" => came.shown(&files.asker(kind_at(row, 1)?, number_at(row, 2)?)),
        "reply" => came.shown(&files.reply(kind_at(row, 1)?, number_at(row, 2)?)),
        _ => Ok(came.word("no such verb")?),
    }
}
