// Questions as they are asked, read and replied to, and the texts of both.
use crate::fields::{Came, bytes_at, number_at, text_at, verb_of, word_at};
use crate::told_lines::may_change_threads;
use anyhow::bail;
use attr_tuples::print_tuple;
use row_files::{Report, Row};
use side_files::{
    PromptKind, Prompts, Question, TooSmall, parse_decimal, parse_question, parse_reply,
};
use std::alloc::Global;
use wire_base::Bytes;

pub(crate) fn play(
    alloc: Global,
    file: &str,
    rows: &[Row],
    report: &mut Report,
) -> anyhow::Result<()> {
    let mut prompts = Prompts::new(alloc, PromptKind::Confirm);
    may_change_threads(&prompts);
    for row in rows {
        if verb_of(row) == "prompts" {
            prompts = Prompts::new(alloc, kind_at(row, 1)?);
            continue;
        }
        let mut came = Came::new(alloc);
        step(alloc, &mut prompts, row, &mut came)?;
        report.compare(alloc, file, row, came.fields())?;
    }
    Ok(())
}

/// The file that a field names.
pub(crate) fn kind_at(row: &Row, at: usize) -> anyhow::Result<PromptKind> {
    match text_at(row, at) {
        "confirm" => Ok(PromptKind::Confirm),
        "needkey" => Ok(PromptKind::Needkey),
        _ => bail!("line {}: field {} is confirm or needkey", row.line, at),
    }
}

fn step(alloc: Global, prompts: &mut Prompts, row: &Row, came: &mut Came) -> anyhow::Result<()> {
    match verb_of(row) {
        "ask" => ask(prompts, number_at(row, 1)?, bytes_at(row, 2), came),
        "reserve" => reserve(prompts, bytes_at(row, 1)),
        "ask-reserved" => ask_reserved(prompts, number_at(row, 1)?, came),
        "read" => read(alloc, prompts, word_at(row, 1)?, came),
        "hand-out" => tell_handed(prompts.hand_out(word_at(row, 1)?), came),
        "reply" => came.shown(&prompts.reply(number_at(row, 1)?)),
        "withdraw" => {
            prompts.withdraw(number_at(row, 1)?);
            Ok(())
        }
        "first" => came.shown(&prompts.first_asker()),
        _ => spell(alloc, row, came),
    }
}

// The texts of questions, replies and numbers.
fn spell(alloc: Global, row: &Row, came: &mut Came) -> anyhow::Result<()> {
    match verb_of(row) {
        "question" => match parse_question(alloc, bytes_at(row, 1))? {
            Some(question) => tell_question(alloc, &question, came),
            None => Ok(came.word("none")?),
        },
        "answer" => match parse_reply(alloc, bytes_at(row, 1))? {
            Some(reply) => {
                came.number(reply.tag)?;
                Ok(came.flag(reply.agrees)?)
            }
            None => Ok(came.word("none")?),
        },
        "decimal" => came.shown(&parse_decimal(bytes_at(row, 1))),
        _ => Ok(came.word("no such verb")?),
    }
}

// A question is asked; which tag it has.
fn ask(prompts: &mut Prompts, conv: u64, about: &[u8], came: &mut Came) -> anyhow::Result<()> {
    if prompts.is_spent() {
        bail!("too many questions");
    }
    came.number(prompts.ask(conv, about)?)
}

/// Room is made for the next question.
pub(crate) fn reserve(prompts: &mut Prompts, about: &[u8]) -> anyhow::Result<()> {
    if prompts.is_spent() {
        bail!("too many questions");
    }
    Ok(prompts.reserve(about)?)
}

fn ask_reserved(prompts: &mut Prompts, conv: u64, came: &mut Came) -> anyhow::Result<()> {
    if !prompts.is_ready() {
        return Ok(came.word("no room")?);
    }
    came.number(prompts.ask_reserved(conv))
}

fn read(alloc: Global, prompts: &mut Prompts, count: u32, came: &mut Came) -> anyhow::Result<()> {
    let mut out = Bytes::new(alloc);
    came.shown(&prompts.read_one(count, &mut out))?;
    Ok(came.bytes(out.as_slice())?)
}

/// What was handed out.
pub(crate) fn tell_handed(
    handed: Result<Option<Bytes>, TooSmall>,
    came: &mut Came,
) -> anyhow::Result<()> {
    match handed {
        Ok(Some(line)) => {
            came.word("line")?;
            came.bytes(line.as_slice())?;
        }
        Ok(None) => came.word("nothing")?,
        Err(TooSmall) => came.word("TooSmall")?,
    }
    Ok(())
}

fn tell_question(alloc: Global, question: &Question, came: &mut Came) -> anyhow::Result<()> {
    let mut out = Bytes::new(alloc);
    print_tuple(&question.tuple, &mut out)?;
    came.word(if question.confirm {
        "confirm"
    } else {
        "needkey"
    })?;
    came.number(question.tag)?;
    Ok(came.bytes(out.as_slice())?)
}
