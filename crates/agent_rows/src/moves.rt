// Rows that are events beside requests, and looks at an agent.
use crate::carrying::{answer_question, expect, take_question};
use crate::looks::{key_of, outcome_of, put_decimal};
use crate::named::Names;
use crate::served::Server;
use crate::unlike::Unlike;
use crate::verbs::{Verb, fid_of, fields_from, number_at};
use agent_core::Agent;
use agent_history::{Event, StepAnswer};
use row_files::Row;
use std::alloc::Global;
use wire_base::{Bytes, NoMemory};

// The authentication server's answer to a call is told.
fn answer(alloc: Global, agent: &mut Agent, names: &Names, row: &Row) -> Result<(), Unlike> {
    let bytes = names.text(alloc, fields_from(row, 3))?;
    answer_question(alloc, agent, number_at(row, 2)?, bytes.as_slice())
}

// An event about a number.
fn play_numbered(alloc: Global, agent: &mut Agent, verb: Verb, number: u64) -> Result<(), Unlike> {
    let done = StepAnswer::Done;
    let (conn, call) = (number, number);
    match verb {
        Verb::Hang => expect(alloc, agent, &Event::Hang { conn }, done),
        Verb::Gone => expect(alloc, agent, &Event::Take { conn }, StepAnswer::Gone),
        Verb::Unanswered => expect(alloc, agent, &Event::NoAnswer { call }, done),
        Verb::Roomless => expect(alloc, agent, &Event::NoRoom { call }, done),
        Verb::Dropped => {
            let dropped = StepAnswer::DropCall { conv: number };
            expect(alloc, agent, &Event::TakeAsk, dropped)
        }
        _ => Err(Unlike::Verb),
    }
}

/// Plays a row that is an event which puts nothing out.
pub(crate) fn play_event(
    alloc: Global,
    agent: &mut Agent,
    names: &Names,
    verb: Verb,
    row: &Row,
) -> Result<(), Unlike> {
    match verb {
        Verb::Answer => answer(alloc, agent, names, row),
        Verb::Stop => expect(alloc, agent, &Event::Stop, StepAnswer::Done),
        Verb::Stopped => expect(alloc, agent, &Event::TakeAsk, StepAnswer::Stopped),
        _ => play_numbered(alloc, agent, verb, number_at(row, 2)?),
    }
}

// A conversation's number and its question.
fn question_text(alloc: Global, conv: u64, question: &[u8]) -> Result<Bytes, NoMemory> {
    let mut text = Bytes::new(alloc);
    put_decimal(alloc, conv, &mut text)?;
    text.push(b' ')?;
    text.append(question)?;
    Ok(text)
}

/// The next question, which has the row's call; nothing where there is none.
pub(crate) fn ask_for(alloc: Global, agent: &mut Agent, row: &Row) -> Result<Bytes, Unlike> {
    let Some(asked) = take_question(alloc, agent)? else {
        return Ok(Bytes::new(alloc));
    };
    if asked.call != number_at(row, 2)? {
        return Err(Unlike::Call);
    }
    Ok(question_text(alloc, asked.conv, asked.question.as_slice())?)
}

/// The next question, which has the row's call, is asked of the authentication server, and its answer told.
pub(crate) fn serve(
    alloc: Global,
    agent: &mut Agent,
    server: &mut Server,
    names: &Names,
    row: &Row,
) -> Result<Bytes, Unlike> {
    let words = names.text(alloc, fields_from(row, 3))?;
    let asked = take_question(alloc, agent)?.ok_or(Unlike::Question)?;
    if asked.call != number_at(row, 2)? {
        return Err(Unlike::Call);
    }
    let question = asked.question.as_slice();
    let answer = server.answer(alloc, question, words.as_slice())?;
    answer_question(alloc, agent, asked.call, answer.as_slice())?;
    let mut text = question_text(alloc, asked.conv, question)?;
    text.push(b' ')?;
    text.append(answer.as_slice())?;
    Ok(text)
}

/// The outcome of a fid's conversation.
pub(crate) fn look_at_outcome(alloc: Global, agent: &Agent, row: &Row) -> Result<Bytes, Unlike> {
    Ok(outcome_of(alloc, agent, number_at(row, 2)?, fid_of(row)?)?)
}

/// The key that a fid's conversation has chosen.
pub(crate) fn look_at_key(alloc: Global, agent: &Agent, row: &Row) -> Result<Bytes, Unlike> {
    Ok(key_of(alloc, agent, number_at(row, 2)?, fid_of(row)?)?)
}
