// Events of an agent, how rows carry them out, and what is answered to them.
ghost use Rattle.std.specs.Prelude.{◌∷◌, [], IfOk, OnOk};
ghost use Rattle.nine.specs.Decoding.{IsFrame};
ghost use Rattle.agent_history.specs.Histories.{History};
ghost use Rattle.agent_core.specs.Agents.{StandsFor};
ghost use Rattle.agent_core.specs.Events.{Answers, IsEvent};

use crate::unlike::Unlike;
use agent_core::{Agent, Served, TakeEnd};
use agent_history::{Event, StepAnswer};
use std::alloc::Global;
use wire_base::{Bytes, NoMemory, Shape, get_u32};

// The most bytes that an answer of the authentication server may have.
const MOST_ANSWER: usize = 160;

// How many bytes a question has that holds no digits.
const REQUEST_BYTES: usize = 141;

/// A question that an agent has for the authentication server: its call, its conversation and its bytes.
#[derive(Drop)]
pub(crate) struct Asked {
    pub(crate) call: u64,
    pub(crate) conv: u64,
    pub(crate) question: Bytes,
}

// Enters an event, and once more where memory ran out for it: that left agent and `out` as they were.
fn enter(agent: &mut Agent, event: &Event, out: &mut Bytes) -> Result<StepAnswer, Unlike>
    requires { IsEvent event.now }
    ensures answer { IfOk result (λ a. (H : History) → StandsFor H agent.old
        → Answers H event.now a out.old out.new) }
    ensures stands { OnOk result ((H : History) → StandsFor H agent.old
        → StandsFor (event.now ∷ H) agent.new) }
{
    match agent.step(event, out) {
        Ok(answer) => Ok(answer),
        Err(NoMemory) => match agent.step(event, out) {
            Ok(answer) => Ok(answer),
            Err(NoMemory) => Err(Unlike::Twice),
        },
    }
}

// Carries out one event: what is answered, and the bytes that are put out.
pub(crate) fn carry_out(
    alloc: Global,
    agent: &mut Agent,
    event: &Event,
) -> Result<(StepAnswer, Bytes), Unlike>
    requires { IsEvent event.now }
    ensures answer { IfOk result (λ said. (H : History) → StandsFor H agent.old
        → Answers H event.now said.0 [] said.1) }
    ensures stands { OnOk result ((H : History) → StandsFor H agent.old
        → StandsFor (event.now ∷ H) agent.new) }
{
    let mut out = Bytes::new(alloc);
    let answer = enter(agent, event, &mut out)?;
    Ok((answer, out))
}

// Carries out an event that is answered so, and puts nothing out.
pub(crate) fn expect(
    alloc: Global,
    agent: &mut Agent,
    event: &Event,
    wanted: StepAnswer,
) -> Result<(), Unlike>
    requires { IsEvent event.now }
{
    let (answer, out) = carry_out(alloc, agent, event)?;
    if answer != wanted {
        return Err(Unlike::Event);
    }
    if !out.as_slice().is_empty() {
        return Err(Unlike::Bytes);
    }
    Ok(())
}

/// These bytes, which are a whole frame.
pub(crate) fn whole(alloc: Global, bytes: &[u8]) -> Result<Bytes, Unlike>
    ensures { IfOk result (λ frame. IsFrame frame) }
{
    let frame = Bytes::from_slice(alloc, bytes)?;
    let Some(size) = get_u32(frame.as_slice(), 0) else {
        return Err(Unlike::Frame);
    };
    if size < 7 || size as usize != frame.len() {
        return Err(Unlike::Frame);
    }
    Ok(frame)
}

// Hands a frame to the agent, which puts nothing out.
pub(crate) fn ask(
    alloc: Global,
    agent: &mut Agent,
    conn: u64,
    word: [u8; 8],
    bytes: &[u8],
) -> Result<(), Unlike> {
    let frame = whole(alloc, bytes)?;
    let request = Event::Request { conn, frame, word };
    expect(alloc, agent, &request, StepAnswer::Done)
}

// Takes a reply, if there is one; the agent says beforehand whether there is.
pub(crate) fn take(alloc: Global, agent: &mut Agent, conn: u64) -> Result<Bytes, Unlike> {
    let is_there = agent.has_reply(conn);
    let (answer, out) = carry_out(alloc, agent, &Event::Take { conn })?;
    let wanted = if is_there {
        StepAnswer::Reply
    } else {
        StepAnswer::NoReply
    };
    if answer != wanted {
        return Err(Unlike::Event);
    }
    if out.as_slice().is_empty() == is_there {
        return Err(Unlike::Bytes);
    }
    Ok(out)
}

// Serves a frame, and once more where memory ran out for it.
fn serve(
    agent: &mut Agent,
    conn: u64,
    frame: &[u8],
    word: [u8; 8],
    out: &mut Bytes,
) -> Result<Served, Unlike>
    requires { IsFrame frame.now }
{
    match agent.serve(conn, frame, word, out) {
        Ok(served) => Ok(served),
        Err(NoMemory) => match agent.serve(conn, frame, word, out) {
            Ok(served) => Ok(served),
            Err(NoMemory) => Err(Unlike::Twice),
        },
    }
}

// Serves a frame, and takes the replies that were left for want of memory.
fn serve_all(
    agent: &mut Agent,
    conn: u64,
    frame: &[u8],
    word: [u8; 8],
    out: &mut Bytes,
) -> Result<Served, Unlike>
    requires { IsFrame frame.now }
{
    let served = serve(agent, conn, frame, word, out)?;
    if served.end != TakeEnd::NoRoom {
        return Ok(served);
    }
    let more = agent.take_all(conn, out);
    Ok(Served {
        taken: served.taken.saturating_add(more.taken),
        end: more.end,
    })
}

// Serves a frame, which has one reply, if any.
pub(crate) fn converse(
    alloc: Global,
    agent: &mut Agent,
    conn: u64,
    word: [u8; 8],
    request: &[u8],
) -> Result<Bytes, Unlike> {
    let frame = whole(alloc, request)?;
    let mut out = Bytes::new(alloc);
    let served = serve_all(agent, conn, frame.as_slice(), word, &mut out)?;
    if served.end != TakeEnd::NoneLeft || served.taken > 1 {
        return Err(Unlike::Event);
    }
    if out.as_slice().is_empty() == (served.taken == 1) {
        return Err(Unlike::Bytes);
    }
    Ok(out)
}

// Where the answer to a question ends: a ticket request has kind 1, and the digits of a user stand behind a request.
fn shape_of(question: &[u8]) -> Shape {
    if question.first() == Some(&1) {
        Shape::Tickets
    } else if question.len() == REQUEST_BYTES {
        Shape::Challenge
    } else {
        Shape::Vouch
    }
}

/// Takes a question for the authentication server, if there is one.
pub(crate) fn take_question(alloc: Global, agent: &mut Agent) -> Result<Option<Asked>, Unlike> {
    let (answer, question) = carry_out(alloc, agent, &Event::TakeAsk)?;
    let StepAnswer::Ask { call, conv, shape } = answer else {
        if answer != StepAnswer::NoAsk {
            return Err(Unlike::Event);
        }
        if !question.as_slice().is_empty() {
            return Err(Unlike::Bytes);
        }
        return Ok(None);
    };
    if shape != shape_of(question.as_slice()) {
        return Err(Unlike::Event);
    }
    Ok(Some(Asked {
        call,
        conv,
        question,
    }))
}

/// Hands the authentication server's answer to the agent, which puts nothing out.
pub(crate) fn answer_question(
    alloc: Global,
    agent: &mut Agent,
    call: u64,
    answer: &[u8],
) -> Result<(), Unlike> {
    let bytes = Bytes::from_slice(alloc, answer)?;
    if bytes.len() > MOST_ANSWER {
        return Err(Unlike::Answer);
    }
    let event = Event::Answer { call, bytes };
    expect(alloc, agent, &event, StepAnswer::Done)
}
