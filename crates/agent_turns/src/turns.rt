// What is done to an agent.
ghost use Rattle.std.specs.Prelude.{◌≡◌, ◌≤◌, ◌<◌, ◌^◌, ◌∷◌, ◌++◌, OnOk, IfOk, length};
ghost use Rattle.agent_history.specs.Histories.{History};
ghost use Rattle.agent_core.specs.Agents.{StandsFor};
ghost use Rattle.agent_turns.specs.Turning.{Turns, IsTurn, own, said_asks, said_turn};
ghost use Rattle.world_history.specs.Talking.{request_text, word_of};
ghost use Rattle.world_history.specs.Turns as does;

use crate::driven_replies::is_refused;
use crate::events::{clunks, reads, writes};
use crate::following::{Came, last_call, meet, put_following};
use crate::nodes::CTL;
use crate::replies::{are_taken, put_all_told, put_frames};
use crate::starts::put_start;
use crate::steps::{put, put_taken};
use crate::takes::drive;
use agent_core::Agent;
use agent_history::Event;
use std::alloc::Global;
use wire_base::{Bytes, NoMemory};
use wire_histories::Step;

/// What is asked of a conversation.
#[derive(Clone, Copy)]
pub enum Asks<'a> {
    /// That it starts by a tuple, with a random word.
    Start { word: [u8; 8], tuple: &'a [u8] },
    /// A message.
    Get,
    /// That it takes one.
    Give { bytes: &'a [u8] },
}

/// What is done to an agent.
#[derive(Clone, Copy)]
pub enum Turn<'a> {
    /// A line is written to the ctl of a node.
    Tell {
        node: &'a [u8],
        line: &'a [u8],
    },
    /// The conversation that a fid has open is asked something.
    Ask {
        conv: &'a [u8],
        fid: u32,
        what: Asks<'a>,
    },
    /// The authentication server's answer to its question of a number.
    Hear {
        conv: &'a [u8],
        fid: u32,
        call: u64,
        bytes: &'a [u8],
    },
    /// There is no answer to its question of a number.
    Miss {
        conv: &'a [u8],
        fid: u32,
        call: u64,
    },
    /// It is closed.
    Close {
        conv: &'a [u8],
        fid: u32,
    },
}

/// What came of it: its steps, and the number of the last question that the conversation put out.
#[derive(Drop)]
pub struct Turned {
    pub steps: Vec<Step>,
    pub call: Option<u64>,
}

// The request that is written.
fn request_text(alloc: Global, asks: Asks<'_>) -> Result<Bytes, NoMemory>
    ensures { IfOk result (λ text. text ≡ request_text (said_asks asks.entry)) }
{
    match asks {
        Asks::Start { tuple, .. } => join(alloc, b"start ", tuple),
        Asks::Get => Bytes::from_slice(alloc, b"read"),
        Asks::Give { bytes } => join(alloc, b"write ", bytes),
    }
}

fn join(alloc: Global, front: &[u8], rest: &[u8]) -> Result<Bytes, NoMemory>
    ensures { IfOk result (λ text. text ≡ front.now ++ rest.now) }
{
    let mut text = Bytes::from_slice(alloc, front)?;
    text.append(rest)?;
    Ok(text)
}

// The word of the read that follows.
fn word_of(asks: Asks<'_>) -> [u8; 8]
    ensures { result ≡ word_of (said_asks asks.entry) }
{
    match asks {
        Asks::Start { word, .. } => word,
        Asks::Get => [0; 8],
        Asks::Give { .. } => [0; 8],
    }
}

// The step of a request itself: the conversation has started, or took the bytes.
fn put_own(
    alloc: Global,
    conv: &[u8],
    asks: Asks<'_>,
    came: &Came,
    steps: &mut Vec<Step>,
) -> Result<(), NoMemory>
    ensures { OnOk result (steps.new.items
        ≡ steps.old.items ++ own conv.now (said_asks asks.entry) came.entry.now) }
{
    match asks {
        Asks::Start { word, tuple } => {
            if !came.before.is_some() && came.now.is_some() {
                return put_start(alloc, conv, word, tuple, steps);
            }
            Ok(())
        }
        Asks::Get => Ok(()),
        Asks::Give { bytes } => {
            if are_taken(came.driven.replies.as_slice()) {
                return put_taken(alloc, conv, bytes, steps);
            }
            Ok(())
        }
    }
}

// A request is written, and read where the write isn't refused.
fn ask(
    alloc: Global,
    agent: &mut Agent,
    number: u32,
    conv: &[u8],
    fid: u32,
    asks: Asks<'_>,
) -> Result<Turned, NoMemory>
    requires { length (request_text (said_asks asks)) < 2 ^ 31 }
    ensures { IfOk result (λ turned. (H : History) → StandsFor H agent.old
        → Turns number (does.asks conv.now fid (said_asks asks.entry)) H agent.new turned) }
{
    let mut steps = Vec::new(alloc);
    let write = writes(alloc, fid, request_text(alloc, asks)?)?;
    let written = drive(alloc, agent, &write)?;
    if is_refused(written.replies.as_slice()) {
        put_frames(
            alloc,
            number,
            conv,
            false,
            written.replies.as_slice(),
            &mut steps,
        )?;
        return Ok(Turned { steps, call: None });
    }
    let read = reads(alloc, fid, word_of(asks))?;
    let came = meet(alloc, agent, fid, &read)?;
    put_own(alloc, conv, asks, &came, &mut steps)?;
    put_following(alloc, number, conv, &came, &mut steps)?;
    let call = last_call(came.driven.questions.as_slice());
    Ok(Turned { steps, call })
}

// The authentication server's answer to a question.
fn hear(
    alloc: Global,
    agent: &mut Agent,
    number: u32,
    conv: &[u8],
    fid: u32,
    call: u64,
    bytes: &[u8],
) -> Result<Turned, NoMemory>
    requires { length bytes.now ≤ 160 }
    ensures { IfOk result (λ turned. (H : History) → StandsFor H agent.old
        → Turns number (does.hears conv.now fid call bytes.now) H agent.new turned) }
{
    let mut steps = Vec::new(alloc);
    let answer = Event::Answer {
        call,
        bytes: Bytes::from_slice(alloc, bytes)?,
    };
    let came = meet(alloc, agent, fid, &answer)?;
    let step = Step::Heard {
        conv: Bytes::from_slice(alloc, conv)?,
        bytes: Bytes::from_slice(alloc, bytes)?,
    };
    put(step, &mut steps)?;
    put_following(alloc, number, conv, &came, &mut steps)?;
    let call = last_call(came.driven.questions.as_slice());
    Ok(Turned { steps, call })
}

// There is no answer to a question.
fn miss(
    alloc: Global,
    agent: &mut Agent,
    number: u32,
    conv: &[u8],
    fid: u32,
    call: u64,
) -> Result<Turned, NoMemory>
    ensures { IfOk result (λ turned. (H : History) → StandsFor H agent.old
        → Turns number (does.misses conv.now fid call) H agent.new turned) }
{
    let mut steps = Vec::new(alloc);
    let came = meet(alloc, agent, fid, &Event::NoAnswer { call })?;
    let conv_name = Bytes::from_slice(alloc, conv)?;
    put(Step::Unheard { conv: conv_name }, &mut steps)?;
    put_following(alloc, number, conv, &came, &mut steps)?;
    let call = last_call(came.driven.questions.as_slice());
    Ok(Turned { steps, call })
}

// The conversation is closed.
fn close(
    alloc: Global,
    agent: &mut Agent,
    number: u32,
    conv: &[u8],
    fid: u32,
) -> Result<Turned, NoMemory>
    ensures { IfOk result (λ turned. (H : History) → StandsFor H agent.old
        → Turns number (does.closes conv.now fid) H agent.new turned) }
{
    let mut steps = Vec::new(alloc);
    let closed = drive(alloc, agent, &clunks(alloc, fid)?)?;
    put_frames(
        alloc,
        number,
        conv,
        false,
        closed.replies.as_slice(),
        &mut steps,
    )?;
    Ok(Turned { steps, call: None })
}

// A line is written to ctl.
fn tell(
    alloc: Global,
    agent: &mut Agent,
    number: u32,
    node: &[u8],
    line: &[u8],
) -> Result<Turned, NoMemory>
    requires { length line.now < 2 ^ 31 }
    ensures { IfOk result (λ turned. (H : History) → StandsFor H agent.old
        → Turns number (does.tells node.now line.now) H agent.new turned) }
{
    let mut steps = Vec::new(alloc);
    let write = writes(alloc, CTL, Bytes::from_slice(alloc, line)?)?;
    let told = drive(alloc, agent, &write)?;
    put_all_told(alloc, node, told.replies.as_slice(), &mut steps)?;
    Ok(Turned { steps, call: None })
}

/// Something is done to an agent, whose messages have numbers from this one on. An answer has at most 160 bytes; a line and
/// a request fit a frame's length.
pub fn take_turn(
    alloc: Global,
    agent: &mut Agent,
    number: u32,
    turn: Turn<'_>,
) -> Result<Turned, NoMemory>
    requires { IsTurn turn }
    ensures { IfOk result (λ turned. (H : History) → StandsFor H agent.old
        → Turns number (said_turn turn.entry) H agent.new turned) }
{
    match turn {
        Turn::Tell { node, line } => tell(alloc, agent, number, node, line),
        Turn::Ask { conv, fid, what } => ask(alloc, agent, number, conv, fid, what),
        Turn::Hear {
            conv,
            fid,
            call,
            bytes,
        } => hear(alloc, agent, number, conv, fid, call, bytes),
        Turn::Miss { conv, fid, call } => miss(alloc, agent, number, conv, fid, call),
        Turn::Close { conv, fid } => close(alloc, agent, number, conv, fid),
    }
}
