// An event, and what the agent puts out after it.
ghost use Rattle.std.specs.Prelude.{◌≡◌, ◌<◌, true, IfOk};
ghost use Rattle.agent_history.specs.Histories.{History};
ghost use Rattle.agent_core.specs.Events.{IsEvent};
ghost use Rattle.agent_core.specs.Agents.{StandsFor, kept_replies, left_in};
ghost use Rattle.agent_turns.specs.Drives.{AsksAll, AsksOne, Drives, TakesAll, TakesOne};

use agent_core::Agent;
use agent_history::{Event, StepAnswer};
use std::alloc::Global;
use wire_base::{Bytes, List, NoMemory};
use world_history::{Question, Questions};

/// The number of the one connection.
pub(crate) const CONNECTION: u64 = 0;

/// Frames of replies, in the order in which they were taken.
pub type Replies = List<Bytes>;

/// What came of an event: the replies, and the questions for the authentication server.
#[derive(Drop)]
pub struct Driven {
    pub replies: Replies,
    pub questions: Questions,
}

// One take. Whether there was a reply, which stands behind the others then.
fn take_next(alloc: Global, agent: &mut Agent, replies: &mut Replies) -> Result<bool, NoMemory>
    ensures takes { IfOk result (λ more. (H : History) → StandsFor H agent.old
        → TakesOne H more agent.new replies.old replies.new) }
    ensures fewer { IfOk result (λ more. more ≡ true
        → kept_replies agent.new 0 < kept_replies agent.old 0) }
{
    let mut frame = Bytes::new(alloc);
    let answer = agent.step(&Event::Take { conn: CONNECTION }, &mut frame)?;
    let StepAnswer::Reply = answer else {
        return Ok(false);
    };
    replies.push(frame)?;
    Ok(true)
}

// Takes up to the take that finds no reply.
fn take_all(alloc: Global, agent: &mut Agent) -> Result<Replies, NoMemory>
    ensures { IfOk result (λ replies. (H : History) → StandsFor H agent.old
        → TakesAll H agent.new replies) }
{
    let mut replies = Replies::new(alloc);
    while take_next(alloc, agent, &mut replies)? {}
    Ok(replies)
}

// One take of questions. Whether something was handed out; a question stands behind the others then.
fn ask_next(alloc: Global, agent: &mut Agent, questions: &mut Questions) -> Result<bool, NoMemory>
    ensures asks { IfOk result (λ more. (H : History) → StandsFor H agent.old
        → AsksOne H more agent.new questions.old questions.new) }
    ensures fewer { IfOk result (λ more. more ≡ true
        → left_in agent.new.state < left_in agent.old.state) }
{
    let mut bytes = Bytes::new(alloc);
    let next = agent.step(&Event::TakeAsk, &mut bytes)?;
    if let StepAnswer::DropCall { .. } = next {
        return Ok(true);
    }
    let StepAnswer::Ask { call, .. } = next else {
        return Ok(false);
    };
    questions.push(Question { call, bytes })?;
    Ok(true)
}

// Takes questions up to the take that finds none.
fn ask_all(alloc: Global, agent: &mut Agent) -> Result<Questions, NoMemory>
    ensures { IfOk result (λ questions. (H : History) → StandsFor H agent.old
        → AsksAll H agent.new questions) }
{
    let mut questions = Questions::new(alloc);
    while ask_next(alloc, agent, &mut questions)? {}
    Ok(questions)
}

/// An event happens, and all that the agent puts out then is taken.
pub fn drive(alloc: Global, agent: &mut Agent, event: &Event) -> Result<Driven, NoMemory>
    requires { IsEvent event.now }
    ensures { IfOk result (λ driven. (H : History) → StandsFor H agent.old
        → Drives event.now H agent.new driven) }
{
    let mut nothing = Bytes::new(alloc);
    agent.step(event, &mut nothing)?;
    let replies = take_all(alloc, agent)?;
    let questions = ask_all(alloc, agent)?;
    Ok(Driven { replies, questions })
}
