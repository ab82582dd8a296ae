// What follows on an event: the questions, the end and the answers.
ghost use Rattle.std.specs.Prelude.{◌≡◌, ◌∷◌, ◌++◌, ◌+◌, [], OnOk, IfOk, length, None};
ghost use Rattle.wire_histories.specs.declared.step.Step.TheVariants.{Ask};
ghost use Rattle.agent_history.specs.Histories.{History};
ghost use Rattle.agent_core.specs.Agents.{StandsFor};
ghost use Rattle.agent_core.specs.Events.{IsEvent};
ghost use Rattle.agent_turns.specs.Turning.{Comes, follow};
ghost use Rattle.world_history.specs.Talking.{ask_steps};
ghost use Rattle.world_history.specs.Worlds.{last_call};

use crate::ends::{breaks, put_end};
use crate::replies::put_frames;
use crate::steps::{next, put};
use crate::takes::{Driven, drive};
use agent_core::Agent;
use agent_history::Event;
use roles::Outcome;
use std::alloc::Global;
use wire_base::{Bytes, NoMemory};
use wire_histories::Step;
use world_history::Question;

/// What came of an event on a conversation: what the agent put out, and how the conversation stood as to its end before and
/// stands now.
#[derive(Drop)]
pub(crate) struct Came {
    pub(crate) driven: Driven,
    pub(crate) before: Option<Outcome>,
    pub(crate) now: Option<Outcome>,
}

/// An event on the conversation of a fid.
pub(crate) fn meet(
    alloc: Global,
    agent: &mut Agent,
    fid: u32,
    event: &Event,
) -> Result<Came, NoMemory>
    requires { IsEvent event.now }
    ensures { IfOk result (λ came. (H : History) → StandsFor H agent.old
        → Comes fid event.now H agent.new came) }
{
    let before = agent.outcome(0, fid);
    let driven = drive(alloc, agent, event)?;
    let now = agent.outcome(0, fid);
    Ok(Came {
        driven,
        before,
        now,
    })
}

// A question.
fn put_question(
    alloc: Global,
    number: u32,
    conv: &[u8],
    question: &Question,
    steps: &mut Vec<Step>,
) -> Result<(), NoMemory>
    ensures { OnOk result (steps.new.items
        ≡ steps.old.items ++ Ask number conv.now question.now.bytes ∷ []) }
{
    let step = Step::Ask {
        number,
        conv: Bytes::from_slice(alloc, conv)?,
        bytes: Bytes::from_slice(alloc, question.bytes.as_slice())?,
    };
    put(step, steps)
}

// Questions, from a message on, and the number of the message behind them.
fn put_questions(
    alloc: Global,
    number: u32,
    conv: &[u8],
    questions: &[Question],
    steps: &mut Vec<Step>,
) -> Result<u32, NoMemory>
    ensures steps { OnOk result (steps.new.items
        ≡ steps.old.items ++ ask_steps number conv.now questions.now) }
    ensures next { IfOk result (λ more. more ≡ number + length questions.now) }
{
    let mut at = number;
    for question in questions {
        put_question(alloc, at, conv, question, steps)?;
        at = next(at)?;
    }
    Ok(at)
}

/// The number of the last question, if there is one.
pub(crate) fn last_call(questions: &[Question]) -> Option<u64>
    ensures { result ≡ last_call questions.now None }
{
    let mut call = None;
    for question in questions {
        call = Some(question.call);
    }
    call
}

/// What follows, from a message on.
pub(crate) fn put_following(
    alloc: Global,
    number: u32,
    conv: &[u8],
    came: &Came,
    steps: &mut Vec<Step>,
) -> Result<(), NoMemory>
    ensures { OnOk result (steps.new.items
        ≡ steps.old.items ++ follow number conv.now came.entry.now) }
{
    let questions = came.driven.questions.as_slice();
    let at = put_questions(alloc, number, conv, questions, steps)?;
    put_end(alloc, conv, came.before, came.now, steps)?;
    let broke = breaks(came.before, came.now);
    put_frames(
        alloc,
        at,
        conv,
        broke,
        came.driven.replies.as_slice(),
        steps,
    )
}
