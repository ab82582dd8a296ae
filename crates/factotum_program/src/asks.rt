// The questions for the authentication server that an event raises, and the connections to it that it makes the agent give
// up: each question is asked at once, and the agent is told what that came to, and each connection is closed, until nothing
// is due.
ghost use Rattle.std.specs.Prelude.{◌≡◌, ◌<◌, ◌≤◌, ℕ, true, IfOk, OnOk, OnErr};
ghost use Rattle.agent_history.specs.Histories.{History};
ghost use Rattle.agent_core.specs.Events.{IsEvent};
ghost use Rattle.agent_core.specs.Agents.{StandsFor, left_in};
ghost use Rattle.factotum_program.specs.Asks.{AsksAll, AsksOne, AsksSome, Exchanges};

use agent_core::Agent;
use agent_history::{Event, StepAnswer};
use std::alloc::Global;
use wire_base::{Bytes, NoMemory, Shape};
use wire_streams::{Dial, Dialer};

// Asks one question. The event tells what that came to.
fn exchange<D: Dialer>(
    alloc: Global,
    call: u64,
    conv: u64,
    request: &[u8],
    shape: Shape,
    dial: &mut D,
) -> Event
    ensures asked { Exchanges call conv request.now shape
        (D.told dial.old) (D.told dial.new) result }
    ensures event { IsEvent result }
    ensures counted { D.faults dial.old ≤ D.faults dial.new }
{
    let mut answer = Bytes::new(alloc);
    match dial.exchange(conv, request, shape, &mut answer) {
        Dial::Heard => Event::Answer {
            call,
            bytes: answer,
        },
        Dial::Failed => Event::NoAnswer { call },
        Dial::NoMemory => Event::NoRoom { call },
    }
}

// Asks the next question, and tells the agent, or closes the next connection, whichever is due. Whether there was one.
fn ask_next<D: Dialer>(alloc: Global, agent: &mut Agent, dial: &mut D) -> Result<bool, NoMemory>
    ensures asked { IfOk result (λ more. (H : History) → StandsFor H agent.old
        → AsksOne more H (D.told dial.old) (D.told dial.new) agent.new) }
    ensures fewer { IfOk result (λ more. more ≡ true
        → left_in agent.new.state < left_in agent.old.state) }
    ensures err { OnErr result ((H : History) → StandsFor H agent.old
        → AsksSome H (D.told dial.old) (D.told dial.new)) }
    ensures counted { D.faults dial.old ≤ D.faults dial.new }
{
    let mut request = Bytes::new(alloc);
    let next = agent.step(&Event::TakeAsk, &mut request)?;
    if let StepAnswer::DropCall { conv } = next {
        dial.close(conv);
        return Ok(true);
    }
    let StepAnswer::Ask { call, conv, shape } = next else {
        return Ok(false);
    };
    let event = exchange(alloc, call, conv, request.as_slice(), shape, dial);
    agent.step(&event, &mut request)?;
    Ok(true)
}

/// Asks and closes until nothing is due. After want of memory some was done.
pub(crate) fn ask_all<D: Dialer>(
    alloc: Global,
    agent: &mut Agent,
    dial: &mut D,
) -> Result<(), NoMemory>
    ensures asked { OnOk result ((H : History) → StandsFor H agent.old
        → AsksAll H (D.told dial.old) (D.told dial.new) agent.new) }
    ensures err { OnErr result ((H : History) → StandsFor H agent.old
        → AsksSome H (D.told dial.old) (D.told dial.new)) }
    ensures counted { D.faults dial.old ≤ D.faults dial.new }
{
    while ask_next(alloc, agent, dial)? {}
    Ok(())
}
