// The questions for the authentication server, and the connections to it that are given up: each question is asked, and the
// agent is told what that came to, and each connection is closed. Nobody holds the turn while it is asked.
ghost use Rattle.std.specs.Prelude.{◌≡◌, ◌≤◌, Option, IfErr, ℕ};
ghost use Rattle.wire_streams.specs.declared.dialer.Outcome.{Outcome};
ghost use Rattle.wire_streams.specs.Dials.{Dialed};
ghost use Rattle.agent_core.specs.Events.{IsEvent};
ghost use Rattle.agent_hub.specs.Submits.{HubSeat, IsSeatOf};
ghost use Rattle.agent_hub.specs.Asking.{Asked, AsksEndSo, Exchanged, NextSo, Told, event_of};

use crate::hub::{Hub, HubSeat};
use agent_history::{Event, StepAnswer};
use std::alloc::Global;
use std::sync::Wait;
use wire_base::{Bytes, NoMemory, Shape};
use wire_streams::{Dial, Dialer};

/// Why a loop of questions ended.
#[derive(Clone, Copy, Debug, PartialEq, Eq)]
pub enum AsksEnd {
    /// The agent stopped.
    Stopped,
    /// Memory was short for a take of what is due.
    NoMemory,
}

// Asks one question. The event tells what that came to.
fn exchange<D: Dialer>(
    alloc: Global,
    call: u64,
    conv: u64,
    request: &[u8],
    shape: Shape,
    dialer: &mut D,
) -> Event
    ensures asked { Exchanged call conv request.now shape (D.told dialer.old)
        (D.told dialer.new) (D.faults dialer.old) (D.faults dialer.new) result }
    ensures event { IsEvent result }
    ensures counted { D.faults dialer.old ≤ D.faults dialer.new }
{
    let mut answer = Bytes::new(alloc);
    match dialer.exchange(conv, request, shape, &mut answer) {
        Dial::Heard => Event::Answer {
            call,
            bytes: answer,
        },
        Dial::Failed => Event::NoAnswer { call },
        Dial::NoMemory => Event::NoRoom { call },
    }
}

// Tells the agent what a question came to. Where memory is short for the answer, it is told that there was no room.
fn tell<R: Wait>(
    rt: &R,
    hub: &Hub,
    seat: HubSeat,
    call: u64,
    event: &Event,
    out: &mut Bytes,
) -> HubSeat
    requires seat { IsSeatOf hub.now seat }
    requires event { IsEvent event.now }
    ensures seat { IsSeatOf hub.now result }
    ensures told { (outcome : Outcome) → event.now ≡ event_of call outcome
        → Told call outcome seat result }
{
    let (seat, told) = hub.submit(rt, seat, event, out);
    match told {
        Ok(_) => seat,
        Err(NoMemory) => hub.submit(rt, seat, &Event::NoRoom { call }, out).0,
    }
}

// There is nothing due now, and won't be where the agent stopped.
fn unless_stopped(next: StepAnswer) -> Result<bool, AsksEnd>
    ensures { IfErr result (λ end. (end ≡ AsksEnd.Stopped) × (next ≡ StepAnswer.Stopped)) }
{
    match next {
        StepAnswer::Stopped => Err(AsksEnd::Stopped),
        _ => Ok(false),
    }
}

// Takes what is due, and asks it and tells the agent, or closes it. Whether there was something.
fn ask_next<R: Wait, D: Dialer>(
    rt: &R,
    alloc: Global,
    hub: &Hub,
    seat: HubSeat,
    dialer: &mut D,
) -> (HubSeat, Result<bool, AsksEnd>)
    requires { IsSeatOf hub.now seat }
    ensures seat { IsSeatOf hub.now result.0 }
    ensures told { (first : HubSeat) (old : Option Dialed) (faults : ℕ)
        → Asked first seat old (D.told dialer.old) faults (D.faults dialer.old)
        → NextSo result.1 first result.0 old (D.told dialer.new) faults (D.faults dialer.new) }
    ensures counted { D.faults dialer.old ≤ D.faults dialer.new }
{
    let mut request = Bytes::new(alloc);
    let (seat, next) = hub.submit(rt, seat, &Event::TakeAsk, &mut request);
    let Ok(next) = next else {
        return (seat, Err(AsksEnd::NoMemory));
    };
    if let StepAnswer::DropCall { conv } = next {
        dialer.close(conv);
        return (seat, Ok(true));
    }
    let StepAnswer::Ask { call, conv, shape } = next else {
        return (seat, unless_stopped(next));
    };
    let event = exchange(alloc, call, conv, request.as_slice(), shape, dialer);
    let seat = tell(rt, hub, seat, call, &event, &mut request);
    (seat, Ok(true))
}

/// Asks the authentication server what the agent's conversations ask, and gives up the connections to it that they need no
/// more, until the agent stops. It sleeps while nothing is due.
///
/// Beside takes of what is due the seat's own new entries are one for each question that was taken: its answer, or that
/// there is none, or that there was no room for it. The calls of the dialer are an exchange for each of these questions and
/// a close for each connection, in order; the dialer's faults are the exchanges that stayed unanswered.
pub fn serve_asks<R: Wait, D: Dialer>(
    rt: &R,
    alloc: Global,
    hub: &Hub,
    mut seat: HubSeat,
    dialer: &mut D,
) -> (HubSeat, AsksEnd)
    requires { IsSeatOf hub.now seat }
    ensures seat { IsSeatOf hub.now result.0 }
    ensures asked { AsksEndSo result.1 seat result.0 (D.told dialer.old) (D.told dialer.new)
        (D.faults dialer.old) (D.faults dialer.new) }
    ensures counted { D.faults dialer.old ≤ D.faults dialer.new }
{
    for _ in rt.forever() {
        let heard = hub.bells.questions.count();
        let (next, more) = ask_next(rt, alloc, hub, seat, dialer);
        seat = next;
        match more {
            Ok(true) => {}
            Ok(false) => hub.bells.questions.sleep(rt, heard),
            Err(end) => return (seat, end),
        }
    }
    unreachable!()
}
