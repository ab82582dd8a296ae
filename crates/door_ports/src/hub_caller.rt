// An agent behind a hub, that is asked through a seat.
ghost use Rattle.std.specs.Prelude.{◌≡◌, ◌∷◌, ℕ, List, IfOk, Some};
ghost use Rattle.nine.specs.Decoding.{IsFrame};
ghost use Rattle.agent_hub.specs.Submits.{HubSeat, IsSeatOf};
ghost use Rattle.door_ports.specs.Exchanges.{Exchange, exchange};
ghost use Rattle.door_ports.specs.Hubs.{Converses, Takes, Tells, Waits};
ghost use Rattle.door_ports.specs.Seated.{IsHeld, held_once};

use crate::agent_port::AgentPort;
use crate::agents::AskedAgent;
use crate::reply::{Reply, read_reply, silence_of};
use agent_history::{Event, StepAnswer};
use agent_hub::{Hub, HubSeat};
use std::alloc::Global;
use std::sync::Wait;
use wire_base::{Bytes, NoMemory};

/// An agent behind a hub, that is asked through a seat. What others enter stands between its requests and the takes of their
/// replies; a reply that isn't there yet is waited for.
#[derive(Drop)]
pub struct HubCaller<'a, R: Wait> {
    rt: &'a R,
    hub: &'a Hub,
    // It is away while it is at the hub.
    seat: Option<HubSeat>,
    ghost seated: { IsHeld hub.now seat } by { held_once hub.now seat },
}

/// A port at an agent behind a hub. Its connection is its own where nobody else enters events on it.
pub type HubPort<'a, R> = AgentPort<HubCaller<'a, R>>;

// What a take was answered, where it found a reply or the end of the connection.
fn reply_in(alloc: Global, answer: StepAnswer, taken: &[u8]) -> Result<Option<Reply>, NoMemory>
    ensures { IfOk result (λ found. Tells answer taken.now found) }
{
    match answer {
        StepAnswer::Reply => Ok(Some(read_reply(alloc, taken)?)),
        StepAnswer::NoReply => Ok(None),
        StepAnswer::Done
        | StepAnswer::Gone
        | StepAnswer::Ask { .. }
        | StepAnswer::DropCall { .. }
        | StepAnswer::NoAsk
        | StepAnswer::Stopped => Ok(Some(silence_of(answer))),
    }
}

// Takes the reply to a request, if it is there.
fn take_one<R: Wait>(
    rt: &R,
    alloc: Global,
    hub: &Hub,
    seat: HubSeat,
    conn: u64,
) -> (HubSeat, Result<Option<Reply>, NoMemory>)
    requires { IsSeatOf hub.now seat }
    ensures seat { IsSeatOf hub.now result.0 }
    ensures took { IfOk result.1 (λ found. (first : HubSeat) (done : List Exchange)
        (frame word : List ℕ) → Waits first done conn frame word seat
        → Takes found first done conn frame word result.0) }
{
    let mut taken = Bytes::new(alloc);
    let (seat, answer) = hub.submit(rt, seat, &Event::Take { conn }, &mut taken);
    match answer {
        Ok(answer) => (seat, reply_in(alloc, answer, taken.as_slice())),
        Err(NoMemory) => (seat, Err(NoMemory)),
    }
}

// Takes the reply to a request, and waits for it.
fn await_reply<R: Wait>(
    rt: &R,
    alloc: Global,
    hub: &Hub,
    mut seat: HubSeat,
    conn: u64,
) -> (HubSeat, Result<Reply, NoMemory>)
    requires { IsSeatOf hub.now seat }
    ensures seat { IsSeatOf hub.now result.0 }
    ensures took { IfOk result.1 (λ reply. (first : HubSeat) (done : List Exchange)
        (frame word : List ℕ) → Waits first done conn frame word seat
        → Converses first (exchange conn frame word reply ∷ done) result.0) }
{
    for _ in rt.forever() {
        let count = hub.count_replies(conn);
        let (next, found) = take_one(rt, alloc, hub, seat, conn);
        seat = next;
        match found {
            Ok(Some(reply)) => return (seat, Ok(reply)),
            Ok(None) => hub.sleep_for_replies(rt, conn, count),
            Err(NoMemory) => return (seat, Err(NoMemory)),
        }
    }
    unreachable!()
}

// A frame comes with a word, and its reply is taken.
fn ask<R: Wait>(
    rt: &R,
    alloc: Global,
    hub: &Hub,
    seat: HubSeat,
    conn: u64,
    frame: Bytes,
    word: [u8; 8],
) -> (HubSeat, Result<Reply, NoMemory>)
    requires seat { IsSeatOf hub.now seat }
    requires frame { IsFrame frame }
    ensures seat { IsSeatOf hub.now result.0 }
    ensures told { IfOk result.1 (λ reply. (first : HubSeat) (done : List Exchange)
        → Converses first done seat
        → Converses first (exchange conn frame word reply ∷ done) result.0) }
{
    let request = Event::Request { conn, frame, word };
    let mut none = Bytes::new(alloc);
    let (seat, entered) = hub.submit(rt, seat, &request, &mut none);
    match entered {
        Ok(_) => await_reply(rt, alloc, hub, seat, conn),
        Err(NoMemory) => (seat, Err(NoMemory)),
    }
}

impl<'a, R: Wait> HubCaller<'a, R> {
    /// An agent behind this hub, asked through this seat.
    pub fn new(rt: &'a R, hub: &'a Hub, seat: HubSeat) -> HubCaller<'a, R>
        requires { IsSeatOf hub.now seat }
        ensures hub { result.hub ≡ hub.entry }
        ensures seat { result.seat ≡ Some seat }
    {
        HubCaller {
            rt,
            hub,
            seat: Some(seat),
        }
    }

    /// The hub and the seat.
    pub fn give_back(self) -> (&'a Hub, HubSeat)
        ensures seat { IsSeatOf result.0.now result.1 }
        ensures same { self.entry.seat ≡ Some result.1 }
    {
        let HubCaller { rt: _, hub, seat } = self;
        (hub, seat.unwrap())
    }
}

impl<'a, R: Wait> AskedAgent for HubCaller<'a, R> {
    ghost use Rattle.agent_hub.specs.Submits.{HubSeat};
    ghost use Rattle.door_ports.specs.Hubs.{ConversesBy};

    // The seat as it was then.
    ghost Past = { HubSeat };

    ghost stands = { λ first done caller. ConversesBy first done caller.seat };

    fn exchange(
        &mut self,
        alloc: Global,
        conn: u64,
        frame: Bytes,
        word: [u8; 8],
    ) -> Result<Reply, NoMemory> {
        let Some(seat) = self.seat.take() else {
            unreachable!()
        };
        let (seat, reply) = ask(self.rt, alloc, self.hub, seat, conn, frame, word);
        self.seat = Some(seat);
        reply
    }
}
