// The hub, and the calls on its seats.
ghost use Rattle.agent_core.specs.Events.{IsEvent};
ghost use Rattle.agent_hub.specs.EventOnce.{event_once};

use crate::held::Held;
use crate::hub_bells::HubBells;
use agent_core::{Agent, NO_NEWS, News};
use agent_history::{Event, StepAnswer};
use mio::Waker;
use std::alloc::Global;
use std::sync::Wait;
use turn_lock::{Seat, TurnCall, TurnLock};
use wire_base::{Bytes, NoMemory};

/// A caller's place at a hub. It has no bytes. Contracts see in it the front of the history that the caller has seen, and
/// the numbers of the caller's own entries.
pub type HubSeat = Seat<Held>;

/// What an event that is submitted is answered.
pub type Submitted = Result<StepAnswer, NoMemory>;

/// An event is carried out, in one turn.
#[derive(Drop)]
struct Submit<'a> {
    event: &'a Event,
    out: &'a mut Bytes,
    /// What is new behind it.
    news: News,
    ghost is_event: { IsEvent event.now } by { event_once event.now },
}

impl<'a> TurnCall<Held> for Submit<'a> {
    type Reply = Submitted;

    ghost use Rattle.std.specs.Prelude.{◌≡◌};
    ghost use Rattle.agent_hub.specs.Submits.{IsAnswered, entered};

    ghost entries = { λ call reply. entered call.event.now reply };

    // The place for what is put out stays the same one.
    ghost gives = { λ call history reply after. (after.out.ghost_name ≡ call.out.ghost_name)
        × IsAnswered history call.event.now reply call.out.now after.out.now };

    fn run(&mut self, state: &mut Held) -> Submitted {
        let agent = &mut *state.agent;
        let answer = agent.step(self.event, self.out);
        self.news = agent.take_news();
        answer
    }
}

/// An agent that many callers share, each through its seat.
#[derive(Drop)]
pub struct Hub {
    pub(crate) lock: TurnLock<Held>,
    pub(crate) bells: HubBells,
}

impl Hub {
    ghost use Rattle.std.specs.Prelude.{◌≡◌, [], ◌∷◌, IfOk};
    ghost use Rattle.turn_lock.specs.Seats.{front, numbers, Joined, Parted, Turned};
    ghost use Rattle.agent_core.specs.Agents.{StandsFor};
    ghost use Rattle.agent_core.specs.Events.{IsEvent};
    ghost use Rattle.agent_hub.specs.Submits.{IsAnswered, IsSeatOf, IsSubmitted, entered};

    /// A hub round an agent that has carried out nothing, and its first seat. Where memory is short the agent is dropped.
    pub fn new(alloc: Global, agent: Agent) -> Result<(Hub, HubSeat), NoMemory>
        requires { StandsFor [] agent }
        ensures seat { IfOk result (λ made. IsSeatOf made.0 made.1) }
        ensures front { IfOk result (λ made. front made.1 ≡ []) }
        ensures number { IfOk result (λ made. numbers made.1 ≡ 0 ∷ []) }
    {
        let bells = HubBells::new(alloc)?;
        let Ok(agent) = Box::new(alloc, agent) else {
            return Err(NoMemory);
        };
        match TurnLock::new(alloc, Held { agent }) {
            Ok((lock, seat)) => {
                let hub = Hub { lock, bells };
                Ok((hub, seat))
            }
            Err(_) => Err(NoMemory),
        }
    }

    // Carries an event out, in one turn, and tells what is new behind it.
    fn carry_out<R: Wait>(
        &self,
        rt: &R,
        seat: HubSeat,
        event: &Event,
        out: &mut Bytes,
    ) -> (HubSeat, Submitted, News)
        requires seat { IsSeatOf self.now seat }
        requires event { IsEvent event.now }
        ensures seat { IsSeatOf self.now result.0 }
        ensures turned { Turned (entered event.now result.1)
            (λ history. IsAnswered history event.now result.1 out.old out.new) seat result.0 }
    {
        let mut call = Submit {
            event,
            out,
            news: NO_NEWS,
        };
        let (seat, answer) = self.lock.with_turn(rt, seat, &mut call);
        (seat, answer, call.news)
    }

    /// Submits one event, and puts behind `out` what it gives. May wait for the turns of others. A frame is whole and has
    /// at least 7 bytes; an answer of the authentication server has at most 160.
    ///
    /// The seat's front goes on by others' entries and at last this event. It is answered as the agent answers it after all
    /// before. Where memory is short it isn't entered, and `out` stays as it was.
    pub fn submit<R: Wait>(
        &self,
        rt: &R,
        seat: HubSeat,
        event: &Event,
        out: &mut Bytes,
    ) -> (HubSeat, Submitted)
        requires seat { IsSeatOf self.now seat }
        requires event { IsEvent event.now }
        ensures seat { IsSeatOf self.now result.0 }
        ensures submitted { IsSubmitted event.now result.1 out.old out.new seat result.0 }
    {
        let (seat, answer, news) = self.carry_out(rt, seat, event, out);
        self.bells.ring_for(rt, event, news);
        (seat, answer)
    }

    /// How often there may have been new replies on a connection, of which the low 32 bits count.
    pub fn count_replies(&self, conn: u64) -> u32 {
        self.bells.of(conn).count()
    }

    /// Sleeps until there may be new replies on a connection, unless there may have been some since there were so many. Who
    /// reads the count before a take that finds none doesn't sleep past a reply. It claims nothing: the agent has to be
    /// looked at again.
    pub fn sleep_for_replies<R: Wait>(&self, rt: &R, conn: u64, count: u32) {
        self.bells.of(conn).sleep(rt, count);
    }

    /// From now on the waker of a connection is woken when there may be new replies on it, or the agent stopped. It takes the
    /// place of an earlier one. A job that looks at the agent once its waker is here doesn't wait past a reply. It claims
    /// nothing: the agent has to be looked at again. May wait for others that do the same.
    pub fn wake_by<R: Wait>(&self, rt: &R, conn: u64, waker: Waker) -> Result<(), NoMemory> {
        self.bells.wakers.hold(rt, conn, waker)
    }

    /// No waker of a connection is woken any more.
    pub fn wake_no_more<R: Wait>(&self, rt: &R, conn: u64) {
        self.bells.wakers.give_up(rt, conn);
    }

    /// Two seats with the front of the one that came: it keeps its numbers, and the other has a new number, without
    /// entries. It takes no memory and doesn't wait.
    pub fn split(&self, seat: HubSeat) -> (HubSeat, HubSeat)
        requires { IsSeatOf self.now seat }
        ensures one { IsSeatOf self.now result.0 }
        ensures other { IsSeatOf self.now result.1 }
        ensures parted { Parted seat result.0 result.1 }
    {
        self.lock.split(seat)
    }

    /// One seat of two: it has the longer front, and the numbers of both. It takes no memory and doesn't wait.
    pub fn join(&self, a: HubSeat, b: HubSeat) -> HubSeat
        requires one { IsSeatOf self.now a }
        requires other { IsSeatOf self.now b }
        ensures seat { IsSeatOf self.now result }
        ensures joined { Joined a b result }
    {
        self.lock.join(a, b)
    }
}
