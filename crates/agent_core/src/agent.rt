// The agent, and its one step.
ghost use Rattle.std.specs.Prelude.{◌≡◌, ◌<◌, ◌≤◌, ◌*◌, ◌^◌, [], List, Ok, true, false};
ghost use Rattle.agent_history.specs.Deeds.{Deed, is_halted};
ghost use Rattle.agent_history.specs.Histories.{answer_after, is_reply};
ghost use Rattle.agent_core.specs.Events.{AlwaysDone, NoneAsked};

use crate::connections::Connections;
use crate::events::{Stepped, act, has_reply, is_stop, request_at};
use crate::news::{News, STOPPED, news_of};
use crate::served::{Served, TakeEnd};
use agent_history::{Event, StepAnswer};
use agent_requests::Shared;
use key_ring::Key;
use roles::Outcome;
use std::alloc::Global;
use std::mem::replace;
use wire_base::{Bytes, NoMemory};

/// How many events an agent carries out; it stops with the last one.
const MOST_EVENTS: u64 = 1 << 50;

/// What an agent keeps that hasn't stopped.
#[derive(Drop)]
pub struct Running {
    pub connections: Connections,
    pub shared: Shared,
    /// How many events were carried out.
    pub events: u64,
    // An event adds no more keys than its frame has bytes.
    ghost few: { shared.ring.ever_added ≤ events * 8216 },
    ghost left: { events < 2 ^ 50 },
}

/// Whether an agent runs. One that stopped keeps nothing.
#[derive(Drop)]
pub enum State {
    Runs(Running),
    Stopped,
}

/// The agent: what it knows of each connection, and what the connections share.
#[derive(Drop)]
pub struct Agent {
    alloc: Global,
    state: State,
}

// What is answered after a stop.
fn after_stop(event: &Event) -> StepAnswer
    ensures answer { (done : List Deed) → is_halted done ≡ true
        → answer_after done event.now ≡ (result, []) }
    ensures none { is_reply result ≡ false }
    ensures unasked { NoneAsked result }
    ensures done { AlwaysDone event.now (Ok result) }
{
    match event {
        Event::Take { .. } => StepAnswer::Gone,
        Event::TakeAsk => StepAnswer::Stopped,
        Event::Request { .. }
        | Event::Hang { .. }
        | Event::Answer { .. }
        | Event::NoAnswer { .. }
        | Event::NoRoom { .. }
        | Event::Stop => StepAnswer::Done,
    }
}

impl Running {
    ghost use Rattle.std.specs.Prelude.{◌≡◌, ◌∷◌, ◌+◌, ◌≤◌, IfOk, IsOk, OnOk, OnErr};
    ghost use Rattle.agent_history.specs.Histories.{History, most_events};
    ghost use Rattle.agent_history.specs.declared.event.Event.TheVariants as events;
    ghost use Rattle.nine.specs.Decoding.{IsFrame};
    ghost use Rattle.agent_core.specs.Events.{Answers, AsksFewer, GivesUp, IsEvent, LeavesOneLess, TakesNoneOf, gives_to};
    ghost use Rattle.agent_core.specs.Agents.{GoesOn, RunsAfter, SameRunning, connection_at};

    // Carries out an event that isn't the last, in place.
    fn carry_out(&mut self, alloc: Global, event: &Event, out: &mut Bytes) -> Stepped
        requires event { IsEvent event.now }
        requires more { GoesOn event.now self.old }
        ensures answer { IfOk result (λ a. (H : History) → RunsAfter H self.old
            → Answers H event.now a out.old out.new) }
        ensures stands { OnOk result ((H : History) → RunsAfter H self.old
            → RunsAfter (event.now ∷ H) self.new) }
        ensures err { OnErr result (SameRunning self.old self.new) }
        ensures err_stands { OnErr result ((H : History) → RunsAfter H self.old
            → RunsAfter H self.new) }
        ensures err_out { OnErr result (out.new ≡ out.old) }
        ensures takes_none { TakesNoneOf event.now (connection_at self.old) self.old.shared
            → IsOk result }
        ensures done { AlwaysDone event.now result }
        ensures fewer { IfOk result (λ a. is_reply a ≡ true
            → LeavesOneLess event.now self.old.shared self.new.shared) }
        ensures gives { IfOk result (λ a. is_reply a
            ≡ gives_to event.now (connection_at self.old) self.old.shared) }
        ensures asks { IfOk result (λ a. AsksFewer event.now a self.old.shared self.new.shared) }
        ensures gives_up { OnOk result (GivesUp event.now (connection_at self.old)
            (connection_at self.new) self.new.shared) }
    {
        let answer = act(alloc, &mut self.connections, &mut self.shared, event, out)?;
        self.events += 1;
        Ok(answer)
    }

    // A frame comes that isn't the last event, in place.
    fn request(
        &mut self,
        alloc: Global,
        conn: u64,
        frame: &[u8],
        word: [u8; 8],
    ) -> Result<(), NoMemory>
        requires whole { IsFrame frame.now }
        requires more { self.old.events + 2 ≤ most_events }
        ensures stands { OnOk result ((H : History) → RunsAfter H self.old
            → RunsAfter (events.Request conn frame.now word ∷ H) self.new) }
        ensures err { OnErr result (SameRunning self.old self.new) }
        ensures err_stands { OnErr result ((H : History) → RunsAfter H self.old
            → RunsAfter H self.new) }
    {
        request_at(
            alloc,
            &mut self.connections,
            &mut self.shared,
            conn,
            frame,
            word,
        )?;
        self.events += 1;
        Ok(())
    }
}

impl Agent {
    ghost use Rattle.std.specs.Prelude.{◌≡◌, ◌<◌, ◌∷◌, ◌++◌, ◌+◌, [], ℕ, IfOk, IsOk, OnOk, OnErr, List, false, true, option_copied};
    ghost use Rattle.agent_history.specs.Histories.{History, answer, deeds};
    ghost use Rattle.agent_history.specs.declared.event.Event.TheVariants as events;
    ghost use Rattle.agent_core.specs.Events.{Answers, IsEvent};
    ghost use Rattle.nine.specs.Decoding.{IsFrame};
    ghost use Rattle.agent_core.specs.Serves.{EndsSo, TookSo};
    ghost use Rattle.agent_core.specs.Agents.{StandsFor, StandsBy, SameAgent, SameState, TakesOne, TakesOneIn, TakesNone, TakesNoneIn, AsksFewerIn, EndsIn, GivesUpIn, GoesOnIn, HasMore, gives_in, kept_replies};
    ghost use Rattle.agent_history.specs.Conversations.{chosen_at, outcome_at};

    /// An agent without keys and connections.
    pub fn new(alloc: Global) -> Result<Agent, NoMemory>
        ensures { IfOk result (λ agent. StandsFor [] agent) }
    {
        let shared = Shared::new(alloc)?;
        let running = Running {
            connections: Connections::new(alloc),
            shared,
            events: 0,
        };
        Ok(Agent {
            alloc,
            state: State::Runs(running),
        })
    }

    // Whether an event is the last one that the agent carries out.
    fn ends_with(&self, event: &Event) -> bool
        ensures ends { result ≡ true → EndsIn event.now self.now.state }
        ensures goes_on { result ≡ false → GoesOnIn event.now self.now.state }
    {
        match &self.state {
            State::Stopped => false,
            State::Runs(running) => is_stop(event) || running.events + 1 == MOST_EVENTS,
        }
    }

    // Carries out the last event while the agent runs, which then keeps nothing.
    fn end(&mut self, running: Running, event: &Event, out: &mut Bytes) -> Stepped
        requires event { IsEvent event.now }
        requires stopped { self.old.state ≡ State.Stopped }
        requires ends { EndsIn event.now (State.Runs running) }
        ensures answer { IfOk result (λ a. (H : History) → StandsBy H (State.Runs running)
            → Answers H event.now a out.old out.new) }
        ensures stands { OnOk result ((H : History) → StandsBy H (State.Runs running)
            → StandsBy (event.now ∷ H) self.new.state) }
        ensures err { OnErr result (SameState (State.Runs running) self.new.state) }
        ensures err_stands { OnErr result ((H : History) → StandsBy H (State.Runs running)
            → StandsBy H self.new.state) }
        ensures err_out { OnErr result (out.new ≡ out.old) }
        ensures takes_none { TakesNoneIn event.now (State.Runs running) → IsOk result }
        ensures done { AlwaysDone event.now result }
        ensures fewer { IfOk result (λ a. is_reply a ≡ true
            → TakesOneIn event.now (State.Runs running) self.new.state) }
        ensures gives { IfOk result (λ a. is_reply a ≡ gives_in event.now (State.Runs running)) }
        ensures asks { IfOk result (λ a.
            AsksFewerIn event.now a (State.Runs running) self.new.state) }
        ensures gives_up { OnOk result (GivesUpIn event.now (State.Runs running) self.new.state) }
    {
        let Running {
            mut connections,
            mut shared,
            events,
        } = running;
        match act(self.alloc, &mut connections, &mut shared, event, out) {
            Ok(answer) => Ok(answer),
            Err(NoMemory) => {
                self.state = State::Runs(Running {
                    connections,
                    shared,
                    events,
                });
                Err(NoMemory)
            }
        }
    }

    /// Carries out one event, and puts behind `out` what it gives.
    ///
    /// A frame is whole and has at least 7 bytes; an answer of the authentication server has at most 160. It takes
    /// all memory first: where that runs out, the agent and `out` are as before, and the event isn't in the history.
    ///
    /// What a conversation searches among when it goes on behind a reply or an answer, and that a key which it has chosen
    /// stays, `agent_laws::a_search_is_over_the_keys_of_its_moment` says of every history for which the agent stands.
    pub fn step(&mut self, event: &Event, out: &mut Bytes) -> Stepped
        requires { IsEvent event.now }

        // It answers as the definitions say of the history before, and stands for that history and this event.
        ensures answer { IfOk result (λ a. (H : History) → StandsFor H self.old
            → Answers H event.now a out.old out.new) }
        ensures stands { OnOk result ((H : History) → StandsFor H self.old
            → StandsFor (event.now ∷ H) self.new) }

        // After want of memory all is as before.
        ensures err { OnErr result (SameAgent self.old self.new) }
        ensures err_stands { OnErr result ((H : History) → StandsFor H self.old
            → StandsFor H self.new) }
        ensures err_out { OnErr result (out.new ≡ out.old) }

        // A take gives a reply where one is left, which leaves one less; where no memory is taken it succeeds.
        ensures gives { IfOk result (λ a. is_reply a ≡ gives_in event.now self.old.state) }
        ensures takes_none { TakesNone event.now self.old → IsOk result }
        ensures fewer { IfOk result (λ a. is_reply a ≡ true
            → TakesOne event.now self.old self.new) }

        // What is handed out is one less to hand out, and what is answered to a question adds one connection at most.
        ensures asks { IfOk result (λ a.
            AsksFewerIn event.now a self.old.state self.new.state) }

        // A hang and a stop are done, whatever there is of memory, and give up what was kept.
        ensures done { AlwaysDone event.now result }
        ensures gives_up { OnOk result (GivesUpIn event.now self.old.state self.new.state) }
    {
        if self.ends_with(event) {
            return match replace(&mut self.state, State::Stopped) {
                State::Stopped => Ok(after_stop(event)),
                State::Runs(running) => self.end(running, event, out),
            };
        }
        match &mut self.state {
            State::Stopped => Ok(after_stop(event)),
            State::Runs(running) => running.carry_out(self.alloc, event, out),
        }
    }

    // Whether the next event is the last one that is carried out.
    fn is_last(&self) -> bool
        ensures { result ≡ false → HasMore self.now.state }
    {
        match &self.state {
            State::Stopped => false,
            State::Runs(running) => running.events + 1 == MOST_EVENTS,
        }
    }

    // A frame comes as the last event.
    fn end_by_request(&mut self, conn: u64, frame: &[u8], word: [u8; 8]) -> Result<(), NoMemory>
        requires { IsFrame frame.now }
        ensures stands { OnOk result ((H : History) → StandsFor H self.old
            → StandsFor (events.Request conn frame.now word ∷ H) self.new) }
        ensures err { OnErr result (SameAgent self.old self.new) }
        ensures err_stands { OnErr result ((H : History) → StandsFor H self.old
            → StandsFor H self.new) }
    {
        let frame = Bytes::from_slice(self.alloc, frame)?;
        let event = Event::Request { conn, frame, word };
        self.step(&event, &mut Bytes::new(self.alloc))?;
        Ok(())
    }

    /// Enters a frame of a connection as a request, which is the event `Request` with these bytes: it borrows them, so that
    /// whoever has them need not copy them. The frame is whole and has at least 7 bytes.
    pub fn request(&mut self, conn: u64, frame: &[u8], word: [u8; 8]) -> Result<(), NoMemory>
        requires { IsFrame frame.now }
        ensures stands { OnOk result ((H : History) → StandsFor H self.old
            → StandsFor (events.Request conn frame.now word ∷ H) self.new) }
        ensures err { OnErr result (SameAgent self.old self.new) }
        ensures err_stands { OnErr result ((H : History) → StandsFor H self.old
            → StandsFor H self.new) }
    {
        if self.is_last() {
            return self.end_by_request(conn, frame, word);
        }
        match &mut self.state {
            State::Stopped => Ok(()),
            State::Runs(running) => running.request(self.alloc, conn, frame, word),
        }
    }

    // Takes the oldest reply of a connection, after so many others. It counts it too.
    fn take(&mut self, conn: u64, others: u64, out: &mut Bytes) -> Result<u64, NoMemory>
        requires left { gives_in (events.Take conn) self.old.state ≡ true }
        ensures counted { IfOk result (λ count. count ≡ others + 1) }
        ensures stands { OnOk result ((H : History) → StandsFor H self.old
            → StandsFor (events.Take conn ∷ H) self.new) }
        ensures told { OnOk result ((H : History) → StandsFor H self.old
            → out.new ≡ out.old ++ (answer H (events.Take conn)).1) }
        ensures fewer { OnOk result (kept_replies self.new conn < kept_replies self.old conn) }
        ensures err_stands { OnErr result ((H : History) → StandsFor H self.old
            → StandsFor H self.new) }
        ensures err_out { OnErr result (out.new ≡ out.old) }
    {
        let Some(count) = others.checked_add(1) else {
            return Err(NoMemory);
        };
        self.step(&Event::Take { conn }, out)?;
        Ok(count)
    }

    // Why no reply of a connection is left.
    fn why_none(&self) -> TakeEnd
        ensures { (H : History) (conn : ℕ) → StandsFor H self.now
            → is_reply (answer H (events.Take conn)).0 ≡ false → EndsSo result conn H }
    {
        match &self.state {
            State::Stopped => TakeEnd::Stopped,
            State::Runs(_) => TakeEnd::NoneLeft,
        }
    }

    /// Takes the replies that wait on a connection, the oldest first, and puts them behind `out`. Where there is no memory
    /// for one, those before it were taken; nor is there room for one that can't be counted.
    pub fn take_all(&mut self, conn: u64, out: &mut Bytes) -> Served
        ensures { (H : History) → StandsFor H self.old
            → TookSo H conn result out.old out.new self.new }
    {
        let mut taken = 0;
        while self.has_reply(conn) {
            match self.take(conn, taken, out) {
                Ok(count) => taken = count,
                Err(NoMemory) => {
                    return Served {
                        taken,
                        end: TakeEnd::NoRoom,
                    };
                }
            }
        }
        Served {
            taken,
            end: self.why_none(),
        }
    }

    /// Serves a frame on a connection as a request, and then takes the replies that wait on it. The frame is whole and has
    /// at least 7 bytes. Where memory runs out for the request, agent and `out` are as before, and nothing was entered.
    pub fn serve(
        &mut self,
        conn: u64,
        frame: &[u8],
        word: [u8; 8],
        out: &mut Bytes,
    ) -> Result<Served, NoMemory>
        requires { IsFrame frame.now }

        // The history goes on by the request and by a take for each reply that was left.
        ensures served { IfOk result (λ served. (H : History) → StandsFor H self.old
            → TookSo (events.Request conn frame.now word ∷ H) conn served out.old out.new self.new) }

        // After want of memory all is as before.
        ensures err { OnErr result (SameAgent self.old self.new) }
        ensures err_stands { OnErr result ((H : History) → StandsFor H self.old
            → StandsFor H self.new) }
        ensures err_out { OnErr result (out.new ≡ out.old) }
    {
        self.request(conn, frame, word)?;
        Ok(self.take_all(conn, out))
    }

    /// What is new since this was last asked, for those who wait. The agent stands for what it stood for, and it takes no
    /// memory.
    pub fn take_news(&mut self) -> News
        ensures { (H : History) → StandsFor H self.old → StandsFor H self.new }
    {
        match &mut self.state {
            State::Stopped => STOPPED,
            State::Runs(running) => news_of(&mut running.shared),
        }
    }

    /// Whether a take of the connection is answered by a reply. It takes no memory.
    pub fn has_reply(&self, conn: u64) -> bool
        ensures gives { result ≡ gives_in (events.Take conn) self.now.state }
        ensures told { (H : History) → StandsFor H self.now
            → result ≡ is_reply (answer H (events.Take conn)).0 }
    {
        match &self.state {
            State::Stopped => false,
            State::Runs(running) => has_reply(&running.connections, &running.shared, conn),
        }
    }

    /// How the conversation that a fid of a connection has open stands as to its end; None where the fid has none, or it
    /// hasn't started. It takes no memory.
    pub fn outcome(&self, conn: u64, fid: u32) -> Option<Outcome>
        ensures { (H : History) → StandsFor H self.now
            → result ≡ outcome_at (deeds H) conn fid }
    {
        match &self.state {
            State::Stopped => None,
            State::Runs(running) => running.shared.talks.talks.outcome_at(conn, fid),
        }
    }

    /// The key that the conversation of a fid has chosen, if it has. It takes no memory.
    pub fn chosen(&self, conn: u64, fid: u32) -> Option<&Key>
        ensures { (H : History) → StandsFor H self.now
            → option_copied result ≡ chosen_at (deeds H) conn fid }
    {
        match &self.state {
            State::Stopped => None,
            State::Runs(running) => running.shared.talks.talks.chosen_at(conn, fid),
        }
    }
}
