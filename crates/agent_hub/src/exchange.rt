// Several requests of one connection, and the takes of their replies, in one turn; and a turn of takes alone.
ghost use Rattle.std.specs.Prelude.{◌≡◌, IfOk, IfSome, OnErr, OnOk};
ghost use Rattle.turn_lock.specs.Seats.{Turned};
ghost use Rattle.agent_history.specs.Histories.{History};
ghost use Rattle.nine.specs.Decoding.{IsFrame};
ghost use Rattle.agent_core.specs.Agents.{StandsFor};
ghost use Rattle.agent_core.specs.Serves.{takes};
ghost use Rattle.agent_hub.specs.Requesting.{frames_in};
ghost use Rattle.agent_hub.specs.Exchanging.{Collects, CutsOff, EndsBy, Handles, HasNone, IsCollected, IsExchanged, Serves, ServesOne, TakesSome, TookOne, batch_events};

use crate::held::Held;
use crate::hub::{Hub, HubSeat};
use agent_core::{Agent, NO_NEWS, News, TakeEnd};
use agent_history::Event;
use std::alloc::Global;
use std::sync::Wait;
use turn_lock::TurnCall;
use wire_base::{Bytes, NoMemory, u32_at};

/// The least size of a frame.
const LEAST_FRAME: u32 = 7;

/// The greatest size of a frame.
const MOST_FRAME: u32 = 8216;

/// How many replies are taken in one turn, so that none lasts long.
const MOST_TAKES: u64 = 65536;

/// Why no more replies of a connection were taken.
#[derive(Clone, Copy, Debug, PartialEq, Eq)]
pub enum TakesEnd {
    /// Everything was entered, and no reply is left.
    NoneLeft,
    /// Everything was entered, and the agent has stopped.
    Stopped,
    /// Memory was short, for the next frame or for a reply, which stays to be taken; or there is as much as was asked
    /// for. What was entered and put out so far stands.
    Left,
}

/// What a batch of frames came to.
#[derive(Clone, Copy, Debug, PartialEq, Eq)]
pub struct Exchanged {
    /// How many of the frames were entered, the first of them first.
    pub entered: usize,
    /// How many replies were taken.
    pub taken: u64,
    pub end: TakesEnd,
}

// How many replies were taken behind each frame that was entered, and why no more were.
#[derive(Drop)]
struct Batch {
    taken: Vec<u64>,
    end: TakesEnd,
}

// A batch of frames is served, in one turn.
#[derive(Drop)]
struct Exchange<'a> {
    alloc: Global,
    conn: u64,
    frames: &'a [u8],
    words: &'a [[u8; 8]],
    out: &'a mut Bytes,
    // What is new behind it.
    news: News,
}

impl<'a> TurnCall<Held> for Exchange<'a> {
    type Reply = Batch;

    ghost use Rattle.std.specs.Prelude.{◌≡◌};
    ghost use Rattle.agent_hub.specs.Requesting.{frames_in};
    ghost use Rattle.agent_hub.specs.Exchanging.{Handles, batch_events};

    ghost entries = { λ call reply. batch_events call.conn reply.taken.items
        (frames_in call.frames.now) call.words.now };

    // The place for what is put out stays the same one.
    ghost gives = { λ call history reply after. (after.out.ghost_name ≡ call.out.ghost_name)
        × Handles history call.conn (frames_in call.frames.now) call.words.now
        reply.taken.items reply.end call.out.now after.out.now };

    fn run(&mut self, state: &mut Held) -> Batch {
        let agent = &mut *state.agent;
        let batch = serve_frames(
            agent,
            self.alloc,
            self.conn,
            self.frames,
            self.words,
            self.out,
        );
        self.news = agent.take_news();
        batch
    }
}

// Replies are taken, in one turn.
#[derive(Drop)]
struct Collect<'a> {
    conn: u64,
    most: usize,
    out: &'a mut Bytes,
    // What is new behind it.
    news: News,
}

// How many replies were taken, and why no more were.
#[derive(Drop)]
struct Collected {
    taken: u64,
    end: TakesEnd,
}

impl<'a> TurnCall<Held> for Collect<'a> {
    type Reply = Collected;

    ghost use Rattle.std.specs.Prelude.{◌≡◌};
    ghost use Rattle.agent_core.specs.Serves.{takes};
    ghost use Rattle.agent_hub.specs.Exchanging.{Collects};

    ghost entries = { λ call reply. takes reply.taken call.conn };

    // The place for what is put out stays the same one.
    ghost gives = { λ call history reply after. (after.out.ghost_name ≡ call.out.ghost_name)
        × Collects history call.conn reply.taken reply.end call.out.now after.out.now };

    fn run(&mut self, state: &mut Held) -> Collected {
        let agent = &mut *state.agent;
        let collected = take_until(agent, self.conn, self.most, self.out);
        self.news = agent.take_news();
        collected
    }
}

// How a batch ends whose last takes ended so.
fn end_of(end: TakeEnd) -> TakesEnd
    ensures { EndsBy end result }
{
    match end {
        TakeEnd::NoneLeft => TakesEnd::NoneLeft,
        TakeEnd::Stopped => TakesEnd::Stopped,
        TakeEnd::NoRoom => TakesEnd::Left,
    }
}

// The frame at the front of a stream, and what stands behind it.
fn first_frame(stream: &[u8]) -> Option<(&[u8], &[u8])>
    ensures { IfSome result (λ cut. CutsOff stream.now cut.0.now cut.1.now) }
{
    let Ok((size, _)) = u32_at(stream, 0) else {
        return None;
    };
    if size < LEAST_FRAME || size > MOST_FRAME || stream.len() < size as usize {
        return None;
    }
    Some(stream.split_at(size as usize))
}

// Serves a frame, and notes how many replies were taken behind it. Where memory is short all is as before.
fn serve_frame(
    agent: &mut Agent,
    conn: u64,
    frame: &[u8],
    word: [u8; 8],
    out: &mut Bytes,
    taken: &mut Vec<u64>,
) -> Result<TakesEnd, NoMemory>
    requires { IsFrame frame.now }
    ensures ok { IfOk result (λ end. (H : History) → StandsFor H agent.old
        → ServesOne H conn frame.now word end taken.old.items taken.new.items
        out.old out.new agent.new) }
    ensures err_stands { OnErr result ((H : History) → StandsFor H agent.old
        → StandsFor H agent.new) }
    ensures err_out { OnErr result (out.new ≡ out.old) }
    ensures err_taken { OnErr result (taken.new.items ≡ taken.old.items) }
{
    taken.reserve(1)?;
    let served = agent.serve(conn, frame, word, out)?;
    taken.push(served.taken).unwrap();
    Ok(end_of(served.end))
}

// Serves the frames of a stream, one for each word, until memory is short.
fn serve_frames(
    agent: &mut Agent,
    alloc: Global,
    conn: u64,
    frames: &[u8],
    words: &[[u8; 8]],
    out: &mut Bytes,
) -> Batch
    ensures { (H : History) → StandsFor H agent.old
        → Serves H conn (frames_in frames.now) words.now result.taken.items result.end
        out.old out.new agent.new }
{
    let mut taken = Vec::new(alloc);
    if taken.reserve(words.len()).is_err() {
        return Batch {
            taken,
            end: TakesEnd::Left,
        };
    }
    let mut end = TakesEnd::Left;
    let mut rest = frames;
    for word in words {
        let Some((frame, behind)) = first_frame(rest) else {
            return Batch {
                taken,
                end: TakesEnd::Left,
            };
        };
        let Ok(served) = serve_frame(agent, conn, frame, *word, out, &mut taken) else {
            return Batch {
                taken,
                end: TakesEnd::Left,
            };
        };
        if served == TakesEnd::Left {
            return Batch {
                taken,
                end: TakesEnd::Left,
            };
        }
        end = served;
        rest = behind;
    }
    Batch { taken, end }
}

// Takes a reply that is left.
fn take_next(agent: &mut Agent, conn: u64, out: &mut Bytes) -> Result<(), NoMemory>
    ensures ok { OnOk result ((H : History) → StandsFor H agent.old
        → TookOne H conn out.old out.new agent.new) }
    ensures err_stands { OnErr result ((H : History) → StandsFor H agent.old
        → StandsFor H agent.new) }
    ensures err_out { OnErr result (out.new ≡ out.old) }
{
    match agent.step(&Event::Take { conn }, out) {
        Ok(_) => Ok(()),
        Err(NoMemory) => Err(NoMemory),
    }
}

// Why no reply is left of a connection that has none.
fn why_none(agent: &mut Agent, conn: u64, out: &mut Bytes) -> TakesEnd
    requires { HasNone conn agent.old }
    ensures { (H : History) → StandsFor H agent.old
        → TakesSome H conn 0 result out.old out.new agent.new }
{
    end_of(agent.take_all(conn, out).end)
}

// Takes the replies that are left, until so many bytes are put out.
fn take_until(agent: &mut Agent, conn: u64, most: usize, out: &mut Bytes) -> Collected
    ensures { (H : History) → StandsFor H agent.old
        → TakesSome H conn result.taken result.end out.old out.new agent.new }
{
    for taken in 0..MOST_TAKES {
        if out.len() >= most {
            return Collected {
                taken,
                end: TakesEnd::Left,
            };
        }
        if !agent.has_reply(conn) {
            let end = why_none(agent, conn, out);
            return Collected { taken, end };
        }
        let Ok(()) = take_next(agent, conn, out) else {
            return Collected {
                taken,
                end: TakesEnd::Left,
            };
        };
    }
    Collected {
        taken: MOST_TAKES,
        end: TakesEnd::Left,
    }
}

// The sum of some numbers, or the greatest number of all.
fn sum_of(numbers: &[u64]) -> u64 {
    let mut sum = 0u64;
    for number in numbers {
        sum = sum.saturating_add(*number);
    }
    sum
}

impl Hub {
    ghost use Rattle.agent_hub.specs.Submits.{IsSeatOf};

    // Serves a batch of frames, in one turn, and tells what is new behind it.
    fn serve_batch<R: Wait>(
        &self,
        rt: &R,
        alloc: Global,
        seat: HubSeat,
        conn: u64,
        frames: &[u8],
        words: &[[u8; 8]],
        out: &mut Bytes,
    ) -> (HubSeat, Batch, News)
        requires { IsSeatOf self.now seat }
        ensures seat { IsSeatOf self.now result.0 }
        ensures turned { Turned
            (batch_events conn result.1.taken.items (frames_in frames.now) words.now)
            (λ history. Handles history conn (frames_in frames.now) words.now
            result.1.taken.items result.1.end out.old out.new) seat result.0 }
    {
        let mut call = Exchange {
            alloc,
            conn,
            frames,
            words,
            out,
            news: NO_NEWS,
        };
        let (seat, batch) = self.lock.with_turn(rt, seat, &mut call);
        (seat, batch, call.news)
    }

    /// Carries out a batch of frames of one connection in one turn. Each whole frame at the front of these bytes for
    /// which there is a word is entered as a request with that word, and then the replies that wait on the connection
    /// are taken, and put behind `out`. May wait for the turns of others.
    ///
    /// The seat's front goes on by others' entries and at last by these, one behind the other. Where fewer frames were
    /// entered than there are words, memory was short for the next one, or there is none; the agent and `out` are as
    /// they were before that one. Of the bells those of other connections are rung whose reads were settled, and not
    /// the own one. No clause says how many replies `taken` counts.
    pub fn exchange<R: Wait>(
        &self,
        rt: &R,
        alloc: Global,
        seat: HubSeat,
        conn: u64,
        frames: &[u8],
        words: &[[u8; 8]],
        out: &mut Bytes,
    ) -> (HubSeat, Exchanged)
        requires { IsSeatOf self.now seat }
        ensures seat { IsSeatOf self.now result.0 }
        ensures exchanged { IsExchanged conn (frames_in frames.now) words.now result.1
            out.old out.new seat result.0 }
    {
        let (seat, batch, news) = self.serve_batch(rt, alloc, seat, conn, frames, words, out);
        self.bells.ring_others(rt, conn, news);
        let exchanged = Exchanged {
            entered: batch.taken.len(),
            taken: sum_of(batch.taken.as_slice()),
            end: batch.end,
        };
        (seat, exchanged)
    }

    // Takes replies, in one turn, and tells what is new behind it.
    fn take_some<R: Wait>(
        &self,
        rt: &R,
        seat: HubSeat,
        conn: u64,
        most: usize,
        out: &mut Bytes,
    ) -> (HubSeat, Collected, News)
        requires { IsSeatOf self.now seat }
        ensures seat { IsSeatOf self.now result.0 }
        ensures turned { Turned (takes result.1.taken conn)
            (λ history. Collects history conn result.1.taken result.1.end out.old out.new)
            seat result.0 }
    {
        let mut call = Collect {
            conn,
            most,
            out,
            news: NO_NEWS,
        };
        let (seat, collected) = self.lock.with_turn(rt, seat, &mut call);
        (seat, collected, call.news)
    }

    /// Takes the replies that wait on a connection, in one turn, and puts them behind `out`, until that has so many
    /// bytes or more. May wait for the turns of others. Answers how many were taken, and why no more were.
    pub fn collect<R: Wait>(
        &self,
        rt: &R,
        seat: HubSeat,
        conn: u64,
        most: usize,
        out: &mut Bytes,
    ) -> (HubSeat, u64, TakesEnd)
        requires { IsSeatOf self.now seat }
        ensures seat { IsSeatOf self.now result.0 }
        ensures collected { IsCollected conn result.2 out.old out.new seat result.0 }
    {
        let (seat, collected, news) = self.take_some(rt, seat, conn, most, out);
        self.bells.ring_others(rt, conn, news);
        (seat, collected.taken, collected.end)
    }
}
