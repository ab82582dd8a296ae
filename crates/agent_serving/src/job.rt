// The jobs of an agent that serves many connections.
ghost use Rattle.std.specs.Prelude.{◌≤◌, map};
ghost use Rattle.agent_hub.specs.Submits.{IsSeatOf};
ghost use Rattle.agent_serving.specs.Jobs.{EndsSo, seat_of};

use crate::prompts::{PromptsEnd, serve_prompts};
use agent_hub::{AsksEnd, Hub, HubSeat, serve_asks};
use agent_lines::{LineEnd, serve_line};
use prompters::{Chain, Prompter};
use std::alloc::Global;
use std::sync::Wait;
use wire_streams::{Awaits, Dialer, Offers, Source, Words};

/// What is done for the connections of an agent, each by a seat of its own.
#[derive(Drop)]
pub enum Job<I, O> {
    /// The connection of this number is served: what comes is handed to the agent, and its replies are written.
    Line {
        seat: HubSeat,
        conn: u64,
        source: I,
        sink: O,
    },
    /// The authentication server is asked what the agent asks of it.
    Asks {
        seat: HubSeat,
    },
    /// What the agent asks its user is answered by prompters, on the connection of this number.
    Prompts {
        seat: HubSeat,
        conn: u64,
    },
}

/// How a job ended.
#[derive(Clone, Copy, Debug, PartialEq, Eq)]
pub enum JobEnd {
    Line(LineEnd),
    Asks(AsksEnd),
    Prompts(PromptsEnd),
}

/// Does a job to its end, and hands its seat back. It may wait; a connection is waited for by `awaits`.
pub fn run_job<R: Wait, I: Source + Drop, O: Offers + Drop, D: Dialer, G: Words, A: Awaits>(
    rt: &R,
    alloc: Global,
    hub: &Hub,
    job: Job<I, O>,
    dialer: &mut D,
    words: &mut G,
    chain: &mut Chain,
    awaits: &mut A,
) -> (HubSeat, JobEnd)
    requires { IsSeatOf hub.now (seat_of job) }
    ensures seat { IsSeatOf hub.now result.0 }

    // It does what the loop that it names does, and ends as that does.
    ensures done { EndsSo I.left I.faults O.holds O.faults job result.0
        (D.told dialer.old) (D.told dialer.new) (D.faults dialer.old) (D.faults dialer.new)
        (G.to_come words.old) (G.to_come words.new) (G.faults words.old) (G.faults words.new)
        (map (λ b. (⟦<(dyn Prompter + Send) as Prompter>⟧ b.vtable).manner b.value)
        chain.old.list.items)
        (map (λ b. (⟦<(dyn Prompter + Send) as Prompter>⟧ b.vtable).manner b.value)
        chain.new.list.items) result.1 }
    ensures counted_dials { D.faults dialer.old ≤ D.faults dialer.new }
    ensures counted_words { G.faults words.old ≤ G.faults words.new }
{
    match job {
        Job::Line {
            seat,
            conn,
            mut source,
            mut sink,
        } => {
            let (seat, end) = serve_line(
                rt,
                alloc,
                hub,
                seat,
                conn,
                &mut source,
                &mut sink,
                words,
                awaits,
            );
            (seat, JobEnd::Line(end))
        }
        Job::Asks { seat } => {
            let (seat, end) = serve_asks(rt, alloc, hub, seat, dialer);
            (seat, JobEnd::Asks(end))
        }
        Job::Prompts { seat, conn } => {
            let (seat, end) = serve_prompts(rt, alloc, hub, seat, conn, chain);
            (seat, JobEnd::Prompts(end))
        }
    }
}
