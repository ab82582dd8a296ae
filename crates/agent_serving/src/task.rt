// Each job as a task of a thread.
use crate::job::{Job, run_job};
use crate::keeping::{answer_for_user, keep_asking};
use crate::waits::LineWaits;
use agent_hub::Hub;
use prompters::Chain;
use std::alloc::Global;
use std::io::Eprint;
use std::marker::Model;
use std::net::Net;
use std::sync::{Arc, Wait};
use std::time::Clock;
use wire_streams::{Dialer, Offers, Source, Watched, Words};

/// What the tools of a job are made from, once for each job.
pub trait Again: Sized {
    /// The same again; None where there is no memory for it.
    fn again(&self) -> Option<Self>;
}

/// What a job is done with: the dialer, and where words are drawn from, by the runtime of its thread; and the number that its
/// prompters are made from.
pub trait Tools<R> {
    /// Asks the authentication server.
    type Dial: Dialer + Drop;

    /// Gives random words.
    type Rand: Words + Drop;

    /// Makes the dialer and the words.
    fn tools(self, rt: &R) -> (Self::Dial, Self::Rand);

    /// To how many questions the job that answers for the user says yes.
    fn consents(&self) -> u32;
}

/// A job of a hub, with what its tools are made from.
#[derive(Drop)]
pub struct Task<I, O, T> {
    pub(crate) hub: Arc<Hub, Global>,
    pub(crate) job: Job<I, O>,
    pub(crate) tools: T,
}

// To its contracts a task is nothing but that: what it holds has no code by which proofs could tell two tasks apart.
impl<I, O, T> Model for Task<I, O, T> {
    ghost use Rattle.std.specs.Prelude.{⊤};
    ghost use Rattle.std.specs.Arc.{arc_value};
    ghost use Rattle.agent_hub.specs.Submits.{IsSeatOf};
    ghost use Rattle.agent_serving.specs.Jobs.{seat_of};

    ghost Value = { ⊤ };

    ghost view = { λ _. tt };

    ghost invariant = { λ task. IsSeatOf (arc_value task.hub) (seat_of task.job) };
}

impl<R, I, O, T> sockets::Job<R> for Task<I, O, T>
where
    R: Wait + Net + Clock + Eprint + AllocGlobal,
    I: Source + Watched + Drop,
    O: Offers + Drop,
    T: Tools<R> + Drop,
{
    // The prompters of the job that answers for the user are one that says yes so often and one that says no. Those jobs that
    // aren't one connection's go on where memory runs out.
    fn run(self, rt: &R) {
        let Task { hub, job, tools } = self;
        let alloc = rt.alloc();
        let consents = tools.consents();
        let (mut dial, mut rand) = tools.tools(rt);
        match job {
            Job::Prompts { seat, conn } => answer_for_user(rt, alloc, &hub, seat, conn, consents),
            Job::Asks { seat } => {
                keep_asking(rt, alloc, &hub, seat, &mut dial);
            }
            Job::Line {
                seat,
                conn,
                source,
                sink,
            } => {
                let mut waits = LineWaits::new(rt, alloc, &hub, conn, source.descriptor());
                let mut chain = Chain::new(Vec::new(alloc));
                let job = Job::Line {
                    seat,
                    conn,
                    source,
                    sink,
                };
                let _ended = run_job(
                    rt, alloc, &hub, job, &mut dial, &mut rand, &mut chain, &mut waits,
                );
            }
        }
    }
}
