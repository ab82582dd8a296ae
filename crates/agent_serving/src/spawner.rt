// The spawner of a hub's jobs.
ghost use Rattle.std.specs.Prelude.{◌≡◌, ◌≤◌, ◌∷◌, [], IfOk, ⊤};
ghost use Rattle.std.specs.Arc.{arc_value};
ghost use Rattle.std.specs.Result.{is_err};
ghost use Rattle.wire_streams.specs.Causes.{CountsOutcome};
ghost use Rattle.wire_streams.specs.Spawning.{Gains};
ghost use Rattle.agent_hub.specs.Submits.{IsSeatOf};
ghost use Rattle.agent_serving.specs.Jobs.{seat_of};

use crate::job::Job;
use crate::task::{Again, Task};
use agent_hub::Hub;
use std::alloc::Global;
use std::sync::Arc;
use wire_streams::{NoStart, Spawner};

/// A spawner that takes the jobs whose seat is of its hub, and has each run as a task with tools of its own, by another
/// spawner. It tells no content, but a job that it took is one task more of the other's. A job for which there is no memory, or that the other doesn't take, is counted.
#[derive(Drop)]
pub struct HubSpawner<T, P> {
    hub: Arc<Hub, Global>,
    tools: T,
    pub(crate) inner: P,
    pub(crate) faults: u64,
}

impl<T, P> HubSpawner<T, P> {
    /// A spawner of the jobs of a hub.
    pub fn new(hub: Arc<Hub, Global>, tools: T, inner: P) -> HubSpawner<T, P>
        ensures hub { arc_value result.hub ≡ arc_value hub }
        ensures inner { result.inner ≡ inner }
    {
        HubSpawner {
            hub,
            tools,
            inner,
            faults: 0,
        }
    }
}

impl<I, O, T, P> Spawner<Job<I, O>> for HubSpawner<T, P>
where
    I: Drop,
    O: Drop,
    T: Again + Drop,
    P: Spawner<Task<I, O, T>>,
{
    ghost use Rattle.std.specs.Prelude.{None, ⊤};
    ghost use Rattle.std.specs.Arc.{arc_value};
    ghost use Rattle.agent_hub.specs.Submits.{IsSeatOf};
    ghost use Rattle.agent_serving.specs.Jobs.{seat_of};

    ghost takes = { λ s job. IsSeatOf (arc_value s.hub) (seat_of job)
        × ((task : ⊤) → P.takes s.inner task) };

    ghost taken = { λ _. None };

    ghost faults = { λ s. s.faults };

    fn spawn(&mut self, job: Job<I, O>) -> Result<(), NoStart>
        requires { IsSeatOf (arc_value self.old.hub) (seat_of job)
            × ((task : ⊤) → P.takes self.old.inner task) }
        ensures still { (other : Job I O) → IsSeatOf (arc_value self.old.hub) (seat_of other)
            × ((task : ⊤) → P.takes self.old.inner task)
            → IsSeatOf (arc_value self.new.hub) (seat_of other)
            × ((task : ⊤) → P.takes self.new.inner task) }
        ensures counted { self.old.faults ≤ self.new.faults }
        ensures exact { CountsOutcome self.old.faults self.new.faults (is_err result) }
        // A job that is told as taken was handed on to the other spawner, as one task.
        ensures handed { IfOk result (λ _. Gains (P.taken self.old.inner) (P.taken self.new.inner)
            (tt ∷ [])) }
    {
        let Some(tools) = self.tools.again() else {
            self.faults = self.faults.saturating_add(1);
            return Err(NoStart);
        };
        let Ok(hub) = Arc::try_clone(&self.hub) else {
            self.faults = self.faults.saturating_add(1);
            return Err(NoStart);
        };
        match self.inner.spawn(Task { hub, job, tools }) {
            Ok(()) => Ok(()),
            Err(_) => {
                self.faults = self.faults.saturating_add(1);
                Err(NoStart)
            }
        }
    }
}
