//! A spawner in memory, whose calls fail where the caller plans it.
ghost use Rattle.std.specs.Prelude.{◌≡◌, ◌≤◌, List};

use crate::memory::FaultPlan;
use crate::spawner::{NoStart, Spawner};

/// A spawner that takes every job and runs none: it keeps them behind those that it was made with.
#[derive(Drop)]
pub struct MemSpawner<J> {
    jobs: Vec<J>,
    plan: FaultPlan,
}

impl<J> MemSpawner<J> {
    ghost use Rattle.wire_streams.specs.ListenerMemory.{jobs_kept, spawner_plan};
    ghost use Rattle.wire_streams.specs.Memory.{calls_of, failing_calls, faults_of};

    /// A spawner that holds the jobs of `content`; the calls whose numbers are in `fails` fail, counted from 1.
    pub fn new(content: Vec<J>, fails: Vec<u64>) -> MemSpawner<J>
        ensures content { jobs_kept result ≡ content.items }
        ensures listed { failing_calls (spawner_plan result) ≡ fails.items }
        ensures calls { calls_of (spawner_plan result) ≡ 0 }
        ensures faults { faults_of (spawner_plan result) ≡ 0 }
    {
        MemSpawner {
            jobs: content,
            plan: FaultPlan::new(fails),
        }
    }

    /// The jobs that it keeps, the first one first.
    pub fn content(&self) -> &[J]
        ensures { result.now ≡ jobs_kept self.now }
    {
        self.jobs.as_slice()
    }
}

impl<J: Drop> Spawner<J> for MemSpawner<J> {
    ghost use Rattle.std.specs.Prelude.{IsTrue, Some, true, ⊤};
    ghost use Rattle.std.specs.Result.{is_err};
    ghost use Rattle.wire_streams.specs.ListenerMemory.{jobs_kept, spawner_plan};
    ghost use Rattle.wire_streams.specs.Spawning.{Spawns};
    ghost use Rattle.wire_streams.specs.Causes.{CountsOutcome};
    ghost use Rattle.wire_streams.specs.Memory.{CountsCall, fails_next, faults_of};

    ghost takes = { λ _ _. ⊤ };

    ghost taken = { λ spawner. Some (jobs_kept spawner) };

    ghost faults = { λ spawner. faults_of (spawner_plan spawner) };

    fn spawn(&mut self, job: J) -> Result<(), NoStart>
        ensures taken { Spawns (Some (jobs_kept self.old)) (Some (jobs_kept self.new)) result job }
        ensures still { (other : J) → ⊤ → ⊤ }
        ensures counted { faults_of (spawner_plan self.old) ≤ faults_of (spawner_plan self.new) }
        ensures exact { CountsOutcome (faults_of (spawner_plan self.old))
            (faults_of (spawner_plan self.new)) (is_err result) }

        // A call whose number is listed fails. Another fails only where there is no memory for the job.
        ensures planned { IsTrue (fails_next (spawner_plan self.old)) → is_err result ≡ true }
        ensures call { CountsCall (spawner_plan self.old) (spawner_plan self.new) (is_err result) }
    {
        if self.plan.begin_call() {
            return Err(NoStart);
        }
        match self.jobs.push(job) {
            Ok(()) => Ok(()),
            Err(_) => {
                self.plan.count_fault();
                Err(NoStart)
            }
        }
    }
}
