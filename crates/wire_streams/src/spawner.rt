//! What starts jobs, by the jobs that it took and by a count of its faults.

/// A job wasn't started, and was dropped.
#[derive(Clone, Copy, Debug, PartialEq, Eq)]
pub struct NoStart;

/// What starts jobs.
pub trait Spawner<J> {
    ghost use Rattle.std.specs.Prelude.{◌≤◌, List, Option, ℕ};
    ghost use Rattle.std.specs.Result.{is_err};
    ghost use Rattle.wire_streams.specs.Causes.{CountsOutcome};
    ghost use Rattle.wire_streams.specs.Spawning.{Spawns};

    /// Which jobs it takes.
    ghost takes: { Self → J → Type 0 };

    /// The jobs taken, the first one first, where the spawner tells them.
    ghost taken: { Self → Option (List J) };

    /// How many jobs weren't started.
    ghost faults: { Self → ℕ };

    /// Starts a job, which is one that the spawner takes. One that isn't started counts one fault, any other none.
    fn spawn(&mut self, job: J) -> Result<(), NoStart>
        requires { takes self.old job }
        ensures taken { Spawns (taken self.old) (taken self.new) result job }
        ensures still { (other : J) → takes self.old other → takes self.new other }
        ensures counted { faults self.old ≤ faults self.new }
        ensures exact { CountsOutcome (faults self.old) (faults self.new) (is_err result) };
}
