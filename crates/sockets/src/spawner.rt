// The spawner of threads.
ghost use Rattle.std.specs.Prelude.{◌≡◌, ◌≤◌, IfOk};

use crate::job::Job;
use crossbeam_channel::{Receiver, Sender};
use std::alloc::Global;
use std::io::Eprint;
use std::sync::Wait;
use std::thread::{self, Threads};
use std::time::{Clock, Duration, Instant};
use wire_streams::{NoStart, Spawner};

/// How many seconds it is silent after it told that no thread could be made.
const SILENCE: u64 = 60;

/// What becomes of a job for which no thread can be made.
#[derive(Clone, Copy, Debug, PartialEq, Eq)]
pub enum Unstarted {
    /// It is counted as a fault, and who gave it is told.
    Told,
    /// It is dropped all the same as if it had run.
    Dropped,
}

/// A spawner that takes every job and runs each in a thread of its own, which nobody waits for. It tells no content. That no
/// thread can be made for a job is told on standard error, once in a minute at most. Where such jobs are told, or where the
/// thread that makes the others is gone, or there is no memory to hand it the job, a fault is counted, up to the last
/// value of the counter.
#[derive(Drop)]
pub struct ThreadSpawner<J: Drop, R> {
    rt: R,
    name: String,
    unstarted: Unstarted,
    jobs: Sender<J>,
    started: Receiver<bool>,
    told: Option<Instant>,
    faults: u64,
}

impl<J, R> ThreadSpawner<J, R>
where
    J: Job<R> + Send + 'static,
    R: Threads + Wait + Copy + Send + Drop + 'static,
{
    /// Starts the thread that makes the others, for a program of this name.
    pub fn new(
        rt: R,
        alloc: Global,
        name: &str,
        unstarted: Unstarted,
    ) -> Result<ThreadSpawner<J, R>, NoStart>
        ensures { IfOk result (λ spawner. spawner.faults ≡ 0) }
    {
        let Ok((jobs, queue)) = crossbeam_channel::unbounded(alloc) else {
            return Err(NoStart);
        };
        let Ok((tell, started)) = crossbeam_channel::unbounded(alloc) else {
            return Err(NoStart);
        };
        let Ok(name) = String::from_str(alloc, name) else {
            return Err(NoStart);
        };
        let theirs = rt;
        match thread::spawn(&rt, move || start_jobs(&theirs, &queue, &tell)) {
            Ok(_) => Ok(ThreadSpawner {
                rt,
                name,
                unstarted,
                jobs,
                started,
                told: None,
                faults: 0,
            }),
            Err(_) => Err(NoStart),
        }
    }
}

// Starts a thread for each job that comes, and tells whether there is one, until nobody asks any more.
fn start_jobs<J, R>(rt: &R, queue: &Receiver<J>, tell: &Sender<bool>)
where
    J: Job<R> + Send + 'static,
    R: Threads + Wait + Copy + Send + Drop + 'static,
{
    for _ in rt.forever() {
        let Ok(job) = queue.recv(rt) else {
            return;
        };
        if tell.send(rt, start(rt, job)).is_err() {
            return;
        }
    }
}

// Runs a job in a new thread, and says whether there is one. Where none can be made the job is dropped.
fn start<J, R>(rt: &R, job: J) -> bool
where
    J: Job<R> + Send + 'static,
    R: Threads + Wait + Copy + Send + Drop + 'static,
{
    let theirs = *rt;
    thread::spawn(rt, move || job.run(&theirs)).is_ok()
}

impl<J: Drop, R: Clock + Eprint> ThreadSpawner<J, R> {
    // Tells that no thread could be made, unless it did so a short time ago.
    fn complain(&mut self)
        ensures faults { self.new.faults ≡ self.old.faults }
    {
        let Ok(now) = Instant::now(&self.rt) else {
            return;
        };
        if let Some(told) = self.told
            && now.duration_since(told) < Duration::from_secs(SILENCE)
        {
            return;
        }
        self.told = Some(now);
        let _ = self.rt.eprint(self.name.as_str());
        let _ = self.rt.eprint(": no thread could be made\n");
    }
}

impl<J: Job<R> + Send, R: Wait + Clock + Eprint> Spawner<J> for ThreadSpawner<J, R> {
    ghost use Rattle.std.specs.Prelude.{None, ⊤};
    ghost use Rattle.std.specs.Result.{is_err};
    ghost use Rattle.wire_streams.specs.Spawning.{Spawns};
    ghost use Rattle.wire_streams.specs.Causes.{CountsOutcome};

    ghost takes = { λ _ _. ⊤ };

    ghost taken = { λ _. None };

    ghost faults = { λ spawner. spawner.faults };

    fn spawn(&mut self, job: J) -> Result<(), NoStart>
        ensures taken { Spawns None None result job }
        ensures still { (other : J) → ⊤ → ⊤ }
        ensures counted { self.old.faults ≤ self.new.faults }
        ensures exact { CountsOutcome self.old.faults self.new.faults (is_err result) }
    {
        let started = self.jobs.send(&self.rt, job).is_ok()
            && self.started.recv(&self.rt) == Ok(true);
        if started {
            return Ok(());
        }
        self.complain();
        match self.unstarted {
            Unstarted::Dropped => Ok(()),
            Unstarted::Told => {
                self.faults = self.faults.saturating_add(1);
                Err(NoStart)
            }
        }
    }
}
