//! A listener in memory, whose calls fail where the caller plans it.
ghost use Rattle.std.specs.Prelude.{◌≡◌, ◌≤◌, List};

use crate::listener::{ListenFault, Listener};
use crate::memory::FaultPlan;
use crate::sink::Sink;
use crate::source::Source;
use std::collections::VecDeque;

/// A listener that gives the connections that it was made with, in their order; at their end accepting fails.
#[derive(Drop)]
pub struct MemListener<I, O> {
    pairs: VecDeque<(I, O)>,
    plan: FaultPlan,
}

impl<I: Source, O: Sink> MemListener<I, O> {
    ghost use Rattle.wire_streams.specs.ListenerMemory.{listener_plan, pairs_left};
    ghost use Rattle.wire_streams.specs.Memory.{calls_of, failing_calls, faults_of};

    /// A listener of the connections in `content`; the calls whose numbers are in `fails` fail, counted from 1.
    pub fn new(content: Vec<(I, O)>, fails: Vec<u64>) -> MemListener<I, O>
        ensures content { pairs_left result ≡ content.items }
        ensures listed { failing_calls (listener_plan result) ≡ fails.items }
        ensures calls { calls_of (listener_plan result) ≡ 0 }
        ensures faults { faults_of (listener_plan result) ≡ 0 }
    {
        MemListener {
            pairs: VecDeque::from(content),
            plan: FaultPlan::new(fails),
        }
    }
}

impl<I: Source, O: Sink> Listener for MemListener<I, O> {
    ghost use Rattle.std.specs.Prelude.{Some};
    ghost use Rattle.std.specs.Result.{is_err};
    ghost use Rattle.wire_streams.specs.Listening.{Accepts};
    ghost use Rattle.wire_streams.specs.ListenerMemory.{ends_or_fails, listener_plan, pairs_left};
    ghost use Rattle.wire_streams.specs.Causes.{CountsOutcome};
    ghost use Rattle.wire_streams.specs.Memory.{CountsCall, faults_of};

    type In = I;

    type Out = O;

    ghost to_come = { λ listener. Some (pairs_left listener) };

    ghost faults = { λ listener. faults_of (listener_plan listener) };

    fn accept(&mut self) -> Result<(I, O), ListenFault>
        ensures accepted { Accepts (Some (pairs_left self.old)) (Some (pairs_left self.new)) result }
        ensures counted { faults_of (listener_plan self.old) ≤ faults_of (listener_plan self.new) }
        ensures exact { CountsOutcome (faults_of (listener_plan self.old))
            (faults_of (listener_plan self.new)) (is_err result) }

        // Accepting fails exactly where the call's number is listed or no connection is left.
        ensures planned { is_err result ≡ ends_or_fails self.old }
        ensures call { CountsCall (listener_plan self.old) (listener_plan self.new)
            (is_err result) }
    {
        if self.plan.begin_call() {
            return Err(ListenFault);
        }
        match self.pairs.pop_front() {
            Some(pair) => Ok(pair),
            None => {
                self.plan.count_fault();
                Err(ListenFault)
            }
        }
    }
}
