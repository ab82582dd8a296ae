//! A source and a sink in memory, whose calls fail where the caller plans it.
ghost use Rattle.std.specs.Prelude.{◌≡◌, ◌<◌, ◌≤◌, List, drop, length, min, take, vec_len, ℕ};

use crate::sink::{Put, Sink};
use crate::source::{Got, Source};
use std::marker::Model;

/// Bytes of which a front was read already.
#[derive(Debug, Drop)]
pub(crate) struct Unread {
    bytes: Vec<u8>,
    at: usize,
}

impl Model for Unread {
    ghost Value = { List ℕ };

    ghost view = { λ unread. drop unread.at unread.bytes.items };

    ghost invariant = { λ unread. unread.at ≤ vec_len unread.bytes };
}

impl Unread {
    pub(crate) fn new(bytes: Vec<u8>) -> Unread
        ensures { result ≡ bytes.items }
    {
        Unread { bytes, at: 0 }
    }

    /// Moves as many bytes into the front of `out` as there are and as fit, and returns how many.
    pub(crate) fn take_into(&mut self, out: &mut [u8]) -> usize
        ensures count { result ≡ min (length self.old) (length out.old) }
        ensures moved { take result out.new ≡ take result self.old }
        ensures left { self.new ≡ drop result self.old }
    {
        let rest = &self.bytes[self.at..];
        let count = rest.len().min(out.len());
        out[..count].copy_from_slice(&rest[..count]);
        self.at += count;
        count
    }
}

/// Which calls of an object in memory fail, and how many have.
#[derive(Debug, Drop)]
pub struct FaultPlan {
    fails: Vec<u64>,
    calls: u64,
    faults: u64,
}

impl FaultPlan {
    ghost use Rattle.std.specs.Prelude.{false, true};
    ghost use Rattle.wire_streams.specs.Memory.{CountsCall, CountsFault, calls_of, fails_next, failing_calls, faults_of};

    /// No call was made yet; those whose numbers are in `fails` will fail, counted from 1.
    pub fn new(fails: Vec<u64>) -> FaultPlan
        ensures listed { failing_calls result ≡ fails.items }
        ensures calls { calls_of result ≡ 0 }
        ensures faults { faults_of result ≡ 0 }
    {
        FaultPlan {
            fails,
            calls: 0,
            faults: 0,
        }
    }

    /// Counts a call, and says whether it is to fail; the fault is counted too.
    pub fn begin_call(&mut self) -> bool
        ensures planned { result ≡ fails_next self.old }
        ensures counted { CountsCall self.old self.new result }
        ensures later { faults_of self.old ≤ faults_of self.new }
    {
        self.calls = self.calls.saturating_add(1);
        let failed = self.fails.contains(&self.calls);
        if failed {
            self.faults = self.faults.saturating_add(1);
        }
        failed
    }

    /// Counts a fault that was not planned.
    pub fn count_fault(&mut self)
        ensures counted { CountsFault self.old self.new }
        ensures later { faults_of self.old ≤ faults_of self.new }
    {
        self.faults = self.faults.saturating_add(1);
    }
}

/// A source that gives the bytes that it was made with, as many at a time as fit.
#[derive(Debug, Drop)]
pub struct MemSource {
    content: Unread,
    plan: FaultPlan,
}

impl MemSource {
    ghost use Rattle.wire_streams.specs.Memory.{calls_of, failing_calls, faults_of, source_plan, unread_bytes};

    /// A source of `content` whose reads fail at the numbers in `fails`, counted from 1.
    pub fn new(content: Vec<u8>, fails: Vec<u64>) -> MemSource
        ensures content { unread_bytes result ≡ content.items }
        ensures listed { failing_calls (source_plan result) ≡ fails.items }
        ensures calls { calls_of (source_plan result) ≡ 0 }
        ensures faults { faults_of (source_plan result) ≡ 0 }
    {
        MemSource {
            content: Unread::new(content),
            plan: FaultPlan::new(fails),
        }
    }
}

impl Source for MemSource {
    ghost use Rattle.std.specs.Prelude.{Some, ◌↔◌, IsTrue};
    ghost use Rattle.wire_streams.specs.Causes.{CountsOutcome};
    ghost use Rattle.wire_streams.specs.Memory.{CountsCall, GivesAll, fails_next, faults_of, source_plan, unread_bytes};
    ghost use Rattle.wire_streams.specs.Streams.{Reads, read_failed};

    ghost left = { λ source. Some (unread_bytes source) };

    ghost faults = { λ source. faults_of (source_plan source) };

    fn read(&mut self, out: &mut [u8]) -> Got
        requires { 0 < length out.old }
        ensures bytes { Reads (Some (unread_bytes self.old)) (Some (unread_bytes self.new))
            result out.new }
        ensures counted { faults_of (source_plan self.old) ≤ faults_of (source_plan self.new) }
        ensures exact { CountsOutcome (faults_of (source_plan self.old))
            (faults_of (source_plan self.new)) (read_failed result) }

        // A read fails exactly where its number is listed, and gives as many bytes as fit.
        ensures planned { (result ≡ Got.Failed) ↔ IsTrue (fails_next (source_plan self.old)) }
        ensures call { CountsCall (source_plan self.old) (source_plan self.new)
            (read_failed result) }
        ensures full { GivesAll (unread_bytes self.old) (length out.old) result }
    {
        if self.plan.begin_call() {
            return Got::Failed;
        }
        match self.content.take_into(out) {
            0 => Got::End,
            count => Got::Bytes(count),
        }
    }
}

/// A sink that keeps whole pieces behind the bytes that it was made with.
#[derive(Debug, Drop)]
pub struct MemSink {
    content: Vec<u8>,
    plan: FaultPlan,
}

impl MemSink {
    ghost use Rattle.wire_streams.specs.Memory.{calls_of, failing_calls, faults_of, held_bytes, sink_plan};

    /// A sink that holds `content`, whose writes fail at the numbers in `fails`, counted from 1.
    pub fn new(content: Vec<u8>, fails: Vec<u64>) -> MemSink
        ensures content { held_bytes result ≡ content.items }
        ensures listed { failing_calls (sink_plan result) ≡ fails.items }
        ensures calls { calls_of (sink_plan result) ≡ 0 }
        ensures faults { faults_of (sink_plan result) ≡ 0 }
    {
        MemSink {
            content,
            plan: FaultPlan::new(fails),
        }
    }

    /// What the sink holds.
    pub fn content(&self) -> &[u8]
        ensures { result.now ≡ held_bytes self.now }
    {
        self.content.as_slice()
    }
}

impl Sink for MemSink {
    ghost use Rattle.std.specs.Prelude.{Some, IsTrue};
    ghost use Rattle.wire_streams.specs.Causes.{CountsOutcome};
    ghost use Rattle.wire_streams.specs.Memory.{CountsCall, TakesAll, fails_next, faults_of, held_bytes, sink_plan};
    ghost use Rattle.wire_streams.specs.Streams.{Writes, write_failed};

    ghost holds = { λ sink. Some (held_bytes sink) };

    ghost faults = { λ sink. faults_of (sink_plan sink) };

    fn write(&mut self, piece: &[u8]) -> Put
        requires { 0 < length piece.now }
        ensures bytes { Writes (Some (held_bytes self.old)) (Some (held_bytes self.new))
            result piece.now }
        ensures counted { faults_of (sink_plan self.old) ≤ faults_of (sink_plan self.new) }
        ensures exact { CountsOutcome (faults_of (sink_plan self.old))
            (faults_of (sink_plan self.new)) (write_failed result) }

        // A write whose number is listed fails. Another fails only where there is no memory.
        ensures planned { IsTrue (fails_next (sink_plan self.old)) → result ≡ Put.Failed }
        ensures call { CountsCall (sink_plan self.old) (sink_plan self.new)
            (write_failed result) }
        ensures whole { TakesAll result piece.now }
    {
        if self.plan.begin_call() {
            return Put::Failed;
        }
        match self.content.extend_from_slice(piece) {
            Ok(()) => Put::Took(piece.len()),
            Err(_) => {
                self.plan.count_fault();
                Put::Failed
            }
        }
    }
}
