// Which servers failed lately: those are tried behind the others.
ghost use Rattle.std.specs.Prelude.{◌≡◌, ◌<◌, ◌≤◌, ◌++◌, IfOk, None, OnOk, Option, not, option_map, ℕ};
ghost use Rattle.std.specs.List.{AllByRecursion};
ghost use Rattle.std.specs.Time.{instant_nanos};
ghost use Rattle.sockets.specs.Failures.{Finds, IsOrder, failed_in, is_behind, those};
ghost use Rattle.sockets.specs.Failures.Finding.{Answered, Failed};

use crate::servers::MOST_SERVERS;
use std::alloc::Global;
use std::net::SocketAddr;
use std::sync::{Arc, Mutex, Wait};
use std::time::Instant;
use wire_base::NoMemory;

/// How many nanoseconds a server that failed is tried behind the others.
const MINUTE: u128 = 60_000_000_000;

/// Of how many addresses of names it is known that they failed.
const MOST_PLACES: usize = 64;

/// What dialers found of servers, which are numbered in the order in which they are named, from 0, and of the addresses of
/// their names.
pub trait Recalls {
    /// When each server failed, where it hasn't answered since, in nanoseconds of the clock; where that is told.
    ghost failed: { Self → Option (ℕ → Option ℕ) };

    /// The order in which so many servers are tried now.
    fn order(&mut self, alloc: Global, count: usize, now: Instant) -> Result<Vec<usize>, NoMemory>
        requires { count ≤ MOST_SERVERS }
        ensures order { IfOk result (λ order.
            IsOrder (failed self.old) (instant_nanos now) count order.items) }
        ensures each { IfOk result (λ order. AllByRecursion (λ i. i < count) order.items) }
        ensures same { failed self.new ≡ failed self.old };

    /// A server failed.
    fn note_failed(&mut self, server: usize, now: Instant)
        requires { server < MOST_SERVERS }
        ensures { Finds (Failed server (instant_nanos now)) (failed self.old) (failed self.new) };

    /// A server answered.
    fn note_answered(&mut self, server: usize)
        requires { server < MOST_SERVERS }
        ensures { Finds (Answered server) (failed self.old) (failed self.new) };

    /// Puts the addresses of a name that failed within the last minute behind its others, each in the order in which it
    /// stood.
    fn order_places(&mut self, places: &mut [SocketAddr], now: Instant)
        ensures { failed self.new ≡ failed self.old };

    /// An address of a name failed at a moment, or answered.
    fn note_place(&mut self, place: SocketAddr, moment: Option<Instant>)
        ensures { failed self.new ≡ failed self.old };
}

/// What one dialer found.
#[derive(Drop)]
pub struct Failures {
    servers: [Option<Instant>; MOST_SERVERS],
    places: [Option<(SocketAddr, Instant)>; MOST_PLACES],
    next: usize,
}

// Whether what failed then is tried behind the others.
fn is_behind(failed: Option<Instant>, now: Instant) -> bool
    ensures { result ≡ is_behind (instant_nanos now) (option_map instant_nanos failed) }
{
    match failed {
        Some(moment) => now.duration_since(moment).as_nanos() < MINUTE,
        None => false,
    }
}

impl Failures {
    /// Nothing is found yet.
    pub fn new() -> Failures
        ensures { (i : ℕ) → failed_in result.servers i ≡ None }
    {
        Failures {
            servers: [None; MOST_SERVERS],
            places: [None; MOST_PLACES],
            next: 0,
        }
    }

    // Puts those of so many servers that didn't fail within the last minute last.
    #[tactic(auto, using(crate::proofs::OrderLemmas::kept, crate::proofs::OrderLemmas::passed, crate::proofs::OrderLemmas::ended))]
    fn add_ready(&self, count: usize, now: Instant, order: &mut Vec<usize>) -> Result<(), NoMemory>
        requires { count ≤ MOST_SERVERS }
        ensures { OnOk result (order.new.items ≡ order.old.items ++ those
            (λ i. not (is_behind (instant_nanos now) (failed_in self.now.servers i))) 0 count) }
    {
        for server in 0..count {
            if !is_behind(self.servers[server], now) {
                order.push(server)?;
            }
        }
        Ok(())
    }

    // Puts those that did last.
    #[tactic(auto, using(crate::proofs::OrderLemmas::kept, crate::proofs::OrderLemmas::passed, crate::proofs::OrderLemmas::ended))]
    fn add_failed(&self, count: usize, now: Instant, order: &mut Vec<usize>) -> Result<(), NoMemory>
        requires { count ≤ MOST_SERVERS }
        ensures { OnOk result (order.new.items ≡ order.old.items ++ those
            (λ i. is_behind (instant_nanos now) (failed_in self.now.servers i)) 0 count) }
    {
        for server in 0..count {
            if is_behind(self.servers[server], now) {
                order.push(server)?;
            }
        }
        Ok(())
    }

    // Whether an address of a name failed within the last minute.
    fn is_place_behind(&self, place: SocketAddr, now: Instant) -> bool {
        for known in &self.places {
            if let Some((failed, moment)) = known
                && *failed == place
            {
                return is_behind(Some(*moment), now);
            }
        }
        false
    }
}

impl Recalls for Failures {
    ghost use Rattle.std.specs.Prelude.{Some};

    ghost failed = { λ own. Some (failed_in own.servers) };

    fn order(&mut self, alloc: Global, count: usize, now: Instant) -> Result<Vec<usize>, NoMemory> {
        let mut order = Vec::with_capacity(alloc, count)?;
        self.add_ready(count, now, &mut order)?;
        self.add_failed(count, now, &mut order)?;
        Ok(order)
    }

    fn note_failed(&mut self, server: usize, now: Instant) {
        self.servers[server] = Some(now);
    }

    fn note_answered(&mut self, server: usize) {
        self.servers[server] = None;
    }

    fn order_places(&mut self, places: &mut [SocketAddr], now: Instant) {
        let mut ready = 0;
        for at in 0..places.len() {
            if !self.is_place_behind(places[at], now) {
                places[ready..at + 1].rotate_right(1);
                ready += 1;
            }
        }
    }

    fn note_place(&mut self, place: SocketAddr, moment: Option<Instant>) {
        for known in &mut self.places {
            if let Some((it, _)) = known
                && *it == place
            {
                *known = None;
            }
        }
        if let Some(moment) = moment
            && let Some(slot) = self.places.get_mut(self.next)
        {
            *slot = Some((place, moment));
            self.next = (self.next + 1) % MOST_PLACES;
        }
    }
}

/// What several dialers found together: what one finds helps the others. They tell no content.
#[derive(Drop)]
pub struct SharedFailures {
    failures: Arc<Mutex<Failures>, Global>,
}

impl SharedFailures {
    /// Nothing is found yet; None where there is no memory.
    pub fn new(alloc: Global) -> Option<SharedFailures> {
        match Arc::new(alloc, Mutex::new(Failures::new())) {
            Ok(failures) => Some(SharedFailures { failures }),
            Err(_) => None,
        }
    }

    /// The same, for another dialer.
    pub fn share(&self) -> Option<SharedFailures> {
        match Arc::try_clone(&self.failures) {
            Ok(failures) => Some(SharedFailures { failures }),
            Err(_) => None,
        }
    }

    /// Has a dialer tell and ask here. It may wait for the others, each of which is there for no longer than it looks.
    pub fn of<R>(self, rt: R) -> FailuresOf<R> {
        let SharedFailures { failures } = self;
        FailuresOf { rt, failures }
    }
}

/// What is found together, as one dialer sees it.
#[derive(Drop)]
pub struct FailuresOf<R> {
    rt: R,
    failures: Arc<Mutex<Failures>, Global>,
}

impl<R: Wait> Recalls for FailuresOf<R> {
    ghost use Rattle.std.specs.Prelude.{None};

    ghost failed = { λ _. None };

    fn order(&mut self, alloc: Global, count: usize, now: Instant) -> Result<Vec<usize>, NoMemory> {
        let mut failures = self.failures.lock(&self.rt);
        (*failures).order(alloc, count, now)
    }

    fn note_failed(&mut self, server: usize, now: Instant) {
        let mut failures = self.failures.lock(&self.rt);
        (*failures).note_failed(server, now);
    }

    fn note_answered(&mut self, server: usize) {
        let mut failures = self.failures.lock(&self.rt);
        (*failures).note_answered(server);
    }

    fn order_places(&mut self, places: &mut [SocketAddr], now: Instant) {
        let mut failures = self.failures.lock(&self.rt);
        (*failures).order_places(places, now);
    }

    fn note_place(&mut self, place: SocketAddr, moment: Option<Instant>) {
        let mut failures = self.failures.lock(&self.rt);
        (*failures).note_place(place, moment);
    }
}
