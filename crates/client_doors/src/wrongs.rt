// The wrong answers that are remembered.
ghost use Rattle.std.specs.Prelude.{◌≡◌, ◌-◌, ◌∷◌, ◌<◌, ◌≤◌, IfOk, take};
ghost use Rattle.std.specs.Vec.{vec_capacity, vec_len};
ghost use Rattle.client_doors.specs.Wrongs.{is_kept, is_recent, remembered, rest_of, times_of};

use crate::address::Address;
use std::alloc::Global;
use std::marker::Model;
use wire_base::{List, NoMemory};

/// How many milliseconds a wrong answer counts.
pub const MINUTE: u64 = 60_000;

/// With how many wrong answers within a minute an address waits; no more of them are remembered.
pub const MOST_TIMES: usize = 20;

/// Of how many addresses wrong answers are remembered. With one more the one whose last is the oldest is forgotten.
pub const MOST_ADDRESSES: usize = 4096;

/// An address that gave wrong answers, and when, the last one first.
#[derive(Drop)]
pub struct Guesser {
    address: Address,
    times: List<u64>,
}

/// The addresses that gave wrong answers, the one whose last is the newest first.
#[derive(Drop)]
pub struct Guessers {
    alloc: Global,
    list: Vec<Guesser>,
}

impl Model for Guessers {
    ghost use Rattle.std.specs.Prelude.{List};
    ghost use Rattle.client_doors.specs.declared.wrongs.Guesser.{Guesser};

    ghost Value = { List Guesser };

    ghost view = { λ g. g.list.items };
}

impl Guessers {
    ghost use Rattle.std.specs.Prelude.{◌≡◌, [], OnErr, OnOk};
    ghost use Rattle.client_doors.specs.Wrongs.{after_wrong, rest_of, times_of};

    /// None. It takes no memory.
    pub fn new(alloc: Global) -> Guessers
        ensures { result ≡ [] }
    {
        Guessers {
            alloc,
            list: Vec::new(alloc),
        }
    }

    /// A wrong answer of an address at a time.
    pub fn note(&mut self, address: Address, now: u64) -> Result<(), NoMemory>
        ensures ok { OnOk result (self.new ≡ after_wrong address now self.old) }
        ensures err { OnErr result (self.new ≡ self.old) }
    {
        let times = times_after(self.alloc, find_times(&self.list, address), now)?;
        self.list.reserve(1)?;
        forget(&mut self.list, address, now);
        put_first(&mut self.list, Guesser { address, times });
        Ok(())
    }

    /// How many milliseconds an address waits at a time.
    pub fn wait(&self, address: Address, now: u64) -> u64
        ensures { result ≡ rest_of (times_of address self.now) now }
    {
        rest_of(find_times(&self.list, address), now)
    }
}

// The times of an address.
fn find_times<'a>(guessers: &'a [Guesser], address: Address) -> &'a [u64]
    ensures { result.now ≡ times_of address guessers.entry.now }
{
    for guesser in guessers {
        if guesser.address.bits() == address.bits() {
            return guesser.times.as_slice();
        }
    }
    &[]
}

// The times of an address, with one more that is the newest.
fn times_after(alloc: Global, times: &[u64], now: u64) -> Result<List<u64>, NoMemory>
    ensures { IfOk result (λ after. after ≡ take MOST_TIMES (now ∷ times.now)) }
{
    let mut after = List::new(alloc);
    after.push(now)?;
    for time in first_of(times) {
        after.push(*time)?;
    }
    Ok(after)
}

// The newest times, but for one.
fn first_of(times: &[u64]) -> &[u64]
    ensures { result.now ≡ take (MOST_TIMES - 1) times.now }
{
    if times.len() < MOST_TIMES {
        times
    } else {
        &times[..MOST_TIMES - 1]
    }
}

// Whether the last of these times is within the last minute.
fn is_recent(times: &[u64], now: u64) -> bool
    ensures { result ≡ is_recent now times.now }
{
    match times {
        [last, ..] => now.saturating_sub(*last) < MINUTE,
        [] => false,
    }
}

// An address is forgotten, and those whose last wrong answer is older than a minute.
fn forget(guessers: &mut Vec<Guesser>, address: Address, now: u64)
    ensures others { guessers.new.items ≡ remembered address now guessers.old.items }
    ensures room { vec_capacity guessers.new ≡ vec_capacity guessers.old }
    ensures fewer { vec_len guessers.new ≤ vec_len guessers.old }
{
    guessers.retain(|guesser| is_kept(guesser, address, now));
}

// Puts an address first, for which there is room, and forgets the last of too many.
fn put_first(guessers: &mut Vec<Guesser>, guesser: Guesser)
    requires { vec_len guessers.old < vec_capacity guessers.old }
    ensures { guessers.new.items ≡ take MOST_ADDRESSES (guesser ∷ guessers.old.items) }
{
    guessers.insert(0, guesser).unwrap();
    guessers.truncate(MOST_ADDRESSES);
}

// Whether an address is another, and its last wrong answer is within the last minute.
fn is_kept(guesser: &Guesser, address: Address, now: u64) -> bool
    ensures { result ≡ is_kept address now guesser.now }
{
    guesser.address.bits() != address.bits() && is_recent(guesser.times.as_slice(), now)
}

// How long an address waits whose wrong answers these are.
fn rest_of(times: &[u64], now: u64) -> u64
    ensures { result ≡ rest_of times.now now }
{
    match times.get(MOST_TIMES - 1) {
        Some(time) => MINUTE.saturating_sub(now.saturating_sub(*time)),
        None => 0,
    }
}
