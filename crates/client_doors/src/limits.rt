// Who is let in, and how long an address waits.
ghost use Rattle.std.specs.Prelude.{◌≡◌};
ghost use Rattle.std.specs.Vec.{vec_capacity};
ghost use Rattle.client_doors.specs.Inside.{count_of, first_at, has_own_room, has_room, without};

use crate::address::{Address, is_same};
use crate::wrongs::Guessers;
use std::alloc::Global;
use std::marker::Model;
use wire_base::NoMemory;

/// How many clients are let in at once, in all and of one address.
#[derive(Clone, Copy, Debug, PartialEq, Eq)]
pub struct Limits {
    /// How many in all.
    pub clients: u32,
    /// How many of one address. Who has none is counted among all alone.
    pub per_address: u32,
}

/// Who is inside, and who gave wrong answers lately. All memory for those inside is taken at the start.
#[derive(Drop)]
pub struct ClientLimits {
    limits: Limits,
    inside: Vec<Option<Address>>,
    guessers: Guessers,
}

impl Model for ClientLimits {
    ghost use Rattle.std.specs.Prelude.{◌≤◌};
    ghost use Rattle.std.specs.Vec.{vec_capacity};
    ghost use Rattle.client_doors.specs.Histories.{Seen};

    ghost Value = { Seen };

    ghost view = { λ c. record {
      limits = c.limits;
      inside = c.inside.items;
      guessers = c.guessers;
    } };

    ghost invariant = { λ c. c.limits.clients ≤ vec_capacity c.inside };
}

impl ClientLimits {
    ghost use Rattle.std.specs.Prelude.{◌≡◌, IfOk, OnErr, OnOk};
    ghost use Rattle.client_doors.specs.Inside.{has_room};
    ghost use Rattle.client_doors.specs.Histories.{came, left, nobody, wronged};
    ghost use Rattle.client_doors.specs.Wrongs.{wait_of};

    /// Nobody is inside, and nobody gave a wrong answer.
    pub fn new(alloc: Global, limits: Limits) -> Result<ClientLimits, NoMemory>
        ensures { IfOk result (λ new. new ≡ nobody limits) }
    {
        Ok(ClientLimits {
            limits,
            inside: Vec::with_capacity(alloc, limits.clients as usize)?,
            guessers: Guessers::new(alloc),
        })
    }

    /// A client comes: whether it is let in. It takes no memory.
    pub fn admit(&mut self, address: Option<Address>) -> bool
        ensures answer { result ≡ has_room self.old.limits self.old.inside address }
        ensures seen { self.new ≡ came address self.old }
    {
        if !has_room(self.limits, &self.inside, address) {
            return false;
        }
        self.inside.push(address).unwrap();
        true
    }

    /// A client of this address that was let in has gone. It takes no memory.
    pub fn leave(&mut self, address: Option<Address>)
        ensures seen { self.new ≡ left address self.old }
    {
        drop_first(&mut self.inside, address);
    }

    /// A wrong answer at this time, in milliseconds. Who has no address isn't remembered.
    pub fn note_wrong(&mut self, address: Option<Address>, now: u64) -> Result<(), NoMemory>
        ensures ok { OnOk result (self.new ≡ wronged address now self.old) }
        ensures err { OnErr result (self.new ≡ self.old) }
    {
        match address {
            Some(address) => self.guessers.note(address, now),
            None => Ok(()),
        }
    }

    /// How many milliseconds the next answer of this address waits at this time.
    pub fn wait(&self, address: Option<Address>, now: u64) -> u64
        ensures { result ≡ wait_of address now self.now.guessers }
    {
        match address {
            Some(address) => self.guessers.wait(address, now),
            None => 0,
        }
    }
}

// How many of those inside have an address.
fn count_of(inside: &[Option<Address>], address: Option<Address>) -> usize
    ensures { result ≡ count_of address inside.now }
{
    let mut count = 0;
    for one in inside {
        if is_same(address, *one) {
            count += 1;
        }
    }
    count
}

// Whether there is room for one client more of an address.
fn has_own_room(limits: Limits, inside: &[Option<Address>], address: Option<Address>) -> bool
    ensures { result ≡ has_own_room limits inside.now address }
{
    match address {
        Some(_) => count_of(inside, address) < limits.per_address as usize,
        None => true,
    }
}

// Whether there is room for one client more.
fn has_room(limits: Limits, inside: &[Option<Address>], address: Option<Address>) -> bool
    ensures { result ≡ has_room limits inside.now address }
{
    inside.len() < limits.clients as usize && has_own_room(limits, inside, address)
}

// Where the first of an address stands; behind all where none does.
fn first_at(inside: &[Option<Address>], address: Option<Address>) -> usize
    ensures { result ≡ first_at address inside.now }
{
    let mut at = 0;
    for one in inside {
        if is_same(address, *one) {
            return at;
        }
        at += 1;
    }
    at
}

// The first of an address goes.
#[tactic(auto, using(crate::proofs::FirstLemmas::remove_first, crate::proofs::FirstLemmas::without_none))]
fn drop_first(inside: &mut Vec<Option<Address>>, address: Option<Address>)
    ensures others { inside.new.items ≡ without address inside.old.items }
    ensures room { vec_capacity inside.new ≡ vec_capacity inside.old }
{
    let at = first_at(inside, address);
    if at < inside.len() {
        inside.remove(at);
    }
}
