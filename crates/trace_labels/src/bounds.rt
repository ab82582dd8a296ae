// How large what a short text stands for may be: bounds that are looked at before memory is taken. A label may name an
// atom of many bytes many times, and a derivation may double a term at each step.
use std::alloc::Global;
use symbolic_runs::{Proof, ProofStep, Reading, Term};
use wire_base::NoMemory;

/// How many bytes a label's spelling may take, and how many terms the conclusions of a derivation may have in all.
pub const MOST_SPELLED: u64 = 16777216;

/// How many terms, one in another, the conclusions of a derivation may have in all.
pub const MOST_TERMS: u64 = 16777216;

// The terms in a term, itself among them.
#[cycle(count)]
fn terms_in(term: &Term) -> u64 {
    match term {
        Term::Pub(_)
        | Term::Nonce(_)
        | Term::AsChal(_)
        | Term::LKey(_)
        | Term::SKey(_)
        | Term::Junk(_)
        | Term::Pw(_) => 1,
        Term::Cat(pieces) => terms_in_all(pieces.as_slice()).saturating_add(1),
        Term::Seal(key, body) => terms_in_both(key, body),
        Term::Mac(_, secret, text) => terms_in_both(secret, text),
    }
}

#[cycle(count)]
fn terms_in_all(pieces: &[Term]) -> u64 {
    let mut sum: u64 = 0;
    for piece in pieces {
        sum = sum.saturating_add(terms_in(piece));
    }
    sum
}

#[cycle(count)]
fn terms_in_both(first: &Term, second: &Term) -> u64 {
    let one = terms_in(first);
    one.saturating_add(terms_in(second)).saturating_add(1)
}

// The bytes that are written while a term is spelled, at most.
#[cycle(spell)]
fn bytes_in(reading: &Reading, term: &Term) -> u64 {
    match term {
        Term::Pub(bytes) => bytes.len() as u64,
        Term::Nonce(_)
        | Term::AsChal(_)
        | Term::LKey(_)
        | Term::SKey(_)
        | Term::Junk(_)
        | Term::Pw(_) => bytes_of_atom(reading, term),
        Term::Cat(pieces) => bytes_in_all(reading, pieces.as_slice()),
        Term::Seal(key, body) => bytes_in_both(reading, key, body),
        Term::Mac(_, secret, text) => bytes_in_both(reading, secret, text),
    }
}

fn bytes_of_atom(reading: &Reading, atom: &Term) -> u64 {
    match reading.bytes_of(atom) {
        Some(bytes) => bytes.len() as u64,
        None => 0,
    }
}

#[cycle(spell)]
fn bytes_in_all(reading: &Reading, pieces: &[Term]) -> u64 {
    let mut sum: u64 = 0;
    for piece in pieces {
        sum = sum.saturating_add(bytes_in(reading, piece));
    }
    sum
}

#[cycle(spell)]
fn bytes_in_both(reading: &Reading, first: &Term, second: &Term) -> u64 {
    let one = bytes_in(reading, first);
    one.saturating_add(bytes_in(reading, second))
        .saturating_add(32)
}

/// A label whose spelling would take too much is out of memory.
pub(crate) fn check_label(reading: &Reading, label: &Term) -> Result<(), NoMemory> {
    if bytes_in(reading, label) > MOST_SPELLED {
        Err(NoMemory)
    } else {
        Ok(())
    }
}

fn size_at(sizes: &[u64], place: u32) -> u64 {
    match sizes.get(place as usize) {
        Some(size) => *size,
        None => 0,
    }
}

fn size_of_all(sizes: &[u64], places: &[u32]) -> u64 {
    let mut sum: u64 = 1;
    for place in places {
        sum = sum.saturating_add(size_at(sizes, *place));
    }
    sum
}

fn size_of_both(sizes: &[u64], first: u32, second: u32) -> u64 {
    size_at(sizes, first)
        .saturating_add(size_at(sizes, second))
        .saturating_add(1)
}

fn size_of_known(known: &[Term], index: u32) -> u64 {
    match known.get(index as usize) {
        Some(term) => terms_in(term),
        None => 0,
    }
}

// How many terms a step concludes at most, behind steps of these sizes.
fn size_of_step(known: &[Term], sizes: &[u64], step: &ProofStep) -> u64 {
    match step {
        ProofStep::Known(index) => size_of_known(known, *index),
        ProofStep::Public(_) => 1,
        ProofStep::Join(places) => size_of_all(sizes, places.as_slice()),
        ProofStep::Part { of, .. } => size_at(sizes, *of),
        ProofStep::SealUp { key, body } => size_of_both(sizes, *key, *body),
        ProofStep::OpenUp { seal, .. } => size_at(sizes, *seal),
        ProofStep::MacUp { secret, body, .. } => size_of_both(sizes, *secret, *body),
    }
}

/// A derivation whose conclusions would have too many terms is out of memory.
pub(crate) fn check_proof(known: &[Term], proof: &Proof) -> Result<(), NoMemory> {
    let alloc = proof.allocator();
    let mut sizes = Vec::new(alloc);
    let mut sum: u64 = 0;
    for step in proof.as_slice() {
        let size = size_of_step(known, &sizes, step);
        sum = sum.saturating_add(size);
        if sum > MOST_TERMS {
            return Err(NoMemory);
        }
        sizes.push(size)?;
    }
    Ok(())
}
