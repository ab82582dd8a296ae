// The check of derivations that are written down.
ghost use Rattle.std.specs.Prelude.{◌≡◌, ℕ, List, IfOk, Ok, Some, true, is_some, map, option_map, option_and_then};
ghost use Rattle.std.specs.List.{slice_get};
ghost use Rattle.symbolic_runs.specs.Trees.{Tree, joined, seal, digest};
ghost use Rattle.symbolic_runs.specs.Views.{tree, trees, trees_of};
ghost use Rattle.symbolic_runs.specs.Derivations.{Derives, IsProof, conclusion, conclusions, part_of, body_of, pieces_at};

use crate::kind::MacKind;
use crate::proof::{Proof, ProofStep};
use crate::term::{Term, Terms};
use std::alloc::Global;
use wire_base::NoMemory;

/// Whether each step's rule holds. Where it does, each conclusion follows from what is known. A proof without steps
/// holds and proves nothing.
pub fn check_derivation(known: &[Term], proof: &Proof) -> Result<bool, NoMemory>
    ensures exactly { IfOk result (λ holds. holds
        ≡ is_some (conclusions (map tree known.now) proof.now)) }
    ensures derives { result ≡ Ok true
        → (ends : List Tree) × IsProof (map tree known.now) proof.now ends
        × ((index : ℕ) (t : Tree) → slice_get ends index ≡ Some t
        → Derives (map tree known.now) t) }
{
    let ends = conclude(known, proof)?;
    Ok(ends.is_some())
}

/// What the steps conclude, one term each, in order. None exactly where a step's rule doesn't hold.
pub fn conclude(known: &[Term], proof: &Proof) -> Result<Option<Terms>, NoMemory>
    ensures { IfOk result (λ ends. option_map trees ends
        ≡ option_map trees_of (conclusions (map tree known.now) proof.now)) }
{
    let alloc = proof.allocator();
    let mut done = Vec::new(alloc);
    for step in proof.as_slice() {
        match conclude_step(alloc, known, &done, step)? {
            Some(term) => done.push(term)?,
            None => return Ok(None),
        }
    }
    Ok(Some(Terms::from_vec(done)))
}

fn conclude_step(
    alloc: Global,
    known: &[Term],
    done: &[Term],
    step: &ProofStep,
) -> Result<Option<Term>, NoMemory>
    ensures { IfOk result (λ found. option_map tree found
        ≡ conclusion (map tree known.now) (map tree done.now) step.now) }
{
    match step {
        ProofStep::Known(index) => copy_at(alloc, known, *index),
        ProofStep::Public(bytes) => Ok(Some(Term::Pub(bytes.copy()?))),
        ProofStep::Join(places) => join(alloc, done, places.as_slice()),
        ProofStep::Part { of, index } => take_part(alloc, done, *of, *index),
        ProofStep::SealUp { key, body } => seal_up(alloc, done, *key, *body),
        ProofStep::OpenUp { seal, key } => open_up(alloc, done, *seal, *key),
        ProofStep::MacUp { kind, secret, body } => digest_up(alloc, done, *kind, *secret, *body),
    }
}

fn term_at(terms: &[Term], place: u32) -> Option<&Term>
    ensures { option_map (λ term. tree term.now) result ≡ slice_get (map tree terms.now) place }
{
    terms.get(place as usize)
}

fn copy_at(alloc: Global, terms: &[Term], place: u32) -> Result<Option<Term>, NoMemory>
    ensures { IfOk result (λ found. option_map tree found ≡ slice_get (map tree terms.now) place) }
{
    match term_at(terms, place) {
        Some(term) => Ok(Some(term.copy(alloc)?)),
        None => Ok(None),
    }
}

fn join(alloc: Global, done: &[Term], places: &[u32]) -> Result<Option<Term>, NoMemory>
    ensures { IfOk result (λ found. option_map tree found
        ≡ option_map joined (pieces_at (map tree done.now) places.now)) }
{
    let mut pieces = Vec::with_capacity(alloc, places.len())?;
    for place in places {
        match copy_at(alloc, done, *place)? {
            Some(term) => pieces.push(term)?,
            None => return Ok(None),
        }
    }
    Ok(Some(Term::Cat(Terms::from_vec(pieces))))
}

fn take_part(alloc: Global, done: &[Term], of: u32, index: u32) -> Result<Option<Term>, NoMemory>
    ensures { IfOk result (λ found. option_map tree found
        ≡ option_and_then (λ t. part_of t index) (slice_get (map tree done.now) of)) }
{
    match term_at(done, of) {
        Some(whole) => copy_part(alloc, whole, index),
        None => Ok(None),
    }
}

fn copy_part(alloc: Global, whole: &Term, index: u32) -> Result<Option<Term>, NoMemory>
    ensures { IfOk result (λ found. option_map tree found ≡ part_of (tree whole.now) index) }
{
    match whole {
        Term::Cat(pieces) => copy_at(alloc, pieces.as_slice(), index),
        Term::Pub(_)
        | Term::Nonce(_)
        | Term::AsChal(_)
        | Term::LKey(_)
        | Term::SKey(_)
        | Term::Junk(_)
        | Term::Pw(_)
        | Term::Seal(_, _)
        | Term::Mac(_, _, _) => Ok(None),
    }
}

fn seal_up(alloc: Global, done: &[Term], key: u32, body: u32) -> Result<Option<Term>, NoMemory>
    ensures { IfOk result (λ found. option_map tree found
        ≡ option_and_then (λ k. option_map (seal k) (slice_get (map tree done.now) body))
        (slice_get (map tree done.now) key)) }
{
    match term_at(done, key) {
        None => Ok(None),
        Some(key) => match term_at(done, body) {
            None => Ok(None),
            Some(body) => Ok(Some(seal_of(alloc, key, body)?)),
        },
    }
}

fn seal_of(alloc: Global, key: &Term, body: &Term) -> Result<Term, NoMemory>
    ensures { IfOk result (λ term. tree term ≡ seal (tree key.now) (tree body.now)) }
{
    let key = Box::new(alloc, key.copy(alloc)?)?;
    let body = Box::new(alloc, body.copy(alloc)?)?;
    Ok(Term::Seal(key, body))
}

fn open_up(alloc: Global, done: &[Term], sealed: u32, key: u32) -> Result<Option<Term>, NoMemory>
    ensures { IfOk result (λ found. option_map tree found
        ≡ option_and_then (λ s. option_and_then (body_of s) (slice_get (map tree done.now) key))
        (slice_get (map tree done.now) sealed)) }
{
    match term_at(done, sealed) {
        None => Ok(None),
        Some(sealed) => match term_at(done, key) {
            None => Ok(None),
            Some(key) => copy_body(alloc, sealed, key),
        },
    }
}

// A seal opens with its own key alone.
fn copy_body(alloc: Global, sealed: &Term, key: &Term) -> Result<Option<Term>, NoMemory>
    ensures { IfOk result (λ found. option_map tree found
        ≡ body_of (tree sealed.now) (tree key.now)) }
{
    match sealed {
        Term::Seal(own_key, body) => {
            if own_key.same(key) {
                Ok(Some(body.copy(alloc)?))
            } else {
                Ok(None)
            }
        }
        Term::Pub(_)
        | Term::Nonce(_)
        | Term::AsChal(_)
        | Term::LKey(_)
        | Term::SKey(_)
        | Term::Junk(_)
        | Term::Pw(_)
        | Term::Cat(_)
        | Term::Mac(_, _, _) => Ok(None),
    }
}

fn digest_up(
    alloc: Global,
    done: &[Term],
    kind: MacKind,
    secret: u32,
    body: u32,
) -> Result<Option<Term>, NoMemory>
    ensures { IfOk result (λ found. option_map tree found
        ≡ option_and_then (λ p. option_map (digest kind p) (slice_get (map tree done.now) body))
        (slice_get (map tree done.now) secret)) }
{
    match term_at(done, secret) {
        None => Ok(None),
        Some(secret) => match term_at(done, body) {
            None => Ok(None),
            Some(body) => Ok(Some(digest_of(alloc, kind, secret, body)?)),
        },
    }
}

fn digest_of(alloc: Global, kind: MacKind, secret: &Term, text: &Term) -> Result<Term, NoMemory>
    ensures { IfOk result (λ term. tree term ≡ digest kind (tree secret.now) (tree text.now)) }
{
    let secret = Box::new(alloc, secret.copy(alloc)?)?;
    let text = Box::new(alloc, text.copy(alloc)?)?;
    Ok(Term::Mac(kind, secret, text))
}
