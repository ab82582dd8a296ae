// Steps of a derivation, as their words tell them.
ghost use Rattle.std.specs.Prelude.{◌≡◌, None, Err, Some, List, IfOk, OnErr};
ghost use Rattle.symbolic_runs.specs.declared.proof.ProofStep.{ProofStep};
ghost use Rattle.trace_labels.specs.declared.unread.Unread.TheVariants.{BadForm};
ghost use Rattle.trace_labels.specs.Steps.{IsProofText};
ghost use Rattle.trace_labels.specs.Reading.{mac_step_in, places_in, step_behind, step_in, step_verb_of, two_in, whole_step_in};

use crate::unread::Unread;
use crate::words::Words;
use std::alloc::Global;
use symbolic_runs::{Places, Proof, ProofStep};

/// The first word of a step.
#[derive(Clone, Copy)]
enum StepVerb {
    Known,
    Public,
    Join,
    Part,
    Seal,
    Open,
    Mac,
}

fn step_verb_of(word: &[u8]) -> Option<StepVerb>
    ensures { result ≡ step_verb_of word.now }
{
    if word == b"known".as_slice() {
        return Some(StepVerb::Known);
    }
    if word == b"public".as_slice() {
        return Some(StepVerb::Public);
    }
    if word == b"join".as_slice() {
        return Some(StepVerb::Join);
    }
    if word == b"part".as_slice() {
        return Some(StepVerb::Part);
    }
    if word == b"seal".as_slice() {
        return Some(StepVerb::Seal);
    }
    if word == b"open".as_slice() {
        return Some(StepVerb::Open);
    }
    if word == b"mac".as_slice() {
        return Some(StepVerb::Mac);
    }
    None
}

/// The derivation that the words left are.
pub(crate) fn read_proof(alloc: Global, words: &mut Words) -> Result<Proof, Unread>
    ensures ok { IfOk result (λ steps. IsProofText steps words.old) }
    ensures bad { result ≡ Err BadForm → (steps : List ProofStep)
        → IsProofText steps words.old → ⊥ }
{
    let mut steps = Proof::new(alloc);
    loop {
        steps.push(read_step(alloc, words)?)?;
        if words.is_over() {
            return Ok(steps);
        }
        words.take()?;
    }
}

// The step that stands next, up to its end.
fn read_step(alloc: Global, words: &mut Words) -> Result<ProofStep, Unread>
    ensures ok { IfOk result (λ step. whole_step_in words.old ≡ Some (step, words.new)) }
    ensures bad { result ≡ Err BadForm → whole_step_in words.old ≡ None }
{
    let step = read_begun(alloc, words)?;
    if words.ends_step() {
        Ok(step)
    } else {
        Err(Unread::BadForm)
    }
}

// The step that stands next, with whatever is behind it.
fn read_begun(alloc: Global, words: &mut Words) -> Result<ProofStep, Unread>
    ensures ok { IfOk result (λ step. step_in words.old ≡ Some (step, words.new)) }
    ensures bad { result ≡ Err BadForm → step_in words.old ≡ None }
{
    let word = words.take()?;
    match step_verb_of(word) {
        Some(verb) => read_behind(alloc, verb, words),
        None => Err(Unread::BadForm),
    }
}

fn read_behind(alloc: Global, verb: StepVerb, words: &mut Words) -> Result<ProofStep, Unread>
    ensures ok { IfOk result (λ step. step_behind verb words.old ≡ Some (step, words.new)) }
    ensures bad { result ≡ Err BadForm → step_behind verb words.old ≡ None }
{
    match verb {
        StepVerb::Known => Ok(ProofStep::Known(words.take_number()?)),
        StepVerb::Public => Ok(ProofStep::Public(words.take_hex(alloc)?)),
        StepVerb::Join => Ok(ProofStep::Join(read_places(alloc, words)?)),
        StepVerb::Part => {
            let (of, index) = read_two(words)?;
            Ok(ProofStep::Part { of, index })
        }
        StepVerb::Seal => {
            let (key, body) = read_two(words)?;
            Ok(ProofStep::SealUp { key, body })
        }
        StepVerb::Open => {
            let (seal, key) = read_two(words)?;
            Ok(ProofStep::OpenUp { seal, key })
        }
        StepVerb::Mac => read_mac(words),
    }
}

fn read_two(words: &mut Words) -> Result<(u32, u32), Unread>
    ensures ok { IfOk result (λ two. (make : _) → two_in make words.old
        ≡ Some (make two.0 two.1, words.new)) }
    ensures bad { OnErr result ((make : _) → two_in make words.old ≡ None) }
    ensures why { OnErr result (result ≡ Err BadForm) }
{
    let first = words.take_number()?;
    let second = words.take_number()?;
    Ok((first, second))
}

fn read_mac(words: &mut Words) -> Result<ProofStep, Unread>
    ensures ok { IfOk result (λ step. mac_step_in words.old ≡ Some (step, words.new)) }
    ensures bad { OnErr result (mac_step_in words.old ≡ None) }
    ensures why { OnErr result (result ≡ Err BadForm) }
{
    let kind = words.take_kind()?;
    let (secret, body) = read_two(words)?;
    Ok(ProofStep::MacUp { kind, secret, body })
}

fn read_places(alloc: Global, words: &mut Words) -> Result<Places, Unread>
    ensures ok { IfOk result (λ places. places_in words.old ≡ Some (places, words.new)) }
    ensures bad { result ≡ Err BadForm → places_in words.old ≡ None }
{
    let mut places = Places::new(alloc);
    while !words.ends_step() {
        let place = words.take_number()?;
        places.push(place)?;
    }
    Ok(places)
}
