// One line of labels.
ghost use Rattle.std.specs.Prelude.{◌≡◌, [], Err, None, Some, IfOk, OnOk, OnErr};
ghost use Rattle.trace_labels.specs.declared.line.Verb.TheVariants as v;
ghost use Rattle.trace_labels.specs.declared.unread.Unread.TheVariants.{BadForm};
ghost use Rattle.trace_labels.specs.Lines.{IsLine, Line};
ghost use Rattle.trace_labels.specs.Reading.{compromised_in, holder_in, label_in, reading_in};
ghost use Rattle.trace_labels.specs.Said.{IsRead, said, verb_of};

use crate::steps::read_proof;
use crate::terms::{MOST_DEEP, read_term};
use crate::unread::Unread;
use crate::words::Words;
use std::alloc::Global;
use symbolic_runs::{Proof, Term};
use wire_base::{Bytes, Text};

/// What a line of labels says.
#[derive(Drop)]
pub enum LabelLine {
    /// The key and the password of this name are compromised.
    Compromised { name: Text },
    /// A conversation's key is the one of this name.
    Holder { conv: Bytes, name: Text },
    /// An atom has these bytes.
    Reading { atom: Term, bytes: Bytes },
    /// What the step at a place takes is this term. Places are counted from 0.
    Label { place: u32, term: Term },
    /// The label of the step at a place follows so from what is known there.
    Proof { place: u32, steps: Proof },
}

/// The first word of a line.
#[derive(Clone, Copy)]
enum Verb {
    Compromised,
    Holder,
    Reading,
    Label,
    Proof,
}

fn verb_of(word: &[u8]) -> Option<Verb>
    ensures { result ≡ verb_of word.now }
{
    if word == b"compromised".as_slice() {
        return Some(Verb::Compromised);
    }
    if word == b"holder".as_slice() {
        return Some(Verb::Holder);
    }
    if word == b"reading".as_slice() {
        return Some(Verb::Reading);
    }
    if word == b"label".as_slice() {
        return Some(Verb::Label);
    }
    if word == b"proof".as_slice() {
        return Some(Verb::Proof);
    }
    None
}

/// The line that a text is. `BadForm` comes exactly where it is none.
pub fn parse_label_line(alloc: Global, text: &[u8]) -> Result<LabelLine, Unread>
    ensures ok { IfOk result (λ line. IsLine (said line) text.now) }
    ensures bad { result ≡ Err BadForm → (line : Line) → IsLine line text.now → ⊥ }
{
    let mut words = Words::new(text);
    let word = words.take()?;
    match verb_of(word) {
        Some(verb) => read_rest(alloc, verb, &mut words),
        None => Err(Unread::BadForm),
    }
}

fn read_rest(alloc: Global, verb: Verb, words: &mut Words) -> Result<LabelLine, Unread>
    ensures { IsRead verb words.old result }
{
    match verb {
        Verb::Compromised => read_compromised(alloc, words),
        Verb::Holder => read_holder(alloc, words),
        Verb::Reading => read_reading(alloc, words),
        Verb::Label => read_label(alloc, words),
        Verb::Proof => read_derivation(alloc, words),
    }
}

// No word is left.
fn end(words: &Words) -> Result<(), Unread>
    ensures ok { OnOk result (words.now ≡ []) }
    ensures bad { OnErr result (words.now ≡ [] → ⊥) }
    ensures why { OnErr result (result ≡ Err BadForm) }
{
    if words.is_over() {
        Ok(())
    } else {
        Err(Unread::BadForm)
    }
}

fn read_compromised(alloc: Global, words: &mut Words) -> Result<LabelLine, Unread>
    ensures ok { IfOk result (λ line. compromised_in words.old ≡ Some (said line)) }
    ensures bad { result ≡ Err BadForm → compromised_in words.old ≡ None }
{
    let name = words.take_name(alloc)?;
    end(words)?;
    Ok(LabelLine::Compromised { name })
}

fn read_holder(alloc: Global, words: &mut Words) -> Result<LabelLine, Unread>
    ensures ok { IfOk result (λ line. holder_in words.old ≡ Some (said line)) }
    ensures bad { result ≡ Err BadForm → holder_in words.old ≡ None }
{
    let conv = words.take()?;
    let name = words.take_name(alloc)?;
    end(words)?;
    let conv = Bytes::from_slice(alloc, conv)?;
    Ok(LabelLine::Holder { conv, name })
}

fn read_reading(alloc: Global, words: &mut Words) -> Result<LabelLine, Unread>
    ensures ok { IfOk result (λ line. reading_in words.old ≡ Some (said line)) }
    ensures bad { result ≡ Err BadForm → reading_in words.old ≡ None }
{
    let atom = read_term(alloc, words, MOST_DEEP)?;
    if !atom.is_atom() {
        return Err(Unread::BadForm);
    }
    let bytes = words.take_hex(alloc)?;
    end(words)?;
    Ok(LabelLine::Reading { atom, bytes })
}

fn read_label(alloc: Global, words: &mut Words) -> Result<LabelLine, Unread>
    ensures ok { IfOk result (λ line. label_in words.old ≡ Some (said line)) }
    ensures bad { result ≡ Err BadForm → label_in words.old ≡ None }
{
    let place = words.take_number()?;
    let term = read_term(alloc, words, MOST_DEEP)?;
    end(words)?;
    Ok(LabelLine::Label { place, term })
}

fn read_derivation(alloc: Global, words: &mut Words) -> Result<LabelLine, Unread>
    ensures { IsRead v.Proof words.old result }
{
    let place = words.take_number()?;
    let steps = read_proof(alloc, words)?;
    Ok(LabelLine::Proof { place, steps })
}

impl LabelLine {
    ghost use Rattle.std.specs.Prelude.{◌≡◌};
    ghost use Rattle.trace_labels.specs.Labels.{repeats};
    ghost use Rattle.trace_labels.specs.Lines as l;
    ghost use Rattle.symbolic_runs.specs.Views.{tree};

    /// Whether it speaks of what another line speaks of.
    pub(crate) fn repeats(&self, other: &LabelLine) -> bool
        ensures { result ≡ repeats (said self.now) (said other.now) }
    {
        match self {
            LabelLine::Compromised { .. } => false,
            LabelLine::Holder { conv, .. } => other.is_of(conv),
            LabelLine::Reading { atom, .. } => other.reads(atom),
            LabelLine::Label { place, .. } => other.labels(*place),
            LabelLine::Proof { place, .. } => other.proves(*place),
        }
    }

    fn is_of(&self, conv: &Bytes) -> bool
        ensures { (name : _) → result ≡ repeats (l.holder conv.now name) (said self.now) }
    {
        match self {
            LabelLine::Holder { conv: other, .. } => conv.as_slice() == other.as_slice(),
            LabelLine::Compromised { .. }
            | LabelLine::Reading { .. }
            | LabelLine::Label { .. }
            | LabelLine::Proof { .. } => false,
        }
    }

    fn reads(&self, atom: &Term) -> bool
        ensures { (bytes : _) → result ≡ repeats (l.reading (tree atom.now) bytes) (said self.now) }
    {
        match self {
            LabelLine::Reading { atom: other, .. } => atom.same(other),
            LabelLine::Compromised { .. }
            | LabelLine::Holder { .. }
            | LabelLine::Label { .. }
            | LabelLine::Proof { .. } => false,
        }
    }

    fn labels(&self, place: u32) -> bool
        ensures { (t : _) → result ≡ repeats (l.label place t) (said self.now) }
    {
        match self {
            LabelLine::Label { place: other, .. } => place == *other,
            LabelLine::Compromised { .. }
            | LabelLine::Holder { .. }
            | LabelLine::Reading { .. }
            | LabelLine::Proof { .. } => false,
        }
    }

    fn proves(&self, place: u32) -> bool
        ensures { (steps : _) → result ≡ repeats (l.proof place steps) (said self.now) }
    {
        match self {
            LabelLine::Proof { place: other, .. } => place == *other,
            LabelLine::Compromised { .. }
            | LabelLine::Holder { .. }
            | LabelLine::Reading { .. }
            | LabelLine::Label { .. } => false,
        }
    }
}
