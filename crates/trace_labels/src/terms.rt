// Terms, as their words tell them.
ghost use Rattle.std.specs.Prelude.{◌≡◌, ◌∷◌, ◌++◌, [], None, Err, Some, map, IfOk, OnOk};
ghost use Rattle.symbolic_runs.specs.Trees.{plain, nonce, challenge, long_key, ticket_key, junk_key, password};
ghost use Rattle.symbolic_runs.specs.Views.{tree};
ghost use Rattle.trace_labels.specs.declared.unread.Unread.TheVariants.{BadForm};
ghost use Rattle.trace_labels.specs.Reading.{atom_by, cat_in, hex_of, mac_in, name_of, number_of, seal_in, term_behind, term_in, term_verb_of, terms_in};

use crate::unread::Unread;
use crate::words::Words;
use std::alloc::Global;
use symbolic_runs::{Term, Terms};
use wire_base::NoMemory;

/// How deep a term may be.
pub(crate) const MOST_DEEP: u32 = 64;

/// The first word of a term.
#[derive(Clone, Copy)]
enum TermVerb {
    Pub,
    Nonce,
    AsChal,
    LKey,
    SKey,
    Junk,
    Pw,
    Cat,
    Seal,
    Mac,
}

fn term_verb_of(word: &[u8]) -> Option<TermVerb>
    ensures { result ≡ term_verb_of word.now }
{
    if word == b"pub".as_slice() {
        return Some(TermVerb::Pub);
    }
    if word == b"nonce".as_slice() {
        return Some(TermVerb::Nonce);
    }
    if word == b"aschal".as_slice() {
        return Some(TermVerb::AsChal);
    }
    if word == b"lkey".as_slice() {
        return Some(TermVerb::LKey);
    }
    if word == b"skey".as_slice() {
        return Some(TermVerb::SKey);
    }
    if word == b"junk".as_slice() {
        return Some(TermVerb::Junk);
    }
    if word == b"pw".as_slice() {
        return Some(TermVerb::Pw);
    }
    if word == b"cat".as_slice() {
        return Some(TermVerb::Cat);
    }
    if word == b"seal".as_slice() {
        return Some(TermVerb::Seal);
    }
    if word == b"mac".as_slice() {
        return Some(TermVerb::Mac);
    }
    None
}

fn read_pub(alloc: Global, words: &mut Words) -> Result<Term, Unread>
    ensures ok { IfOk result (λ term. atom_by hex_of plain words.old
        ≡ Some (tree term, words.new)) }
    ensures bad { result ≡ Err BadForm → atom_by hex_of plain words.old ≡ None }
{
    let bytes = words.take_hex(alloc)?;
    Ok(Term::Pub(bytes))
}

fn read_nonce(words: &mut Words) -> Result<Term, Unread>
    ensures ok { IfOk result (λ term. atom_by number_of nonce words.old
        ≡ Some (tree term, words.new)) }
    ensures bad { result ≡ Err BadForm → atom_by number_of nonce words.old ≡ None }
{
    let number = words.take_number()?;
    Ok(Term::Nonce(number))
}

fn read_challenge(words: &mut Words) -> Result<Term, Unread>
    ensures ok { IfOk result (λ term. atom_by number_of challenge words.old
        ≡ Some (tree term, words.new)) }
    ensures bad { result ≡ Err BadForm → atom_by number_of challenge words.old ≡ None }
{
    let number = words.take_number()?;
    Ok(Term::AsChal(number))
}

fn read_long_key(alloc: Global, words: &mut Words) -> Result<Term, Unread>
    ensures ok { IfOk result (λ term. atom_by name_of long_key words.old
        ≡ Some (tree term, words.new)) }
    ensures bad { result ≡ Err BadForm → atom_by name_of long_key words.old ≡ None }
{
    let name = words.take_name(alloc)?;
    Ok(Term::LKey(name))
}

fn read_ticket_key(words: &mut Words) -> Result<Term, Unread>
    ensures ok { IfOk result (λ term. atom_by number_of ticket_key words.old
        ≡ Some (tree term, words.new)) }
    ensures bad { result ≡ Err BadForm → atom_by number_of ticket_key words.old ≡ None }
{
    let number = words.take_number()?;
    Ok(Term::SKey(number))
}

fn read_junk(words: &mut Words) -> Result<Term, Unread>
    ensures ok { IfOk result (λ term. atom_by number_of junk_key words.old
        ≡ Some (tree term, words.new)) }
    ensures bad { result ≡ Err BadForm → atom_by number_of junk_key words.old ≡ None }
{
    let number = words.take_number()?;
    Ok(Term::Junk(number))
}

fn read_password(alloc: Global, words: &mut Words) -> Result<Term, Unread>
    ensures ok { IfOk result (λ term. atom_by name_of password words.old
        ≡ Some (tree term, words.new)) }
    ensures bad { result ≡ Err BadForm → atom_by name_of password words.old ≡ None }
{
    let name = words.take_name(alloc)?;
    Ok(Term::Pw(name))
}

/// The term that stands next, which is at most so deep.
#[cycle(read)]
pub(crate) fn read_term(alloc: Global, words: &mut Words, deep: u32) -> Result<Term, Unread>
    ensures ok { IfOk result (λ term. term_in deep words.old ≡ Some (tree term, words.new)) }
    ensures bad { result ≡ Err BadForm → term_in deep words.old ≡ None }
{
    if deep == 0 {
        return Err(Unread::BadForm);
    }
    let word = words.take()?;
    match term_verb_of(word) {
        Some(verb) => read_behind(alloc, verb, words, deep - 1),
        None => Err(Unread::BadForm),
    }
}

// The term behind its own word; what is in it is at most so deep.
#[cycle(read)]
fn read_behind(alloc: Global, verb: TermVerb, words: &mut Words, deep: u32) -> Result<Term, Unread>
    ensures ok { IfOk result (λ term. term_behind (term_in deep) verb words.old
        ≡ Some (tree term, words.new)) }
    ensures bad { result ≡ Err BadForm → term_behind (term_in deep) verb words.old ≡ None }
{
    match verb {
        TermVerb::Pub => read_pub(alloc, words),
        TermVerb::Nonce => read_nonce(words),
        TermVerb::AsChal => read_challenge(words),
        TermVerb::LKey => read_long_key(alloc, words),
        TermVerb::SKey => read_ticket_key(words),
        TermVerb::Junk => read_junk(words),
        TermVerb::Pw => read_password(alloc, words),
        TermVerb::Cat => read_cat(alloc, words, deep),
        TermVerb::Seal => read_seal(alloc, words, deep),
        TermVerb::Mac => read_mac(alloc, words, deep),
    }
}

#[cycle(read)]
fn read_cat(alloc: Global, words: &mut Words, deep: u32) -> Result<Term, Unread>
    ensures ok { IfOk result (λ term. cat_in (term_in deep) words.old
        ≡ Some (tree term, words.new)) }
    ensures bad { result ≡ Err BadForm → cat_in (term_in deep) words.old ≡ None }
{
    let many = words.take_number()?;
    let pieces = read_pieces(alloc, many, words, deep)?;
    Ok(Term::Cat(Terms::from_vec(pieces)))
}

#[cycle(read)]
fn read_pieces(alloc: Global, many: u32, words: &mut Words, deep: u32) -> Result<Vec<Term>, Unread>
    ensures ok { IfOk result (λ terms. terms_in (term_in deep) many words.old
        ≡ Some (map tree terms.items, words.new)) }
    ensures bad { result ≡ Err BadForm → terms_in (term_in deep) many words.old ≡ None }
{
    let mut pieces = Vec::new(alloc);
    for _ in 0..many {
        let piece = read_term(alloc, words, deep)?;
        put_piece(&mut pieces, piece)?;
    }
    Ok(pieces)
}

fn put_piece(pieces: &mut Vec<Term>, piece: Term) -> Result<(), NoMemory>
    ensures { OnOk result (pieces.new.items ≡ pieces.old.items ++ piece ∷ []) }
{
    pieces.push(piece)?;
    Ok(())
}

fn boxed(alloc: Global, term: Term) -> Result<Box<Term>, NoMemory>
    ensures { IfOk result (λ boxed. boxed.value ≡ term) }
{
    Ok(Box::new(alloc, term)?)
}

#[cycle(read)]
fn read_seal(alloc: Global, words: &mut Words, deep: u32) -> Result<Term, Unread>
    ensures ok { IfOk result (λ term. seal_in (term_in deep) words.old
        ≡ Some (tree term, words.new)) }
    ensures bad { result ≡ Err BadForm → seal_in (term_in deep) words.old ≡ None }
{
    let key = boxed(alloc, read_term(alloc, words, deep)?)?;
    let body = boxed(alloc, read_term(alloc, words, deep)?)?;
    Ok(Term::Seal(key, body))
}

#[cycle(read)]
fn read_mac(alloc: Global, words: &mut Words, deep: u32) -> Result<Term, Unread>
    ensures ok { IfOk result (λ term. mac_in (term_in deep) words.old
        ≡ Some (tree term, words.new)) }
    ensures bad { result ≡ Err BadForm → mac_in (term_in deep) words.old ≡ None }
{
    let kind = words.take_kind()?;
    let secret = boxed(alloc, read_term(alloc, words, deep)?)?;
    let text = boxed(alloc, read_term(alloc, words, deep)?)?;
    Ok(Term::Mac(kind, secret, text))
}
