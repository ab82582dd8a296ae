// Terms, as rows spell them: a field each, behind those of the terms that it is made of.
use anyhow::bail;
use row_files::Row;
use std::alloc::Global;
use symbolic_runs::{MacKind, Term, Terms};
use wire_base::{Bytes, Text};

// A field's word, and what stands behind its colon.
fn parted(field: &[u8]) -> (&[u8], &[u8]) {
    let mut parts = field.splitn(2, |byte| *byte == b':');
    let word = parts.next().unwrap_or(b"");
    (word, parts.next().unwrap_or(b""))
}

fn number_of(digits: &[u8]) -> anyhow::Result<u32> {
    Ok(std::str::from_utf8(digits)?.parse::<u32>()?)
}

fn name_of(alloc: Global, name: &[u8]) -> anyhow::Result<Text> {
    match Text::from_slice(alloc, name)? {
        Some(name) => Ok(name),
        None => bail!("a name is no text"),
    }
}

// The last terms, so many, one behind the other.
fn joined(count: u32, stack: &mut Vec<Term>) -> anyhow::Result<Term> {
    let Some(at) = stack.len().checked_sub(count as usize) else {
        bail!("fewer terms than are joined");
    };
    Ok(Term::Cat(Terms::from_vec(stack.split_off(at)?)))
}

fn last_term(stack: &mut Vec<Term>) -> anyhow::Result<Term> {
    match stack.pop() {
        Some(term) => Ok(term),
        None => bail!("a term is missing"),
    }
}

// The last term sealed under the one before it.
fn sealed(alloc: Global, stack: &mut Vec<Term>) -> anyhow::Result<Term> {
    let body = Box::new(alloc, last_term(stack)?)?;
    let key = Box::new(alloc, last_term(stack)?)?;
    Ok(Term::Seal(key, body))
}

// The digest of the last term under the one before it.
fn digest(alloc: Global, kind: MacKind, stack: &mut Vec<Term>) -> anyhow::Result<Term> {
    let text = Box::new(alloc, last_term(stack)?)?;
    let secret = Box::new(alloc, last_term(stack)?)?;
    Ok(Term::Mac(kind, secret, text))
}

// The term of a field, which takes those that it is made of from the stack.
fn read_term(alloc: Global, field: &[u8], stack: &mut Vec<Term>) -> anyhow::Result<Term> {
    let (word, value) = parted(field);
    match word {
        b"pub" => Ok(Term::Pub(Bytes::from_slice(alloc, value)?)),
        b"nonce" => Ok(Term::Nonce(number_of(value)?)),
        b"challenge" => Ok(Term::AsChal(number_of(value)?)),
        b"key" => Ok(Term::LKey(name_of(alloc, value)?)),
        b"ticket_key" => Ok(Term::SKey(number_of(value)?)),
        b"junk" => Ok(Term::Junk(number_of(value)?)),
        b"password" => Ok(Term::Pw(name_of(alloc, value)?)),
        b"join" => joined(number_of(value)?, stack),
        b"seal" => sealed(alloc, stack),
        b"apop" => digest(alloc, MacKind::Apop, stack),
        b"cram" => digest(alloc, MacKind::Cram, stack),
        _ => bail!("no such term"),
    }
}

fn read_terms(alloc: Global, row: &Row, from: usize, stack: &mut Vec<Term>) -> anyhow::Result<()> {
    for field in row.given.iter().skip(from) {
        let term = read_term(alloc, field.as_slice(), stack)?;
        stack.push(term)?;
    }
    Ok(())
}

/// The term that a row's fields from a place on spell.
pub(crate) fn term_of(alloc: Global, row: &Row, from: usize) -> anyhow::Result<Term> {
    let mut stack = Vec::new(alloc);
    read_terms(alloc, row, from, &mut stack)?;
    let term = last_term(&mut stack)?;
    if !stack.is_empty() {
        bail!("more terms than one");
    }
    Ok(term)
}
