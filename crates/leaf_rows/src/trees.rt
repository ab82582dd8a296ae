// Terms that are told apart and copied, the steps of derivations, and lists of edits and of qids.
use crate::fields::{Came, text_at, text_of, verb_of};
use anyhow::bail;
use attr_tuples::Tuple;
use key_lists::{Edit, EditList};
use nine::{Qid, QidList};
use row_files::{Report, Row};
use std::alloc::Global;
use symbolic_runs::{MacKind, Places, Proof, ProofStep, Term, Terms};
use wire_base::{Bytes, NoMemory};

pub(crate) fn play(
    alloc: Global,
    file: &str,
    rows: &[Row],
    report: &mut Report,
) -> anyhow::Result<()> {
    for row in rows {
        let mut came = Came::new(alloc);
        answer(alloc, row, &mut came)?;
        report.compare(alloc, file, row, came.fields())?;
    }
    Ok(())
}

fn answer(alloc: Global, row: &Row, came: &mut Came) -> anyhow::Result<()> {
    match verb_of(row) {
        "same" | "atoms" | "copies" | "longer" => {
            let mut terms = Terms::new(alloc);
            put_atoms(alloc, &mut terms)?;
            put_joined(alloc, &mut terms)?;
            ask(alloc, &terms, row, came)
        }
        "steps" => steps(alloc, came),
        "edits" => edits(alloc, came),
        "qids" => qids(alloc, row, came),
        _ => Ok(came.word("no such verb")?),
    }
}

fn public(alloc: Global, bytes: &[u8]) -> Result<Term, NoMemory> {
    Ok(Term::Pub(Bytes::from_slice(alloc, bytes)?))
}

// Terms no two of which are equal: public bytes, atoms, and those that stand for a name.
fn put_atoms(alloc: Global, terms: &mut Terms) -> anyhow::Result<()> {
    terms.push(public(alloc, b"ab")?)?;
    terms.push(public(alloc, b"ac")?)?;
    terms.push(public(alloc, b"")?)?;
    terms.push(Term::Nonce(1))?;
    terms.push(Term::Nonce(2))?;
    terms.push(Term::AsChal(1))?;
    terms.push(Term::SKey(1))?;
    terms.push(Term::Junk(1))?;
    terms.push(Term::LKey(text_of(alloc, b"ab")?))?;
    terms.push(Term::LKey(text_of(alloc, b"ac")?))?;
    Ok(terms.push(Term::Pw(text_of(alloc, b"ab")?))?)
}

// Further ones: nothing joined, pairs, sealed terms and digests.
fn put_joined(alloc: Global, terms: &mut Terms) -> anyhow::Result<()> {
    terms.push(Term::Cat(Terms::new(alloc)))?;
    terms.push(pair(alloc, Term::Nonce(1), Term::SKey(1))?)?;
    terms.push(pair(alloc, Term::SKey(1), Term::Nonce(1))?)?;
    terms.push(sealed(alloc, Term::SKey(1), Term::Nonce(1))?)?;
    terms.push(sealed(alloc, Term::Nonce(1), Term::SKey(1))?)?;
    terms.push(digest(alloc, MacKind::Apop)?)?;
    Ok(terms.push(digest(alloc, MacKind::Cram)?)?)
}

fn pair(alloc: Global, first: Term, second: Term) -> Result<Term, NoMemory> {
    let mut pieces = Terms::new(alloc);
    pieces.push(first)?;
    pieces.push(second)?;
    Ok(Term::Cat(pieces))
}

fn sealed(alloc: Global, key: Term, body: Term) -> Result<Term, NoMemory> {
    Ok(Term::Seal(Box::new(alloc, key)?, Box::new(alloc, body)?))
}

fn digest(alloc: Global, kind: MacKind) -> Result<Term, NoMemory> {
    let secret = Box::new(alloc, Term::SKey(1))?;
    Ok(Term::Mac(kind, secret, Box::new(alloc, Term::Nonce(1))?))
}

fn ask(alloc: Global, terms: &Terms, row: &Row, came: &mut Came) -> anyhow::Result<()> {
    let mut copies = terms.copy(alloc)?;
    match verb_of(row) {
        "same" => tell_same(terms.as_slice(), copies.as_slice(), came),
        "longer" => {
            came.flag(copies.same(terms))?;
            copies.push(Term::Nonce(3))?;
            came.flag(copies.same(terms))?;
            Ok(came.flag(terms.same(&copies))?)
        }
        verb => tell_each(alloc, terms.as_slice(), verb == "atoms", came),
    }
}

// For each term the copies that are the same.
fn tell_same(terms: &[Term], copies: &[Term], came: &mut Came) -> anyhow::Result<()> {
    for term in terms {
        for (number, copy) in copies.iter().enumerate() {
            if term.same(copy) {
                came.count(number)?;
            }
        }
    }
    Ok(())
}

// The numbers of the terms that are atoms, or that are the same as a copy of their own.
fn tell_each(
    alloc: Global,
    terms: &[Term],
    is_of_atoms: bool,
    came: &mut Came,
) -> anyhow::Result<()> {
    for (number, term) in terms.iter().enumerate() {
        let is_told = if is_of_atoms {
            term.is_atom()
        } else {
            term.copy(alloc)?.same(term)
        };
        if is_told {
            came.count(number)?;
        }
    }
    Ok(())
}

// Places 7 and 3 in their order; how many steps stand in a derivation of two, whether the first is what was put first;
// and how many terms stand in a list that is made of an empty one.
fn steps(alloc: Global, came: &mut Came) -> anyhow::Result<()> {
    let mut places = Places::new(alloc);
    places.push(7)?;
    places.push(3)?;
    came.shown(&places.as_slice())?;
    let mut proof = Proof::new(alloc);
    proof.push(ProofStep::Known(2))?;
    proof.push(ProofStep::Join(places))?;
    came.count(proof.as_slice().len())?;
    came.flag(matches!(proof.as_slice().first(), Some(ProofStep::Known(2))))?;
    let moved = Terms::from_vec(Vec::new(proof.allocator()));
    came.count(moved.as_slice().len())
}

// How many edits stand in a list of a deletion and an addition, how many of them add, and which they are; and which they
// are when the list is moved.
fn edits(alloc: Global, came: &mut Came) -> anyhow::Result<()> {
    let mut edits = EditList::new(alloc);
    edits.push(Edit::Delete(Tuple::new(alloc)))?;
    edits.push(Edit::Add(Tuple::new(alloc)))?;
    came.count(edits.len())?;
    came.count(edits.additions())?;
    tell_edits(edits.as_slice(), came)?;
    let list = edits.into_vec();
    tell_edits(list.as_slice(), came)
}

fn tell_edits(edits: &[Edit], came: &mut Came) -> anyhow::Result<()> {
    for edit in edits {
        match edit {
            Edit::Delete(_) => came.word("delete")?,
            Edit::Add(_) => came.word("add")?,
        }
    }
    Ok(())
}

// The length of an empty list of qids, and the qids that are pushed, of the root or of ctl.
fn qids(alloc: Global, row: &Row, came: &mut Came) -> anyhow::Result<()> {
    let mut qids = QidList::new(alloc);
    came.count(qids.as_slice().len())?;
    for at in 1..row.given.len() {
        let (kind, path) = match text_at(row, at) {
            "root" => (0x80, 0),
            "ctl" => (0, 3),
            _ => bail!("line {}: field {} is no qid", row.line, at),
        };
        let vers = 0;
        qids.push(Qid { kind, vers, path })?;
    }
    for qid in qids.as_slice() {
        came.shown(qid)?;
    }
    Ok(())
}
