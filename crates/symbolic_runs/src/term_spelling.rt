// The bytes of a term.
ghost use Rattle.std.specs.Prelude.{◌≡◌, ◌≤◌, None, Ok, Err, true, OnOk, OnErr, length, take, drop, option_map, map};
ghost use Rattle.symbolic_runs.specs.declared.spelling.SpellFault.TheVariants.{NoAtom, BadSeal, NoMemory};
ghost use Rattle.symbolic_runs.specs.Spellings.{spelling, spelling_all, atom_bytes, bytes_of, seal_bytes, digest_bytes};
ghost use Rattle.symbolic_runs.specs.Trees.{digest, is_atom, seal};
ghost use Rattle.symbolic_runs.specs.Views.{tree, trees_of};
ghost use Rattle.symbolic_runs.specs.Answers.{atoms_of, behind, key_option, Writes};

use crate::kind::MacKind;
use crate::reading::Reading;
use crate::spelling::SpellFault;
use crate::term::Term;
use sealing::{Key7, apop_answer, cram_answer, seal};
use std::mem;
use wire_base::Bytes;

/// Appends the bytes of a term under a reading. `NoAtom`: an atom that has no bytes. `BadSeal`: a seal whose key isn't
/// seven bytes or whose body is shorter than eight. The first fault from the left is told, the key before the body and
/// an atom before the seal that holds it. After a refusal `out` is as before.
pub fn spell(reading: &Reading, term: &Term, out: &mut Bytes) -> Result<(), SpellFault>
    ensures ok { OnOk result (behind out.old (spelling (atoms_of reading.now) (tree term.now))
        ≡ Ok out.new) }
    ensures no_atom { result ≡ Err NoAtom
        → spelling (atoms_of reading.now) (tree term.now) ≡ Err NoAtom }
    ensures bad_seal { result ≡ Err BadSeal
        → spelling (atoms_of reading.now) (tree term.now) ≡ Err BadSeal }
    ensures err { OnErr result (out.new ≡ out.old) }

    // An atom that has no bytes is refused before memory is taken.
    ensures missing { is_atom (tree term.now) ≡ true
        → bytes_of (atoms_of reading.now) (tree term.now) ≡ None → result ≡ Err NoAtom }
{
    let mut list = mem::replace(out, Bytes::new(reading.allocator())).into_vec();
    let before = list.len();
    let answer = write_term(reading, term, &mut list);
    if answer.is_err() {
        list.truncate(before);
    }
    *out = Bytes::from_vec(list);
    answer
}

// Appends the bytes of a term. After a refusal more may stand behind what stood.
#[cycle(write)]
fn write_term(reading: &Reading, term: &Term, list: &mut Vec<u8>) -> Result<(), SpellFault>
    ensures writes { Writes (spelling (atoms_of reading.now) (tree term.now))
        list.old.items result list.new.items }
    ensures missing { is_atom (tree term.now) ≡ true
        → bytes_of (atoms_of reading.now) (tree term.now) ≡ None → result ≡ Err NoAtom }
{
    match term {
        Term::Pub(bytes) => put(list, bytes.as_slice()),
        Term::Nonce(_)
        | Term::AsChal(_)
        | Term::LKey(_)
        | Term::SKey(_)
        | Term::Junk(_)
        | Term::Pw(_) => write_atom(reading, term, list),
        Term::Cat(pieces) => write_pieces(reading, pieces.as_slice(), list),
        Term::Seal(key, body) => write_seal(reading, key, body, list),
        Term::Mac(kind, secret, text) => write_digest(reading, *kind, secret, text, list),
    }
}

fn write_atom(reading: &Reading, atom: &Term, list: &mut Vec<u8>) -> Result<(), SpellFault>
    ensures writes { Writes (atom_bytes (bytes_of (atoms_of reading.now) (tree atom.now)))
        list.old.items result list.new.items }
    ensures missing { bytes_of (atoms_of reading.now) (tree atom.now) ≡ None
        → result ≡ Err NoAtom }
{
    match reading.bytes_of(atom) {
        Some(bytes) => put(list, bytes),
        None => Err(SpellFault::NoAtom),
    }
}

#[cycle(write)]
fn write_pieces(reading: &Reading, pieces: &[Term], list: &mut Vec<u8>) -> Result<(), SpellFault>
    ensures { Writes (spelling_all (atoms_of reading.now) (trees_of (map tree pieces.now)))
        list.old.items result list.new.items }
{
    for piece in pieces {
        write_term(reading, piece, list)?;
    }
    Ok(())
}

// The key is spelled first, and then gives its room to the body.
#[cycle(write)]
fn write_seal(
    reading: &Reading,
    key: &Term,
    body: &Term,
    list: &mut Vec<u8>,
) -> Result<(), SpellFault>
    ensures { Writes (spelling (atoms_of reading.now) (seal (tree key.now) (tree body.now)))
        list.old.items result list.new.items }
{
    let from = list.len();
    write_term(reading, key, list)?;
    let key_bytes = key_of(&list[from..]);
    list.truncate(from);
    write_term(reading, body, list)?;
    seal_from(key_bytes, list, from)
}

#[cycle(write)]
fn write_digest(
    reading: &Reading,
    kind: MacKind,
    secret: &Term,
    text: &Term,
    list: &mut Vec<u8>,
) -> Result<(), SpellFault>
    ensures { Writes (spelling (atoms_of reading.now)
        (digest kind (tree secret.now) (tree text.now))) list.old.items result list.new.items }
{
    let from = list.len();
    write_term(reading, secret, list)?;
    let middle = list.len();
    write_term(reading, text, list)?;
    let digits = digest_of(kind, &list[from..middle], &list[middle..]);
    list.truncate(from);
    put(list, &digits)
}

// The key that the bytes are, where they are seven.
fn key_of(bytes: &[u8]) -> Option<Key7>
    ensures { option_map (λ key. key.0) result ≡ key_option bytes.now }
{
    match <[u8; 7]>::try_from(bytes) {
        Ok(key) => Some(Key7(key)),
        Err(_) => None,
    }
}

// Seals what stands from a place on.
fn seal_from(key: Option<Key7>, list: &mut Vec<u8>, from: usize) -> Result<(), SpellFault>
    requires { from ≤ length list.old.items }
    ensures value { (key_bytes : _) → option_map (λ k. k.0) key ≡ key_option key_bytes
        → Writes (seal_bytes key_bytes (drop from list.old.items)) (take from list.old.items)
        result list.new.items }
{
    match key {
        Some(key) if list.len() - from >= 8 => {
            seal(&key, &mut list[from..]);
            Ok(())
        }
        _ => Err(SpellFault::BadSeal),
    }
}

fn digest_of(kind: MacKind, secret: &[u8], text: &[u8]) -> [u8; 32]
    ensures { result ≡ digest_bytes kind secret.now text.now }
{
    match kind {
        MacKind::Apop => apop_answer(text, secret),
        MacKind::Cram => cram_answer(text, secret),
    }
}

fn put(list: &mut Vec<u8>, bytes: &[u8]) -> Result<(), SpellFault>
    ensures { Writes (Ok bytes.now) list.old.items result list.new.items }
{
    match list.extend_from_slice(bytes) {
        Ok(()) => Ok(()),
        Err(_) => Err(SpellFault::NoMemory),
    }
}
