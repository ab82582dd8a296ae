// What a text of labels reads its atoms as.
ghost use Rattle.std.specs.Prelude.{◌≡◌, ◌↔◌, ◌∷◌, [], true, map, IfOk, OnOk, OnErr, option_map};
ghost use Rattle.clean_runs.specs.Clean.{AreApart, GivesBytes, GivesSevens};
ghost use Rattle.symbolic_runs.specs.Answers.{atoms_of};
ghost use Rattle.symbolic_runs.specs.Views.{tree};
ghost use Rattle.trace_labels.specs.Said.{said};
ghost use Rattle.trace_runs.specs.Readings.{AreSame, OfText, atoms_in, gives_seven, holder_in, is_new, is_of, text_in, with_line, with_reading, with_text};

use std::alloc::Global;
use std::collections::BTreeSet;
use symbolic_runs::{Reading, Term};
use trace_labels::LabelLine;
use wire_base::{Bytes, NoMemory, Text};

/// A kind of atoms, no two of which are to have the same bytes.
#[derive(Clone, Copy, Debug, PartialEq, Eq)]
pub enum AtomKind {
    /// The random words of conversations.
    Nonce,
    /// The digits of challenges.
    Challenge,
    /// All keys: those of names, those of tickets and those that are made up.
    Key,
    /// The passwords of names.
    Password,
}

impl AtomKind {
    // Whether a term is an atom of this kind.
    fn holds(self, term: &Term) -> bool
        ensures { result ≡ is_of self (tree term.now) }
    {
        match term {
            Term::Nonce(_) => self == AtomKind::Nonce,
            Term::AsChal(_) => self == AtomKind::Challenge,
            Term::LKey(_) | Term::SKey(_) | Term::Junk(_) => self == AtomKind::Key,
            Term::Pw(_) => self == AtomKind::Password,
            Term::Pub(_) | Term::Cat(_) | Term::Seal(_, _) | Term::Mac(_, _, _) => false,
        }
    }
}

/// The reading that the lines of a text of labels give. Its bytes are copied.
pub fn reading_of(alloc: Global, lines: &[LabelLine]) -> Result<Reading, NoMemory>
    ensures read { IfOk result (λ reading.
        OfText (map said lines.now) (atoms_of reading ≡ atoms_in (map said lines.now))) }
    ensures bytes { IfOk result (λ reading. GivesBytes (atoms_of reading)) }
{
    let mut reading = Reading::new(alloc);
    for line in lines {
        read_line(alloc, line, &mut reading)?;
    }
    Ok(reading)
}

// Adds what a line reads.
fn read_line(alloc: Global, line: &LabelLine, reading: &mut Reading) -> Result<(), NoMemory>
    ensures read { OnOk result (atoms_of reading.new
        ≡ with_line (said line.now) (atoms_of reading.old)) }
    ensures bytes { GivesBytes (atoms_of reading.old) → GivesBytes (atoms_of reading.new) }
{
    match line {
        LabelLine::Reading { atom, bytes } => read_atom(alloc, atom, bytes.as_slice(), reading),
        LabelLine::Compromised { .. }
        | LabelLine::Holder { .. }
        | LabelLine::Label { .. }
        | LabelLine::Proof { .. } => Ok(()),
    }
}

fn read_atom(alloc: Global, atom: &Term, text: &[u8], reading: &mut Reading) -> Result<(), NoMemory>
    ensures read { OnOk result (atoms_of reading.new
        ≡ with_reading (tree atom.now) text.now (atoms_of reading.old)) }
    ensures bytes { GivesBytes (atoms_of reading.old) → GivesBytes (atoms_of reading.new) }
{
    let spelled = Bytes::from_slice(alloc, text)?;
    reading.set(atom.copy(alloc)?, spelled)?;
    Ok(())
}

/// Whether no two atoms of a kind have the same bytes in the reading that the lines of a text of labels give.
pub fn are_apart(alloc: Global, lines: &[LabelLine], kind: AtomKind) -> Result<bool, NoMemory>
    ensures { IfOk result (λ so. OfText (map said lines.now)
        ((so ≡ true) ↔ AreApart (atoms_in (map said lines.now)) (is_of kind))) }
{
    let mut seen = BTreeSet::new(alloc);
    for line in lines {
        if !take_text(&mut seen, text_of(line, kind))? {
            return Ok(false);
        }
    }
    Ok(true)
}

// The bytes that a line gives an atom of a kind.
fn text_of(line: &LabelLine, kind: AtomKind) -> Option<&[u8]>
    ensures { option_map (λ text. text.now) result ≡ text_in (is_of kind) (said line.now) }
{
    match line {
        LabelLine::Reading { atom, bytes } if kind.holds(atom) => Some(bytes.as_slice()),
        LabelLine::Reading { .. }
        | LabelLine::Compromised { .. }
        | LabelLine::Holder { .. }
        | LabelLine::Label { .. }
        | LabelLine::Proof { .. } => None,
    }
}

// Puts a text among those that were seen. False exactly where it was seen.
fn take_text<'t>(seen: &mut BTreeSet<&'t [u8]>, text: Option<&'t [u8]>) -> Result<bool, NoMemory>
    ensures new { IfOk result (λ so. so
        ≡ is_new (option_map (λ t. t.now) text.entry) (map (λ t. t.now) seen.old.keys)) }
    ensures seen { OnOk result (AreSame (map (λ t. t.now) seen.new.keys)
        (with_text (option_map (λ t. t.now) text.entry) (map (λ t. t.now) seen.old.keys))) }
{
    match text {
        Some(text) => Ok(seen.insert(text)?),
        None => Ok(true),
    }
}

/// Whether each key has seven bytes in the reading that the lines of a text of labels give.
pub fn gives_sevens(lines: &[LabelLine]) -> bool
    ensures { OfText (map said lines.now)
        ((result ≡ true) ↔ GivesSevens (atoms_in (map said lines.now))) }
{
    for line in lines {
        if !gives_seven(line) {
            return false;
        }
    }
    true
}

fn gives_seven(line: &LabelLine) -> bool
    ensures { result ≡ gives_seven (said line.now) }
{
    match line {
        LabelLine::Reading { atom, bytes } => !AtomKind::Key.holds(atom) || bytes.len() == 7,
        LabelLine::Compromised { .. }
        | LabelLine::Holder { .. }
        | LabelLine::Label { .. }
        | LabelLine::Proof { .. } => true,
    }
}

/// The key name of a conversation's key; None exactly where no line tells it.
pub fn holder_of<'l>(lines: &'l [LabelLine], conv: &[u8]) -> Option<&'l Text>
    ensures { option_map (λ name. name.now) result ≡ holder_in conv.now (map said lines.now) }
{
    for line in lines {
        if let Some(name) = holder_by(line, conv) {
            return Some(name);
        }
    }
    None
}

// The key name that a line gives a conversation.
fn holder_by<'l>(line: &'l LabelLine, conv: &[u8]) -> Option<&'l Text>
    ensures { option_map (λ name. name.now) result ≡ holder_in conv.now (said line.now ∷ []) }
{
    match line {
        LabelLine::Holder { conv: other, name } => {
            if other.as_slice() == conv {
                Some(name)
            } else {
                None
            }
        }
        LabelLine::Compromised { .. }
        | LabelLine::Reading { .. }
        | LabelLine::Label { .. }
        | LabelLine::Proof { .. } => None,
    }
}
