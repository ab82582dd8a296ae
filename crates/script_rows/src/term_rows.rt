// Rows of terms: the bytes that they stand for, what follows from what is known, and labels of what was taken.
use crate::came::Came;
use crate::spelled_terms::term_of;
use crate::texts::{Texts, argument, number_at};
use anyhow::bail;
use row_files::{Report, Row};
use std::alloc::Global;
use symbolic_runs::{
    MacKind, Places, Proof, ProofStep, Reading, SpellFault, Term, Terms, check_derivation,
    conclude, spell,
};
use trace_labels::{label_holds, spells};
use wire_base::Bytes;

/// What the rows that follow are over: the bytes of atoms, what is known, a derivation, and what its steps come to.
#[derive(Drop)]
struct Known {
    texts: Texts,
    reading: Reading,
    known: Vec<Term>,
    proof: Proof,
    ends: Terms,
}

fn number_of_step(row: &Row, at: usize) -> anyhow::Result<u32> {
    Ok(u32::try_from(number_at(row, at)?)?)
}

// Steps one behind the other.
fn places_of(alloc: Global, row: &Row) -> anyhow::Result<Places> {
    let mut places = Places::new(alloc);
    for at in 2..row.given.len() {
        places.push(number_of_step(row, at)?)?;
    }
    Ok(places)
}

fn digest_of(kind: MacKind, row: &Row) -> anyhow::Result<ProofStep> {
    Ok(ProofStep::MacUp {
        kind,
        secret: number_of_step(row, 2)?,
        body: number_of_step(row, 3)?,
    })
}

// The step that a row `by STEP ..` spells.
fn step_of(alloc: Global, row: &Row) -> anyhow::Result<ProofStep> {
    match argument(row, 1)? {
        b"known" => Ok(ProofStep::Known(number_of_step(row, 2)?)),
        b"public" => Ok(ProofStep::Public(Bytes::from_slice(alloc, argument(row, 2)?)?)),
        b"join" => Ok(ProofStep::Join(places_of(alloc, row)?)),
        b"part" => Ok(ProofStep::Part {
            of: number_of_step(row, 2)?,
            index: number_of_step(row, 3)?,
        }),
        b"seal" => Ok(ProofStep::SealUp {
            key: number_of_step(row, 2)?,
            body: number_of_step(row, 3)?,
        }),
        b"open" => Ok(ProofStep::OpenUp {
            seal: number_of_step(row, 2)?,
            key: number_of_step(row, 3)?,
        }),
        b"apop" => digest_of(MacKind::Apop, row),
        b"cram" => digest_of(MacKind::Cram, row),
        _ => bail!("no such step"),
    }
}

impl Known {
    fn new(alloc: Global) -> Known {
        Known {
            texts: Texts::new(alloc),
            reading: Reading::new(alloc),
            known: Vec::new(alloc),
            proof: Proof::new(alloc),
            ends: Terms::new(alloc),
        }
    }

    // `set BYTES ATOM`: the bytes of an atom.
    fn set(&mut self, alloc: Global, row: &Row, came: &mut Came) -> anyhow::Result<()> {
        let term = term_of(alloc, row, 2)?;
        let bytes = Bytes::from_slice(alloc, argument(row, 1)?)?;
        let taken = self.reading.set(term, bytes)?;
        came.put_yes(taken)
    }

    // `bytes ATOM`: the bytes that an atom has.
    fn put_atom(&self, alloc: Global, row: &Row, came: &mut Came) -> anyhow::Result<()> {
        let term = term_of(alloc, row, 1)?;
        match self.reading.bytes_of(&term) {
            Some(bytes) => {
                came.put(b"yes")?;
                Ok(came.put(bytes)?)
            }
            None => Ok(came.put(b"no")?),
        }
    }

    // `spell TERM`: the bytes of a term, which stand behind what stood.
    fn spell(&self, rt: &HostRuntime, row: &Row, came: &mut Came) -> anyhow::Result<()> {
        let term = term_of(rt.alloc(), row, 1)?;
        let mut out = Bytes::from_slice(rt.alloc(), b"so ")?;
        let word = match spell(&self.reading, &term, &mut out) {
            Ok(()) => b"spelled".as_slice(),
            Err(SpellFault::NoAtom) => b"no_atom".as_slice(),
            Err(SpellFault::BadSeal) => b"bad_seal".as_slice(),
            Err(SpellFault::NoMemory) => bail!("out of memory"),
        };
        came.put(word)?;
        match out.as_slice().strip_prefix(b"so ".as_slice()) {
            Some(spelled) => self.texts.put_came(rt, row, 1, spelled, came),
            None => bail!("what stood is gone"),
        }
    }

    // `concludes`: whether the steps come to the ends that were put.
    fn put_conclusion(&self, came: &mut Came) -> anyhow::Result<()> {
        match conclude(&self.known, &self.proof)? {
            Some(ends) => came.put_yes(ends.same(&self.ends)),
            None => bail!("a rule doesn't hold"),
        }
    }

    // `spells BYTES TERM`: whether the term is spelled so; `label BYTES TERM`: whether the steps conclude it besides.
    fn judge(&self, alloc: Global, row: &Row, came: &mut Came) -> anyhow::Result<()> {
        let bytes = argument(row, 1)?;
        let term = term_of(alloc, row, 2)?;
        let holds = match row.word() {
            b"spells" => spells(&self.reading, &term, bytes)?,
            _ => label_holds(&self.reading, &self.known, &self.proof, &term, bytes)?,
        };
        came.put_yes(holds)
    }

    // Rows of derivations.
    fn derive(&mut self, alloc: Global, row: &Row, came: &mut Came) -> anyhow::Result<()> {
        match row.word() {
            b"derivation" => {
                self.known = Vec::new(alloc);
                self.proof = Proof::new(alloc);
                self.ends = Terms::new(alloc);
            }
            b"known" => self.known.push(term_of(alloc, row, 1)?)?,
            b"by" => self.proof.push(step_of(alloc, row)?)?,
            b"end" => self.ends.push(term_of(alloc, row, 1)?)?,
            b"holds" => came.put_yes(check_derivation(&self.known, &self.proof)?)?,
            b"concludes" => self.put_conclusion(came)?,
            _ => bail!("no such verb"),
        }
        Ok(())
    }

    fn play(&mut self, rt: &HostRuntime, row: &Row, came: &mut Came) -> anyhow::Result<()> {
        match row.word() {
            b"hex" | b"text" | b"times" => self.texts.keep(rt, row),
            b"reading" => {
                self.reading = Reading::new(rt.alloc());
                Ok(())
            }
            b"set" => self.set(rt.alloc(), row, came),
            b"bytes" => self.put_atom(rt.alloc(), row, came),
            b"spell" => self.spell(rt, row, came),
            b"spells" | b"label" => self.judge(rt.alloc(), row, came),
            _ => self.derive(rt.alloc(), row, came),
        }
    }
}

/// Plays rows of terms.
pub(crate) fn play(
    rt: &HostRuntime,
    file: &str,
    rows: &[Row],
    report: &mut Report,
) -> anyhow::Result<()> {
    let mut known = Known::new(rt.alloc());
    for row in rows {
        let mut came = Came::new(rt.alloc());
        let played = known.play(rt, row, &mut came);
        came.tell(file, row, played, report)?;
    }
    Ok(())
}
