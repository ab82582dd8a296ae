// What is asked of the label of a message that was taken: that it spells the message, and that it follows from what is
// known.
ghost use Rattle.std.specs.Prelude.{◌≡◌, ◌↔◌, Ok, true, false, List, map, IfOk};
ghost use Rattle.symbolic_runs.specs.Derivations.{Derives};
ghost use Rattle.symbolic_runs.specs.Spellings.{spelling};
ghost use Rattle.symbolic_runs.specs.Trees.{Tree};
ghost use Rattle.symbolic_runs.specs.Views.{tree, trees, trees_of};
ghost use Rattle.symbolic_runs.specs.Answers.{atoms_of};
ghost use Rattle.trace_labels.specs.Judged.{EndsIn, IsJudged, last_is};

use crate::bounds::{check_label, check_proof};
use symbolic_runs::{Proof, Reading, SpellFault, Term, Terms, conclude, spell};
use wire_base::{Bytes, NoMemory};

/// Whether a label spells these bytes under a reading.
#[tactic(auto, using(crate::proofs::Judging::spelled_so, crate::proofs::Judging::not_spelled))]
pub fn spells(reading: &Reading, label: &Term, bytes: &[u8]) -> Result<bool, NoMemory>
    ensures { IfOk result (λ so. (so ≡ true)
        ↔ (spelling (atoms_of reading.now) (tree label.now) ≡ Ok bytes.now)) }
{
    check_label(reading, label)?;
    let mut spelled = Bytes::new(reading.allocator());
    match spell(reading, label, &mut spelled) {
        Ok(()) => Ok(spelled.as_slice() == bytes),
        Err(SpellFault::NoAtom) => Ok(false),
        Err(SpellFault::BadSeal) => Ok(false),
        Err(SpellFault::NoMemory) => Err(NoMemory),
    }
}

/// Whether each step of a derivation from what is known holds, and the last concludes this term.
pub fn proves(known: &[Term], proof: &Proof, term: &Term) -> Result<bool, NoMemory>
    ensures exactly { IfOk result (λ so. (so ≡ true)
        ↔ EndsIn (map tree known.now) proof.now (tree term.now)) }
    ensures derives { result ≡ Ok true → Derives (map tree known.now) (tree term.now) }
{
    check_proof(known, proof)?;
    ends_in(known, proof, term)
}

#[tactic(auto, using(crate::proofs::Judging::not_proved))]
fn ends_in(known: &[Term], proof: &Proof, term: &Term) -> Result<bool, NoMemory>
    ensures { IfOk result (λ so. (so ≡ true)
        ↔ EndsIn (map tree known.now) proof.now (tree term.now)) }
{
    match conclude(known, proof)? {
        Some(ends) => Ok(is_last(&ends, term)),
        None => Ok(false),
    }
}

/// Whether the label of a message that was taken spells it, and its derivation holds and ends in the label.
pub fn label_holds(
    reading: &Reading,
    known: &[Term],
    proof: &Proof,
    label: &Term,
    bytes: &[u8],
) -> Result<bool, NoMemory>
    ensures exactly { IfOk result (λ so. (so ≡ true) ↔ IsJudged (atoms_of reading.now)
        (map tree known.now) proof.now (tree label.now) bytes.now) }
    ensures derives { result ≡ Ok true → Derives (map tree known.now) (tree label.now) }
{
    if !spells(reading, label, bytes)? {
        return Ok(false);
    }
    proves(known, proof, label)
}

fn is_last(ends: &Terms, term: &Term) -> bool
    ensures { (list : List Tree) → trees ends.now ≡ trees_of list
        → result ≡ last_is false list (tree term.now) }
{
    is_last_of(ends.as_slice(), term)
}

fn is_last_of(ends: &[Term], term: &Term) -> bool
    ensures { result ≡ last_is false (map tree ends.now) (tree term.now) }
{
    let mut found = false;
    for end in ends {
        found = end.same(term);
    }
    found
}
