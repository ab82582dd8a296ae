// The public calls of `symbolic_runs`.
ghost use Rattle.std.specs.List.{slice_get};
ghost use Rattle.std.specs.Prelude.{◌≡◌, ℕ, List, IfOk, Ok, Some, true, is_some, map, option_map, None, Err, OnOk, OnErr};
ghost use Rattle.symbolic_runs.specs.Answers.{atoms_of, behind};
ghost use Rattle.symbolic_runs.specs.Derivations.{Derives, IsProof, conclusions};
ghost use Rattle.symbolic_runs.specs.Spellings.{bytes_of, spelling};
ghost use Rattle.symbolic_runs.specs.Trees.{Tree, is_atom, same_tree, same_trees};
ghost use Rattle.symbolic_runs.specs.Views.{tree, trees, trees_of};
ghost use Rattle.symbolic_runs.specs.declared.spelling.SpellFault.TheVariants.{NoAtom, BadSeal};

use symbolic_runs::{Proof, Reading, SpellFault, Term, Terms};
use wire_base::{Bytes, NoMemory};

/// As `check_derivation`.
pub fn check_derivation(known: &[Term], proof: &Proof) -> Result<bool, NoMemory>
    ensures exactly { IfOk result (λ holds. holds
        ≡ is_some (conclusions (map tree known.now) proof.now)) }
    ensures derives { result ≡ Ok true
        → (ends : List Tree) × IsProof (map tree known.now) proof.now ends
        × ((index : ℕ) (t : Tree) → slice_get ends index ≡ Some t
        → Derives (map tree known.now) t) }
{
    symbolic_runs::check_derivation(known, proof)
}

/// As `conclude`.
pub fn conclude(known: &[Term], proof: &Proof) -> Result<Option<Terms>, NoMemory>
    ensures { IfOk result (λ ends. option_map trees ends
        ≡ option_map trees_of (conclusions (map tree known.now) proof.now)) }
{
    symbolic_runs::conclude(known, proof)
}

/// As `Reading::bytes_of`.
pub fn reading_bytes_of<'x>(reading: &'x Reading, atom: &Term) -> Option<&'x [u8]>
    ensures { option_map (λ bytes. bytes.now) result
        ≡ bytes_of (atoms_of reading.now) (tree atom.now) }
{
    reading.bytes_of(atom)
}

/// As `spell`.
pub fn spell(reading: &Reading, term: &Term, out: &mut Bytes) -> Result<(), SpellFault>
    ensures ok { OnOk result (behind out.old (spelling (atoms_of reading.now) (tree term.now))
        ≡ Ok out.new) }
    ensures no_atom { result ≡ Err NoAtom
        → spelling (atoms_of reading.now) (tree term.now) ≡ Err NoAtom }
    ensures bad_seal { result ≡ Err BadSeal
        → spelling (atoms_of reading.now) (tree term.now) ≡ Err BadSeal }
    ensures err { OnErr result (out.new ≡ out.old) }

    ensures missing { is_atom (tree term.now) ≡ true
        → bytes_of (atoms_of reading.now) (tree term.now) ≡ None → result ≡ Err NoAtom }
{
    symbolic_runs::spell(reading, term, out)
}

/// As `Term::same`.
pub fn term_same(term: &Term, other: &Term) -> bool
    ensures { result ≡ same_tree (tree term.now) (tree other.now) }
{
    term.same(other)
}

/// As `Terms::same`.
pub fn terms_same(terms: &Terms, other: &Terms) -> bool
    ensures { result ≡ same_trees (trees terms.now) (trees other.now) }
{
    terms.same(other)
}
