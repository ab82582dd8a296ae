// Laws of the definitions, each the contract of a function that does nothing.
ghost use Rattle.std.specs.Prelude.{◌≡◌, ℕ, List, ◌↔◌, Some, true, if◌then◌else◌};
ghost use Rattle.std.specs.List.{slice_get};
ghost use Rattle.symbolic_runs.specs.declared.proof.ProofStep.{ProofStep};
ghost use Rattle.symbolic_runs.specs.Derivations.{Derives, IsProof, conclusions};
ghost use Rattle.symbolic_runs.specs.Spellings.{Atoms, bytes_of, with_atom};
ghost use Rattle.symbolic_runs.specs.Trees.{Tree, same_tree};

/// The comparison of trees is true of equal ones alone.
pub fn trees_are_compared_whole()
    ensures { (a b : Tree) → (same_tree a b ≡ true) ↔ (a ≡ b) }
{}

/// An atom that is given bytes has these, and all others keep what they had.
pub fn a_reading_changes_one_atom()
    ensures { (atoms : Atoms) (atom t : Tree) (bytes : List ℕ)
        → bytes_of (with_atom atom bytes atoms) t
        ≡ (if same_tree atom t then Some bytes else bytes_of atoms t) }
{}

/// The steps of a derivation conclude these trees exactly where each step concludes its tree from those before it.
pub fn a_derivation_holds_step_by_step()
    ensures { (known ends : List Tree) (steps : List ProofStep)
        → (conclusions known steps ≡ Some ends) ↔ IsProof known steps ends }
{}

/// Whatever a derivation concludes follows from what is known.
pub fn a_derivation_proves_its_conclusions()
    ensures { (known ends : List Tree) (steps : List ProofStep)
        → conclusions known steps ≡ Some ends → (index : ℕ) (t : Tree)
        → slice_get ends index ≡ Some t → Derives known t }
{}
