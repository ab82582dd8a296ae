// Laws of the text of labels, each the contract of a function that does nothing.
ghost use Rattle.std.specs.Prelude.{◌≡◌, ◌++◌, ◌≤◌, ℕ, List, Some, true};
ghost use Rattle.symbolic_runs.specs.declared.proof.ProofStep.{ProofStep};
ghost use Rattle.symbolic_runs.specs.Trees.{Tree};
ghost use Rattle.trace_labels.specs.Words.{Word};
ghost use Rattle.trace_labels.specs.Terms.{IsTerm, depth};
ghost use Rattle.trace_labels.specs.Steps.{IsStep};
ghost use Rattle.trace_labels.specs.Reading.{ends_step, step_in, term_in};

/// What is read as a term is written so, and what is written so is read, whatever follows.
pub fn terms_are_read_as_written()
    ensures written { (d : ℕ) (words rest : List Word) (t : Tree) → term_in d words ≡ Some (t, rest)
        → (front : List Word) × (words ≡ front ++ rest) × IsTerm t front × (depth t ≤ d) }
    ensures read { (d : ℕ) (words rest : List Word) (t : Tree) → depth t ≤ d → IsTerm t words
        → term_in d (words ++ rest) ≡ Some (t, rest) }
{}

/// What is read as a step of a derivation is written so, and what is written so is read, where the step ends there.
pub fn steps_are_read_as_written()
    ensures written { (words rest : List Word) (step : ProofStep)
        → step_in words ≡ Some (step, rest) → (front : List Word) × (words ≡ front ++ rest) × IsStep step front }
    ensures read { (words rest : List Word) (step : ProofStep) → ends_step rest ≡ true
        → IsStep step words → step_in (words ++ rest) ≡ Some (step, rest) }
{}
