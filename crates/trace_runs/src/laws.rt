// A law of labelled records, the contract of a function that does nothing.
ghost use Rattle.std.specs.Prelude.{ℕ, List};
ghost use Rattle.symbolic_runs.specs.Spellings.{Atoms};
ghost use Rattle.symbolic_runs.specs.Runs.{Setting as Symbolic};
ghost use Rattle.trace_labels.specs.Lines.{Line};
ghost use Rattle.trace_labels.specs.Labels.{AreLines};
ghost use Rattle.wire_histories.specs.Histories.{History};
ghost use Rattle.clean_runs.specs.Clean.{IsLabelled};
ghost use Rattle.trace_runs.specs.Told.{IsTold, labelling_of};

/// What a text of labels tells of a step that takes bytes is what a clean history asks of its label.
pub fn what_is_told_is_labelled()
    ensures { (atoms : Atoms) (s : Symbolic) (texts : List (List ℕ)) (lines : List Line)
        (past : History) (b : List ℕ) → AreLines texts lines → IsTold atoms s lines past b
        → IsLabelled atoms s (labelling_of lines) past b }
{}
