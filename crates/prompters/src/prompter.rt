// What a prompter is.
use side_files::Question;

/// What a prompter says to a question.
#[derive(Clone, Copy, Debug, PartialEq, Eq)]
pub enum Say {
    /// Consent.
    Yes,
    /// Refusal.
    No,
    /// Another prompter is to answer.
    Pass,
}

/// Who answers questions, or passes them on. What it says may depend on the questions that it considered before.
pub trait Prompter: Drop {
    ghost use Rattle.std.specs.Prelude.{◌≡◌};
    ghost use Rattle.prompters.specs.Manners.{Manner, considered, is_spent, said};

    /// What it says to the questions that it considers from now on, and after which of them it is spent.
    ghost manner: { Self → Manner };

    /// Considers a question, which may change what it says to later ones.
    fn consider(&mut self, q: &Question) -> Say
        ensures word { result ≡ said (manner self.old) q.now }
        ensures after { manner self.new ≡ considered q.now (manner self.old) };

    /// Whether it is of no more use.
    fn spent(&self) -> bool
        ensures { result ≡ is_spent (manner self.now) };
}
