// Prompters that ask nobody.
ghost use Rattle.std.specs.Prelude.{◌≡◌};
ghost use Rattle.prompters.specs.Manners.{considered, is_spent, said};

use crate::prompter::{Prompter, Say};
use attr_tuples::{Tuple, matches};
use side_files::Question;

/// Says yes to so many of the questions whose tuples match a template, and passes all others on.
#[derive(Drop)]
pub struct Limited {
    /// What a question's tuple is to match.
    pub template: Tuple,
    /// To how many questions it still says yes.
    pub left: u32,
}

/// Says no to every question.
#[derive(Clone, Copy, Debug, PartialEq, Eq, Drop)]
pub struct Deny;

impl Prompter for Limited {
    ghost use Rattle.prompters.specs.Simple.{limited};

    ghost manner = { λ prompter. limited prompter.template prompter.left };

    fn consider(&mut self, q: &Question) -> Say {
        if self.left == 0 || !matches(&self.template, &q.tuple) {
            return Say::Pass;
        }
        self.left -= 1;
        Say::Yes
    }

    fn spent(&self) -> bool {
        self.left == 0
    }
}

impl Prompter for Deny {
    ghost use Rattle.prompters.specs.Simple.{denying};

    ghost manner = { λ _. denying };

    fn consider(&mut self, _: &Question) -> Say {
        Say::No
    }

    fn spent(&self) -> bool {
        false
    }
}
