// Whether two terms are equal.
ghost use Rattle.std.specs.Prelude.{◌≡◌};
ghost use Rattle.symbolic_runs.specs.Trees.{same_tree, same_trees};
ghost use Rattle.symbolic_runs.specs.Views.{tree, trees};

use super::{Term, Terms};

impl Term {
    /// Whether both are the same tree.
    #[cycle(same)]
    pub fn same(&self, other: &Term) -> bool
        ensures { result ≡ same_tree (tree self.now) (tree other.now) }
    {
        match self {
            Term::Pub(bytes) => match other {
                Term::Pub(others) => bytes.as_slice() == others.as_slice(),
                _ => false,
            },
            Term::Nonce(number) => match other {
                Term::Nonce(other_number) => *number == *other_number,
                _ => false,
            },
            Term::AsChal(number) => match other {
                Term::AsChal(other_number) => *number == *other_number,
                _ => false,
            },
            Term::LKey(name) => match other {
                Term::LKey(other_name) => name.as_slice() == other_name.as_slice(),
                _ => false,
            },
            Term::SKey(number) => match other {
                Term::SKey(other_number) => *number == *other_number,
                _ => false,
            },
            Term::Junk(number) => match other {
                Term::Junk(other_number) => *number == *other_number,
                _ => false,
            },
            Term::Pw(name) => match other {
                Term::Pw(other_name) => name.as_slice() == other_name.as_slice(),
                _ => false,
            },
            Term::Cat(pieces) => match other {
                Term::Cat(other_pieces) => pieces.same(other_pieces),
                _ => false,
            },
            Term::Seal(key, body) => match other {
                Term::Seal(other_key, other_body) => key.same(other_key) && body.same(other_body),
                _ => false,
            },
            Term::Mac(kind, secret, text) => match other {
                Term::Mac(other_kind, other_secret, other_text) => {
                    *kind == *other_kind && secret.same(other_secret) && text.same(other_text)
                }
                _ => false,
            },
        }
    }
}

impl Terms {
    /// Whether both are the same trees in the same order.
    #[cycle(same)]
    pub fn same(&self, other: &Terms) -> bool
        ensures { result ≡ same_trees (trees self.now) (trees other.now) }
    {
        if self.list.len() != other.list.len() {
            return false;
        }
        for index in 0..self.list.len() {
            if !self.list[index].same(&other.list[index]) {
                return false;
            }
        }
        true
    }
}
