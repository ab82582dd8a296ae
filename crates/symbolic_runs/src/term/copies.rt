// Copies of terms.
ghost use Rattle.std.specs.Prelude.{◌≡◌, IfOk};
ghost use Rattle.symbolic_runs.specs.Views.{tree, trees};

use super::{Term, Terms};
use std::alloc::Global;
use wire_base::NoMemory;

impl Term {
    #[cycle(copy)]
    pub fn copy(&self, alloc: Global) -> Result<Term, NoMemory>
        ensures { IfOk result (λ term. tree term ≡ tree self.now) }
    {
        match self {
            Term::Pub(bytes) => Ok(Term::Pub(bytes.copy()?)),
            Term::Nonce(number) => Ok(Term::Nonce(*number)),
            Term::AsChal(number) => Ok(Term::AsChal(*number)),
            Term::LKey(name) => Ok(Term::LKey(name.copy()?)),
            Term::SKey(number) => Ok(Term::SKey(*number)),
            Term::Junk(number) => Ok(Term::Junk(*number)),
            Term::Pw(name) => Ok(Term::Pw(name.copy()?)),
            Term::Cat(pieces) => Ok(Term::Cat(pieces.copy(alloc)?)),
            Term::Seal(key, body) => Ok(Term::Seal(
                Box::new(alloc, key.copy(alloc)?)?,
                Box::new(alloc, body.copy(alloc)?)?,
            )),
            Term::Mac(kind, secret, text) => Ok(Term::Mac(
                *kind,
                Box::new(alloc, secret.copy(alloc)?)?,
                Box::new(alloc, text.copy(alloc)?)?,
            )),
        }
    }
}

impl Terms {
    #[cycle(copy)]
    pub fn copy(&self, alloc: Global) -> Result<Terms, NoMemory>
        ensures { IfOk result (λ terms. trees terms ≡ trees self.now) }
    {
        let mut copies = Vec::with_capacity(alloc, self.list.len())?;
        for term in &self.list {
            copies.push(term.copy(alloc)?)?;
        }
        Ok(Terms { list: copies })
    }
}
