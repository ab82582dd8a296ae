// Terms, and lists of terms.
ghost use Rattle.std.specs.Prelude.{◌≡◌, map, OnOk, OnErr};
ghost use Rattle.symbolic_runs.specs.Trees.{is_atom, none};
ghost use Rattle.symbolic_runs.specs.Views.{tree, trees, and_last, trees_of};

mod copies;
mod same;

use crate::kind::MacKind;
use std::alloc::Global;
use wire_base::{Bytes, NoMemory, Text};

/// A message as the symbolic attacker sees it: a tree of atoms, joined, sealed and digested. Contracts see its `tree`.
#[cycle(terms)]
#[derive(Drop)]
pub enum Term {
    /// Bytes that anybody may know.
    Pub(Bytes),
    /// The random word of the conversation with this number.
    Nonce(u32),
    /// The digits of a random word of the authentication server, by the number of the request.
    AsChal(u32),
    /// The long-lived key of a name.
    LKey(Text),
    /// The ticket key that the authentication server made at the request with this number.
    SKey(u32),
    /// A key that the authentication server made up for a name that it doesn't serve.
    Junk(u32),
    /// The password of a name.
    Pw(Text),
    /// Terms one behind the other.
    Cat(Terms),
    /// A body sealed under a key; the key stands first.
    Seal(Box<Term>, Box<Term>),
    /// The digest of a text under a secret; the secret stands first.
    Mac(MacKind, Box<Term>, Box<Term>),
}

/// A list of terms, in order.
#[cycle(terms)]
#[derive(Drop)]
pub struct Terms {
    list: Vec<Term>,
}

impl Term {
    /// Whether this is an atom, whose bytes a reading gives: neither public bytes nor joined, sealed or digested.
    pub fn is_atom(&self) -> bool
        ensures { result ≡ is_atom (tree self.now) }
    {
        match self {
            Term::Pub(_) | Term::Cat(_) | Term::Seal(_, _) | Term::Mac(_, _, _) => false,
            Term::Nonce(_)
            | Term::AsChal(_)
            | Term::LKey(_)
            | Term::SKey(_)
            | Term::Junk(_)
            | Term::Pw(_) => true,
        }
    }
}

impl Terms {
    /// No terms. It takes no memory.
    pub fn new(alloc: Global) -> Terms
        ensures { trees result ≡ none }
    {
        Terms {
            list: Vec::new(alloc),
        }
    }

    /// The terms of a vector, which is moved and not copied.
    pub fn from_vec(list: Vec<Term>) -> Terms
        ensures { trees result ≡ trees_of (map tree list.items) }
    {
        Terms { list }
    }

    /// Puts a term last. A term that finds no room is dropped.
    pub fn push(&mut self, term: Term) -> Result<(), NoMemory>
        ensures ok { OnOk result (trees self.new ≡ and_last (trees self.old) (tree term)) }
        ensures err { OnErr result (trees self.new ≡ trees self.old) }
    {
        self.list.push(term)?;
        Ok(())
    }

    pub fn as_slice(&self) -> &[Term]
        ensures { trees_of (map tree result.now) ≡ trees self.now }
    {
        &self.list
    }
}
