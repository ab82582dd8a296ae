// Readings: what bytes the atoms have.
ghost use Rattle.std.specs.Prelude.{◌≡◌, [], Ok, true, false, IfOk, OnErr, position, option_map};
ghost use Rattle.symbolic_runs.specs.Trees.{is_atom, same_tree};
ghost use Rattle.symbolic_runs.specs.Spellings.{bytes_of, with_atom};
ghost use Rattle.symbolic_runs.specs.Views.{tree};
ghost use Rattle.symbolic_runs.specs.Answers.{atoms_of};

use crate::term::Term;
use std::alloc::Global;
use wire_base::{Bytes, NoMemory};

// An atom and its bytes.
#[derive(Drop)]
struct Entry {
    atom: Term,
    bytes: Bytes,
}

/// What bytes the atoms of terms have. Contracts see its atoms with their bytes, `atoms_of`.
#[derive(Drop)]
pub struct Reading {
    list: Vec<Entry>,
}

impl Reading {
    /// No atom has bytes. It takes no memory.
    pub fn new(alloc: Global) -> Reading
        ensures { atoms_of result ≡ [] }
    {
        Reading {
            list: Vec::new(alloc),
        }
    }

    /// Gives an atom its bytes, in place of those that it had. False exactly where the term is no atom, and then
    /// nothing changes.
    pub fn set(&mut self, atom: Term, spelled: Bytes) -> Result<bool, NoMemory>
        ensures exactly { IfOk result (λ taken. taken ≡ is_atom (tree atom)) }
        ensures changed { result ≡ Ok true
            → atoms_of self.new ≡ with_atom (tree atom) spelled (atoms_of self.old) }
        ensures kept { result ≡ Ok false → atoms_of self.new ≡ atoms_of self.old }
        ensures err { OnErr result (atoms_of self.new ≡ atoms_of self.old) }
    {
        if !atom.is_atom() {
            return Ok(false);
        }
        match self.place_of(&atom) {
            Some(place) => self.list[place].bytes = spelled,
            None => self.list.push(Entry {
                atom,
                bytes: spelled,
            })?,
        }
        Ok(true)
    }

    /// The bytes of an atom. None exactly where it has none.
    pub fn bytes_of(&self, atom: &Term) -> Option<&[u8]>
        ensures { option_map (λ bytes. bytes.now) result
            ≡ bytes_of (atoms_of self.now) (tree atom.now) }
    {
        let place = self.place_of(atom)?;
        Some(self.list[place].bytes.as_slice())
    }

    fn place_of(&self, atom: &Term) -> Option<usize>
        ensures { result ≡ position (λ entry. same_tree (tree entry.atom) (tree atom.now))
            self.now.list.items }
    {
        self.list.iter().position(|entry| entry.atom.same(atom))
    }

    /// The allocator of its list.
    pub fn allocator(&self) -> Global {
        *self.list.allocator()
    }
}
