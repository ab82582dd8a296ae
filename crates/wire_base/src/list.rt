// A list of values, as contracts see it.
ghost use Rattle.std.specs.Prelude.{[], ◌≡◌, ◌∷◌, ◌++◌, OnErr, OnOk, length};

use crate::bytes::NoMemory;
use std::alloc::Global;
use std::marker::Model;

/// A list of values, in order. A type of lists is an alias of it.
#[derive(Debug, Drop)]
pub struct List<T> {
    list: Vec<T>,
}

impl<T> Model for List<T> {
    ghost use Rattle.std.specs.Prelude.{List};

    ghost Value = { List T };

    ghost view = { λ l. l.list.items };
}

impl<T> List<T> {
    /// No values. It takes no memory.
    pub fn new(alloc: Global) -> List<T>
        ensures { result ≡ [] }
    {
        List {
            list: Vec::new(alloc),
        }
    }

    pub fn as_slice(&self) -> &[T]
        ensures { result.now ≡ self.now }
    {
        &self.list
    }

    pub fn len(&self) -> usize
        ensures { result ≡ length self.now }
    {
        self.list.len()
    }

    /// The allocator of the list.
    pub fn allocator(&self) -> Global {
        *self.list.allocator()
    }
}

impl<T: Drop> List<T> {
    /// Puts a value last. A value that finds no room is dropped.
    pub fn push(&mut self, value: T) -> Result<(), NoMemory>
        ensures ok { OnOk result (self.new ≡ self.old ++ value ∷ []) }
        ensures err { OnErr result (self.new ≡ self.old) }
    {
        self.list.push(value)?;
        Ok(())
    }
}
