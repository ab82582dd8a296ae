// The slab's key of each conversation that stands, by its number.
ghost use Rattle.std.specs.Prelude.{◌≡◌, ℕ, None, Some, OnErr, OnOk, ◌==◌, if◌then◌else◌};
ghost use Rattle.agent_talks.specs.Keyed.{key_at};

use std::alloc::Global;
use std::collections::BTreeMap;
use std::marker::Model;
use wire_base::NoMemory;

/// The key of each number. To contracts it is a map. What was sought last for writing is kept beside it, since requests
/// of one conversation follow one another.
#[derive(Drop)]
pub struct NumberKeys {
    map: BTreeMap<u64, usize>,
    sought: u64,
    found: Option<usize>,
}

impl Model for NumberKeys {
    ghost use Rattle.std.specs.Prelude.{◌≡◌, List, ℕ};
    ghost use Rattle.agent_talks.specs.Keyed.{key_at};

    ghost Value = { List (ℕ × ℕ) };

    ghost view = { λ k. k.map.entries };

    ghost invariant = { λ k. key_at k.map.entries k.sought ≡ k.found };
}

impl NumberKeys {
    /// None. It takes no memory.
    pub(crate) fn new(alloc: Global) -> NumberKeys
        ensures { (conv : ℕ) → key_at result conv ≡ None }
    {
        NumberKeys {
            map: BTreeMap::new(alloc),
            sought: 0,
            found: None,
        }
    }

    /// The key of a number.
    pub(crate) fn get(&self, conv: u64) -> Option<usize>
        ensures { result ≡ key_at self.now conv }
    {
        if conv == self.sought {
            return self.found;
        }
        self.map.get(&conv).copied()
    }

    /// The key of a number, which is at hand from now on.
    pub(crate) fn seek(&mut self, conv: u64) -> Option<usize>
        ensures found { result ≡ key_at self.old conv }
        ensures same { self.new ≡ self.old }
    {
        let found = self.get(conv);
        self.sought = conv;
        self.found = found;
        found
    }

    /// A number has this key from now on.
    pub(crate) fn insert(&mut self, conv: u64, key: usize) -> Result<(), NoMemory>
        ensures listed { OnOk result ((other : ℕ) → key_at self.new other
            ≡ (if conv == other then Some key else key_at self.old other)) }
        ensures same { OnErr result ((other : ℕ) → key_at self.new other
            ≡ key_at self.old other) }
    {
        self.map.insert(conv, key)?;
        self.sought = conv;
        self.found = Some(key);
        Ok(())
    }

    /// A number has none any more. It takes no memory.
    pub(crate) fn remove(&mut self, conv: u64)
        ensures { (other : ℕ) → key_at self.new other
            ≡ (if conv == other then None else key_at self.old other) }
    {
        self.map.remove(&conv);
        self.sought = conv;
        self.found = None;
    }
}
