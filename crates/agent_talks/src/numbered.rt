// The conversations that stand, each in a slab beside its own number:
//
//     keys:  4 -> 1, 7 -> 0, 9 -> 2        slab:  0: 7 ..   1: 4 ..   2: 9 ..
//
// A slab's keys come again, so what stands at a key is the conversation of a number only where that number is beside it.
ghost use Rattle.std.specs.Prelude.{◌≡◌, ℕ, None, OnErr, OnOk, is_some, option_copied};
ghost use Rattle.std.specs.Option.{option_copied_mut};
ghost use Rattle.std.specs.Borrow.{sem};
ghost use Rattle.slab.specs.Slab.{get as slot};
ghost use Rattle.agent_talks.specs.Numbered.{Puts, SameKept, key_if, key_in, kept_in, lends_kept, without};

use crate::number_keys::NumberKeys;
use conversations::Conversation;
use slab::Slab;
use std::alloc::Global;
use wire_base::NoMemory;

/// A conversation beside its number.
#[derive(Drop)]
pub struct Numbered {
    pub(crate) conv: u64,
    pub(crate) conversation: Conversation,
}

/// The conversations that stand, by their numbers.
#[derive(Drop)]
pub struct NumberedTalks {
    pub(crate) keys: NumberKeys,
    pub(crate) slab: Slab<Numbered>,
}

impl NumberedTalks {
    /// No conversations. It takes no memory.
    pub(crate) fn new(alloc: Global) -> NumberedTalks
        ensures { (conv : ℕ) → kept_in result conv ≡ None }
    {
        NumberedTalks {
            keys: NumberKeys::new(alloc),
            slab: Slab::new(alloc),
        }
    }

    // A key, where what stands at it is the conversation of a number.
    fn is_at(&self, key: usize, conv: u64) -> Option<usize>
        ensures { result ≡ key_if conv key (slot self.now.slab key) }
    {
        match self.slab.get(key) {
            Some(numbered) if numbered.conv == conv => Some(key),
            _ => None,
        }
    }

    /// The conversation of a number, where it stands.
    pub(crate) fn get(&self, conv: u64) -> Option<&Conversation>
        ensures { option_copied result ≡ kept_in self.now conv }
    {
        match self.slab.get(self.keys.get(conv)?) {
            Some(numbered) if numbered.conv == conv => Some(&numbered.conversation),
            _ => None,
        }
    }

    /// Whether the conversation of a number stands.
    pub(crate) fn contains(&self, conv: u64) -> bool
        ensures { result ≡ is_some (kept_in self.now conv) }
    {
        self.get(conv).is_some()
    }

    // The key of the conversation of a number, where it stands.
    fn seek(&mut self, conv: u64) -> Option<usize>
        ensures found { result ≡ key_in self.old conv }
        ensures same { self.new ≡ self.old }
    {
        let key = self.keys.seek(conv)?;
        self.is_at(key, conv)
    }

    /// The conversation of a number for writing, where it stands.
    pub(crate) fn get_mut(&mut self, conv: u64) -> Option<&mut Conversation>
        ensures* writes_back { sem 𝓛 (lends_kept self.entry conv result) }
        ensures value { option_copied_mut result ≡ kept_in self.old conv }
    {
        let key = self.seek(conv)?;
        match self.slab.get_mut(key) {
            Some(numbered) => Some(&mut numbered.conversation),
            None => None,
        }
    }

    /// The conversation of a number stands from now on.
    pub(crate) fn insert(&mut self, conv: u64, conversation: Conversation) -> Result<(), NoMemory>
        ensures puts { OnOk result (Puts self.old conv conversation self.new) }
        ensures same { OnErr result (SameKept self.old self.new) }
    {
        self.slab.reserve(1)?;
        let key = self.slab.vacant_key();
        self.keys.insert(conv, key)?;
        self.slab.insert_reserved(Numbered { conv, conversation });
        Ok(())
    }

    /// The conversation of a number stands no more. It takes no memory.
    pub(crate) fn remove(&mut self, conv: u64)
        ensures { (other : ℕ) → kept_in self.new other ≡ without conv other (kept_in self.old other) }
    {
        if let Some(key) = self.seek(conv) {
            self.slab.try_remove(key);
            self.keys.remove(conv);
        }
    }
}
