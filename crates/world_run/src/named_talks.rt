// Conversations by their names.
ghost use Rattle.std.specs.Prelude.{◌≡◌, None, option_map};
ghost use Rattle.world_run.specs.Names.{left_behind, with_call};

use std::alloc::Global;
use std::collections::BTreeMap;
use std::marker::Model;
use wire_base::{Bytes, NoMemory};

/// A conversation that is open: its node, its fid there, and the number of its question that is outstanding.
#[derive(Drop)]
pub struct Talk {
    pub node: Bytes,
    pub fid: u32,
    pub call: Option<u64>,
}

// One that is open has this question outstanding, or none.
fn put_call(talk: &mut Option<Talk>, call: Option<u64>)
    ensures { talk.new ≡ option_map (with_call call) talk.old }
{
    if let Some(open) = talk {
        open.call = call;
    }
}

// It is open no more.
fn shut(talk: &mut Option<Talk>)
    ensures { talk.new ≡ None }
{
    *talk = None;
}

// It is open no more where it is of this node.
fn leave(talk: &mut Option<Talk>, node: &[u8])
    ensures { talk.new ≡ left_behind node.now talk.old }
{
    if let Some(open) = talk {
        if open.node.as_slice() == node {
            *talk = None;
        }
    }
}

/// The conversations of a network. One that was closed keeps its name.
#[derive(Drop)]
pub struct Talks {
    alloc: Global,
    table: BTreeMap<Vec<u8>, Option<Talk>>,
}

impl Model for Talks {
    ghost use Rattle.std.specs.Prelude.{ℕ, List, Option, map};
    ghost use Rattle.world_run.specs.declared.named_talks.Talk.{Talk};

    ghost Value = { List (List ℕ × Option Talk) };

    ghost view = { λ t. map (λ entry. (entry.0.items, entry.1)) t.table.entries };
}

impl Talks {
    ghost use Rattle.std.specs.Prelude.{◌≡◌, ℕ, List, [], is_some, Some, None, OnOk, option_copied, option_map};
    ghost use Rattle.std.specs.Map.{lookup};
    ghost use Rattle.std.specs.Str.{bytes_eq};
    ghost use Rattle.world_run.specs.Names.{changed_under, left_behind, put_under, still_open, with_call};

    /// No conversations.
    pub fn new(alloc: Global) -> Talks
        ensures { result ≡ [] }
    {
        Talks {
            alloc,
            table: BTreeMap::new(alloc),
        }
    }

    // What stands under a name.
    fn look(&self, name: &[u8]) -> Option<&Option<Talk>>
        ensures { option_copied result ≡ lookup (bytes_eq name.now) self.now }
    {
        self.table.get(name)
    }

    /// The conversation of a name, if it is open.
    pub fn find(&self, name: &[u8]) -> Option<&Talk>
        ensures { option_copied result ≡ still_open (lookup (bytes_eq name.now) self.now) }
    {
        match self.look(name) {
            Some(Some(talk)) => Some(talk),
            Some(None) => None,
            None => None,
        }
    }

    /// Whether a conversation of this name was opened, if it was closed too.
    pub fn was_opened(&self, name: &[u8]) -> bool
        ensures { result ≡ is_some (lookup (bytes_eq name.now) self.now) }
    {
        self.look(name).is_some()
    }

    /// One more conversation, which a fid of a node has open.
    pub fn open(&mut self, name: &[u8], node: &[u8], fid: u32) -> Result<(), NoMemory>
        ensures { OnOk result ((other : List ℕ) → lookup (bytes_eq other) self.new
            ≡ put_under name.now (Some (record { node = node.now; fid = fid; call = None }))
            self.old other) }
    {
        let talk = Talk {
            node: Bytes::from_slice(self.alloc, node)?,
            fid,
            call: None,
        };
        self.table
            .insert(Vec::from_slice(self.alloc, name)?, Some(talk))?;
        Ok(())
    }

    /// A conversation has this question outstanding, or none.
    pub fn set_call(&mut self, name: &[u8], call: Option<u64>)
        ensures { (other : List ℕ) → lookup (bytes_eq other) self.new
            ≡ changed_under name.now (option_map (with_call call)) self.old other }
    {
        let Some(talk) = self.table.get_mut(name) else {
            return;
        };
        put_call(talk, call);
    }

    /// A conversation was closed.
    pub fn close(&mut self, name: &[u8])
        ensures { (other : List ℕ) → lookup (bytes_eq other) self.new
            ≡ changed_under name.now (λ _. None) self.old other }
    {
        let Some(talk) = self.table.get_mut(name) else {
            return;
        };
        shut(talk);
    }

    /// The agent of a node is another: none of its conversations is open any more.
    pub fn leave(&mut self, node: &[u8])
        ensures { (other : List ℕ) → lookup (bytes_eq other) self.new
            ≡ option_map (left_behind node.now) (lookup (bytes_eq other) self.old) }
    {
        self.table.retain(|_, talk| {
            leave(talk, node);
            true
        });
    }
}
