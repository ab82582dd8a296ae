// Edits of a list of keys, and why one is refused.
ghost use Rattle.std.specs.Prelude.{◌≡◌, [], ◌∷◌, ◌++◌, length, OnOk, OnErr, filter, map};
ghost use Rattle.key_lists.specs.Edits.{additions};
ghost use Rattle.key_lists.specs.Batches.{adds, edit_of};

use crate::fault::{AddFault, DeleteFault};
use attr_tuples::Tuple;
use std::alloc::Global;
use std::marker::Model;
use wire_base::NoMemory;

/// An edit of a list of keys. It has no Debug, which would print their secrets.
#[derive(Drop)]
pub enum Edit {
    /// Adds the key.
    Add(Tuple),
    /// Deletes all keys that match the template.
    Delete(Tuple),
}

/// Why an edit is refused.
#[derive(Clone, Copy, Debug, PartialEq, Eq)]
pub enum EditFault {
    /// The key isn't added.
    Add(AddFault),
    /// No key is deleted.
    Delete(DeleteFault),
}

/// Edits, in the order in which they are to be carried out. They have no Debug, which would print secrets.
#[derive(Drop)]
pub struct EditList {
    list: Vec<Edit>,
}

impl Model for EditList {
    ghost use Rattle.std.specs.Prelude.{List, map};
    ghost use Rattle.key_lists.specs.Edits.{KeyEdit};
    ghost use Rattle.key_lists.specs.Batches.{edit_of};

    ghost Value = { List KeyEdit };

    ghost view = { λ e. map edit_of e.list.items };
}

impl EditList {
    /// No edits. It takes no memory.
    pub fn new(alloc: Global) -> EditList
        ensures { result ≡ [] }
    {
        EditList {
            list: Vec::new(alloc),
        }
    }

    /// Puts an edit last. One that finds no room is dropped.
    pub fn push(&mut self, edit: Edit) -> Result<(), NoMemory>
        ensures ok { OnOk result (self.new ≡ self.old ++ edit_of edit ∷ []) }
        ensures err { OnErr result (self.new ≡ self.old) }
    {
        self.list.push(edit)?;
        Ok(())
    }

    /// How many edits there are.
    pub fn len(&self) -> usize
        ensures { result ≡ length self.now }
    {
        self.list.len()
    }

    /// How many of them add a key.
    #[tactic(auto, using(crate::proofs::BatchLaws::additions_counted))]
    pub fn additions(&self) -> usize
        ensures { result ≡ additions self.now }
    {
        count_additions(&self.list)
    }

    pub fn as_slice(&self) -> &[Edit]
        ensures { map edit_of result.now ≡ self.now }
    {
        &self.list
    }

    pub fn into_vec(self) -> Vec<Edit>
        ensures { map edit_of result.items ≡ self }
    {
        self.list
    }
}

fn count_additions(edits: &[Edit]) -> usize
    ensures { result ≡ length (filter (λ edit. adds (edit_of edit)) edits.now) }
{
    edits.iter().filter(|edit| check_adds(edit)).count()
}

fn check_adds(edit: &Edit) -> bool
    ensures { result ≡ adds (edit_of edit.now) }
{
    match edit {
        Edit::Add(_) => true,
        Edit::Delete(_) => false,
    }
}
