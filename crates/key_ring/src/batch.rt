// Several edits of the keys of a ring at once, in memory that was taken before.
ghost use Rattle.std.specs.Prelude.{◌≡◌, ◌+◌, ◌<◌, ◌≤◌, ◌^◌, [], ◌∷◌, map, length, IfNone, IfSome};
ghost use Rattle.key_lists.specs.Edits.{additions};
ghost use Rattle.key_lists.specs.Batches.{after_edits, edit_fault, edit_of, edited, edits_fault};
ghost use Rattle.key_ring.specs.Counts.{edits_taken};
ghost use Rattle.key_ring.specs.Parts.{IsRing, list_of};

use crate::indexed_keys::IndexedKeys;
use crate::ring::{add_key, delete_keys};
use key_lists::{Edit, EditFault};

/// How far a batch of edits came: how many were carried out, and why the next one was refused, if it was.
#[derive(Clone, Copy, Debug, PartialEq, Eq)]
pub struct Batch {
    pub count: usize,
    pub refused: Option<EditFault>,
}

// Carries one edit out, for whose key there is room, or answers why not.
fn carry_out(keys: &mut IndexedKeys, ever_added: &mut u64, edit: Edit) -> Option<EditFault>
    requires ring { IsRing (list_of keys.old.keys ever_added.old) }
    requires count { ever_added.old + 1 < 2 ^ 64 }
    requires room { additions (edit_of edit ∷ []) ≤ keys.old.room }
    ensures fault { result ≡ edit_fault (edit_of edit) (list_of keys.old.keys ever_added.old) }
    ensures edited { IfNone result (list_of keys.new.keys ever_added.new
        ≡ edited (edit_of edit) (list_of keys.old.keys ever_added.old)) }
    ensures unchanged { IfSome result
        (λ _. list_of keys.new.keys ever_added.new ≡ list_of keys.old.keys ever_added.old) }
    ensures ring { IsRing (list_of keys.new.keys ever_added.new) }
    ensures few { ever_added.new ≤ ever_added.old + 1 }
    ensures room { keys.old.room ≤ keys.new.room + additions (edit_of edit ∷ []) }
{
    match edit {
        Edit::Add(tuple) => match add_key(keys, *ever_added, tuple) {
            Ok(serial) => {
                *ever_added = serial;
                None
            }
            Err(fault) => Some(EditFault::Add(fault)),
        },
        Edit::Delete(template) => match delete_keys(keys, *ever_added, &template) {
            Ok(_) => None,
            Err(fault) => Some(EditFault::Delete(fault)),
        },
    }
}

/// Carries edits out, the oldest first, up to the first that is refused, whose fault is answered. It takes no memory.
pub fn carry_all(keys: &mut IndexedKeys, ever_added: &mut u64, edits: Vec<Edit>) -> Batch
    requires ring { IsRing (list_of keys.old.keys ever_added.old) }
    requires count { ever_added.old + length edits.items < 2 ^ 64 }
    requires room { additions (map edit_of edits.items) ≤ keys.old.room }
    ensures fault { result.refused
        ≡ edits_fault (map edit_of edits.items) (list_of keys.old.keys ever_added.old) }
    ensures count { result.count
        ≡ edits_taken (map edit_of edits.items) (list_of keys.old.keys ever_added.old) }
    ensures ring { IsRing (list_of keys.new.keys ever_added.new) }
    ensures few { ever_added.new ≤ ever_added.old + length edits.items }
    ensures edited { list_of keys.new.keys ever_added.new
        ≡ after_edits (map edit_of edits.items) (list_of keys.old.keys ever_added.old) }
{
    let mut count = 0;
    let mut left = edits.into_iter();
    while let Some(edit) = left.next() {
        if let Some(fault) = carry_out(keys, ever_added, edit) {
            return Batch {
                count,
                refused: Some(fault),
            };
        }
        count += 1;
    }
    Batch {
        count,
        refused: None,
    }
}
