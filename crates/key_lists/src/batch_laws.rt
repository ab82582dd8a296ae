// Laws of several edits at once, each the contract of a function that does nothing.
ghost use Rattle.std.specs.Prelude.{◌≡◌, ◌+◌, ◌≤◌, List, ◌++◌, None, Some, length};
ghost use Rattle.key_lists.specs.Lists.{KeyList};
ghost use Rattle.key_lists.specs.Edits.{KeyEdit, IsOrdered};
ghost use Rattle.key_lists.specs.declared.edit.EditFault.{EditFault};
ghost use Rattle.key_lists.specs.Batches.{after_edits, edits_fault};

/// Edits may come in two batches: where none of the first batch is refused, the second goes on where the first ended;
/// where one is, the second counts for nothing.
pub fn a_batch_may_be_cut_in_two()
    ensures goes_on { (first second : List KeyEdit) (list : KeyList) → edits_fault first list ≡ None
        → after_edits (first ++ second) list ≡ after_edits second (after_edits first list) }
    ensures goes_on_fault { (first second : List KeyEdit) (list : KeyList)
        → edits_fault first list ≡ None
        → edits_fault (first ++ second) list ≡ edits_fault second (after_edits first list) }
    ensures stops { (first second : List KeyEdit) (list : KeyList) (fault : EditFault)
        → edits_fault first list ≡ Some fault
        → after_edits (first ++ second) list ≡ after_edits first list }
    ensures stops_fault { (first second : List KeyEdit) (list : KeyList) (fault : EditFault)
        → edits_fault first list ≡ Some fault → edits_fault (first ++ second) list ≡ Some fault }
{}

/// After edits the numbers rise and the keys are apart where they did and were before, and as many keys at most were
/// added as there are edits.
pub fn a_batch_numbers_its_keys()
    ensures ordered { (edits : List KeyEdit) (list : KeyList) → IsOrdered list
        → IsOrdered (after_edits edits list) }
    ensures few { (edits : List KeyEdit) (list : KeyList)
        → (after_edits edits list).ever_added ≤ list.ever_added + length edits }
{}
