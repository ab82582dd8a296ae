// The public calls of `key_lists`.
ghost use Rattle.std.specs.Prelude.{◌≡◌, is_some, IfSome, [], ◌∷◌, ◌++◌, OnOk, OnErr};
ghost use Rattle.attr_tuples.specs.Forms.{is_hex_key};
ghost use Rattle.key_lists.specs.Batches.{edit_of};
ghost use Rattle.key_lists.specs.Digits.{spelled};
ghost use Rattle.key_lists.specs.Edits.{additions};

use key_lists::{Edit, EditList};
use sealing::Key7;
use wire_base::NoMemory;

/// As `decode_key`.
pub fn decode_key(text: &[u8]) -> Option<Key7>
    ensures exactly { is_some result ≡ is_hex_key text.now }
    ensures value { IfSome result (λ key. key.0 ≡ spelled text.now) }
{
    key_lists::decode_key(text)
}

/// As `EditList::push`.
pub fn edit_list_push(edit_list: &mut EditList, edit: Edit) -> Result<(), NoMemory>
    ensures ok { OnOk result (edit_list.new ≡ edit_list.old ++ edit_of edit ∷ []) }
    ensures err { OnErr result (edit_list.new ≡ edit_list.old) }
{
    edit_list.push(edit)
}

/// As `EditList::additions`.
pub fn edit_list_additions(edit_list: &EditList) -> usize
    ensures { result ≡ additions edit_list.now }
{
    edit_list.additions()
}
