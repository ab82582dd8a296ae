// The words of a program that has one file of keys.
ghost use Rattle.std.specs.Prelude.{◌≡◌, IfNone, IfSome, true, false};
ghost use Rattle.auth_program.specs.KeysWords.{are_keys_words, keys_path_of};

use crate::words::is_value;
use wire_base::Text;

/// The path of the file of keys: the words behind the program's name are `--keys` and a path. None exactly where they aren't
/// so.
pub fn read_keys_words(words: &[Text]) -> Option<&Text>
    ensures path { IfSome result (λ path. path.now ≡ keys_path_of words.now) }
    ensures some { IfSome result (λ path. are_keys_words words.now ≡ true) }
    ensures none { IfNone result (are_keys_words words.now ≡ false) }
{
    match words {
        [option, path] if option.as_slice() == b"--keys".as_slice() && is_value(path.as_slice()) =>
            { Some(path) }
        _ => None,
    }
}
