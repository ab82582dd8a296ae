// Keys from digits and from passwords. Nothing here takes memory.
ghost use Rattle.std.specs.Prelude.{◌≡◌, true, is_some, IfSome, option_map};
ghost use Rattle.attr_tuples.specs.Forms.{is_hex_key};
ghost use Rattle.key_lists.specs.Digits.{digits_or_password, spelled};

use sealing::{Key7, pass_to_key};
use wire_base::Text;

/// The key that 14 hexadecimal digits spell, in either case; None exactly where the text isn't such digits. It takes no
/// memory.
pub fn decode_key(text: &[u8]) -> Option<Key7>
    ensures exactly { is_some result ≡ is_hex_key text.now }
    ensures value { IfSome result (λ key. key.0 ≡ spelled text.now) }
{
    let mut key = [0; 7];
    match hex::decode_to_slice(text, &mut key) {
        Ok(()) => Some(Key7(key)),
        Err(_) => None,
    }
}

/// The key that digits spell, where there are some, and else the one that the password stands for; without either that
/// of the empty password. It takes no memory.
pub fn choose_key(digits: Option<&Text>, password: Option<&Text>) -> Key7
    requires { IfSome digits (λ digits. is_hex_key digits.now ≡ true) }
    ensures { result.0 ≡ digits_or_password (option_map (λ digits. digits.now) digits.entry)
        (option_map (λ password. password.now) password.entry) }
{
    match (digits, password) {
        (Some(digits), _) => decode_digits(digits),
        (None, Some(password)) => pass_to_key(password.as_slice()),
        (None, None) => pass_to_key(&[]),
    }
}

fn decode_digits(digits: &Text) -> Key7
    requires { is_hex_key digits.now ≡ true }
    ensures { result.0 ≡ spelled digits.now }
{
    match decode_key(digits.as_slice()) {
        Some(key) => key,
        None => unreachable!(),
    }
}
