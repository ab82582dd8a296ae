// The DES key of a key, which is made once.
ghost use Rattle.std.specs.Prelude.{◌≡◌, None, option_map};
ghost use Rattle.key_lists.specs.KeyFaults.{key_fault};
ghost use Rattle.key_ring.specs.DesKeys.{des_key, hex_of};

use crate::check::check_p9sk1;
use attr_tuples::{Tuple, value_of};
use key_lists::{Key7, choose_key};
use wire_base::Text;

/// The DES key of a key.
pub fn make_des(tuple: &Tuple) -> Key7
    requires { key_fault tuple.now ≡ None }
    ensures { result.0 ≡ des_key tuple.now }
{
    choose_key(find_hex(tuple), value_of(tuple, b"!password".as_slice()))
}

// The digits of a key of p9sk1, if it has some.
fn find_hex(tuple: &Tuple) -> Option<&Text>
    ensures { option_map (λ digits. digits.now) result ≡ hex_of tuple.now }
{
    if check_p9sk1(tuple.attrs()) {
        value_of(tuple, b"!hex".as_slice())
    } else {
        None
    }
}
