// The key that a password stands for.
ghost use Rattle.std.specs.Prelude.{◌≡◌, ◌+◌, ◌≤◌, drop, length};
ghost use Rattle.sealing.specs.Passwords.{password_buffer, password_key, window_key};
ghost use Rattle.sealing.specs.Sealing.{changed_at, sealed};

use crate::keys::Key7;
use crate::sealing::seal;

/// How many bytes of a password count.
const COUNTED: usize = 27;

/// Eight blanks and then zeros.
const BLANK: [u8; 28] = [
    32, 32, 32, 32, 32, 32, 32, 32, 0, 0, 0, 0, 0, 0, 0, 0, 0, 0, 0, 0, 0, 0, 0, 0, 0, 0, 0, 0,
];

/// The password over the start of the blank buffer, and a zero byte behind it.
fn fill_buffer(password: &[u8]) -> [u8; 28]
    requires { length password.now ≤ 27 }
    ensures { result ≡ password_buffer password.now }
{
    let mut buffer = BLANK;
    buffer[..password.len()].copy_from_slice(password);
    buffer[password.len()] = 0;
    buffer
}

/// The key that the first eight bytes of a window make.
fn make_key(window: &[u8]) -> Key7
    requires { 8 ≤ length window.now }
    ensures { result.0 ≡ window_key window.now }
{
    let mut key = [0; 7];
    for i in 0..7 {
        key[i] = (window[i] >> i).wrapping_add(window[i + 1] << (7 - i));
    }
    Key7(key)
}

/// Seals the window at a place under the key so far, and makes the next key from it.
fn next_key(key: &Key7, buffer: &mut [u8], at: usize) -> Key7
    requires { at + 8 ≤ length buffer.old }
    ensures window { buffer.new ≡ changed_at (sealed key.now.0) buffer.old at }
    ensures key { result.0 ≡ window_key (drop at buffer.new) }
{
    seal(key, &mut buffer[at..at + 8]);
    make_key(&buffer[at..])
}

/// The key that a password stands for (passtokey of Plan 9's authsrv(2)). Only its first 27 bytes count.
pub fn pass_to_key(password: &[u8]) -> Key7
    ensures { result.0 ≡ password_key password.now }
{
    let count = password.len().min(COUNTED);
    let mut buffer = fill_buffer(&password[..count]);
    let mut key = make_key(&buffer);
    for k in 1..count / 8 {
        key = next_key(&key, &mut buffer, 8 * k);
    }
    if count > 8 && count % 8 != 0 {
        key = next_key(&key, &mut buffer, count - 8);
    }
    key
}
