// The sealing and opening of a text in place.
ghost use Rattle.std.specs.Prelude.{◌≡◌, ◌+◌, ◌-◌, ◌<◌, ◌≤◌, length};
ghost use Rattle.des_block.specs.Bits.{IsBytes};
ghost use Rattle.des_block.specs.Schedule.{deciphered_with, enciphered_with};
ghost use Rattle.sealing.specs.Sealing.{changed_at, opened, sealed};

use crate::keys::{Key7, expand56};
use des_block::Schedule;

/// The index of the last byte.
fn last_index(text: &[u8]) -> usize
    requires { 0 < length text.now }
    ensures value { result ≡ length text.now - 1 }
    ensures bytes { IsBytes text.now }
{
    text.len() - 1
}

/// Enciphers the eight bytes at a place.
fn encrypt_at(schedule: &Schedule, text: &mut [u8], at: usize)
    requires { at + 8 ≤ length text.old }
    ensures { text.new ≡ changed_at (enciphered_with schedule.now) text.old at }
{
    let mut block = [0; 8];
    block.copy_from_slice(&text[at..at + 8]);
    text[at..at + 8].copy_from_slice(&schedule.encrypt(block));
}

/// Deciphers the eight bytes at a place.
fn decrypt_at(schedule: &Schedule, text: &mut [u8], at: usize)
    requires { at + 8 ≤ length text.old }
    ensures { text.new ≡ changed_at (deciphered_with schedule.now) text.old at }
{
    let mut block = [0; 8];
    block.copy_from_slice(&text[at..at + 8]);
    text[at..at + 8].copy_from_slice(&schedule.decrypt(block));
}

/// Seals a text of at least eight bytes in place. Where `last` is one less than its length, the blocks at
/// 0, 7, 14 .. are enciphered, `last / 7` of them, and then, where these don't reach the end, the block
/// that ends there (Plan 9's encrypt(2)).
pub fn seal(key: &Key7, text: &mut [u8])
    requires { 8 ≤ length text.old }
    ensures value { text.new ≡ sealed key.now.0 text.old }
    ensures undone { opened key.now.0 text.new ≡ text.old }
{
    let schedule = Schedule::new(&expand56(key));
    let last = last_index(text);
    for i in 0..last / 7 {
        encrypt_at(&schedule, text, 7 * i);
    }
    if last % 7 != 0 {
        encrypt_at(&schedule, text, last - 7);
    }
}

/// Opens a sealed text of at least eight bytes in place: the blocks of `seal` are deciphered in reverse
/// order.
pub fn open_seal(key: &Key7, text: &mut [u8])
    requires { 8 ≤ length text.old }
    ensures value { text.new ≡ opened key.now.0 text.old }
    ensures undone { sealed key.now.0 text.new ≡ text.old }
{
    let schedule = Schedule::new(&expand56(key));
    let last = last_index(text);
    if last % 7 != 0 {
        decrypt_at(&schedule, text, last - 7);
    }
    for i in (0..last / 7).rev() {
        decrypt_at(&schedule, text, 7 * i);
    }
}
