// The key schedule, and the cipher on blocks of eight bytes.
ghost use Rattle.std.specs.Prelude.{◌≡◌, ◌<◌, ◌≤◌, ◌^◌, ℕ, Bool, List, IsTrue, map, nat_le};
ghost use Rattle.std.specs.List.{list_all};
ghost use Rattle.des_block.specs.Bits.{binary, bits_of};
ghost use Rattle.des_block.specs.Schedule.{SameButParity, deciphered_with, enciphered_with, key_schedule, round_keys, shifted_left};

use crate::key_choices::{CHOICE_1, CHOICE_2, LEFT_SHIFTS};
use crate::rounds::encipher;
use crate::words::{block_of, look_up, word_of};
use std::marker::Model;

/// The sixteen round keys of a key. A contract sees it as their list, each a list of 48 bits.
#[derive(Drop)]
pub struct Schedule {
    keys: [u64; 16],
}

impl Model for Schedule {
    ghost use Rattle.std.specs.Prelude.{map, Bool, List};
    ghost use Rattle.des_block.specs.Bits.{binary};

    ghost Value = { List (List Bool) };

    ghost view = { λ s. map (binary 48) s.keys };
}

// The low 28 bits of a word.
const LOW_28: u64 = (1 << 28) - 1;

// 28 bits shifted left by so many places, the first ones coming round to the end.
fn shifted(half: u64, places: u8) -> u64
    requires half { half < 2 ^ 28 }
    requires places { places ≤ 28 }
    ensures value { binary 28 result ≡ shifted_left places (binary 28 half) }
    ensures small { result < 2 ^ 28 }
{
    (half << places | half >> (28 - places)) & LOW_28
}

// The round keys from C and D on, each after so many shifts to the left.
fn make_round_keys(shifts: &[u8; 16], c: u64, d: u64) -> [u64; 16]
    requires shifts { IsTrue (list_all (λ places. nat_le places 28) shifts.now) }
    requires c { c < 2 ^ 28 }
    requires d { d < 2 ^ 28 }
    ensures { map (binary 48) result ≡ round_keys shifts.now (binary 28 c) (binary 28 d) }
{
    let mut keys = [0; 16];
    let mut c = c;
    let mut d = d;
    for i in 0..16 {
        c = shifted(c, shifts[i]);
        d = shifted(d, shifts[i]);
        keys[i] = look_up(&CHOICE_2, c << 28 | d);
    }
    keys
}

impl Schedule {
    /// The schedule of a key of eight bytes, the lowest bit of each being a parity bit.
    pub fn new(key: &[u8; 8]) -> Schedule
        ensures value { result ≡ key_schedule (bits_of key.now) }
        ensures parity_plays_no_part { (other : List ℕ) → SameButParity key.now other
            → key_schedule (bits_of other) ≡ result }
    {
        let chosen = look_up(&CHOICE_1, word_of(key));
        let c = chosen >> 28 & LOW_28;
        let d = chosen & LOW_28;
        Schedule {
            keys: make_round_keys(&LEFT_SHIFTS, c, d),
        }
    }

    /// The round keys in the order of enciphering, each 48 bits, the high one first.
    pub fn rounds(&self) -> &[u64; 16]
        ensures { map (binary 48) result.now ≡ self.now }
    {
        &self.keys
    }

    /// The block enciphered (FIPS 46-3, "Enciphering").
    pub fn encrypt(&self, block: [u8; 8]) -> [u8; 8]
        ensures value { result ≡ enciphered_with self.now block }
        ensures undone { deciphered_with self.now result ≡ block }
    {
        block_of(encipher(&self.keys, word_of(&block)))
    }

    /// The block deciphered (FIPS 46-3, "Deciphering").
    pub fn decrypt(&self, block: [u8; 8]) -> [u8; 8]
        ensures value { result ≡ deciphered_with self.now block }
        ensures undone { enciphered_with self.now result ≡ block }
    {
        let mut keys = self.keys;
        keys.reverse();
        block_of(encipher(&keys, word_of(&block)))
    }
}
