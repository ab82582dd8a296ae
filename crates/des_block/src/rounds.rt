// The enciphering of a block of 64 bits under round keys, by words.
ghost use Rattle.std.specs.Prelude.{◌≡◌, ◌<◌, ◌++◌, ◌∷◌, ◌^◌, [], true, map, slice_index_or};
ghost use Rattle.des_block.specs.Bits.{binary, bit_numbered, number_of};
ghost use Rattle.des_block.specs.Tables.{selections};
ghost use Rattle.des_block.specs.Rounds.{after_rounds, cipher_function, encrypt_bits};
ghost use Rattle.des_block.specs.Rows.{are_combined, combined_bits};

use crate::look_ups::COMBINED;
use crate::permutations::{FINAL, INITIAL};
use crate::words::look_up;

// The entry of combined rows for six bits.
fn entry(rows: &[[u32; 64]; 8], number: u8, six: u8) -> u32
    requires number { number < 8 }
    requires six { six < 64 }
    ensures { are_combined 0 selections rows.now ≡ true
        → result ≡ number_of (combined_bits number (slice_index_or selections number [])
        (binary 6 six)) }
{
    rows[usize::from(number)][usize::from(six)]
}

/// What a selection function, numbered from 0, makes of six bits, put into its place among 32 bits that are zero
/// elsewhere and permuted by P: the look-up of a round. Bit 1 is the high bit.
pub fn combined(number: u8, six: u8) -> u32
    requires number { number < 8 }
    requires six { six < 64 }
    ensures { result ≡ number_of (combined_bits number (slice_index_or selections number [])
        (binary 6 six)) }
{
    entry(&COMBINED, number, six)
}

// The 34 bits of which each six from every fourth on are those that the table E chooses: the bits, the last one before
// them and the first one behind them.
fn widened(bits: u32) -> u64
    ensures { binary 34 result
        ≡ (bit_numbered (binary 32 bits) 32 ∷ binary 32 bits)
        ++ bit_numbered (binary 32 bits) 1 ∷ [] }
{
    let bits = u64::from(bits);
    (bits & 1) << 33 | bits << 1 | bits >> 31
}

// The function f of the rounds.
fn round_function(right: u32, key: u64) -> u32
    ensures { binary 32 result ≡ cipher_function (binary 32 right) (binary 48 key) }
{
    let wide = widened(right);
    let mut sum = 0;
    for number in 0..8 {
        let six = (wide >> (28 - 4 * number) ^ key >> (42 - 6 * number)) & 63;
        sum ^= combined(number, six as u8);
    }
    sum
}

// The halves after a round for each round key.
fn run_rounds(keys: &[u64; 16], left: u32, right: u32) -> (u32, u32)
    ensures { (binary 32 result.0, binary 32 result.1)
        ≡ after_rounds (map (binary 48) keys.now) (binary 32 left) (binary 32 right) }
{
    let mut halves = (left, right);
    for key in keys {
        let (left, right) = halves;
        halves = (right, left ^ round_function(right, *key));
    }
    halves
}

/// A block enciphered under these round keys.
pub fn encipher(keys: &[u64; 16], block: u64) -> u64
    ensures { binary 64 result ≡ encrypt_bits (map (binary 48) keys.now) (binary 64 block) }
{
    let block = look_up(&INITIAL, block);
    let left = (block >> 32) as u32;
    let right = (block & 0xffff_ffff) as u32;
    let (left, right) = run_rounds(keys, left, right);
    look_up(&FINAL, u64::from(right) << 32 | u64::from(left))
}
