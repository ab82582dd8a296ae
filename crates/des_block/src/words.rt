// Bits as the digits of words, the high one first, and permutations of them by tables of rows.
ghost use Rattle.std.specs.Prelude.{◌≡◌, ◌*◌, ◌≤◌, ℕ, List, true, length};
ghost use Rattle.des_block.specs.Bits.{IsBlock, binary, bits_of, bytes_of, permuted};
ghost use Rattle.des_block.specs.Rows.{are_rows};

/// What a permutation makes of the low 4 N bits of a word: the sum of the entries of the rows at the word's digits of
/// four bits each, the high one first.
pub fn look_up<const N: usize>(rows: &[[u64; 16]; N], word: u64) -> u64
    requires { N ≤ 16 }
    ensures { (table : List ℕ) → are_rows table 0 rows.now ≡ true
        → binary (length table) result ≡ permuted table (binary (4 * N) word) }
{
    let mut sum = 0;
    for i in 0..N {
        let digit = word >> (4 * (N - 1 - i)) & 15;
        sum ^= rows[i][digit as usize];
    }
    sum
}

/// The word of eight bytes, the high one first.
pub fn word_of(block: &[u8; 8]) -> u64
    ensures value { binary 64 result ≡ bits_of block.now }
    ensures block { IsBlock block.now }
{
    u64::from_be_bytes(*block)
}

/// The eight bytes of a word, the high one first.
pub fn block_of(word: u64) -> [u8; 8]
    ensures { result ≡ bytes_of 8 (binary 64 word) }
{
    word.to_be_bytes()
}
