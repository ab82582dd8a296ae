// Keys of seven bytes, and the same with parity bits.
ghost use Rattle.std.specs.Prelude.{◌≡◌, ◌%◌, ◌^◌, ◌<◌, All, count_ones};
ghost use Rattle.sealing.specs.Keys.{expanded, key_number, number_without_parity, with_parity};

/// A DES key without its parity bits: 56 bits, the high bit of the first byte first.
#[derive(Clone, Copy, PartialEq, Eq)]
pub struct Key7(pub [u8; 7]);

/// Seven bits followed by their parity bit.
fn add_parity(seven: u64) -> u8
    requires { seven < 128 }
    ensures { result ≡ with_parity seven }
{
    (2 * seven) as u8 + (1 - seven.count_ones() % 2) as u8
}

/// The 56 bits of a key as a number.
fn key_bits(key: &[u8; 7]) -> u64
    ensures value { result ≡ key_number key.now }
    ensures small { result < 2 ^ 56 }
{
    let [a, b, c, d, e, f, g] = *key;
    u64::from_be_bytes([0, a, b, c, d, e, f, g])
}

/// The key as DES takes it: the 56 bits in eight groups of seven from the high end, each followed by the
/// bit that makes the number of ones odd.
pub fn expand56(key: &Key7) -> [u8; 8]
    ensures value { result ≡ expanded key.now.0 }
    ensures spelled { number_without_parity result ≡ key_number key.now.0 }
    ensures odd { All (λ byte. count_ones byte % 2 ≡ 1) result }
{
    let bits = key_bits(&key.0);
    let mut bytes = [0; 8];
    for i in 0..8 {
        bytes[i] = add_parity((bits >> (49 - 7 * i as u32)) % 128);
    }
    bytes
}
