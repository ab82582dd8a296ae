// Numbers in decimal.
ghost use Rattle.std.specs.Prelude.{◌≡◌, ◌∷◌, ℕ, List, None, IfNone, IfSome};
ghost use Rattle.side_files.specs.Decimals.{is_digit, number_behind, number_of};

fn check_digit(byte: u8) -> bool
    ensures { result ≡ is_digit byte }
{
    byte >= b'0' && byte <= b'9'
}

/// The number that a text is: decimal digits, at least one, whose number is below 2^64; zeros in front count for
/// nothing. It takes no memory.
#[tactic(auto, unfolding(crate::specs::Decimals::number_of))]
pub fn parse_decimal(text: &[u8]) -> Option<u64>
    ensures { result ≡ number_of text.now }
{
    if text.is_empty() {
        return None;
    }
    read_digits(text)
}

fn read_digits(text: &[u8]) -> Option<u64>
    ensures { result ≡ number_behind 0 text.now }
{
    let mut number: u64 = 0;
    for byte in text {
        match add_digit(number, *byte) {
            Some(longer) => number = longer,
            None => return None,
        }
    }
    Some(number)
}

// The number with one more digit behind it.
fn add_digit(number: u64, byte: u8) -> Option<u64>
    ensures some { IfSome result (λ longer. (digits : List ℕ) → number_behind longer digits
        ≡ number_behind number (byte ∷ digits)) }
    ensures none { IfNone result ((digits : List ℕ)
        → number_behind number (byte ∷ digits) ≡ None) }
{
    if !check_digit(byte) {
        return None;
    }
    number.checked_mul(10)?.checked_add(u64::from(byte - b'0'))
}
