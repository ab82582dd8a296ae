// Numbers in decimal, of any size.
ghost use Rattle.std.specs.Prelude.{◌≡◌, ◌≤◌, ◌+◌, ◌*◌, ◌^◌, ℕ, List, ◌∷◌, option_map, IfNone, IfSome};
ghost use Rattle.std.specs.List.{list_all};
ghost use Rattle.world_scripts.specs.Pieces.{behind, is_decimal_digit, is_number};
ghost use Rattle.world_scripts.specs.Pieces as p;
ghost use Rattle.world_scripts.specs.Reading.{number_of};

/// The digits of the number that a text is: decimal ones, at least one.
pub(crate) fn read_number(text: &[u8]) -> Option<&[u8]>
    ensures { option_map (λ digits. digits.now) result ≡ number_of text.now }
{
    if check_number(text) { Some(text) } else { None }
}

fn check_number(text: &[u8]) -> bool
    ensures { result ≡ is_number text.now }
{
    !text.is_empty() && all_decimal(text)
}

fn all_decimal(text: &[u8]) -> bool
    ensures { result ≡ list_all is_decimal_digit text.now }
{
    text.iter().all(|b| *b >= b'0' && *b <= b'9')
}

/// The number that decimal digits are, if it is below 2^64.
pub fn number_in(digits: &[u8]) -> Option<u64>
    ensures number { IfSome result (λ number. number ≡ p.number_in digits.now) }
    ensures over { IfNone result (2 ^ 64 ≤ p.number_in digits.now) }
{
    let mut number: u64 = 0;
    for digit in digits {
        match add_digit(number, *digit) {
            Some(longer) => number = longer,
            None => return None,
        }
    }
    Some(number)
}

// The number with one more digit behind it.
fn add_digit(number: u64, digit: u8) -> Option<u64>
    ensures some { IfSome result (λ longer. (digits : List ℕ)
        → behind longer digits ≡ behind number (digit ∷ digits)) }
    ensures none { IfNone result ((digits : List ℕ) → 2 ^ 64 ≤ behind number (digit ∷ digits)) }
{
    let digit = u64::from(digit.saturating_sub(b'0'));
    number.checked_mul(10)?.checked_add(digit)
}
