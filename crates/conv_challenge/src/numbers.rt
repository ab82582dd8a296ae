// The length in front of a challenge. Nothing here takes memory.
ghost use Rattle.std.specs.Prelude.{◌≡◌, ◌≤◌, length, reverse};
ghost use Rattle.std.specs.List.{list_all};
ghost use Rattle.conv_challenge.specs.Numbers.{behind, behind_blanks, between_blanks, is_digit, is_number, told_length};

/// The number that a field of at most five bytes tells, and 0 where it tells none.
#[tactic(auto, unfolding(crate::specs::Numbers::told_length))]
pub fn told_length(field: &[u8]) -> usize
    requires { length field.now ≤ 5 }
    ensures { result ≡ told_length field.now }
{
    let text = between_blanks(field);
    if is_number(text) {
        number_of(text) as usize
    } else {
        0
    }
}

fn between_blanks(text: &[u8]) -> &[u8]
    ensures value { result.now ≡ between_blanks text.now }
    ensures shorter { length result.now ≤ length text.now }
{
    trim_end(trim_start(text))
}

fn trim_start(mut text: &[u8]) -> &[u8]
    ensures value { result.now ≡ behind_blanks text.now }
    ensures shorter { length result.now ≤ length text.now }
{
    while let [first, rest @ ..] = text
        && *first == b' '
    {
        text = rest;
    }
    text
}

fn trim_end(mut text: &[u8]) -> &[u8]
    ensures value { result.now ≡ reverse (behind_blanks (reverse text.now)) }
    ensures shorter { length result.now ≤ length text.now }
{
    while let [rest @ .., last] = text
        && *last == b' '
    {
        text = rest;
    }
    text
}

fn is_number(text: &[u8]) -> bool
    ensures { result ≡ is_number text.now }
{
    !text.is_empty() && all_digits(text)
}

fn all_digits(text: &[u8]) -> bool
    ensures { result ≡ list_all is_digit text.now }
{
    text.iter().all(|byte| is_digit(*byte))
}

fn is_digit(byte: u8) -> bool
    ensures { result ≡ is_digit byte }
{
    byte >= b'0' && byte <= b'9'
}

fn number_of(digits: &[u8]) -> u64
    requires { length digits.now ≤ 5 }
    ensures { result ≡ behind 0 digits.now }
{
    let mut number = 0;
    for digit in digits {
        number = 10 * number + u64::from(digit.saturating_sub(b'0'));
    }
    number
}
