// Words of a line: what stands before a byte, names, and random bytes.
ghost use Rattle.std.specs.Prelude.{◌≡◌, ◌==◌, [], Some, true, length, position, option_map};
ghost use Rattle.std.specs.List.{list_all};
ghost use Rattle.std.specs.Result.{result_unwrap_or};
ghost use Rattle.hex.specs.Hex.{decode_of};
ghost use Rattle.world_scripts.specs.Lines.{is_name, is_name_byte, is_domain};
ghost use Rattle.world_scripts.specs.Reading.{cut_at, is_lower_digit, name_before, name_of, random_before, random_of};
ghost use Rattle.world_scripts.specs.Given.{both_now, random_now};

use attr_tuples::is_dom;
use wire_base::check_text;

/// How many bytes a name has at most.
const MOST_NAME_BYTES: usize = 16;

/// How many digits spell random bytes.
const RANDOM_DIGITS: usize = 16;

/// What stands before the first of such bytes, and what stands behind it.
pub(crate) fn cut_at(byte: u8, text: &[u8]) -> Option<(&[u8], &[u8])>
    ensures { option_map both_now result ≡ cut_at byte text.now }
{
    let at = find_byte(byte, text)?;
    let (front, rest) = text.split_at(at);
    Some((front, rest.split_at(1).1))
}

fn find_byte(byte: u8, text: &[u8]) -> Option<usize>
    ensures { result ≡ position (λ b. b == byte) text.now }
{
    text.iter().position(|b| *b == byte)
}

/// Whether a text is a domain of the authentication server.
pub(crate) fn check_domain(text: &[u8]) -> bool
    ensures { result ≡ is_domain text.now }
{
    check_text(text) && is_dom(text)
}

fn check_name(text: &[u8]) -> bool
    ensures { result ≡ is_name text.now }
{
    text.len() >= 1 && text.len() <= MOST_NAME_BYTES && all_name_bytes(text)
}

fn all_name_bytes(text: &[u8]) -> bool
    ensures { result ≡ list_all is_name_byte text.now }
{
    text.iter()
        .all(|b| *b >= b'a' && *b <= b'z' || *b >= b'0' && *b <= b'9')
}

/// The name that a text is.
pub(crate) fn read_name(text: &[u8]) -> Option<&[u8]>
    ensures { option_map (λ name. name.now) result ≡ name_of text.now }
{
    if check_name(text) { Some(text) } else { None }
}

/// A name and what stands behind the blank behind it.
pub(crate) fn name_before(text: &[u8]) -> Option<(&[u8], &[u8])>
    ensures { option_map both_now result ≡ name_before text.now }
{
    let (front, rest) = cut_at(b' ', text)?;
    let name = read_name(front)?;
    Some((name, rest))
}

fn all_lower_digits(text: &[u8]) -> bool
    ensures { result ≡ list_all is_lower_digit text.now }
{
    text.iter()
        .all(|b| *b >= b'0' && *b <= b'9' || *b >= b'a' && *b <= b'f')
}

/// The eight bytes that a text spells.
pub(crate) fn read_random(text: &[u8]) -> Option<[u8; 8]>
    ensures { result ≡ random_of text.now }
{
    if text.len() != RANDOM_DIGITS || !all_lower_digits(text) {
        return None;
    }
    decode_random(text)
}

fn decode_random(text: &[u8]) -> Option<[u8; 8]>
    ensures { list_all is_lower_digit text.now ≡ true → length text.now ≡ 16
        → result ≡ Some (result_unwrap_or (decode_of text.now) []) }
{
    let mut random = [0; 8];
    match hex::decode_to_slice(text, &mut random) {
        Ok(()) => Some(random),
        Err(_) => None,
    }
}

/// Eight bytes and what stands behind the blank behind them.
pub(crate) fn random_before(text: &[u8]) -> Option<([u8; 8], &[u8])>
    ensures { option_map random_now result ≡ random_before text.now }
{
    let (front, rest) = cut_at(b' ', text)?;
    let random = read_random(front)?;
    Some((random, rest))
}
