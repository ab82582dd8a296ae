// The words of the program's command line.
ghost use Rattle.std.specs.Prelude.{◌≡◌, ◌∷◌, ◌<◌, ◌+◌, ◌^◌, length, IfNone, IfSome};
ghost use Rattle.auth_program.specs.Words.{is_among};
ghost use Rattle.agent_serving.specs.Words.{AreBelow, AreWithin, IsBelow, are_options, few_asks, number_at, number_behind, number_in, options_in, place_of, plain_number, serve_options, serve_words, served};

use auth_program::is_value;
use side_files::parse_decimal;
use wire_base::Text;

/// How many questions are answered by yes for the user where the words don't say it.
const CONSENTS: u32 = 0;

/// How many questions may be asked of the authentication server at a time where the words don't say it.
const ASKS: u32 = 8;

/// How many that may be at most.
const MOST_ASKS: u32 = 64;

/// The places of the addresses among the words behind the program's name, and two numbers.
#[derive(Clone, Copy, Debug, PartialEq, Eq)]
pub struct ServeWords {
    /// The address at which it listens.
    pub listen: usize,
    /// The address of the authentication server, if one is given.
    pub auth: Option<usize>,
    /// How many questions are answered by yes for the user.
    pub consents: u32,
    /// How many questions may be asked of the authentication server at a time, from 1 to 64.
    pub asks: u32,
}

/// What the words behind the program's name ask for: `serve`, and the options `--listen` with an address and, if they stand
/// there, `--auth` with one, `--consent` with a number and `--asks` with one from 1 to 64, in any order and each once. None
/// where they aren't so.
pub fn read_serve_words(words: &[Text]) -> Option<ServeWords>
    ensures places { result ≡ serve_words words.now }
    ensures within { IfSome result (λ given. AreWithin given words.now) }
{
    match words {
        [name, options @ ..] => {
            if name.as_slice() == b"serve".as_slice() {
                read_options(options)
            } else {
                None
            }
        }
        [] => None,
    }
}

// What the words behind the command's name say.
fn read_options(words: &[Text]) -> Option<ServeWords>
    requires { 1 + length words.now < 2 ^ 64 }
    ensures places { result ≡ options_in words.now }
    ensures within { IfSome result (λ given. AreBelow given (1 + length words.now)) }
{
    if !are_options(words) {
        return None;
    }
    served(
        place_of(b"--listen", 1, words),
        place_of(b"--auth", 1, words),
        number_behind(b"--consent", CONSENTS, words),
        few_asks(number_behind(b"--asks", ASKS, words)),
    )
}

// The option at the front of some words, its value, and the words behind.
fn first_option(words: &[Text]) -> Option<(&Text, &Text, &[Text])>
    ensures some { IfSome result (λ cut. words.now ≡ cut.0.now ∷ (cut.1.now ∷ cut.2.now)) }
    ensures none { IfNone result (length words.now < 2) }
{
    match words {
        [name, value, rest @ ..] => Some((name, value, rest)),
        [] | [_] => None,
    }
}

// Whether the words are options with values, none of which is given twice.
fn are_options(words: &[Text]) -> bool
    requires { length words.now < 2 ^ 64 }
    ensures { result ≡ are_options words.now }
{
    let mut left = words;
    while let Some((name, value, rest)) = first_option(left) {
        if !is_option(name) || !is_value(value.as_slice()) {
            return false;
        }
        if place_of(name.as_slice(), 0, rest).is_some() {
            return false;
        }
        left = rest;
    }
    left.is_empty()
}

// Whether a word is the name of an option.
fn is_option(name: &Text) -> bool
    ensures { result ≡ is_among serve_options name.now }
{
    let name = name.as_slice();
    b"--listen".as_slice() == name
        || b"--auth".as_slice() == name
        || b"--consent".as_slice() == name
        || b"--asks".as_slice() == name
}

// The place of the value behind an option; the words are counted from this number.
fn place_of(option: &[u8], from: usize, words: &[Text]) -> Option<usize>
    requires { from + length words.now < 2 ^ 64 }
    ensures place { result ≡ place_of option.now from words.now }
    ensures below { IsBelow result (from + length words.now) }
{
    let mut at = from;
    let mut left = words;
    while let Some((name, _, rest)) = first_option(left) {
        if name.as_slice() == option {
            return Some(at + 1);
        }
        at += 2;
        left = rest;
    }
    None
}

// The number that an option gives.
fn number_behind(option: &[u8], usual: u32, words: &[Text]) -> Option<u32>
    requires { length words.now < 2 ^ 64 }
    ensures { result ≡ number_behind option.now usual words.now }
{
    match place_of(option, 0, words) {
        Some(place) => number_in(&words[place]),
        None => Some(usual),
    }
}

// The number that a word is: decimal, without zeros in front, and below 2^32.
fn number_in(word: &Text) -> Option<u32>
    ensures { result ≡ number_in word.now }
{
    let digits = word.as_slice();
    if digits.len() > 1 && digits[0] == b'0' {
        return None;
    }
    plain_number(digits)
}

fn plain_number(digits: &[u8]) -> Option<u32>
    ensures { result ≡ plain_number digits.now }
{
    match parse_decimal(digits) {
        Some(number) => {
            if number < 1 << 32 {
                Some(number as u32)
            } else {
                None
            }
        }
        None => None,
    }
}

// A number from 1 to the most.
fn few_asks(number: Option<u32>) -> Option<u32>
    ensures { result ≡ few_asks number }
{
    match number {
        Some(number) => {
            if 1 <= number && number <= MOST_ASKS {
                Some(number)
            } else {
                None
            }
        }
        None => None,
    }
}

// What is given, where an address to listen at and the numbers are.
fn served(
    listen: Option<usize>,
    auth: Option<usize>,
    consents: Option<u32>,
    asks: Option<u32>,
) -> Option<ServeWords>
    ensures given { result ≡ served listen auth consents asks }
    ensures same { IfSome result (λ given. (listen ≡ Some given.listen) × (given.auth ≡ auth)) }
{
    match (listen, consents, asks) {
        (Some(listen), Some(consents), Some(asks)) => Some(ServeWords {
            listen,
            auth,
            consents,
            asks,
        }),
        (None, _, _) | (Some(_), None, _) | (Some(_), Some(_), None) => None,
    }
}
