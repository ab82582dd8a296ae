// Where an answer of the authentication server ends.
ghost use Rattle.std.specs.Prelude.{◌≡◌, ◌≤◌, ◌+◌, length};
ghost use Rattle.sockets.specs.Numbers.{TellsLength};
ghost use Rattle.sockets.specs.Endings.{after_byte, after_bytes, answer_length, challenge_length, counted_length, granted_length, is_digit, length_behind, number_read, with_digit};

use wire_base::Shape;
use wire_streams::MOST_ANSWER;

/// How many bytes a challenge may have.
pub(crate) const MOST_CHALLENGE: usize = 128;

/// How many bytes the number in front of a challenge takes.
const FIELD: usize = 5;

/// The kinds of answers: a refusal, a grant, a challenge behind its length.
const ERROR: u8 = 5;

const OK: u8 = 4;

const COUNTED: u8 = 9;

/// How far the number in front of a challenge is read.
#[derive(Clone, Copy)]
pub(crate) enum Counted {
    /// Nothing but blanks so far.
    Before,
    /// Digits, of this number.
    Number(u8),
    /// Blanks behind digits of this number.
    Behind(u8),
    /// This is no number, or one over the most.
    Faulty,
}

impl Counted {
    /// With one byte more.
    fn after_byte(self, byte: u8) -> Counted
        ensures exact { result ≡ after_byte self byte }
        ensures most { number_read self ≤ MOST_CHALLENGE → number_read result ≤ MOST_CHALLENGE }
    {
        match (self, byte) {
            (Counted::Before, b' ') => Counted::Before,
            (Counted::Number(number) | Counted::Behind(number), b' ') => Counted::Behind(number),
            (Counted::Before, b'0'..=b'9') => with_digit(0, byte),
            (Counted::Number(number), b'0'..=b'9') => with_digit(number, byte),
            _ => Counted::Faulty,
        }
    }

    fn number_read(self) -> usize
        ensures { result ≡ number_read self }
    {
        match self {
            Counted::Number(number) | Counted::Behind(number) => usize::from(number),
            Counted::Before | Counted::Faulty => 0,
        }
    }
}

// The number with one more digit behind it.
fn with_digit(number: u8, digit: u8) -> Counted
    requires { 48 ≤ digit }
    ensures { result ≡ with_digit number digit }
{
    let longer = 10 * usize::from(number) + usize::from(digit - b'0');
    if longer <= MOST_CHALLENGE {
        Counted::Number(longer as u8)
    } else {
        Counted::Faulty
    }
}

/// How many bytes the challenge behind this field has: the number that is spelled in decimal digits, with blanks before
/// or behind them, and none where this is no number from 1 to 128.
#[tactic(auto, unfolding(crate::specs::Endings::challenge_length))]
fn challenge_length(field: &[u8]) -> usize
    ensures exact { result ≡ challenge_length field.now }
    ensures most { result ≤ MOST_CHALLENGE }

    // It is the number that the field spells in decimal digits with blanks before or behind them, and none where there
    // is no such number from 1 to the most.
    ensures spelled { TellsLength field.now result }
{
    let mut counted = Counted::Before;
    for byte in field {
        counted = counted.after_byte(*byte);
    }
    counted.number_read()
}

// What stands behind the byte that says that a challenge follows.
fn counted_length(shape: Shape, rest: &[u8]) -> usize
    ensures exact { result ≡ counted_length shape rest.now }
    ensures most { result ≤ FIELD + MOST_CHALLENGE }
{
    match shape {
        Shape::Tickets | Shape::Vouch => 0,
        Shape::Challenge if rest.len() < FIELD => FIELD,
        Shape::Challenge => FIELD + challenge_length(&rest[..FIELD]),
    }
}

// What stands behind a grant: two tickets, or a ticket and an authenticator.
fn granted_length(shape: Shape) -> usize
    ensures { result ≡ granted_length shape }
{
    match shape {
        Shape::Tickets => 144,
        Shape::Challenge => 0,
        Shape::Vouch => 85,
    }
}

/// How many bytes the answer has, as far as those that came of it tell: one where none came.
pub fn answer_length(shape: Shape, heard: &[u8]) -> usize
    ensures exact { result ≡ answer_length shape heard.now }
    ensures most { result ≤ MOST_ANSWER }
{
    let [kind, rest @ ..] = heard else {
        return 1;
    };
    match *kind {
        ERROR => 65,
        OK => 1 + granted_length(shape),
        COUNTED => 1 + counted_length(shape, rest),
        _ => 1,
    }
}
