// The forms of a program's command lines, as its own text tells them.
use attr_tuples::is_dom;
use sockets::check_addresses;

/// What the word behind an option has to be.
#[derive(Clone, Copy, Debug, PartialEq, Eq)]
pub enum Value {
    /// Any that may be a value.
    Any,
    /// An authentication domain.
    Dom,
    /// The addresses of servers, with commas between them.
    Addresses,
    /// A number from the least to the most, in decimal digits without zeros in front.
    Number { least: u64, most: u64 },
}

/// An option, which has a value behind it.
#[derive(Clone, Copy)]
pub struct Opt {
    pub name: &'static str,
    pub value: Value,
    pub is_needed: bool,
}

/// A command: its name, which is empty where the program has no commands, and its options.
#[derive(Clone, Copy)]
pub struct Form {
    pub command: &'static str,
    pub options: &'static [Opt],
}

/// Whether a word may stand behind an option: it isn't empty, doesn't begin with a hyphen, and has the form that is asked for.
pub(crate) fn is_value(value: Value, word: &[u8]) -> bool {
    let may_stand = match word {
        [first, ..] => *first != b'-',
        [] => false,
    };
    may_stand
        && match value {
            Value::Any => true,
            Value::Dom => is_dom(word),
            Value::Addresses => check_addresses(word).is_ok(),
            Value::Number { least, most } => match number_in(word) {
                Some(number) => least <= number && number <= most,
                None => false,
            },
        }
}

// The number of decimal digits, without zeros in front.
fn number_in(word: &[u8]) -> Option<u64> {
    if word.len() > 1 && word[0] == b'0' {
        return None;
    }
    let mut number = 0u64;
    for digit in word {
        if !(b'0'..=b'9').contains(digit) {
            return None;
        }
        number = number
            .checked_mul(10)?
            .checked_add(u64::from(*digit - b'0'))?;
    }
    Some(number)
}
