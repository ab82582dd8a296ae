// The word of a command line that isn't taken.
use crate::forms::{Form, Opt, is_value};
use std::fmt::{self, Display, Formatter};
use wire_base::Text;

/// How many signs of a word are shown.
const MOST_SHOWN: usize = 200;

/// What is wrong with a command line: the first thing, from its front.
#[derive(Clone, Copy)]
pub enum Untaken<'a> {
    /// It is empty.
    Nothing,
    /// Its first word is no command.
    NoCommand { word: &'a Text },
    /// The word is no option.
    NoOption { word: &'a Text },
    /// The word is an option, `=` and a value, which are to be two words.
    Joined { name: &'static str, value: &'a [u8] },
    /// The option stands there for the second time.
    Twice { name: &'static str },
    /// Behind the option stands nothing.
    NoValue { name: &'static str },
    /// The word is no value of the option.
    BadValue { name: &'static str, word: &'a Text },
    /// The option has to stand there.
    Missing { name: &'static str },
}

// Bytes as they can be shown: a sign that isn't printable ASCII as `?`, and two dots behind a long word's front.
#[derive(Drop)]
struct Shown<'a>(&'a [u8]);

impl Display for Shown<'_> {
    fn fmt<W: fmt::Write>(&self, f: &mut Formatter<W>) -> fmt::Result {
        for byte in self.0.iter().take(MOST_SHOWN) {
            let sign = if (b' '..=b'~').contains(byte) {
                *byte
            } else {
                b'?'
            };
            f.write_char(char::from(sign))?;
        }
        if self.0.len() > MOST_SHOWN {
            f.write_str("..")?;
        }
        Ok(())
    }
}

impl Display for Untaken<'_> {
    fn fmt<W: fmt::Write>(&self, f: &mut Formatter<W>) -> fmt::Result {
        match self {
            Untaken::Nothing => f.write_str("no command is given"),
            Untaken::NoCommand { word } => {
                write!(f, "'{}' is no command", Shown(word.as_slice()))
            }
            Untaken::NoOption { word } => {
                write!(f, "'{}' isn't taken here", Shown(word.as_slice()))
            }
            Untaken::Joined { name, value } => {
                let value = Shown(value);
                write!(f, "'{name}={value}' isn't taken: write '{name} {value}'")
            }
            Untaken::Twice { name } => write!(f, "'{name}' stands twice"),
            Untaken::NoValue { name } => write!(f, "behind '{name}' stands no value"),
            Untaken::BadValue { name, word } => {
                write!(f, "'{}' is no value of '{name}'", Shown(word.as_slice()))
            }
            Untaken::Missing { name } => write!(f, "'{name}' is missing"),
        }
    }
}

/// What is wrong with these words, which have to be of one of the forms. None where they are.
pub fn find_untaken<'a>(words: &'a [Text], forms: &[Form]) -> Option<Untaken<'a>> {
    if let [form] = forms
        && form.command.is_empty()
    {
        return in_options(words, form.options);
    }
    let [word, rest @ ..] = words else {
        return Some(Untaken::Nothing);
    };
    for form in forms {
        if form.command.as_bytes() == word.as_slice() {
            return in_options(rest, form.options);
        }
    }
    Some(Untaken::NoCommand { word })
}

// What is wrong with words that have to be options with values.
fn in_options<'a>(words: &'a [Text], options: &[Opt]) -> Option<Untaken<'a>> {
    for (at, word) in words.iter().enumerate() {
        if at % 2 == 0
            && let Some(untaken) = in_pair(word, words.get(at + 1), &words[..at], options)
        {
            return Some(untaken);
        }
    }
    for option in options {
        if option.is_needed && !is_among(option.name, words) {
            return Some(Untaken::Missing { name: option.name });
        }
    }
    None
}

// What is wrong with an option and its value, behind these words.
fn in_pair<'a>(
    word: &'a Text,
    value: Option<&'a Text>,
    before: &[Text],
    options: &[Opt],
) -> Option<Untaken<'a>> {
    for option in options {
        let name = option.name;
        if let Some(behind) = word.as_slice().strip_prefix(name.as_bytes()) {
            match (behind, value) {
                ([], _) if is_among(name, before) => return Some(Untaken::Twice { name }),
                ([], None) => return Some(Untaken::NoValue { name }),
                ([], Some(value)) if is_value(option.value, value.as_slice()) => return None,
                ([], Some(word)) => return Some(Untaken::BadValue { name, word }),
                ([b'=', value @ ..], _) => return Some(Untaken::Joined { name, value }),
                _ => {}
            }
        }
    }
    Some(Untaken::NoOption { word })
}

// Whether an option stands among words, which are options and values.
fn is_among(name: &str, words: &[Text]) -> bool {
    words.iter().any(|word| word.as_slice() == name.as_bytes())
}
