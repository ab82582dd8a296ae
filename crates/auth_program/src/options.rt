// Options with a value, as clap is asked for them, and what it reads.
ghost use Rattle.std.specs.Prelude.{◌≡◌, IfOk, Some, true, false};
ghost use Rattle.clap.specs.Words.{first_value, found_of, rule_of};
ghost use Rattle.wire_base.specs.Texts.{is_text};
ghost use Rattle.auth_program.specs.Reading.{HasText, option_rule};

use clap::{Arg, ArgAction, ArgMatches};
use std::alloc::Global;
use wire_base::{NoMemory, Text};

/// A text as a str.
pub fn as_str(word: &Text) -> &str
    ensures same { result.now ≡ word.now }
    ensures text { is_text result.now ≡ true }
{
    match std::str::from_utf8(word.as_slice()) {
        Ok(text) => text,
        Err(_) => unreachable!(),
    }
}

/// An option that has to be there, with a value.
pub fn required_option<'a>(alloc: Global, name: &'a str) -> Arg<'a>
    ensures rule { rule_of result ≡ option_rule name.entry.now }
    ensures own { result.global ≡ false }
{
    Arg::new(alloc, name)
        .long(name)
        .action(ArgAction::Set)
        .required(true)
}

/// A copy of a value that clap read.
pub fn copy_value(alloc: Global, matches: &ArgMatches<'_>, name: &str) -> Result<Text, NoMemory>
    requires { HasText matches.now name.now }
    ensures { IfOk result (λ text. first_value (found_of matches.now) name.now ≡ Some text) }
{
    let Some(value) = matches.get_str(name) else {
        unreachable!();
    };
    match Text::from_slice(alloc, value.as_bytes())? {
        Some(text) => Ok(text),
        None => unreachable!(),
    }
}
