// The words of `world` and of `gen`: whether they have the form of their words, and the values that clap reads of those of
// `gen`.
ghost use Rattle.std.specs.Prelude.{◌≡◌, ◌&&◌, ◌∷◌, [], IfErr, IfOk, Some, true};
ghost use Rattle.std.specs.List.{list_all};
ghost use Rattle.clap.specs.Words.{app_of};
ghost use Rattle.wire_base.specs.Texts.{is_text};
ghost use Rattle.auth_program.specs.Words.{is_among, is_value};
ghost use Rattle.auth_program.specs.Reading.{bytes_of};
ghost use Rattle.world_program.specs.Words.{IsUnreadGen, gen_given, gen_options, has_gen_form, is_world, plain_number, rounds_of};
ghost use Rattle.world_program.specs.Reading.{HasTexts, gen_app};

use auth_program::{Status, as_str, copy_value, is_value, required_option};
use clap::Command;
use clap::error::ErrorKind;
use side_files::parse_decimal;
use std::alloc::Global;
use wire_base::{NoMemory, Text};

/// The most rounds of a script that is made.
const MOST_ROUNDS: u64 = 1000;

/// The values of the options of `gen`.
#[derive(Clone, Copy, Debug, PartialEq, Eq)]
pub struct GenWords {
    /// The number that the script is made of.
    pub number: u64,
    /// How many rounds it has.
    pub rounds: u32,
}

/// Whether the words are the one word `world`.
pub fn is_world(words: &[Text]) -> bool
    ensures { result ≡ is_world words.now }
{
    match words {
        [word] => word.as_slice() == b"world".as_slice(),
        _ => false,
    }
}

// Whether one of the two words is the option.
fn is_given(first: &[u8], second: &[u8], option: &[u8]) -> bool
    ensures { result ≡ is_among (first.now ∷ second.now ∷ []) option.now }
{
    first == option || second == option
}

// Whether the two words are the options of `gen`.
fn has_options(first: &[u8], second: &[u8]) -> bool
    ensures { result ≡ list_all (is_among (first.now ∷ second.now ∷ [])) gen_options }
{
    is_given(first, second, b"--number") && is_given(first, second, b"--rounds")
}

// Whether both words may be values.
fn are_values(a: &[u8], b: &[u8]) -> bool
    ensures { result ≡ (is_value a.now && is_value b.now) }
{
    is_value(a) && is_value(b)
}

/// Whether the words have the form of those of `gen`.
pub fn has_gen_form(words: &[Text]) -> bool
    ensures { result ≡ has_gen_form words.now }
{
    match words {
        [name, first, a, second, b] => {
            name.as_slice() == b"gen".as_slice()
                && has_options(first.as_slice(), second.as_slice())
                && are_values(a.as_slice(), b.as_slice())
        }
        _ => false,
    }
}

// The values of the options of `gen`, as they are written.
#[derive(Drop)]
struct GenTexts {
    number: Text,
    rounds: Text,
}

// The command of `gen`.
fn gen_command<'a>(alloc: Global) -> Result<Command<'a>, NoMemory>
    ensures { IfOk result (λ command. app_of command ≡ gen_app) }
{
    Ok(
        Command::new(alloc, "gen")
            .arg(required_option(alloc, "number"))?
            .arg(required_option(alloc, "rounds"))?,
    )
}

// The values of the options of `gen`, as clap reads them.
fn parse_gen(alloc: Global, texts: &[&str]) -> Result<GenTexts, Status>
    requires form { has_gen_form (bytes_of texts.now) ≡ true }
    requires text { list_all is_text (bytes_of texts.now) ≡ true }
    ensures ok { IfOk result (λ given. HasTexts (bytes_of texts.now) given) }
    ensures err { IfErr result (λ status. status ≡ Status.NoMemory) }
{
    let command = gen_command(alloc)?;
    match command.try_get_matches_from(texts) {
        Ok(matches) => Ok(GenTexts {
            number: copy_value(alloc, &matches, "number")?,
            rounds: copy_value(alloc, &matches, "rounds")?,
        }),
        Err(error) => match error.kind() {
            ErrorKind::OutOfMemory => Err(Status::NoMemory),
            _ => unreachable!(),
        },
    }
}

// The values of the options of `gen`.
fn read_gen(alloc: Global, words: &[Text]) -> Result<GenTexts, Status>
    requires { has_gen_form words.now ≡ true }
    ensures ok { IfOk result (λ given. HasTexts words.now given) }
    ensures err { IfErr result (λ status. status ≡ Status.NoMemory) }
{
    let [name, first, a, second, b] = words else {
        unreachable!();
    };
    let texts = [
        as_str(name),
        as_str(first),
        as_str(a),
        as_str(second),
        as_str(b),
    ];
    parse_gen(alloc, texts.as_slice())
}

// The number that a word is: decimal, without zeros in front, and below 2^64.
fn plain_number(word: &[u8]) -> Option<u64>
    ensures { result ≡ plain_number word.now }
{
    if word.len() > 1 && word[0] == b'0' {
        return None;
    }
    parse_decimal(word)
}

// How many rounds a word asks for.
fn rounds_of(word: &[u8]) -> Option<u32>
    ensures { result ≡ rounds_of word.now }
{
    match plain_number(word) {
        Some(number) => {
            if 0 < number && number <= MOST_ROUNDS {
                Some(number as u32)
            } else {
                None
            }
        }
        None => None,
    }
}

/// What the words behind the program's name, `gen` and its options, say. Usage comes where they aren't so; memory runs out
/// only where they have the form, of which clap reads the values.
pub fn read_gen_words(alloc: Global, words: &[Text]) -> Result<GenWords, Status>
    ensures ok { IfOk result (λ given. gen_given words.now ≡ Some given) }
    ensures err { IfErr result (IsUnreadGen words.now) }
{
    if !has_gen_form(words) {
        return Err(Status::Usage);
    }
    let texts = read_gen(alloc, words)?;
    let Some(number) = plain_number(texts.number.as_slice()) else {
        return Err(Status::Usage);
    };
    let Some(rounds) = rounds_of(texts.rounds.as_slice()) else {
        return Err(Status::Usage);
    };
    Ok(GenWords { number, rounds })
}
