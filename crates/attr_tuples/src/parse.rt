// Tuples read from text.
ghost use Rattle.std.specs.Prelude.{◌≡◌, ◌==◌, Err, false, true, position, IfOk};
ghost use Rattle.wire_base.specs.Texts.{is_text};
ghost use Rattle.attr_tuples.specs.Lines.{is_line, line_len};
ghost use Rattle.attr_tuples.specs.Attributes.{is_value};
ghost use Rattle.attr_tuples.specs.Grammar.{attr_of, words_from, tuple_of, Answers};
ghost use Rattle.attr_tuples.specs.Steps.{ending_value, ReadsName};
ghost use Rattle.attr_tuples.specs.declared.fault.TupleFault.TheVariants.{NotText};

use crate::attr::{Attr, Value, build_text};
use crate::fault::TupleFault;
use crate::line::line_len;
use crate::tuple::{MOST_ATTRIBUTES, Tuple, check_name};
use crate::word::{WordFault, gap_end, take_word};
use std::alloc::Global;
use wire_base::{Bytes, NoMemory};

/// Reads a tuple: words with blanks and tabs between, each an attribute. In a word `'` opens a quoted run up to the
/// next `'`, and `''` in it is one `'`. The word without quotes is cut at its first `=`; without one it asks where it
/// ends in `?`, and else is a name alone. A fault is the first from the left, but that the text is none comes before
/// all others.
#[tactic(auto, unfolding(crate::specs::Grammar::tuple_of))]
pub fn parse_tuple(alloc: Global, text: &[u8]) -> Result<Tuple, TupleFault>
    ensures answer { Answers result (tuple_of text.now) }

    // What is no text is refused before memory is taken.
    ensures no_text { is_line text.now ≡ false → result ≡ Err (NotText (line_len text.now)) }
{
    let len = line_len(text);
    if len != text.len() {
        return Err(TupleFault::NotText { at: len as u64 });
    }
    parse_words(alloc, text)
}

fn parse_words(alloc: Global, text: &[u8]) -> Result<Tuple, TupleFault>
    requires { is_line text.now ≡ true }
    ensures { Answers result (words_from 36 0 text.now) }
{
    let mut list = Vec::new(alloc);
    let mut word = Bytes::new(alloc);
    let mut next = gap_end(text, 0);
    while next < text.len() {
        if list.len() >= MOST_ATTRIBUTES {
            return Err(TupleFault::TooMany);
        }
        let end = match take_word(text, next, &mut word) {
            Ok(end) => end,
            Err(WordFault::Quote { at }) => return Err(TupleFault::Quote { at }),
            Err(WordFault::NoMemory) => return Err(TupleFault::NoMemory),
        };
        let Some(attr) = read_attr(alloc, word.as_slice())? else {
            return Err(TupleFault::Name { at: next as u64 });
        };
        list.push(attr)?;
        next = gap_end(text, end);
    }
    Ok(Tuple::from_vec(list))
}

// The attribute of a word, where its name is one.
fn read_attr(alloc: Global, word: &[u8]) -> Result<Option<Attr>, NoMemory>
    requires { is_line word.now ≡ true }
    ensures { IfOk result (λ attr. ReadsName attr (attr_of word.now)) }
{
    let (name, ending) = split_word(word);
    if !check_name(name) {
        return Ok(None);
    }
    let attr = build_attr(alloc, name, ending)?;
    Ok(Some(attr))
}

// What a word has behind its name.
#[derive(Clone, Copy)]
enum Ending<'a> {
    Is(&'a [u8]),
    Ask,
    Bare,
}

#[tactic(auto, unfolding(crate::specs::Grammar::attr_of))]
fn split_word(word: &[u8]) -> (&[u8], Ending<'_>)
    ensures name { result.0.now ≡ (attr_of word.now).name }
    ensures value { ending_value result.1 ≡ (attr_of word.now).value }
{
    match find_equals(word) {
        Some(at) => {
            let (name, rest) = word.split_at(at);
            (name, Ending::Is(rest.split_at(1).1))
        }
        None => match word {
            [name @ .., b'?'] => (name, Ending::Ask),
            _ => (word, Ending::Bare),
        },
    }
}

fn find_equals(word: &[u8]) -> Option<usize>
    ensures { result ≡ position (λ b. b == 61) word.now }
{
    word.iter().position(|byte| *byte == b'=')
}

fn build_attr(alloc: Global, name: &[u8], ending: Ending) -> Result<Attr, NoMemory>
    requires name { is_text name.now ≡ true }
    requires value { is_value (ending_value ending) ≡ true }
    ensures { IfOk result
        (λ attr. attr ≡ record { name = name.now; value = ending_value ending.entry }) }
{
    let value = match ending {
        Ending::Is(text) => Value::Is(build_text(alloc, text)?),
        Ending::Ask => Value::Ask,
        Ending::Bare => Value::Bare,
    };
    let name = build_text(alloc, name)?;
    Ok(Attr { name, value })
}
