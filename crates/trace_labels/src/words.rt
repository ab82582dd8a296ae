// The words of a line, and what a word says.
ghost use Rattle.std.specs.Prelude.{◌≡◌, ◌==◌, ◌∷◌, ◌<◌, ◌^◌, ℕ, [], None, Ok, Err, Some, position, IfOk, OnErr, if◌then◌else◌};
ghost use Rattle.symbolic_runs.specs.declared.kind.MacKind.{MacKind};
ghost use Rattle.trace_labels.specs.declared.unread.Unread.TheVariants.{BadForm};
ghost use Rattle.trace_labels.specs.Words.{words_of};
ghost use Rattle.trace_labels.specs.Left.{is_over, words_left};
ghost use Rattle.std.specs.Fmt.{decimal};
ghost use Rattle.std.specs.Str.{bytes_eq};
ghost use Rattle.trace_labels.specs.Reading.{digits_of, ends_step, hex_of, kind_of, name_of, number_of, one_by};

use crate::unread::Unread;
use hex::FromHexError;
use std::alloc::Global;
use std::marker::Model;
use symbolic_runs::MacKind;
use wire_base::{Bytes, Text};

/// Goes over the words of a line.
#[derive(Debug, Drop)]
pub(crate) struct Words<'a> {
    left: Option<&'a [u8]>,
}

impl<'a> Model for Words<'a> {
    ghost use Rattle.std.specs.Prelude.{List, ℕ};
    ghost use Rattle.trace_labels.specs.Left.{is_over, words_left};

    ghost Value = { List (List ℕ) };

    ghost view = { λ w. words_left w.left };
}

impl<'a> Words<'a> {
    /// All words of a line.
    pub(crate) fn new(line: &'a [u8]) -> Words<'a>
        ensures { result ≡ words_of line.now }
    {
        Words { left: Some(line) }
    }

    /// The next word.
    pub(crate) fn take(&mut self) -> Result<&'a [u8], Unread>
        ensures ok { IfOk result (λ word. self.old ≡ word.now ∷ self.new) }
        ensures bad { OnErr result (self.old ≡ []) }
        ensures why { OnErr result (result ≡ Err BadForm) }
    {
        let Some(text) = self.left else {
            return Err(Unread::BadForm);
        };
        let (word, rest) = cut_word(text);
        self.left = rest;
        Ok(word)
    }

    /// The number that the next word says.
    pub(crate) fn take_number(&mut self) -> Result<u32, Unread>
        ensures ok { IfOk result (λ number. one_by number_of self.old ≡ Some (number, self.new)) }
        ensures bad { OnErr result (one_by number_of self.old ≡ None) }
        ensures why { OnErr result (result ≡ Err BadForm) }
    {
        let word = self.take()?;
        match read_number(word) {
            Some(number) => Ok(number),
            None => Err(Unread::BadForm),
        }
    }

    /// The bytes that the next word says.
    pub(crate) fn take_hex(&mut self, alloc: Global) -> Result<Bytes, Unread>
        ensures ok { IfOk result (λ bytes. one_by hex_of self.old ≡ Some (bytes, self.new)) }
        ensures bad { result ≡ Err BadForm → one_by hex_of self.old ≡ None }
    {
        let word = self.take()?;
        read_hex(alloc, word)
    }

    /// The key name that the next word says.
    pub(crate) fn take_name(&mut self, alloc: Global) -> Result<Text, Unread>
        ensures ok { IfOk result (λ name. one_by name_of self.old ≡ Some (name, self.new)) }
        ensures bad { result ≡ Err BadForm → one_by name_of self.old ≡ None }
    {
        let word = self.take()?;
        read_name(alloc, word)
    }

    /// The kind of a digest that the next word says.
    pub(crate) fn take_kind(&mut self) -> Result<MacKind, Unread>
        ensures ok { IfOk result (λ kind. one_by kind_of self.old ≡ Some (kind, self.new)) }
        ensures bad { OnErr result (one_by kind_of self.old ≡ None) }
        ensures why { OnErr result (result ≡ Err BadForm) }
    {
        let word = self.take()?;
        match kind_of(word) {
            Some(kind) => Ok(kind),
            None => Err(Unread::BadForm),
        }
    }

    /// Whether no word is left.
    #[tactic(auto, using(crate::proofs::Splits::never_over))]
    pub(crate) fn is_over(&self) -> bool
        ensures { result ≡ is_over self.now }
    {
        match self.left {
            Some(_) => false,
            None => true,
        }
    }

    /// Whether a step of a derivation ends here.
    pub(crate) fn ends_step(&self) -> bool
        ensures { result ≡ ends_step self.now }
    {
        match self.left {
            Some(text) => cut_word(text).0 == b";".as_slice(),
            None => true,
        }
    }
}

fn find_blank(text: &[u8]) -> Option<usize>
    ensures { result ≡ position (λ b. b == 32) text.now }
{
    text.iter().position(|byte| *byte == b' ')
}

// The first word of a text, and what stands behind the blank behind it.
fn cut_word(text: &[u8]) -> (&[u8], Option<&[u8]>)
    ensures { words_of text.now ≡ result.0.now ∷ words_left result.1 }
{
    match find_blank(text) {
        Some(at) => {
            let (word, rest) = text.split_at(at);
            (word, Some(rest.split_at(1).1))
        }
        None => (text, None),
    }
}

// The number that a word says.
fn read_number(word: &[u8]) -> Option<u32>
    ensures { result ≡ number_of word.now }
{
    match parse_number(word) {
        Some(number) => known_number(number, word),
        None => None,
    }
}

fn known_number(number: u32, word: &[u8]) -> Option<u32>
    ensures known { result ≡ (if bytes_eq word.now (decimal number) then Some number else None) }
    ensures small { number < 2 ^ 32 }
{
    let mut buffer = itoa::Buffer::new();
    if word == buffer.format(number).as_bytes() {
        Some(number)
    } else {
        None
    }
}

// The number that digits say, and maybe one of other texts.

fn parse_number(word: &[u8]) -> Option<u32>
    ensures { (number : ℕ) → number < 2 ^ 32 → word.now ≡ decimal number → result ≡ Some number }
{
    match std::str::from_utf8(word) {
        Ok(text) => text.parse::<u32>().ok(),
        Err(_) => None,
    }
}

// The bytes that digits say, at least one.
fn read_digits(alloc: Global, word: &[u8]) -> Result<Bytes, Unread>
    ensures ok { IfOk result (λ bytes. digits_of word.now ≡ Some bytes) }
    ensures bad { result ≡ Err BadForm → digits_of word.now ≡ None }
{
    if word.is_empty() {
        return Err(Unread::BadForm);
    }
    match hex::decode(alloc, word) {
        Ok(bytes) => Ok(Bytes::from_vec(bytes)),
        Err(FromHexError::OutOfMemory) => Err(Unread::NoMemory),
        Err(_) => Err(Unread::BadForm),
    }
}

// The bytes that a word says.
fn read_hex(alloc: Global, word: &[u8]) -> Result<Bytes, Unread>
    ensures ok { IfOk result (λ bytes. hex_of word.now ≡ Some bytes) }
    ensures bad { result ≡ Err BadForm → hex_of word.now ≡ None }
{
    if word == b"-".as_slice() {
        return Ok(Bytes::new(alloc));
    }
    read_digits(alloc, word)
}

// The key name that a word says.
fn read_name(alloc: Global, word: &[u8]) -> Result<Text, Unread>
    ensures ok { IfOk result (λ name. name_of word.now ≡ Some name) }
    ensures bad { result ≡ Err BadForm → name_of word.now ≡ None }
{
    let bytes = read_digits(alloc, word)?;
    match Text::from_slice(alloc, bytes.as_slice())? {
        Some(name) => Ok(name),
        None => Err(Unread::BadForm),
    }
}

fn kind_of(word: &[u8]) -> Option<MacKind>
    ensures { result ≡ kind_of word.now }
{
    if word == b"apop".as_slice() {
        return Some(MacKind::Apop);
    }
    if word == b"cram".as_slice() {
        return Some(MacKind::Cram);
    }
    None
}
