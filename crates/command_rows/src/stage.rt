// What stands around the commands of a file's rows: texts, tables, words to be drawn, what the dialer hears, and which calls
// fail.
use crate::texts::{Texts, argument};
use anyhow::bail;
use row_files::Row;
use std::alloc::Global;
use wire_base::{Bytes, Text, TextList};

/// The number of each object's call that fails, counted from 1; 0 for none.
#[derive(Clone, Copy)]
pub(crate) struct Faults {
    pub(crate) read: u64,
    pub(crate) write: u64,
    pub(crate) keys: u64,
    pub(crate) speaks: u64,
    pub(crate) word: u64,
    pub(crate) dial: u64,
    pub(crate) table: u64,
}

const NO_FAULTS: Faults = Faults {
    read: 0,
    write: 0,
    keys: 0,
    speaks: 0,
    word: 0,
    dial: 0,
    table: 0,
};

/// What stands for the rows that follow.
#[derive(Drop)]
pub(crate) struct Stage {
    pub(crate) texts: Texts,
    pub(crate) keys: Bytes,
    pub(crate) speaks: Bytes,
    pub(crate) drawn: Bytes,
    pub(crate) held: Bytes,
    pub(crate) first_heard: Bytes,
    pub(crate) second_heard: Bytes,
    pub(crate) faults: Faults,
}

/// Notes a call that fails: `NAME_fault=NUMBER`.
fn note_fault(faults: &mut Faults, field: &[u8]) -> anyhow::Result<()> {
    let text = std::str::from_utf8(field)?;
    let Some((name, number)) = text.split_once('=') else {
        bail!("{text} is no fault");
    };
    let number = number.parse::<u64>()?;
    match name {
        "read_fault" => faults.read = number,
        "write_fault" => faults.write = number,
        "keys_fault" => faults.keys = number,
        "speaks_fault" => faults.speaks = number,
        "word_fault" => faults.word = number,
        "dial_fault" => faults.dial = number,
        "table_fault" => faults.table = number,
        _ => bail!("{name} is no fault"),
    }
    Ok(())
}

/// The words of a command line, with blanks between them.
pub(crate) fn words_of(alloc: Global, line: &[u8]) -> anyhow::Result<TextList> {
    let mut words = TextList::new(alloc);
    for word in line.split(|byte| *byte == b' ') {
        if word.is_empty() {
            continue;
        }
        match Text::from_slice(alloc, word)? {
            Some(text) => words.push(text)?,
            None => bail!("a word is no text"),
        }
    }
    Ok(words)
}

impl Stage {
    /// No texts, empty tables, no words, nothing that the dialer hears, and no call that fails.
    pub(crate) fn new(alloc: Global) -> Stage {
        Stage {
            texts: Texts::new(alloc),
            keys: Bytes::new(alloc),
            speaks: Bytes::new(alloc),
            drawn: Bytes::new(alloc),
            held: Bytes::new(alloc),
            first_heard: Bytes::new(alloc),
            second_heard: Bytes::new(alloc),
            faults: NO_FAULTS,
        }
    }

    /// The bytes that a row's field stands for.
    pub(crate) fn bytes_at(&self, rt: &HostRuntime, row: &Row, at: usize) -> anyhow::Result<Bytes> {
        self.texts.bytes_of(rt, argument(row, at)?)
    }

    /// Which calls of a row fail: those of the stage, but for what its fields from a place on say.
    pub(crate) fn faults_of(&self, row: &Row, from: usize) -> anyhow::Result<Faults> {
        let mut faults = self.faults;
        for field in row.given.iter().skip(from) {
            note_fault(&mut faults, field.as_slice())?;
        }
        Ok(faults)
    }

    /// Carries out a row that changes the stage; whether it is one.
    pub(crate) fn set(&mut self, rt: &HostRuntime, row: &Row) -> anyhow::Result<bool> {
        match row.word() {
            b"hex" | b"text" | b"times" => self.texts.keep(rt, row)?,
            b"keys" => self.keys = self.bytes_at(rt, row, 1)?,
            b"speaks" => self.speaks = self.bytes_at(rt, row, 1)?,
            b"drawn" => self.drawn = self.bytes_at(rt, row, 1)?,
            b"holds" => self.held = self.bytes_at(rt, row, 1)?,
            b"heard" => {
                self.first_heard = self.bytes_at(rt, row, 1)?;
                self.second_heard = self.bytes_at(rt, row, 2)?;
            }
            b"faults" => self.faults = self.faults_of(row, 1)?,
            _ => return Ok(false),
        }
        Ok(true)
    }
}
