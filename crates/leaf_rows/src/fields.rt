// What stands in a row, and what comes of it.
use anyhow::bail;
use row_files::Row;
use std::alloc::Global;
use std::fmt::Debug;
use wire_base::{Bytes, NoMemory, Text, TextList};

/// What came of a row, field by field.
#[derive(Drop)]
pub(crate) struct Came {
    alloc: Global,
    fields: Vec<Bytes>,
}

impl Came {
    pub(crate) fn new(alloc: Global) -> Came {
        Came {
            alloc,
            fields: Vec::new(alloc),
        }
    }

    pub(crate) fn fields(&self) -> &[Bytes] {
        self.fields.as_slice()
    }

    /// Bytes came.
    pub(crate) fn bytes(&mut self, bytes: &[u8]) -> Result<(), NoMemory> {
        let field = Bytes::from_slice(self.alloc, bytes)?;
        Ok(self.fields.push(field)?)
    }

    /// A word came.
    pub(crate) fn word(&mut self, word: &str) -> Result<(), NoMemory> {
        self.bytes(word.as_bytes())
    }

    /// A value came, which is shown as `{:?}` shows it.
    pub(crate) fn shown<T: Debug>(&mut self, value: &T) -> anyhow::Result<()> {
        let text = format!(in self.alloc; "{value:?}")?;
        Ok(self.bytes(text.as_bytes())?)
    }

    /// A number came.
    pub(crate) fn number(&mut self, number: u64) -> anyhow::Result<()> {
        self.shown(&number)
    }

    /// A count came.
    pub(crate) fn count(&mut self, count: usize) -> anyhow::Result<()> {
        self.shown(&count)
    }

    /// It is so, or it isn't.
    pub(crate) fn flag(&mut self, is_so: bool) -> Result<(), NoMemory> {
        self.word(if is_so { "yes" } else { "no" })
    }

    /// Bytes came, which are shown in hexadecimal digits.
    pub(crate) fn digits(&mut self, bytes: &[u8]) -> anyhow::Result<()> {
        let text = hex::encode(self.alloc, bytes)?;
        Ok(self.bytes(text.as_bytes())?)
    }
}

/// The word of a row that says what is to be done.
pub(crate) fn verb_of(row: &Row) -> &str {
    text_at(row, 0)
}

/// A field as text; the empty one where none stands there, or none that is text.
pub(crate) fn text_at(row: &Row, at: usize) -> &str {
    std::str::from_utf8(bytes_at(row, at)).unwrap_or("")
}

/// A field; the empty one where none stands there.
pub(crate) fn bytes_at(row: &Row, at: usize) -> &[u8] {
    row.field(at).unwrap_or(b"")
}

/// The number that a field spells.
pub(crate) fn number_at(row: &Row, at: usize) -> anyhow::Result<u64> {
    match row.number(at) {
        Some(number) => Ok(number),
        None => bail!("line {}: field {} is no number", row.line, at),
    }
}

/// The number below 2^32 that a field spells.
pub(crate) fn word_at(row: &Row, at: usize) -> anyhow::Result<u32> {
    match u32::try_from(number_at(row, at)?) {
        Ok(number) => Ok(number),
        Err(_) => bail!("line {}: field {} is too large", row.line, at),
    }
}

/// The number below 256 that a field spells.
pub(crate) fn byte_at(row: &Row, at: usize) -> anyhow::Result<u8> {
    match u8::try_from(number_at(row, at)?) {
        Ok(number) => Ok(number),
        Err(_) => bail!("line {}: field {} is too large", row.line, at),
    }
}

/// So many bytes that a field spells in hexadecimal digits.
pub(crate) fn digits_at<const N: usize>(row: &Row, at: usize) -> anyhow::Result<[u8; N]> {
    let mut bytes = [0; N];
    match hex::decode_to_slice(bytes_at(row, at), &mut bytes) {
        Ok(()) => Ok(bytes),
        Err(_) => bail!(
            "line {}: field {} isn't {} bytes in digits",
            row.line,
            at,
            N
        ),
    }
}

/// A text.
pub(crate) fn text_of(alloc: Global, bytes: &[u8]) -> anyhow::Result<Text> {
    match Text::from_slice(alloc, bytes)? {
        Some(text) => Ok(text),
        None => bail!("no text"),
    }
}

/// The words that stand with blanks between.
pub(crate) fn words_of(alloc: Global, words: &[u8]) -> anyhow::Result<TextList> {
    let mut texts = TextList::new(alloc);
    for word in words.split(|byte| *byte == b' ') {
        if !word.is_empty() {
            texts.push(text_of(alloc, word)?)?;
        }
    }
    Ok(texts)
}
