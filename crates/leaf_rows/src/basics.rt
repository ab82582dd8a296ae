// Bytes, texts, lists, sets of numbers, fields and their readers, and the words of lines.
use crate::fields::{Came, byte_at, bytes_at, number_at, text_at, text_of, verb_of, word_at};
use anyhow::bail;
use attr_tuples::{check_line_byte, gap_end, line_len, put_value, take_word};
use row_files::{Report, Row};
use std::alloc::Global;
use wire_base::{
    BadField, Bytes, List, NoMemory, Ranges, Text, TextList, block_at, check_text, end_at, get_str,
    get_u16, get_u32, get_u64, put_str, put_u16, put_u32, put_u64, short_block_at, string_at,
    text_at as whole_text_at, u8_at, u16_at, u32_at, u64_at,
};

/// The numbers that a set is asked for.
static ASKED: [u64; 11] = [0, 1, 2, 3, 4, 5, 6, 7, 8, u64::MAX - 1, u64::MAX];

pub(crate) fn play(
    alloc: Global,
    file: &str,
    rows: &[Row],
    report: &mut Report,
) -> anyhow::Result<()> {
    let mut bytes = Bytes::new(alloc);
    let mut set = Ranges::new(alloc);
    for row in rows {
        match verb_of(row) {
            "bytes" => bytes.clear(),
            "set" => set = Ranges::new(alloc),
            _ => {
                let mut came = Came::new(alloc);
                step(alloc, &mut bytes, &mut set, row, &mut came)?;
                report.compare(alloc, file, row, came.fields())?;
            }
        }
    }
    Ok(())
}

fn step(
    alloc: Global,
    bytes: &mut Bytes,
    set: &mut Ranges,
    row: &Row,
    came: &mut Came,
) -> anyhow::Result<()> {
    match verb_of(row) {
        "append" | "push" | "truncate" | "copy" | "undo" | "keep" | "clear" => {
            change(bytes, row, came)?;
            came.bytes(bytes.as_slice())?;
            came.count(bytes.len())
        }
        "add" => add(set, number_at(row, 1)?, came),
        "room" => room(alloc, word_at(row, 1)? as usize, bytes_at(row, 2), came),
        "text" => text(alloc, bytes_at(row, 1), came),
        "numbers" => list_numbers(alloc, row, came),
        "texts" => list_texts(alloc, &row.given, came),
        "no-memory" => {
            let text = format!(in alloc; "{NoMemory}")?;
            Ok(came.bytes(text.as_bytes())?)
        }
        "get" => get(bytes_at(row, 1), word_at(row, 2)? as usize, came),
        "put" => put(alloc, row, came),
        "read" => read(alloc, bytes_at(row, 2), row, came),
        _ => split(alloc, bytes, row, came),
    }
}

// Bytes grow, shrink, and are copied and moved.
fn change(bytes: &mut Bytes, row: &Row, came: &mut Came) -> anyhow::Result<()> {
    match verb_of(row) {
        "append" => bytes.append(bytes_at(row, 1))?,
        "push" => bytes.push(byte_at(row, 1)?)?,
        "truncate" => bytes.truncate(word_at(row, 1)? as usize),
        "copy" => {
            let copy = bytes.copy()?;
            bytes.clear();
            *bytes = Bytes::from_vec(copy.into_vec());
        }
        "undo" => came.shown(&bytes.undo_on_err(word_at(row, 1)? as usize, Err::<u8, &str>("no")))?,
        "keep" => came.shown(&bytes.undo_on_err(word_at(row, 1)? as usize, Ok::<u8, &str>(7)))?,
        _ => bytes.clear(),
    }
    Ok(())
}

// A number is added to a set; which of those that are asked for it has then.
fn add(set: &mut Ranges, number: u64, came: &mut Came) -> anyhow::Result<()> {
    set.reserve(1)?;
    set.add(number);
    for asked in &ASKED {
        if set.has(*asked) {
            came.number(*asked)?;
        }
    }
    Ok(())
}

// Bytes with room are none yet, and take what is appended.
fn room(alloc: Global, room: usize, piece: &[u8], came: &mut Came) -> anyhow::Result<()> {
    let mut bytes = Bytes::with_capacity(alloc, room)?;
    came.bytes(bytes.as_slice())?;
    bytes.append(piece)?;
    Ok(came.bytes(bytes.as_slice())?)
}

// Whether bytes are text; the text, its length and a copy of it.
fn text(alloc: Global, bytes: &[u8], came: &mut Came) -> anyhow::Result<()> {
    came.flag(check_text(bytes))?;
    match Text::from_slice(alloc, bytes)? {
        Some(text) => copy_text(&text, came),
        None => Ok(came.word("none")?),
    }
}

fn copy_text(text: &Text, came: &mut Came) -> anyhow::Result<()> {
    came.bytes(text.as_slice())?;
    came.count(text.len())?;
    Ok(came.bytes(text.copy()?.as_slice())?)
}

// The length of an empty list, the numbers that are pushed, and its length then.
fn list_numbers(alloc: Global, row: &Row, came: &mut Came) -> anyhow::Result<()> {
    let mut numbers: List<u32> = List::new(alloc);
    came.count(numbers.len())?;
    for at in 1..row.given.len() {
        numbers.push(word_at(row, at)?)?;
    }
    came.shown(&numbers.as_slice())?;
    came.count(numbers.len())
}

// The length of an empty list, and the texts that are pushed.
fn list_texts(alloc: Global, given: &[Bytes], came: &mut Came) -> anyhow::Result<()> {
    let mut texts = TextList::new(alloc);
    came.count(texts.as_slice().len())?;
    for word in given.iter().skip(1) {
        texts.push(text_of(alloc, word.as_slice())?)?;
    }
    for text in texts.as_slice() {
        came.bytes(text.as_slice())?;
    }
    Ok(())
}

// The numbers of two, four and eight bytes at a place, and the string there.
fn get(bytes: &[u8], at: usize, came: &mut Came) -> anyhow::Result<()> {
    came.shown(&get_u16(bytes, at))?;
    came.shown(&get_u32(bytes, at))?;
    came.shown(&get_u64(bytes, at))?;
    match get_str(bytes, at) {
        Some(text) => Ok(came.bytes(text)?),
        None => Ok(came.word("none")?),
    }
}

// Numbers of two, four and eight bytes and two strings behind what stands.
fn put(alloc: Global, row: &Row, came: &mut Came) -> anyhow::Result<()> {
    let (two, four, eight) = (word_at(row, 1)?, word_at(row, 2)?, number_at(row, 3)?);
    let (first, second) = (bytes_at(row, 4), bytes_at(row, 5));
    if two > 65535 || first.len() > 65535 || second.len() > 65535 {
        bail!("too large for its field");
    }
    let mut out = Bytes::from_slice(alloc, b"so ")?;
    put_u16(two as u16, &mut out)?;
    put_u32(four, &mut out)?;
    put_u64(eight, &mut out)?;
    put_str(first, &mut out)?;
    put_str(second, &mut out)?;
    Ok(came.bytes(out.as_slice())?)
}

// What is read at a place, and the place behind it; or the place of the fault.
fn read(alloc: Global, bytes: &[u8], row: &Row, came: &mut Came) -> anyhow::Result<()> {
    let at = word_at(row, 3)? as usize;
    match text_at(row, 1) {
        "one" => came.shown(&u8_at(bytes, at)),
        "two" => came.shown(&u16_at(bytes, at)),
        "four" => came.shown(&u32_at(bytes, at)),
        "eight" => came.shown(&u64_at(bytes, at)),
        "block" => tell_piece(block_at(bytes, at), came),
        "short-block" => tell_piece(short_block_at(bytes, at), came),
        "string" => tell_piece(string_at(bytes, at), came),
        "text" => match whole_text_at(alloc, bytes, at) {
            Ok((text, next)) => {
                came.bytes(text.as_slice())?;
                came.count(next)
            }
            Err(fault) => came.shown(&fault),
        },
        _ => came.shown(&end_at(bytes, at)),
    }
}

fn tell_piece(piece: Result<(&[u8], usize), BadField>, came: &mut Came) -> anyhow::Result<()> {
    match piece {
        Ok((piece, next)) => {
            came.bytes(piece)?;
            came.count(next)
        }
        Err(fault) => came.shown(&fault),
    }
}

// Lines and their words; the word that is taken stands in the place of one that was taken before.
fn split(alloc: Global, word: &mut Bytes, row: &Row, came: &mut Came) -> anyhow::Result<()> {
    let text = bytes_at(row, 1);
    match verb_of(row) {
        "line-length" => came.count(line_len(text)),
        "line-byte" => Ok(came.flag(check_line_byte(byte_at(row, 1)?))?),
        "gap" => {
            let at = word_at(row, 2)? as usize;
            if at > text.len() {
                bail!("behind the end");
            }
            came.count(gap_end(text, at))
        }
        "word" => match take_word(text, gap_end(text, 0), word) {
            Ok(end) => {
                came.bytes(word.as_slice())?;
                came.count(end)
            }
            Err(fault) => came.shown(&fault),
        },
        "value" => {
            let mut out = Bytes::from_slice(alloc, b"=")?;
            put_value(text, &mut out)?;
            Ok(came.bytes(out.as_slice())?)
        }
        _ => Ok(came.word("no such verb")?),
    }
}
