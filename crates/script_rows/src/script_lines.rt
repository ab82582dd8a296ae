// Rows of scripts: their lines, the pieces of these, and the scripts that are made of numbers.
use crate::came::Came;
use crate::texts::{Texts, argument, number_at};
use anyhow::bail;
use row_files::{Report, Row};
use std::alloc::Global;
use wire_base::Bytes;
use wire_streams::{WordFault, Words};
use world_scripts::{
    ChaChaWords, Line, Piece, Pieces, ScriptLines, gen_script, number_in, parse_line,
};

// A line's verb, its first part and its second.
fn shown<'a>(line: &Line<'a>) -> (&'static str, &'a [u8], &'a [u8]) {
    let nothing = b"".as_slice();
    match line {
        Line::Dom { dom } => ("dom", dom, nothing),
        Line::AsKey { tuple } => ("askey", tuple, nothing),
        Line::AsSpeak { tuple } => ("asspeak", tuple, nothing),
        Line::Reload => ("reload", nothing, nothing),
        Line::Node { node } => ("node", node, nothing),
        Line::Restart { node } => ("restart", node, nothing),
        Line::Ctl { node, line } => ("ctl", node, line),
        Line::Open { node, conv } => ("open", node, conv),
        Line::Start { conv, tuple, .. } => ("start", conv, tuple),
        Line::Read { conv } => ("read", conv, nothing),
        Line::Write { conv, .. } => ("write", conv, nothing),
        Line::Answer { conv, .. } => ("answer", conv, nothing),
        Line::NoAnswer { conv } => ("noanswer", conv, nothing),
        Line::AsGive { session, .. } => ("asgive", session, nothing),
        Line::Close { conv } => ("close", conv, nothing),
    }
}

fn put_line(text: &[u8], came: &mut Came) -> anyhow::Result<()> {
    let Ok(line) = parse_line(text) else {
        return Ok(came.put(b"none")?);
    };
    let (verb, first, second) = shown(&line);
    came.put(verb.as_bytes())?;
    came.put(first)?;
    Ok(came.put(second)?)
}

// Puts the length of each front that is a line.
fn put_fronts(text: &[u8], came: &mut Came) -> anyhow::Result<()> {
    for end in 0..=text.len() {
        if parse_line(&text[..end]).is_ok() {
            came.put_number(end as u64)?;
        }
    }
    Ok(())
}

// Puts the numbers of a piece, each below 2^64 in decimal and any other as `over`.
fn put_numbers(alloc: Global, numbers: &[&[u8]], came: &mut Came) -> anyhow::Result<()> {
    let mut field = Bytes::from_slice(alloc, b"m")?;
    for digits in numbers {
        if field.len() > 1 {
            field.append(b":")?;
        }
        match number_in(digits) {
            Some(number) => field.append(format!(in alloc; "{number}")?.as_bytes())?,
            None => field.append(b"over")?,
        }
    }
    Ok(came.put(field.as_slice())?)
}

// Puts the next piece; whether there was one.
fn put_piece(alloc: Global, pieces: &mut Pieces<'_>, came: &mut Came) -> anyhow::Result<bool> {
    match pieces.next() {
        Some(Piece::Spelled { digits }) => {
            let mut field = Bytes::from_slice(alloc, b"x")?;
            field.append(digits)?;
            came.put(field.as_slice())?;
        }
        Some(Piece::Whole { message }) => put_numbers(alloc, &[message], came)?,
        Some(
            Piece::Part {
                message,
                start,
                len,
            },
        ) => put_numbers(alloc, &[message, start, len], came)?,
        None => {
            came.put(b"end")?;
            return Ok(false);
        }
    }
    Ok(true)
}

// Puts the pieces of a write, and the end twice.
fn put_pieces(alloc: Global, text: &[u8], came: &mut Came) -> anyhow::Result<()> {
    let Ok(Line::Write { mut pieces, .. }) = parse_line(text) else {
        bail!("no write");
    };
    for _ in 0..text.len() {
        if !put_piece(alloc, &mut pieces, came)? {
            break;
        }
    }
    put_piece(alloc, &mut pieces, came)?;
    Ok(())
}

// Puts the three random words of a request to the authentication server.
fn put_random(text: &[u8], came: &mut Came) -> anyhow::Result<()> {
    let Ok(
        Line::AsGive {
            first,
            second,
            third,
            ..
        },
    ) = parse_line(text)
    else {
        bail!("no request");
    };
    came.put(&first)?;
    came.put(&second)?;
    Ok(came.put(&third)?)
}

// Puts how many lines a script has, and the number and the length of the last.
fn put_script(text: &[u8], came: &mut Came) -> anyhow::Result<()> {
    let mut count = 0_u64;
    let (mut number, mut length) = (0, 0);
    for line in ScriptLines::new(text) {
        count = count.saturating_add(1);
        number = line.number;
        length = line.text.len();
    }
    came.put_number(count)?;
    came.put_number(number)?;
    came.put_number(length as u64)
}

// The last of so many draws.
fn draw(words: &mut ChaChaWords, times: u64) -> Result<[u8; 8], WordFault> {
    let mut word = Err(WordFault);
    for _ in 0..times {
        word = words.word8();
    }
    word
}

// Puts the words at these places, counted from 1, of those that are drawn of a number, of which there are so many.
fn put_words(row: &Row, came: &mut Came) -> anyhow::Result<()> {
    let mut words = ChaChaWords::new(number_at(row, 1)?, number_at(row, 2)?);
    let mut before = 0;
    for at in 3..row.given.len() {
        let place = number_at(row, at)?;
        match draw(&mut words, place.saturating_sub(before)) {
            Ok(word) => came.put(&word)?,
            Err(WordFault) => came.put(b"fault")?,
        }
        before = place;
    }
    Ok(())
}

// Puts the script of a number and of so many rounds.
fn put_made(rt: &HostRuntime, row: &Row, came: &mut Came) -> anyhow::Result<()> {
    let rounds = u32::try_from(number_at(row, 2)?)?;
    let script = gen_script(rt.alloc(), number_at(row, 1)?, rounds)?;
    Texts::new(rt.alloc()).put_came(rt, row, 0, script.as_slice(), came)
}

fn play_row(rt: &HostRuntime, row: &Row, came: &mut Came) -> anyhow::Result<()> {
    match row.word() {
        b"line" => put_line(argument(row, 1)?, came),
        b"fronts" => put_fronts(argument(row, 1)?, came),
        b"pieces" => put_pieces(rt.alloc(), argument(row, 1)?, came),
        b"random" => put_random(argument(row, 1)?, came),
        b"script" => put_script(argument(row, 1)?, came),
        b"words" => put_words(row, came),
        b"made" => put_made(rt, row, came),
        _ => bail!("no such verb"),
    }
}

/// Plays rows of lines and scripts.
pub(crate) fn play(
    rt: &HostRuntime,
    file: &str,
    rows: &[Row],
    report: &mut Report,
) -> anyhow::Result<()> {
    for row in rows {
        let mut came = Came::new(rt.alloc());
        let played = play_row(rt, row, &mut came);
        came.tell(file, row, played, report)?;
    }
    Ok(())
}
