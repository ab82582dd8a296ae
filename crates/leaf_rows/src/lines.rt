// Lines of frames, of bad frames and of streams that end badly; what isn't shown; and what prompters say and read.
use crate::fields::{Came, bytes_at, number_at, text_at, verb_of};
use crate::prompts::kind_at;
use anyhow::bail;
use attr_tuples::parse_tuple;
use nine_print::{ShowEnd, put_line, show};
use prompters::{
    Say, TOO_SMALL, are_open, file_read, has_tag, is_refusal, is_refused_by, meets_use,
    opening_requests, question_read, read_request, write_request,
};
use row_files::{Report, Row};
use side_files::Question;
use std::alloc::Global;
use wire_base::{Bytes, u32_at};
use wire_streams::{MemSink, MemSource};

pub(crate) fn play(
    alloc: Global,
    file: &str,
    rows: &[Row],
    report: &mut Report,
) -> anyhow::Result<()> {
    let mut stream = Bytes::new(alloc);
    for row in rows {
        if verb_of(row) == "stream" {
            stream.clear();
            continue;
        }
        let mut came = Came::new(alloc);
        step(alloc, &mut stream, row, &mut came)?;
        report.compare(alloc, file, row, came.fields())?;
    }
    Ok(())
}

fn step(alloc: Global, stream: &mut Bytes, row: &Row, came: &mut Came) -> anyhow::Result<()> {
    match verb_of(row) {
        "show" => show_more(alloc, stream, bytes_at(row, 1), came),
        "faulty" => {
            let (reads, writes) = match text_at(row, 2) {
                "read" => (number_at(row, 3)?, 0),
                _ => (0, number_at(row, 3)?),
            };
            let (end, text) = shown_of(alloc, bytes_at(row, 1), reads, writes)?;
            came.shown(&end)?;
            Ok(came.bytes(text.as_slice())?)
        }
        "line" => {
            let mut out = Bytes::from_slice(alloc, b"- ")?;
            append_line(alloc, true, 1000, bytes_at(row, 1), &mut out)?;
            Ok(came.bytes(out.as_slice())?)
        }
        "hidden" => hide(alloc, bytes_at(row, 1), came),
        "numbers" => number_ends(came),
        _ => prompt(alloc, row, came),
    }
}

// How a stream ends, and its lines, where a read or a write of these numbers fails; none has the number 0.
fn shown_of(
    alloc: Global,
    stream: &[u8],
    reads: u64,
    writes: u64,
) -> anyhow::Result<(ShowEnd, Bytes)> {
    let mut input = MemSource::new(stream.to_vec(alloc)?, [reads].to_vec(alloc)?);
    let mut output = MemSink::new(Vec::new(alloc), [writes].to_vec(alloc)?);
    let end = show(alloc, true, &mut input, &mut output);
    Ok((end, Bytes::from_slice(alloc, output.content())?))
}

// More bytes come in a stream: how it ends, and which lines are new.
fn show_more(
    alloc: Global,
    stream: &mut Bytes,
    more: &[u8],
    came: &mut Came,
) -> anyhow::Result<()> {
    let (_end, before) = shown_of(alloc, stream.as_slice(), 0, 0)?;
    stream.append(more)?;
    let (end, text) = shown_of(alloc, stream.as_slice(), 0, 0)?;
    came.shown(&end)?;
    match text.as_slice().strip_prefix(before.as_slice()) {
        Some(lines) => Ok(came.bytes(lines)?),
        None => Ok(came.word("other lines before")?),
    }
}

// Appends the line of a frame that begins at a place, with secrets or without.
fn append_line(
    alloc: Global,
    secrets: bool,
    at: u64,
    frame: &[u8],
    out: &mut Bytes,
) -> anyhow::Result<()> {
    match u32_at(frame, 0) {
        Ok((size, 4)) if frame.len() >= 7 && size as usize == frame.len() => {
            Ok(put_line(alloc, secrets, at, frame, out)?)
        }
        _ => bail!("no frame"),
    }
}

// A write of this content, under tag 4 and fid 1 at 0.
fn write_of(alloc: Global, content: &[u8]) -> anyhow::Result<Bytes> {
    let Ok(count) = u32::try_from(content.len()) else {
        bail!("a long content");
    };
    let size = count.saturating_add(23);
    let mut frame = Bytes::new(alloc);
    frame.append(&size.to_le_bytes())?;
    frame.append(b"\x76\x04\x00\x01\x00\x00\x00\x00\x00\x00\x00\x00\x00\x00\x00")?;
    frame.append(&count.to_le_bytes())?;
    frame.append(content)?;
    Ok(frame)
}

// Whether the line of a write shows the secret, or its digits, and whether it tells that something is left out.
fn hide(alloc: Global, content: &[u8], came: &mut Came) -> anyhow::Result<()> {
    let frame = write_of(alloc, content)?;
    let mut out = Bytes::new(alloc);
    append_line(alloc, false, 0, frame.as_slice(), &mut out)?;
    came.flag(holds(out.as_slice(), b"hunter2"))?;
    came.flag(holds(out.as_slice(), b"68756e"))?;
    Ok(came.flag(holds(out.as_slice(), b".."))?)
}

// Whether a piece stands in a text.
fn holds(text: &[u8], piece: &[u8]) -> bool {
    for at in 0..text.len() {
        if text.split_at(at).1.starts_with(piece) {
            return true;
        }
    }
    false
}

// Each end of a stream and its number.
fn number_ends(came: &mut Came) -> anyhow::Result<()> {
    for end in [
        ShowEnd::Fine,
        ShowEnd::ReadFault,
        ShowEnd::WriteFault,
        ShowEnd::BadSize,
        ShowEnd::Torn,
        ShowEnd::NoMemory,
        ShowEnd::Flood,
    ] {
        came.shown(&end)?;
        came.shown(&end.number())?;
    }
    Ok(())
}

// What a client that answers for a user asks, and what the replies say.
fn prompt(alloc: Global, row: &Row, came: &mut Came) -> anyhow::Result<()> {
    match verb_of(row) {
        "say" => say(alloc, row, came),
        "refusal" => {
            let reply = bytes_at(row, 1);
            came.flag(has_tag(3, reply))?;
            came.flag(is_refusal(reply))?;
            came.flag(is_refused_by(TOO_SMALL, reply))?;
            came.shown(&file_read(reply))
        }
        "question-read" => {
            let reply = bytes_at(row, 1);
            came.shown(&file_read(reply))?;
            let question = question_read(alloc, reply)?;
            came.shown(&question.map(|question| question.tag))
        }
        "read-size" => came.count(read_request(kind_at(row, 1)?).len()),
        "opening-requests" => Ok(came.bytes(opening_requests())?),
        "opening" => {
            let heard = bytes_at(row, 1);
            came.flag(are_open(heard))?;
            Ok(came.flag(meets_use(heard))?)
        }
        _ => Ok(came.word("no such verb")?),
    }
}

// The request that says a word about question 12.
fn say(alloc: Global, row: &Row, came: &mut Came) -> anyhow::Result<()> {
    let file = kind_at(row, 2)?;
    let word = match text_at(row, 1) {
        "yes" => Say::Yes,
        "no" => Say::No,
        _ => Say::Pass,
    };
    let Ok(tuple) = parse_tuple(alloc, b"proto=apop user=ann") else {
        bail!("no tuple");
    };
    let question = Question {
        confirm: text_at(row, 2) == "confirm",
        tag: 12,
        tuple,
    };
    let request = write_request(alloc, file, &question, word)?;
    Ok(came.bytes(request.as_slice())?)
}
