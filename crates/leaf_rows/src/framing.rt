// Streams of 9P that come in pieces, and are cut into their frames.
ghost use Rattle.std.specs.Prelude.{◌≡◌, ◌≤◌};
ghost use Rattle.nine.specs.Streams.{front, IsShort};

use crate::fields::{Came, bytes_at, verb_of, word_at};
use anyhow::bail;
use nine::{BlockFramer, Framer, Next, Peek};
use row_files::{Report, Row};
use std::alloc::Global;
use wire_base::Bytes;
use wire_streams::{Got, Source, SteadySource};

pub(crate) fn play(
    alloc: Global,
    file: &str,
    rows: &[Row],
    report: &mut Report,
) -> anyhow::Result<()> {
    for row in rows {
        let mut came = Came::new(alloc);
        answer(alloc, row, &mut came)?;
        report.compare(alloc, file, row, came.fields())?;
    }
    Ok(())
}

fn answer(alloc: Global, row: &Row, came: &mut Came) -> anyhow::Result<()> {
    let limit = word_at(row, 1)?;
    let frames = row.given.as_slice().get(2..).unwrap_or(&[]);
    match verb_of(row) {
        "cut" => cut(alloc, limit, frames, came),
        "byte-by-byte" => in_bytes(alloc, limit, frames, true, came),
        "block" => in_block(alloc, limit, frames, came),
        "late" => in_bytes(alloc, limit, frames, false, came),
        "size" => size(alloc, limit, bytes_at(row, 2), bytes_at(row, 3), came),
        _ => Ok(came.word("no such verb")?),
    }
}

// Frames behind one another, each behind a mark.
fn joined(alloc: Global, frames: &[Bytes], mark: &[u8]) -> anyhow::Result<Bytes> {
    let mut all = Bytes::new(alloc);
    for frame in frames {
        all.append(mark)?;
        all.append(frame.as_slice())?;
    }
    Ok(all)
}

// Feeds a piece of a short stream.
fn feed(framer: &mut Framer, piece: &[u8]) -> anyhow::Result<()> {
    if framer.place() >= 10_000 || framer.held() >= 10_000 || piece.len() >= 10_000 {
        bail!("a long stream");
    }
    Ok(framer.feed(piece)?)
}

// Takes one frame, behind a mark that tells where each begins.
fn take_one(framer: &mut Framer, taken: &mut Bytes) -> anyhow::Result<bool> {
    match framer.next()? {
        Next::Whole(frame) => {
            taken.push(b'|')?;
            taken.append(frame.as_slice())?;
            Ok(true)
        }
        Next::NotYet | Next::BadSize { .. } => Ok(false),
    }
}

// Takes all frames that are whole: at most eight here.
fn take_all(framer: &mut Framer, taken: &mut Bytes) -> anyhow::Result<()> {
    for _ in 0..8 {
        if !take_one(framer, taken)? {
            return Ok(());
        }
    }
    Ok(())
}

// How long the stream is, and at how many places it can be cut into two pieces that have the same frames.
fn cut(alloc: Global, limit: u32, frames: &[Bytes], came: &mut Came) -> anyhow::Result<()> {
    let stream = joined(alloc, frames, b"")?;
    let wanted = joined(alloc, frames, b"|")?;
    came.count(stream.len())?;
    came.count(count_cuts(alloc, limit, stream.as_slice(), wanted.as_slice())?)
}

fn count_cuts(alloc: Global, limit: u32, stream: &[u8], wanted: &[u8]) -> anyhow::Result<usize> {
    let mut count: usize = 0;
    for at in 0..stream.len() {
        let (front, back) = stream.split_at(at);
        if has_frames(alloc, limit, front, back, wanted)? {
            count = count.saturating_add(1);
        }
    }
    Ok(count)
}

// Whether two pieces have these frames, and nothing is held behind them.
fn has_frames(
    alloc: Global,
    limit: u32,
    front: &[u8],
    back: &[u8],
    wanted: &[u8],
) -> anyhow::Result<bool> {
    let mut framer = Framer::new(alloc, limit);
    let mut taken = Bytes::new(alloc);
    feed(&mut framer, front)?;
    take_all(&mut framer, &mut taken)?;
    feed(&mut framer, back)?;
    take_all(&mut framer, &mut taken)?;
    let size = front.len().saturating_add(back.len());
    Ok(taken.as_slice() == wanted && framer.held() == 0 && framer.place() == size as u64)
}

// How long the stream is, and at how many places a first read of it can end, so that a block shows the same frames: one with
// room for a frame alone, and one with room for more.
fn in_block(alloc: Global, limit: u32, frames: &[Bytes], came: &mut Came) -> anyhow::Result<()> {
    let stream = joined(alloc, frames, b"")?;
    let wanted = joined(alloc, frames, b"|")?;
    came.count(stream.len())?;
    if limit < 7 {
        bail!("no limit of a block");
    }
    let (stream, wanted) = (stream.as_slice(), wanted.as_slice());
    came.count(count_reads(alloc, limit, limit, stream, wanted)?)?;
    let room = limit.saturating_add(100);
    came.count(count_reads(alloc, limit, room, stream, wanted)?)
}

fn count_reads(
    alloc: Global,
    limit: u32,
    room: u32,
    stream: &[u8],
    wanted: &[u8],
) -> anyhow::Result<usize>
    requires least { 7 ≤ limit }
    requires enough { limit ≤ room }
{
    let mut count: usize = 0;
    for first in 1..=stream.len() {
        let mut framer = if room == limit {
            Framer::with_block(alloc, limit)?
        } else {
            Framer::with_room(alloc, limit, room)?
        };
        if shows_frames(alloc, &mut framer, first, stream, wanted)? {
            count = count.saturating_add(1);
        }
    }
    Ok(count)
}

// Whether a framer shows these frames of a stream, of which it reads so many bytes first, and nothing is held behind them.
fn shows_frames(
    alloc: Global,
    framer: &mut BlockFramer,
    first: usize,
    stream: &[u8],
    wanted: &[u8],
) -> anyhow::Result<bool> {
    let mut bytes = Vec::new(alloc);
    bytes.extend_from_slice(stream)?;
    let mut source = SteadySource::new(bytes);
    let mut taken = Bytes::new(alloc);
    if !show_one(framer, first, &mut source, &mut taken)? {
        return Ok(false);
    }
    for _ in 0..64 {
        if !show_one(framer, 0, &mut source, &mut taken)? {
            break;
        }
    }
    Ok(taken.as_slice() == wanted && framer.held() == 0 && framer.taken() == stream.len() as u64)
}

// Takes the frame that is shown; where none is, reads at most so many bytes, or at 0 as many as have room. Whether there may
// be more.
fn show_one<R: Source>(
    framer: &mut BlockFramer,
    most: usize,
    source: &mut R,
    taken: &mut Bytes,
) -> anyhow::Result<bool> {
    match framer.peek() {
        Peek::Whole(frame) => {
            taken.push(b'|')?;
            taken.append(frame)?;
        }
        Peek::NotYet => return read_on(framer, most, source),
        Peek::BadSize { .. } => return Ok(false),
    }
    framer.drop_frame();
    Ok(true)
}

// Reads on, until the source is at its end.
fn read_on<R: Source>(framer: &mut BlockFramer, most: usize, source: &mut R) -> anyhow::Result<bool>
    requires { front framer.old.limit framer.old.held ≡ IsShort }
{
    if framer.taken() >= 10_000 {
        bail!("a long stream");
    }
    if most > 0 {
        return Ok(framer.fill_within(most, source) != Got::End);
    }
    Ok(framer.fill(source) != Got::End)
}

// A stream comes byte by byte, and its frames are taken as soon as they are whole, or all in the end: how much is held
// before that, and whether they are the same frames.
fn in_bytes(
    alloc: Global,
    limit: u32,
    frames: &[Bytes],
    is_soon: bool,
    came: &mut Came,
) -> anyhow::Result<()> {
    let stream = joined(alloc, frames, b"")?;
    let mut framer = Framer::new(alloc, limit);
    let mut taken = Bytes::new(alloc);
    for byte in stream.as_slice() {
        feed(&mut framer, &[*byte])?;
        if is_soon {
            take_all(&mut framer, &mut taken)?;
        }
    }
    came.count(framer.held())?;
    take_all(&mut framer, &mut taken)?;
    Ok(came.flag(taken.as_slice() == joined(alloc, frames, b"|")?.as_slice())?)
}

// Behind a frame come three bytes of a size, its last one, and a byte more: what is next after the first piece, after
// each of the others, how much is held, and the place of what is next.
fn size(
    alloc: Global,
    limit: u32,
    frame: &[u8],
    size: &[u8],
    came: &mut Came,
) -> anyhow::Result<()> {
    if size.len() != 4 {
        bail!("a size has four bytes");
    }
    let (front, last) = size.split_at(3);
    let mut framer = Framer::new(alloc, limit);
    feed(&mut framer, frame)?;
    feed(&mut framer, front)?;
    tell_next(&mut framer, came)?;
    for piece in [b"".as_slice(), last, b"\x00".as_slice()] {
        feed(&mut framer, piece)?;
        tell_next(&mut framer, came)?;
    }
    came.count(framer.held())?;
    came.number(framer.place())
}

// What is next: a frame, nothing yet, or a bad size and its place.
fn tell_next(framer: &mut Framer, came: &mut Came) -> anyhow::Result<()> {
    match framer.next()? {
        Next::Whole(frame) => came.bytes(frame.as_slice())?,
        Next::NotYet => came.word("not-yet")?,
        Next::BadSize { at, size } => {
            came.number(at)?;
            came.shown(&size)?;
        }
    }
    Ok(())
}
