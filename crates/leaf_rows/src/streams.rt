// Sources, sinks, dialers and words in memory, whose calls fail where it was planned, and those over std.
use crate::fields::{Came, bytes_at, number_at, verb_of, word_at};
use crate::std_streams;
use anyhow::bail;
use row_files::{Report, Row};
use std::alloc::Global;
use wire_base::{Bytes, Shape};
use wire_streams::{
    Dialer, FaultPlan, Made, MemDialer, MemSink, MemSource, MemWords, Outcome, ReadWords, Sink,
    Source, Words, read_whole, write_all,
};

pub(crate) fn play(
    alloc: Global,
    file: &str,
    rows: &[Row],
    report: &mut Report,
) -> anyhow::Result<()> {
    for row in rows {
        let mut came = Came::new(alloc);
        answer(alloc, row, &mut came)?;
        report.compare(alloc, file, row, came.fields())?;
    }
    Ok(())
}

fn answer(alloc: Global, row: &Row, came: &mut Came) -> anyhow::Result<()> {
    match verb_of(row) {
        "source" => source(alloc, row, came),
        "sink" => sink(alloc, row, came),
        "plan" => plan(alloc, row, came),
        "dialer" => dialer(alloc, row, came),
        "drawn" => drawn(alloc, row, came),
        "drawn-from" => drawn_from(alloc, bytes_at(row, 1), number_at(row, 2)?, came),
        "whole" => whole(alloc, row, came),
        "write-all" => write_whole(alloc, bytes_at(row, 1), number_at(row, 2)?, came),
        _ => std_streams::answer(alloc, row, came),
    }
}

// The numbers of the calls that fail: the fields from a place on.
fn fails_at(alloc: Global, row: &Row, at: usize) -> anyhow::Result<Vec<u64>> {
    let mut fails = Vec::new(alloc);
    for place in at..row.given.len() {
        fails.push(number_at(row, place)?)?;
    }
    Ok(fails)
}

// Reads with room for two, two and then eight bytes: what each gives, and what stands in the room and behind it.
fn source(alloc: Global, row: &Row, came: &mut Came) -> anyhow::Result<()> {
    let content = bytes_at(row, 1).to_vec(alloc)?;
    let mut source = MemSource::new(content, fails_at(alloc, row, 2)?);
    for room in [2_usize, 2, 8, 8, 8, 8] {
        let mut out = [b'-'; 8];
        let got = source.read(&mut out[..room.clamp(1, 8)]);
        came.shown(&got)?;
        came.bytes(&out)?;
    }
    Ok(())
}

// Writes of five pieces of one byte, a longer one, and a very long one: what each does, and what is held then.
fn sink(alloc: Global, row: &Row, came: &mut Came) -> anyhow::Result<()> {
    let content = bytes_at(row, 1).to_vec(alloc)?;
    let mut sink = MemSink::new(content, fails_at(alloc, row, 2)?);
    write_pieces(&mut sink, came)?;
    let long = vec![in alloc; b'x'; 70000]?;
    came.shown(&sink.write(&long))?;
    came.count(sink.content().len())
}

fn write_pieces(sink: &mut MemSink, came: &mut Came) -> anyhow::Result<()> {
    for piece in [b'a', b'b', b'c', b'd', b'e'] {
        came.shown(&sink.write(&[piece]))?;
        came.bytes(sink.content())?;
    }
    came.shown(&sink.write(b" high"))?;
    Ok(came.bytes(sink.content())?)
}

// Whether each of four calls fails by a plan; how the plan is shown, and again with a fault more.
fn plan(alloc: Global, row: &Row, came: &mut Came) -> anyhow::Result<()> {
    let mut plan = FaultPlan::new(fails_at(alloc, row, 1)?);
    for _ in 0..4 {
        came.flag(plan.begin_call())?;
    }
    came.shown(&plan)?;
    plan.count_fault();
    came.shown(&plan)
}

// A dialer with two answers and a call that fails: four exchanges, each with what stands in their room then, and then
// what the dialer kept of them.
fn dialer(alloc: Global, row: &Row, came: &mut Came) -> anyhow::Result<()> {
    let (first, second) = (bytes_at(row, 1), bytes_at(row, 2));
    if first.len() > 100 || second.len() > 100 {
        bail!("a long answer");
    }
    let fails = fails_at(alloc, row, 3)?;
    let mut answers = Vec::new(alloc);
    answers.push(Bytes::from_slice(alloc, first)?)?;
    answers.push(Bytes::from_slice(alloc, second)?)?;
    let mut dialer = MemDialer::new(alloc, answers, fails);
    let mut out = Bytes::from_slice(alloc, b"-")?;
    exchange(&mut dialer, &mut out, came)?;
    match dialer.made() {
        Some(made) => tell_made(made, came),
        None => Ok(came.word("untold")?),
    }
}

fn exchange(dialer: &mut MemDialer, out: &mut Bytes, came: &mut Came) -> anyhow::Result<()> {
    for call in [1, 2, 3, 4] {
        came.shown(&dialer.exchange(call, b"who", Shape::Challenge, out))?;
        came.bytes(out.as_slice())?;
        dialer.close(call);
    }
    Ok(())
}

fn tell_made(made: &[Made], came: &mut Came) -> anyhow::Result<()> {
    for call in made {
        match call {
            Made::Exchange {
                conv,
                request,
                shape,
                outcome,
            } => {
                came.shown(conv)?;
                came.bytes(request.as_slice())?;
                came.shown(shape)?;
                tell_outcome(outcome, came)?;
            }
            Made::Close { conv } => {
                came.word("close")?;
                came.shown(conv)?;
            }
        }
    }
    Ok(())
}

fn tell_outcome(outcome: &Outcome, came: &mut Came) -> anyhow::Result<()> {
    match outcome {
        Outcome::Answered(answer) => {
            came.word("answered")?;
            came.bytes(answer.as_slice())?;
        }
        Outcome::Unanswered => came.word("unanswered")?,
        Outcome::NoRoom => came.word("no-room")?,
    }
    Ok(())
}

// The words that come in four calls of two that were made beforehand.
fn drawn(alloc: Global, row: &Row, came: &mut Came) -> anyhow::Result<()> {
    let content = [eight_at(row, 1)?, eight_at(row, 2)?].to_vec(alloc)?;
    let mut words = MemWords::new(content, fails_at(alloc, row, 3)?);
    for _ in 0..4 {
        tell_word(&mut words, came)?;
    }
    Ok(())
}

fn eight_at(row: &Row, at: usize) -> anyhow::Result<[u8; 8]> {
    match bytes_at(row, at) {
        [a, b, c, d, e, f, g, h] => Ok([*a, *b, *c, *d, *e, *f, *g, *h]),
        _ => bail!("line {}: field {} isn't eight bytes", row.line, at),
    }
}

// The words that come in five calls of a source, a read of which fails.
fn drawn_from(alloc: Global, content: &[u8], fails: u64, came: &mut Came) -> anyhow::Result<()> {
    let source = MemSource::new(content.to_vec(alloc)?, [fails].to_vec(alloc)?);
    let mut words = ReadWords::new(source);
    for _ in 0..5 {
        tell_word(&mut words, came)?;
    }
    Ok(())
}

fn tell_word<W: Words>(words: &mut W, came: &mut Came) -> anyhow::Result<()> {
    match words.word8() {
        Ok(word) => Ok(came.bytes(&word)?),
        Err(_) => Ok(came.word("WordFault")?),
    }
}

// How many bytes are read of a source of a size, up to a limit, a read of which fails.
fn whole(alloc: Global, row: &Row, came: &mut Came) -> anyhow::Result<()> {
    let size = word_at(row, 1)? as usize;
    let limit = usize::try_from(number_at(row, 2)?).unwrap_or(usize::MAX);
    let content = vec![in alloc; b'x'; size]?;
    let mut source = MemSource::new(content, fails_at(alloc, row, 3)?);
    let whole = read_whole(alloc, limit, &mut source);
    came.shown(&whole.map(|bytes| bytes.len()))
}

// What comes of a piece that is written whole behind what stands, where a write fails, and what is held then.
fn write_whole(alloc: Global, piece: &[u8], fails: u64, came: &mut Came) -> anyhow::Result<()> {
    let mut sink = MemSink::new(b"so ".to_vec(alloc)?, [fails].to_vec(alloc)?);
    came.shown(&write_all(piece, &mut sink))?;
    Ok(came.bytes(sink.content())?)
}
