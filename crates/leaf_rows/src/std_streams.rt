// Sources over readers of std and sinks over its writers, and those in memory that never fail.
use crate::fields::{Came, bytes_at, verb_of, word_at};
use row_files::Row;
use std::alloc::Global;
use std::io::{self, Cursor, ErrorKind, Read, Write};
use wire_streams::{
    ReadSource, Sink, Source, SteadySink, SteadySource, WriteSink, read_whole, write_all,
};

// It is interrupted, gives a byte, fails, and then has come to its end.
#[derive(Drop)]
struct Shaky {
    turn: u8,
}

impl Read for Shaky {
    fn read(&mut self, buf: &mut [u8]) -> io::Result<usize> {
        self.turn = self.turn.saturating_add(1);
        match (self.turn, buf) {
            (1 | 2, _) => Err(io::Error::from(ErrorKind::Interrupted)),
            (3, [first, ..]) => {
                *first = b'x';
                Ok(1)
            }
            (4, _) => Err(io::Error::from(ErrorKind::BrokenPipe)),
            _ => Ok(0),
        }
    }
}

// It takes a byte at a time, and three in all.
#[derive(Drop)]
struct Narrow {
    taken: usize,
}

impl Write for Narrow {
    fn write(&mut self, buf: &[u8]) -> io::Result<usize> {
        if buf.is_empty() || self.taken == 3 {
            return Ok(0);
        }
        self.taken = self.taken.saturating_add(1);
        Ok(1)
    }

    fn flush(&mut self) -> io::Result<()> {
        Ok(())
    }
}

pub(crate) fn answer(alloc: Global, row: &Row, came: &mut Came) -> anyhow::Result<()> {
    let text = bytes_at(row, 1);
    match verb_of(row) {
        "read-std" => read_four(&mut ReadSource::new(text), came),
        "read-shaky" => read_four(&mut ReadSource::new(Shaky { turn: 0 }), came),
        "read-steady" => read_four(&mut SteadySource::new(text.to_vec(alloc)?), came),
        "whole-std" => tell_whole(alloc, &mut ReadSource::new(text), came),
        "whole-steady" => tell_whole(alloc, &mut SteadySource::new(text.to_vec(alloc)?), came),
        "write-std" => write_std(alloc, row, came),
        "write-three" => write_three(row, came),
        "write-steady" => write_steady(alloc, row, came),
        "write-all-narrow" => {
            let mut sink = WriteSink::new(Narrow { taken: 0 });
            came.shown(&write_all(text, &mut sink))
        }
        "write-all-steady" => {
            let mut sink = SteadySink::new(alloc);
            came.shown(&write_all(text, &mut sink))?;
            tell_held(&sink, came)
        }
        _ => Ok(came.word("no such verb")?),
    }
}

// Four reads with room for three bytes: what each gives, and what stands in the room then.
fn read_four<S: Source>(source: &mut S, came: &mut Came) -> anyhow::Result<()> {
    for _ in 0..4 {
        let mut out = [b'-'; 3];
        came.shown(&source.read(&mut out))?;
        came.bytes(&out)?;
    }
    Ok(())
}

// What is read of a source to its end.
fn tell_whole<S: Source>(alloc: Global, source: &mut S, came: &mut Came) -> anyhow::Result<()> {
    match read_whole(alloc, 9, source) {
        Ok(bytes) => Ok(came.bytes(bytes.as_slice())?),
        Err(fault) => came.shown(&fault),
    }
}

// Writes a piece where there is one.
fn write_piece<S: Sink>(sink: &mut S, piece: &[u8], came: &mut Came) -> anyhow::Result<()> {
    if piece.is_empty() {
        return Ok(());
    }
    came.shown(&sink.write(piece))
}

// The two pieces of a row.
fn write_two<S: Sink>(sink: &mut S, row: &Row, came: &mut Came) -> anyhow::Result<()> {
    write_piece(sink, bytes_at(row, 1), came)?;
    write_piece(sink, bytes_at(row, 2), came)
}

// Two pieces are written to a list of bytes, and a long one of so many bytes: what each does, what the list holds after
// the two, and how much in the end.
fn write_std(alloc: Global, row: &Row, came: &mut Came) -> anyhow::Result<()> {
    let mut grown = Vec::new(alloc);
    write_two(&mut WriteSink::new(&mut grown), row, came)?;
    came.bytes(grown.as_slice())?;
    let long = vec![in alloc; b'x'; word_at(row, 3)? as usize]?;
    write_piece(&mut WriteSink::new(&mut grown), &long, came)?;
    came.count(grown.len())
}

// Two pieces are written to a writer with room for three bytes.
fn write_three(row: &Row, came: &mut Came) -> anyhow::Result<()> {
    let mut three = Cursor::new([0u8; 3]);
    write_two(&mut WriteSink::new(&mut three), row, came)?;
    Ok(came.bytes(&three.into_inner())?)
}

// The same as to a list, to a sink in memory.
fn write_steady(alloc: Global, row: &Row, came: &mut Came) -> anyhow::Result<()> {
    let mut sink = SteadySink::new(alloc);
    tell_held(&sink, came)?;
    write_two(&mut sink, row, came)?;
    tell_held(&sink, came)?;
    let long = vec![in alloc; b'x'; word_at(row, 3)? as usize]?;
    write_piece(&mut sink, &long, came)?;
    match sink.content() {
        Some(held) => came.count(held.len()),
        None => Ok(came.word("untold")?),
    }
}

fn tell_held(sink: &SteadySink, came: &mut Came) -> anyhow::Result<()> {
    match sink.content() {
        Some(held) => Ok(came.bytes(held)?),
        None => Ok(came.word("untold")?),
    }
}
