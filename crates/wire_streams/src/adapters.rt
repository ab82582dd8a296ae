//! A source over any reader of std, and a sink over any writer: the edge to the outside.
ghost use Rattle.std.specs.Prelude.{◌≡◌, ◌<◌, ◌≤◌, length};
ghost use Rattle.std.specs.Io.{ReadsAtMost, WritesAtMost};
ghost use Rattle.std.specs.Io.KnownBytes.{ReadConsumes, WriteAppends};

use crate::sink::{Put, Sink};
use crate::source::{Got, Source};
use std::io::{self, ErrorKind, Read, Write};

/// How often a call that a signal interrupted is made again before it counts as failed.
const RETRIES: u32 = 64;

/// A source over a reader. Each read that fails is counted, up to the last value of the counter.
#[derive(Debug, Drop)]
pub struct ReadSource<R> {
    inner: R,
    faults: u64,
}

impl<R> ReadSource<R> {
    ghost use Rattle.wire_streams.specs.Adapters.{read_faults, reader_of};

    /// A source of what `inner` gives.
    pub fn new(inner: R) -> ReadSource<R>
        ensures inner { reader_of result ≡ inner }
        ensures faults { read_faults result ≡ 0 }
    {
        ReadSource { inner, faults: 0 }
    }
}

impl<R: Read> Source for ReadSource<R> {
    ghost use Rattle.wire_streams.specs.Adapters.{read_faults, reader_of};
    ghost use Rattle.wire_streams.specs.Causes.{CountsOutcome};
    ghost use Rattle.wire_streams.specs.Streams.{Reads, read_failed};

    ghost left = { λ source. R.remaining (reader_of source) };

    ghost faults = { λ source. read_faults source };

    fn read(&mut self, out: &mut [u8]) -> Got
        requires { 0 < length out.old }
        ensures bytes { Reads (R.remaining (reader_of self.old)) (R.remaining (reader_of self.new))
            result out.new }
        ensures counted { read_faults self.old ≤ read_faults self.new }
        ensures exact { CountsOutcome (read_faults self.old) (read_faults self.new)
            (read_failed result) }
    {
        match read_retrying(&mut self.inner, out) {
            Ok(0) => Got::End,
            Ok(count) => Got::Bytes(count),
            Err(_) => {
                self.faults = self.faults.saturating_add(1);
                Got::Failed
            }
        }
    }
}

/// A sink over a writer, which it never flushes. It tells no content. Each write that fails, or
/// takes nothing, is counted, up to the last value of the counter.
#[derive(Debug, Drop)]
pub struct WriteSink<W> {
    inner: W,
    faults: u64,
}

impl<W> WriteSink<W> {
    ghost use Rattle.wire_streams.specs.Adapters.{write_faults, writer_of};

    /// A sink that passes on to `inner`.
    pub fn new(inner: W) -> WriteSink<W>
        ensures inner { writer_of result ≡ inner }
        ensures faults { write_faults result ≡ 0 }
    {
        WriteSink { inner, faults: 0 }
    }
}

impl<W: Write> Sink for WriteSink<W> {
    ghost use Rattle.std.specs.Prelude.{None};
    ghost use Rattle.wire_streams.specs.Adapters.{Passes, write_faults, writer_of};
    ghost use Rattle.wire_streams.specs.Causes.{CountsOutcome};
    ghost use Rattle.wire_streams.specs.Streams.{Writes, write_failed};

    ghost holds = { λ _. None };

    ghost faults = { λ sink. write_faults sink };

    fn write(&mut self, piece: &[u8]) -> Put
        requires { 0 < length piece.now }
        ensures bytes { Writes None None result piece.now }
        ensures counted { write_faults self.old ≤ write_faults self.new }
        ensures exact { CountsOutcome (write_faults self.old) (write_faults self.new)
            (write_failed result) }

        // What the writer below tells of its bytes grew by exactly those that are said to be taken.
        ensures passed { Passes (W.contents (writer_of self.old)) (W.contents (writer_of self.new))
            result piece.now }
    {
        match write_retrying(&mut self.inner, piece) {
            Ok(count) if count > 0 => Put::Took(count),
            _ => {
                self.faults = self.faults.saturating_add(1);
                Put::Failed
            }
        }
    }
}

/// One read, made again where a signal interrupts it.
fn read_retrying<R: Read>(reader: &mut R, out: &mut [u8]) -> io::Result<usize>
    ensures bound { ReadsAtMost result out.new }
    ensures bytes { ReadConsumes (R.remaining reader.old) (R.remaining reader.new) result out.new }
{
    for _ in 0..RETRIES {
        match reader.read(out) {
            Err(error) if error.kind() == ErrorKind::Interrupted => {}
            outcome => return outcome,
        }
    }
    reader.read(out)
}

/// One write, made again where a signal interrupts it.
fn write_retrying<W: Write>(writer: &mut W, piece: &[u8]) -> io::Result<usize>
    ensures bound { WritesAtMost result piece.now }
    ensures bytes { WriteAppends (W.contents writer.old) (W.contents writer.new) result piece.now }
{
    for _ in 0..RETRIES {
        match writer.write(piece) {
            Err(error) if error.kind() == ErrorKind::Interrupted => {}
            outcome => return outcome,
        }
    }
    writer.write(piece)
}
