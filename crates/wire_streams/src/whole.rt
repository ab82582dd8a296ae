//! Two loops over the outside: reading a source to its end, and writing a whole piece.
ghost use Rattle.std.specs.Io.KnownBytes.{Consumes, IsAtEnd};
ghost use Rattle.std.specs.Prelude.{◌≡◌, ◌<◌, ◌≤◌, IfErr, IfOk, OnErr, OnOk, is_err, length, vec_len};
ghost use Rattle.wire_streams.specs.Causes.{CountsOutcome};
ghost use Rattle.wire_streams.specs.Streams.{Gains};
ghost use Rattle.wire_streams.specs.Whole.{GainsFront, TakesBefore, reading_failed};

use crate::sink::{Put, Sink};
use crate::source::{Got, Source};
use std::alloc::Global;

/// How many bytes one read asks for.
pub(crate) const CHUNK: usize = 65536;

/// Why a source was not read to its end.
#[derive(Clone, Copy, Debug, PartialEq, Eq)]
pub enum WholeFault {
    /// A read failed.
    Failed,
    /// The source gave more bytes than the limit.
    Flood,
    /// No memory for what was read.
    NoMemory,
}

/// A write failed before the whole piece was taken.
#[derive(Clone, Copy, Debug, PartialEq, Eq)]
pub struct WriteFault;

/// Reads the source to its end, and returns all that it gave. It stops at the first read that takes
/// it past `limit` bytes. What it read before an error is lost.
pub fn read_whole<S: Source>(
    alloc: Global,
    limit: usize,
    source: &mut S,
) -> Result<Vec<u8>, WholeFault>
    ensures ok { IfOk result (λ bytes.
        Consumes (S.left source.old) (S.left source.new) bytes.items) }
    ensures end { OnOk result (IsAtEnd (S.left source.new)) }
    ensures bounded { IfOk result (λ bytes. vec_len bytes ≤ limit) }

    // What an error left: a flood comes exactly where more than the limit was taken, and then at most one
    // piece more was.
    ensures err { IfErr result (λ fault.
        TakesBefore (S.left source.old) (S.left source.new) limit fault) }

    // A read that failed is told, and nothing else is told so.
    ensures counted { S.faults source.old ≤ S.faults source.new }
    ensures exact { CountsOutcome (S.faults source.old) (S.faults source.new)
        (reading_failed result) }
{
    let mut bytes = Vec::new(alloc);
    let mut chunk = [0u8; CHUNK];
    loop {
        match source.read(&mut chunk) {
            Got::Bytes(count) => {
                if count > limit - bytes.len() {
                    return Err(WholeFault::Flood);
                }
                if bytes.extend_from_slice(&chunk[..count]).is_err() {
                    return Err(WholeFault::NoMemory);
                }
            }
            Got::End => return Ok(bytes),
            Got::Failed => return Err(WholeFault::Failed),
        }
    }
}

/// Writes the whole piece, in as many writes as the sink asks for, and none of an empty one.
pub fn write_all<W: Sink>(piece: &[u8], sink: &mut W) -> Result<(), WriteFault>
    ensures ok { OnOk result (Gains (W.holds sink.old) (W.holds sink.new) piece.now) }
    ensures err { OnErr result (GainsFront (W.holds sink.old) (W.holds sink.new) piece.now) }
    ensures counted { W.faults sink.old ≤ W.faults sink.new }
    ensures exact { CountsOutcome (W.faults sink.old) (W.faults sink.new) (is_err result) }
    ensures empty { length piece.now ≡ 0 → sink.new ≡ sink.old }
{
    let mut at = 0;
    while at < piece.len() {
        match sink.write(&piece[at..]) {
            Put::Took(count) => at += count,
            Put::Failed => return Err(WriteFault),
        }
    }
    Ok(())
}
