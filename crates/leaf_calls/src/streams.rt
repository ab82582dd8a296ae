// The public calls of `wire_streams`.
ghost use Rattle.std.specs.Io.KnownBytes.{Consumes, IsAtEnd};
ghost use Rattle.std.specs.Prelude.{◌<◌, ◌≤◌, IfErr, IfOk, OnOk, vec_len, ◌≡◌, OnErr, is_err, length};
ghost use Rattle.wire_streams.specs.Causes.{CountsOutcome};
ghost use Rattle.wire_streams.specs.Streams.{Gains};
ghost use Rattle.wire_streams.specs.Whole.{TakesBefore, reading_failed, GainsFront};

use std::alloc::Global;
use wire_streams::{Sink, Source, WholeFault, WriteFault};

/// As `read_whole`.
pub fn read_whole<S: Source>(
    alloc: Global,
    limit: usize,
    source: &mut S,
) -> Result<Vec<u8>, WholeFault>
    ensures ok { IfOk result (λ bytes.
        Consumes (S.left source.old) (S.left source.new) bytes.items) }
    ensures end { OnOk result (IsAtEnd (S.left source.new)) }
    ensures bounded { IfOk result (λ bytes. vec_len bytes ≤ limit) }

    ensures err { IfErr result (λ fault.
        TakesBefore (S.left source.old) (S.left source.new) limit fault) }

    ensures counted { S.faults source.old ≤ S.faults source.new }
    ensures exact { CountsOutcome (S.faults source.old) (S.faults source.new)
        (reading_failed result) }
{
    wire_streams::read_whole(alloc, limit, source)
}

/// As `write_all`.
pub fn write_all<W: Sink>(piece: &[u8], sink: &mut W) -> Result<(), WriteFault>
    ensures ok { OnOk result (Gains (W.holds sink.old) (W.holds sink.new) piece.now) }
    ensures err { OnErr result (GainsFront (W.holds sink.old) (W.holds sink.new) piece.now) }
    ensures counted { W.faults sink.old ≤ W.faults sink.new }
    ensures exact { CountsOutcome (W.faults sink.old) (W.faults sink.new) (is_err result) }
    ensures empty { length piece.now ≡ 0 → sink.new ≡ sink.old }
{
    wire_streams::write_all(piece, sink)
}
