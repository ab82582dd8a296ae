// A request sent to a sink.
ghost use Rattle.std.specs.Prelude.{◌≡◌, ◌≤◌, OnErr, OnOk};
ghost use Rattle.std.specs.Result.{is_err};
ghost use Rattle.wire_streams.specs.Causes.{CountsOutcome};
ghost use Rattle.wire_streams.specs.Streams.{Gains};
ghost use Rattle.wire_streams.specs.Whole.{GainsFront};

use wire_streams::{Sink, WriteFault, write_all};

/// Sends a request, all of its bytes, however many there are. Where a write fails a part of it was sent.
pub fn send_request<W: Sink>(request: &[u8], sink: &mut W) -> Result<(), WriteFault>
    ensures ok { OnOk result (Gains (W.holds sink.old) (W.holds sink.new) request.now) }
    ensures err { OnErr result (GainsFront (W.holds sink.old) (W.holds sink.new) request.now) }
    ensures counted { W.faults sink.old ≤ W.faults sink.new }
    ensures exact { CountsOutcome (W.faults sink.old) (W.faults sink.new) (is_err result) }
{
    write_all(request, sink)
}
