// The public calls of `sockets` on the servers that are asked, and on what is sent to them.
ghost use Rattle.std.specs.List.{AllByRecursion};
ghost use Rattle.std.specs.Prelude.{◌≡◌, ◌<◌, ◌≤◌, IfOk, OnErr, OnOk};
ghost use Rattle.std.specs.Result.{is_err};
ghost use Rattle.std.specs.Time.{instant_nanos};
ghost use Rattle.sockets.specs.Failures.{Finds, IsOrder};
ghost use Rattle.sockets.specs.Failures.Finding.{Answered, Failed};
ghost use Rattle.sockets.specs.Servers.{fault_of, fault_told, items_of};
ghost use Rattle.wire_streams.specs.Causes.{CountsOutcome};
ghost use Rattle.wire_streams.specs.Streams.{Gains};
ghost use Rattle.wire_streams.specs.Whole.{GainsFront};

use sockets::{AddressFault, MOST_SERVERS, Recalls, Servers};
use std::alloc::Global;
use std::time::Instant;
use wire_base::NoMemory;
use wire_streams::{Sink, WriteFault};

/// As `check_addresses`.
pub fn check_addresses(text: &[u8]) -> Result<(), AddressFault>
    ensures { fault_told result ≡ fault_of text.now }
{
    sockets::check_addresses(text)
}

/// As `Servers::parse`.
pub fn parse(alloc: Global, text: &[u8]) -> Result<Result<Servers, AddressFault>, NoMemory>
    ensures fault { IfOk result (λ parsed. fault_told parsed ≡ fault_of text.now) }
    ensures value { IfOk result (λ parsed.
        IfOk parsed (λ servers. servers ≡ items_of text.now)) }
{
    Servers::parse(alloc, text)
}

/// As `Recalls::order`.
pub fn order<F: Recalls>(
    failures: &mut F,
    alloc: Global,
    count: usize,
    now: Instant,
) -> Result<Vec<usize>, NoMemory>
    requires { count ≤ MOST_SERVERS }
    ensures order { IfOk result (λ order.
        IsOrder (F.failed failures.old) (instant_nanos now) count order.items) }
    ensures each { IfOk result (λ order. AllByRecursion (λ i. i < count) order.items) }
    ensures same { F.failed failures.new ≡ F.failed failures.old }
{
    failures.order(alloc, count, now)
}

/// As `Recalls::note_failed`.
pub fn note_failed<F: Recalls>(failures: &mut F, server: usize, now: Instant)
    requires { server < MOST_SERVERS }
    ensures { Finds (Failed server (instant_nanos now)) (F.failed failures.old)
        (F.failed failures.new) }
{
    failures.note_failed(server, now);
}

/// As `Recalls::note_answered`.
pub fn note_answered<F: Recalls>(failures: &mut F, server: usize)
    requires { server < MOST_SERVERS }
    ensures { Finds (Answered server) (F.failed failures.old) (F.failed failures.new) }
{
    failures.note_answered(server);
}

/// As `send_request`.
pub fn send_request<W: Sink>(request: &[u8], sink: &mut W) -> Result<(), WriteFault>
    ensures ok { OnOk result (Gains (W.holds sink.old) (W.holds sink.new) request.now) }
    ensures err { OnErr result (GainsFront (W.holds sink.old) (W.holds sink.new) request.now) }
    ensures counted { W.faults sink.old ≤ W.faults sink.new }
    ensures exact { CountsOutcome (W.faults sink.old) (W.faults sink.new) (is_err result) }
{
    sockets::send_request(request, sink)
}
