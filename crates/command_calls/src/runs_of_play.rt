// The public calls of `world_run`.
ghost use Rattle.std.specs.Prelude.{◌≤◌, ◌^◌, length};
ghost use Rattle.wire_streams.specs.Causes.{CountsOutcome};
ghost use Rattle.world_run.specs.Runs.{RunsSo, is_fault};

use std::alloc::Global;
use wire_histories::Wire;
use wire_streams::Sink;
use world_run::WorldEnd;

/// As `run_world`.
pub fn run_world<W: Sink>(alloc: Global, script: &[u8], sink: &mut W) -> (Wire, WorldEnd)
    requires { length script.now ≤ 2 ^ 22 }
    ensures so { RunsSo result.1 script.now result.0 (W.holds sink.old) (W.holds sink.new) }
    ensures counted { W.faults sink.old ≤ W.faults sink.new }
    ensures exact { CountsOutcome (W.faults sink.old) (W.faults sink.new) (is_fault result.1) }
{
    world_run::run_world(alloc, script, sink)
}
