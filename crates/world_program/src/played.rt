// The script that is read.
ghost use Rattle.std.specs.Prelude.{◌≡◌, ◌≤◌};
ghost use Rattle.wire_streams.specs.Causes.{Rose};
ghost use Rattle.world_program.specs.Playing.{WorldSo};
ghost use Rattle.world_program.specs.Running.{status_of};

use auth_program::{Status, read_file};
use std::alloc::Global;
use wire_streams::{Sink, Source};
use world_run::{WorldEnd, run_world};

// The status of an end of a run.
fn status_of(end: WorldEnd) -> Status
    ensures { result ≡ status_of end }
{
    match end {
        WorldEnd::Done => Status::Fine,
        WorldEnd::Bad { line, cause } => Status::BadScript { line, cause },
        WorldEnd::WriteFault => Status::WriteFault,
        WorldEnd::NoMemory => Status::NoMemory,
    }
}

/// Reads a script whole, and runs it: each step's line is written as soon as it is made, and the steps before a line that is
/// refused stand.
pub fn play_world<R: Source, W: Sink>(alloc: Global, input: &mut R, output: &mut W) -> Status
    ensures ends { WorldSo result (R.left input.old) (R.left input.new)
        (W.holds output.old) (W.holds output.new) }
    ensures read_fault { result ≡ Status.ReadFault
        → Rose (R.faults input.old) (R.faults input.new) }
    ensures write_fault { result ≡ Status.WriteFault
        → Rose (W.faults output.old) (W.faults output.new) }
    ensures counted_reads { R.faults input.old ≤ R.faults input.new }
    ensures counted_writes { W.faults output.old ≤ W.faults output.new }
{
    match read_file(alloc, input) {
        Ok(script) => {
            let (_, end) = run_world(alloc, script.as_slice(), output);
            status_of(end)
        }
        Err(status) => status,
    }
}
