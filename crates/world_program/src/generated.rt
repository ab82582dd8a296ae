// The script of a number.
ghost use Rattle.std.specs.Prelude.{◌≡◌, ◌≤◌, ◌^◌, length, IfErr, IfOk};
ghost use Rattle.wire_streams.specs.Causes.{Rose};
ghost use Rattle.world_scripts.specs.Generated.{gen_text};
ghost use Rattle.world_program.specs.Running.{HasNotRun, HasRun};
ghost use Rattle.world_program.specs.Summing.{GenSo};

use crate::nowhere::Nowhere;
use crate::summary::summary;
use crate::words::GenWords;
use auth_program::Status;
use std::alloc::Global;
use wire_base::NoMemory;
use wire_histories::Wire;
use wire_streams::{Sink, WriteFault, write_all};
use world_run::{WorldEnd, run_world};
use world_scripts::gen_script;

// Runs a script, and writes its record nowhere.
fn run_unseen(alloc: Global, script: &[u8]) -> Result<Wire, Status>
    requires { length script.now ≤ 2 ^ 22 }
    ensures ok { IfOk result (HasRun script.now) }
    ensures err { IfErr result (HasNotRun script.now) }
{
    let (record, end) = run_world(alloc, script, &mut Nowhere);
    match end {
        WorldEnd::Done => Ok(record),
        WorldEnd::Bad { line, cause } => Err(Status::BadScript { line, cause }),
        WorldEnd::WriteFault => unreachable!(),
        WorldEnd::NoMemory => Err(Status::NoMemory),
    }
}

// Runs the script of a number.
fn run_made(alloc: Global, given: GenWords) -> Result<Wire, Status>
    requires { given.rounds ≤ 1000 }
    ensures ok { IfOk result (HasRun (gen_text given.number given.rounds)) }
    ensures err { IfErr result (HasNotRun (gen_text given.number given.rounds)) }
{
    match gen_script(alloc, given.number, given.rounds) {
        Ok(script) => run_unseen(alloc, script.as_slice()),
        Err(NoMemory) => Err(Status::NoMemory),
    }
}

/// Runs the script of a number, of so many rounds, and writes a line on what became of it. It reads nothing.
pub fn play_gen<W: Sink>(alloc: Global, given: GenWords, output: &mut W) -> Status
    requires { given.rounds ≤ 1000 }
    ensures ends { GenSo result given.number given.rounds
        (W.holds output.old) (W.holds output.new) }
    ensures write_fault { result ≡ Status.WriteFault
        → Rose (W.faults output.old) (W.faults output.new) }
    ensures counted_writes { W.faults output.old ≤ W.faults output.new }
{
    let record = match run_made(alloc, given) {
        Ok(record) => record,
        Err(status) => return status,
    };
    let line = match summary(alloc, given.rounds, record.as_slice()) {
        Ok(line) => line,
        Err(NoMemory) => return Status::NoMemory,
    };
    match write_all(line.as_bytes(), output) {
        Ok(()) => Status::Fine,
        Err(WriteFault) => Status::WriteFault,
    }
}
