// The table of keys, read whole and then parsed.
ghost use Rattle.std.specs.Prelude.{◌≡◌, ◌≤◌, IfErr, IfOk};
ghost use Rattle.wire_streams.specs.Causes.{Rose};
ghost use Rattle.pass_program.specs.Changing.{IsCaused, Knows, TableEnds};
ghost use Rattle.pass_program.specs.Steps.{IsFileEnd, end_of_file};

use crate::status::PassStatus;
use auth_program::{Status, read_file};
use auth_tables::{KeyTable, TableFault, parse_keys};
use std::alloc::Global;
use wire_streams::Source;

// The status of a file that wasn't read to its end.
fn file_end(status: Status) -> PassStatus
    requires { IsFileEnd status }
    ensures { result ≡ end_of_file status }
{
    match status {
        Status::ReadFault => PassStatus::ReadFault,
        Status::NoMemory => PassStatus::NoMemory,
        Status::Flood { limit } => PassStatus::Flood { limit },
        _ => unreachable!(),
    }
}

/// Reads a table of keys.
pub(crate) fn read_table<F: Source>(alloc: Global, keys: &mut F) -> Result<KeyTable, PassStatus>
    ensures ok { IfOk result (Knows (F.left keys.old) (F.left keys.new)) }
    ensures err { IfErr result (λ status. TableEnds status (F.left keys.old) (F.left keys.new)) }
    ensures cause { IfErr result (λ status.
        IsCaused status (Rose (F.faults keys.old) (F.faults keys.new)) ⊥ ⊥) }
    ensures counted { F.faults keys.old ≤ F.faults keys.new }
{
    let file = match read_file(alloc, keys) {
        Ok(file) => file,
        Err(status) => return Err(file_end(status)),
    };
    match parse_keys(alloc, file.as_slice()) {
        Ok(table) => Ok(table),
        Err(TableFault::Line { line }) => Err(PassStatus::BadTable { line }),
        Err(TableFault::NoMemory) => Err(PassStatus::NoMemory),
    }
}
