// A file that is read whole.
ghost use Rattle.std.specs.Prelude.{◌≡◌, ◌≤◌, IfErr, IfOk, Err};
ghost use Rattle.wire_streams.specs.Causes.{Rose};
ghost use Rattle.auth_program.specs.Files.{ReadsFile, StopsSo};

use crate::status::Status;
use std::alloc::Global;
use wire_streams::{Source, WholeFault, read_whole};

/// How many bytes of a file are taken.
const MOST_FILE: usize = 1 << 22;

/// Reads a file to its end.
pub fn read_file<F: Source>(alloc: Global, file: &mut F) -> Result<Vec<u8>, Status>
    ensures ok { IfOk result (λ text. ReadsFile (F.left file.old) (F.left file.new) text.items) }
    ensures err { IfErr result (λ status. StopsSo status (F.left file.old) (F.left file.new)) }
    ensures fault { result ≡ Err Status.ReadFault → Rose (F.faults file.old) (F.faults file.new) }
    ensures counted { F.faults file.old ≤ F.faults file.new }
{
    match read_whole(alloc, MOST_FILE, file) {
        Ok(text) => Ok(text),
        Err(WholeFault::Failed) => Err(Status::ReadFault),
        Err(WholeFault::Flood) => Err(Status::Flood {
            limit: MOST_FILE as u64,
        }),
        Err(WholeFault::NoMemory) => Err(Status::NoMemory),
    }
}
