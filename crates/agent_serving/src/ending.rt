// How the program ends: the number and the line.
ghost use Rattle.std.specs.Prelude.{◌≡◌, ◌++◌, OnErr, OnOk};
ghost use Rattle.agent_serving.specs.Endings.{end_number, end_text};

use crate::accept::ServeEnd;
use wire_base::{Bytes, NoMemory};

/// The number that the process ends with.
pub fn end_number(end: ServeEnd) -> u8
    ensures { result ≡ end_number end }
{
    match end {
        ServeEnd::NoThread => 12,
        ServeEnd::ListenFault => 13,
        ServeEnd::NoMemory => 10,
    }
}

/// Appends the line for standard error.
pub fn print_end(end: ServeEnd, out: &mut Bytes) -> Result<(), NoMemory>
    ensures ok { OnOk result (out.new ≡ out.old ++ end_text end) }
    ensures err { OnErr result (out.new ≡ out.old) }
{
    match end {
        ServeEnd::NoThread => out.append(b"factotum: no thread\n"),
        ServeEnd::ListenFault => out.append(b"factotum: listen fault\n"),
        ServeEnd::NoMemory => out.append(b"factotum: out of memory\n"),
    }
}
