// The public calls of `nine_print`.
ghost use Rattle.std.specs.Prelude.{◌≡◌, ◌++◌, OnOk, OnErr};
ghost use Rattle.nine.specs.Decoding.{IsFrame};
ghost use Rattle.nine_print.specs.Lines.{line_of};

use std::alloc::Global;
use wire_base::{Bytes, NoMemory};

/// As `put_line`.
pub fn put_line(
    alloc: Global,
    secrets: bool,
    at: u64,
    frame: &[u8],
    out: &mut Bytes,
) -> Result<(), NoMemory>
    requires { IsFrame frame.now }
    ensures ok { OnOk result (out.new ≡ out.old ++ line_of secrets at frame.now) }
    ensures err { OnErr result (out.new ≡ out.old) }
{
    nine_print::put_line(alloc, secrets, at, frame, out)
}
