// The public calls of `wire_histories`.
ghost use Rattle.std.specs.Prelude.{◌≡◌, ◌++◌, OnOk, OnErr};
ghost use Rattle.wire_histories.specs.Lines.{step_line};

use wire_base::{Bytes, NoMemory};
use wire_histories::Step;

/// As `print_step`.
pub fn print_step(step: &Step, out: &mut Bytes) -> Result<(), NoMemory>
    ensures ok { OnOk result (out.new ≡ out.old ++ step_line step.now) }
    ensures err { OnErr result (out.new ≡ out.old) }
{
    wire_histories::print_step(step, out)
}
