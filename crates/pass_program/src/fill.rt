// A buffer that is read full from a source.
ghost use Rattle.std.specs.Io.KnownBytes.{Consumes};
ghost use Rattle.std.specs.Prelude.{◌≡◌, ◌++◌, ◌≤◌, ℕ, IfErr, OnOk, Err, drop, length, take};
ghost use Rattle.wire_streams.specs.Causes.{Rose};
ghost use Rattle.pass_program.specs.Steps.{LacksSo, lack_at};
ghost use Rattle.pass_program.specs.declared.fill.Lack.TheVariants.{Failed};

use crate::status::PassStatus;
use wire_streams::{Got, Source};

/// Why a buffer wasn't filled.
#[derive(Clone, Copy, PartialEq, Eq)]
pub(crate) enum Lack {
    /// The source ended; so many bytes stood in the buffer by then.
    Ended { have: usize },
    /// A read failed.
    Failed,
}

/// Reads until the buffer is full, of which the front of so many bytes is so already.
pub(crate) fn fill<R: Source>(buffer: &mut [u8], from: usize, source: &mut R) -> Result<(), Lack>
    requires { from ≤ length buffer.old }
    ensures length { length buffer.new ≡ length buffer.old }
    ensures front { OnOk result (take from buffer.new ≡ take from buffer.old) }
    ensures read { OnOk result
        (Consumes (R.left source.old) (R.left source.new) (drop from buffer.new)) }
    ensures err { IfErr result (λ lack.
        LacksSo lack (R.left source.old) (R.left source.new) from (length buffer.old)) }
    ensures cause { result ≡ Err Failed → Rose (R.faults source.old) (R.faults source.new) }
    ensures counted { R.faults source.old ≤ R.faults source.new }
{
    let mut have = from;
    while have < buffer.len() {
        match source.read(&mut buffer[have..]) {
            Got::Bytes(count) => have += count,
            Got::End => return Err(Lack::Ended { have }),
            Got::Failed => return Err(Lack::Failed),
        }
    }
    Ok(())
}

/// How a session ends that lacks some of the message at an offset.
pub(crate) fn end_of_lack(lack: Lack, at: u64) -> PassStatus
    ensures { result ≡ lack_at lack at }
{
    match lack {
        Lack::Ended { have: 0 } => PassStatus::Fine { changed: false },
        Lack::Ended { .. } => PassStatus::Torn { at },
        Lack::Failed => PassStatus::ReadFault,
    }
}
