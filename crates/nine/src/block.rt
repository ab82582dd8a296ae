// A block of bytes of which a front is filled: what stands in it is moved up, and more is read behind it.
ghost use Rattle.std.specs.Prelude.{◌≡◌, ◌≤◌, ◌<◌, ◌+◌, ◌-◌, ◌^◌, drop, length, take};
ghost use Rattle.wire_streams.specs.Causes.{CountsOutcome};
ghost use Rattle.wire_streams.specs.Streams.{read_failed};
ghost use Rattle.nine.specs.Blocks.{ReadsInto, count_of};

use wire_streams::{Got, Source};

/// Moves what stands between two places to the front.
pub(crate) fn move_up(bytes: &mut [u8], front: usize, end: usize)
    requires order { front ≤ end }
    requires inside { end ≤ length bytes.old }
    ensures length { length bytes.new ≡ length bytes.old }
    ensures moved { take (end - front) bytes.new ≡ drop front (take end bytes.old) }
{
    if front > 0 {
        bytes.copy_within(front..end, 0);
    }
}

/// Reads into a block, between two places.
pub(crate) fn read_into<R: Source>(bytes: &mut [u8], from: usize, to: usize, source: &mut R) -> Got
    requires room { from < to }
    requires inside { to ≤ length bytes.old }
    ensures length { length bytes.new ≡ length bytes.old }
    ensures reads { ReadsInto from (to - from) (R.left source.old) (R.left source.new) result
        bytes.old bytes.new }
    ensures counted { R.faults source.old ≤ R.faults source.new }
    ensures exact { CountsOutcome (R.faults source.old) (R.faults source.new)
        (read_failed result) }
{
    source.read(&mut bytes[from..to])
}

/// To which byte a block is filled, where a read behind so many came to this.
pub(crate) fn filled_to(from: usize, got: Got) -> usize
    requires { from + count_of got < 2 ^ 63 }
    ensures { result ≡ from + count_of got }
{
    match got {
        Got::Bytes(count) => from + count,
        Got::End | Got::Failed => from,
    }
}
