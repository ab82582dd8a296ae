// One answer heard from a source.
ghost use Rattle.std.specs.Prelude.{◌≡◌, ◌≤◌, IfSome, length, take};
ghost use Rattle.std.specs.Option.{is_none};
ghost use Rattle.wire_streams.specs.Causes.{CountsOutcome};
ghost use Rattle.sockets.specs.Hearing.{IsHeard};

use crate::ending::answer_length;
use wire_base::Shape;
use wire_streams::{Got, MOST_ANSWER, Source};

/// Reads an answer into the front of `room`, up to its end or that of the source, and returns how many bytes came.
/// None where a read failed.
pub fn read_answer<S: Source>(source: &mut S, shape: Shape, room: &mut [u8]) -> Option<usize>
    requires { length room.old ≡ MOST_ANSWER }
    ensures room { length room.new ≡ length room.old }
    ensures heard { IfSome result (λ count.
        IsHeard shape (S.left source.old) (S.left source.new) (take count room.new)) }
    ensures within { IfSome result (λ count. count ≤ length room.new) }
    ensures counted { S.faults source.old ≤ S.faults source.new }
    ensures exact { CountsOutcome (S.faults source.old) (S.faults source.new) (is_none result) }
{
    let mut heard = 0;
    loop {
        let wanted = answer_length(shape, &room[..heard]);
        if wanted <= heard {
            return Some(heard);
        }
        match source.read(&mut room[heard..wanted]) {
            Got::Bytes(count) => heard += count,
            Got::End => return Some(heard),
            Got::Failed => return None,
        }
    }
}
