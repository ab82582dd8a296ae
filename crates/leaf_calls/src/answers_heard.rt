// The public calls of `sockets`.
ghost use Rattle.std.specs.Option.{is_none};
ghost use Rattle.std.specs.Prelude.{◌≡◌, ◌≤◌, IfSome, length, take};
ghost use Rattle.sockets.specs.Endings.{answer_length};
ghost use Rattle.sockets.specs.Hearing.{IsHeard};
ghost use Rattle.wire_streams.specs.Causes.{CountsOutcome};

use wire_base::Shape;
use wire_streams::{MOST_ANSWER, Source};

/// As `answer_length`.
pub fn answer_length(shape: Shape, heard: &[u8]) -> usize
    ensures exact { result ≡ answer_length shape heard.now }
    ensures most { result ≤ MOST_ANSWER }
{
    sockets::answer_length(shape, heard)
}

/// As `read_answer`.
pub fn read_answer<S: Source>(source: &mut S, shape: Shape, room: &mut [u8]) -> Option<usize>
    requires { length room.old ≡ MOST_ANSWER }
    ensures room { length room.new ≡ length room.old }
    ensures heard { IfSome result (λ count.
        IsHeard shape (S.left source.old) (S.left source.new) (take count room.new)) }
    ensures within { IfSome result (λ count. count ≤ length room.new) }
    ensures counted { S.faults source.old ≤ S.faults source.new }
    ensures exact { CountsOutcome (S.faults source.old) (S.faults source.new) (is_none result) }
{
    sockets::read_answer(source, shape, room)
}
