// A batch of frames of a connection.
ghost use Rattle.std.specs.Prelude.{◌≡◌, ◌≤◌, ◌<◌, ◌+◌, ℕ, List, Option, IfErr, length};
ghost use Rattle.wire_streams.specs.Causes.{Rose};
ghost use Rattle.agent_hub.specs.Submits.{IsSeatOf};
ghost use Rattle.nine.specs.Batches.{AreFrames};
ghost use Rattle.agent_lines.specs.Lining.{CausedBy, Moment, moment, most_batch};
ghost use Rattle.agent_lines.specs.Turns.{BatchEndsSo, Going, TurnSo};

use crate::drawing::{Drawn, draw_words};
use crate::ends::LineEnd;
use crate::kept::Kept;
use agent_hub::{Exchanged, Hub, HubSeat, TakesEnd};
use nine::{Batch, BlockFramer};
use std::sync::Wait;
use wire_streams::Words;

// How a batch of so many bytes ended, for which so many words were drawn; its frames are passed where it went well.
fn end_batch(
    drew: Result<(), LineEnd>,
    came: Exchanged,
    words: usize,
    size: usize,
    framer: &mut BlockFramer,
) -> Result<(), LineEnd>
    requires { size ≤ length framer.old.held }
    ensures { BatchEndsSo result drew came words size framer.old framer.new }
{
    if came.entered < words {
        return Err(LineEnd::NoMemory);
    }
    if came.end == TakesEnd::Stopped {
        return Err(LineEnd::Stopped);
    }
    match drew {
        Ok(()) => {
            framer.pass(size);
            Ok(())
        }
        Err(end) => Err(end),
    }
}

/// Hands a batch on, each frame with a word of its own, and keeps the replies that needn't wait.
pub(crate) fn serve_batch<R: Wait, G: Words>(
    rt: &R,
    hub: &Hub,
    seat: HubSeat,
    conn: u64,
    batch: Batch,
    framer: &mut BlockFramer,
    kept: &mut Kept,
    words: &mut G,
) -> (HubSeat, Result<(), LineEnd>)
    requires seat { IsSeatOf hub.now seat }
    requires few { batch.count ≤ most_batch }
    requires frames { AreFrames framer.old.limit framer.old.held batch.count batch.size }
    ensures seat { IsSeatOf hub.now result.0 }
    ensures told { (first : Moment) (left holds : Option (List ℕ))
        → Going conn first (moment seat (G.to_come words.old) left holds) framer.old kept.old
        → TurnSo result.1 conn first (moment result.0 (G.to_come words.new) left holds)
        framer.new kept.new }
    ensures caused { IfErr result.1 (λ end. CausedBy end ⊥
        (Rose (G.faults words.old) (G.faults words.new)) ⊥) }
    ensures counted { G.faults words.old ≤ G.faults words.new }
{
    let mut drawn = Drawn::new();
    let drew = draw_words(words, batch.count, &mut drawn);
    let frames = framer.rest().split_at(batch.size).0;
    let (seat, came) = kept.exchange(rt, hub, seat, conn, frames, drawn.as_slice());
    let ended = end_batch(drew, came, drawn.len(), batch.size, framer);
    (seat, ended)
}
