// What comes on a connection.
ghost use Rattle.std.specs.Prelude.{◌≡◌, ◌≤◌, ◌<◌, ◌+◌, ℕ, List, Option, IfErr, length};
ghost use Rattle.wire_streams.specs.Causes.{Rose};
ghost use Rattle.nine.specs.Streams.{front, IsShort};
ghost use Rattle.agent_hub.specs.Submits.{HubSeat};
ghost use Rattle.agent_hub.specs.Requesting.{most_frame};
ghost use Rattle.agent_lines.specs.Lining.{CausedBy, Moment, moment};
ghost use Rattle.agent_lines.specs.Turns.{Going, Halts, InputEndsBy, TurnSo};

use crate::ends::LineEnd;
use nine::BlockFramer;
use wire_streams::{Got, Source};

/// How many bytes of a connection are taken.
const MOST_INPUT: u64 = 1 << 40;

// How an input ends that isn't too long.
fn end_of(framer: &BlockFramer) -> LineEnd
    ensures { InputEndsBy framer.now result }
{
    if framer.held() > 0 {
        return LineEnd::Torn { at: framer.place() };
    }
    LineEnd::End
}

// Looks whether more comes than is taken.
fn read_over<S: Source>(framer: &BlockFramer, source: &mut S) -> LineEnd
    ensures told { (conn : ℕ) (first : Moment) (seat : HubSeat) (words : Option (List (List ℕ)))
        (holds : Option (List ℕ)) (kept : List ℕ)
        → Going conn first (moment seat words (S.left source.old) holds) framer.now kept
        → front most_frame framer.now.held ≡ IsShort
        → 1099511627776 ≤ framer.now.before + length framer.now.held
        → Halts conn result first (moment seat words (S.left source.new) holds) kept }
    ensures caused { CausedBy result (Rose (S.faults source.old) (S.faults source.new)) ⊥ ⊥ }
    ensures counted { S.faults source.old ≤ S.faults source.new }
{
    let mut one = [0u8; 1];
    match source.read(&mut one) {
        Got::Bytes(_) => LineEnd::Flood,
        Got::End => end_of(framer),
        Got::Failed => LineEnd::ReadFault,
    }
}

// Reads a piece of at most so many bytes.
fn read_piece<S: Source>(
    framer: &mut BlockFramer,
    most: usize,
    source: &mut S,
) -> Result<(), LineEnd>
    requires short { front framer.old.limit framer.old.held ≡ IsShort }
    requires some { 0 < most }
    requires few { framer.old.before + length framer.old.held + most ≤ 1099511627776 }
    ensures told { (conn : ℕ) (first : Moment) (seat : HubSeat) (words : Option (List (List ℕ)))
        (holds : Option (List ℕ)) (kept : List ℕ)
        → Going conn first (moment seat words (S.left source.old) holds) framer.old kept
        → front most_frame framer.old.held ≡ IsShort
        → TurnSo result conn first (moment seat words (S.left source.new) holds) framer.new kept }
    ensures caused { IfErr result (λ end. CausedBy end
        (Rose (S.faults source.old) (S.faults source.new)) ⊥ ⊥) }
    ensures counted { S.faults source.old ≤ S.faults source.new }
{
    match framer.fill_within(most, source) {
        Got::Bytes(_) => Ok(()),
        Got::End => Err(end_of(framer)),
        Got::Failed => Err(LineEnd::ReadFault),
    }
}

/// Reads what is there of a source, where all whole frames were handed on.
pub(crate) fn read_more<S: Source>(framer: &mut BlockFramer, source: &mut S) -> Result<(), LineEnd>
    requires short { front framer.old.limit framer.old.held ≡ IsShort }
    ensures told { (conn : ℕ) (first : Moment) (seat : HubSeat) (words : Option (List (List ℕ)))
        (holds : Option (List ℕ)) (kept : List ℕ)
        → Going conn first (moment seat words (S.left source.old) holds) framer.old kept
        → front most_frame framer.old.held ≡ IsShort
        → TurnSo result conn first (moment seat words (S.left source.new) holds) framer.new kept }
    ensures caused { IfErr result (λ end. CausedBy end
        (Rose (S.faults source.old) (S.faults source.new)) ⊥ ⊥) }
    ensures counted { S.faults source.old ≤ S.faults source.new }
{
    let taken = framer.taken();
    if taken >= MOST_INPUT {
        return Err(read_over(framer, source));
    }
    read_piece(framer, (MOST_INPUT - taken) as usize, source)
}
