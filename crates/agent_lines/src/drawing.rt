// Words that are drawn for the frames of a batch.
ghost use Rattle.std.specs.Prelude.{◌≡◌, ◌+◌, ◌<◌, ◌≤◌, [], length, IfErr, OnErr, OnOk};
ghost use Rattle.wire_streams.specs.Causes.{Rose};
ghost use Rattle.agent_lines.specs.Turns.{DrawsMore};
ghost use Rattle.agent_lines.specs.Lining.{CausedBy, DrawsAll, most_batch};

use crate::ends::LineEnd;
use arrayvec::ArrayVec;
use wire_streams::Words;

/// How many frames are handed on in one turn, at most.
pub(crate) const MOST_BATCH: usize = 32;

/// Words that were drawn for the frames of a batch.
pub(crate) type Drawn = ArrayVec<[u8; 8], MOST_BATCH>;

// Draws one word more.
fn draw_one<G: Words>(words: &mut G, drawn: &mut Drawn) -> Result<(), LineEnd>
    requires { length drawn.old.items < most_batch }
    ensures longer { OnOk result (length drawn.new.items ≡ length drawn.old.items + 1) }
    ensures same { OnErr result (drawn.new.items ≡ drawn.old.items) }
    ensures drew { DrawsMore (G.to_come words.old) (G.to_come words.new)
        drawn.old.items drawn.new.items }
    ensures which { IfErr result (λ end. end ≡ LineEnd.WordFault) }
    ensures caused { IfErr result (λ end. CausedBy end ⊥
        (Rose (G.faults words.old) (G.faults words.new)) ⊥) }
    ensures counted { G.faults words.old ≤ G.faults words.new }
{
    let Ok(word) = words.word8() else {
        return Err(LineEnd::WordFault);
    };
    drawn.push(word);
    Ok(())
}

/// Draws so many words, up to the first that can't be had.
#[tactic(auto, using(crate::proofs::LineLemmas::draws_more))]
pub(crate) fn draw_words<G: Words>(
    words: &mut G,
    count: usize,
    drawn: &mut Drawn,
) -> Result<(), LineEnd>
    requires none { drawn.old.items ≡ [] }
    requires few { count ≤ most_batch }
    ensures drew { DrawsAll (G.to_come words.old) (G.to_come words.new) drawn.new.items }
    ensures all { OnOk result (length drawn.new.items ≡ count) }
    ensures few { OnErr result (length drawn.new.items < count) }
    ensures which { IfErr result (λ end. end ≡ LineEnd.WordFault) }
    ensures caused { IfErr result (λ end. CausedBy end ⊥
        (Rose (G.faults words.old) (G.faults words.new)) ⊥) }
    ensures counted { G.faults words.old ≤ G.faults words.new }
{
    for _ in 0..count {
        if let Err(end) = draw_one(words, drawn) {
            return Err(end);
        }
    }
    Ok(())
}
