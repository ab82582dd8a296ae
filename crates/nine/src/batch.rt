// Whole frames at the front of some bytes.
ghost use Rattle.std.specs.Prelude.{◌≡◌, ◌≤◌, drop};
ghost use Rattle.nine.specs.Batches.{AreFrames, FollowsSo};

use crate::front::{AtFront, at_front};

/// What stands behind some whole frames.
#[derive(Clone, Copy, Debug, PartialEq, Eq)]
pub enum Behind {
    /// Perhaps one more.
    More,
    /// No whole frame, and no bad size.
    Short,
    /// A size that no frame has.
    Bad(u32),
}

/// Whole frames at the front of what a framer holds.
#[derive(Clone, Copy, Debug, PartialEq, Eq)]
pub struct Batch {
    /// How many they are.
    pub count: usize,
    /// How many bytes they have.
    pub size: usize,
    pub behind: Behind,
}

/// The whole frames at the front of these bytes, at most so many.
#[tactic(auto, using(crate::proofs::BatchLemmas::none_yet, crate::proofs::BatchLemmas::one_more))]
pub(crate) fn batch_in(limit: u32, held: &[u8], most: usize) -> Batch
    ensures few { result.count ≤ most }
    ensures frames { AreFrames limit held.now result.count result.size }
    ensures behind { FollowsSo result.behind limit (drop result.size held.now) }
    ensures more { result.behind ≡ Behind.More → result.count ≡ most }
{
    let mut size = 0;
    for count in 0..most {
        match at_front(limit, held.split_at(size).1) {
            AtFront::Frame(length) => size += length,
            AtFront::Bad(bad) => {
                return Batch {
                    count,
                    size,
                    behind: Behind::Bad(bad),
                };
            }
            AtFront::Part => {
                return Batch {
                    count,
                    size,
                    behind: Behind::Short,
                };
            }
        }
    }
    Batch {
        count: most,
        size,
        behind: Behind::More,
    }
}
