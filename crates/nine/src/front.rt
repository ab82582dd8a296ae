// What stands at the front of some bytes.
ghost use Rattle.std.specs.Prelude.{◌≡◌};
ghost use Rattle.nine.specs.Streams.{front};
ghost use Rattle.nine.specs.AtFronts.{shown};

use wire_base::u32_at;

/// The least size of a frame.
pub(crate) const LEAST_SIZE: u32 = 7;

/// A whole frame of so many bytes, a bad size, or neither.
#[derive(Clone, Copy)]
pub(crate) enum AtFront {
    Frame(usize),
    Bad(u32),
    Part,
}

/// What stands at the front of these bytes.
#[tactic(auto, using(crate::proofs::StreamLaws::front_none))]
pub(crate) fn at_front(limit: u32, held: &[u8]) -> AtFront
    ensures { shown result ≡ front limit held.now }
{
    let Ok((size, _)) = u32_at(held, 0) else {
        return AtFront::Part;
    };
    if size < LEAST_SIZE || size > limit {
        return AtFront::Bad(size);
    }
    if held.len() < size as usize {
        return AtFront::Part;
    }
    AtFront::Frame(size as usize)
}
