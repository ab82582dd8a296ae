// What a conversation was started with.
ghost use Rattle.std.specs.Prelude.{◌≡◌, true};
ghost use Rattle.attr_tuples.specs.Attributes.{is_tuple};
ghost use Rattle.roles.specs.Starts.{fits_start};
ghost use Rattle.conv_challenge.specs.Starts.{proto_of, side_of};

use crate::stage::{Proto, Side};
use attr_tuples::Tuple;

/// The template and the word of a start, and the protocol and the side that the template names.
#[derive(Drop)]
pub struct Own {
    pub template: Tuple,
    pub word: [u8; 8],
    pub proto: Proto,
    pub side: Side,
    ghost spoken: { proto ≡ proto_of template },
    ghost sided: { side ≡ side_of template },
    ghost valid: { is_tuple template ≡ true },
    ghost fits: { fits_start template ≡ true },
}
