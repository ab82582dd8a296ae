// What a conversation was started with.
ghost use Rattle.std.specs.Prelude.{◌≡◌, true};
ghost use Rattle.attr_tuples.specs.Attributes.{is_tuple};
ghost use Rattle.roles.specs.Starts.{fits_start, role_of};

use attr_tuples::Tuple;
use roles::Role;

/// The template and the word of a start, and the role that the template names.
#[derive(Drop)]
pub struct Own {
    pub template: Tuple,
    pub word: [u8; 8],
    pub role: Role,
    ghost named: { role ≡ role_of template },
    ghost valid: { is_tuple template ≡ true },
    ghost fits: { fits_start template ≡ true },
}
