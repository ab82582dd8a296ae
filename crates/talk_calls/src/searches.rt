// The public calls of `talks`.
ghost use Rattle.std.specs.Prelude.{◌≡◌, ◌<◌};
ghost use Rattle.talks.specs.Meanings.{meant};
ghost use Rattle.talks.specs.Searches.{found_by, picked_by};
ghost use Rattle.talks.specs.Standing.{KeepsPicked, TellsPicked};

use attr_tuples::Tuple;
use key_ring::KeyRing;
use roles::{Gave, Tuples};
use talks::{Asking, Conv, Found, Said};

/// As `Conv::with_pick`.
pub fn conv_with_pick(conv: &mut Conv, place: u32) -> Gave
    ensures told { TellsPicked conv.old result place }
    ensures kept { KeepsPicked conv.old conv.new place }
{
    conv.with_pick(place)
}

/// As `search_keys`.
pub fn search_keys<'a>(
    ring: &'a KeyRing,
    template: &Tuple,
    role: &[u8],
    said: &Said,
    asking: Asking,
) -> Found<'a>
    ensures { meant result ≡ found_by template.now role.now said.now asking ring.now }
{
    talks::search_keys(ring, template, role, said, asking)
}

/// As `pick_template`.
pub fn pick_template(ring: &KeyRing, templates: &Tuples, role: &[u8]) -> u32
    ensures { result ≡ picked_by templates.now role.now ring.now }
{
    talks::pick_template(ring, templates, role)
}
