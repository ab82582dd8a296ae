// What is asked of a key that is looked for.
ghost use Rattle.std.specs.Prelude.{◌≡◌, ◌&&◌, ◌||◌, codes, not};
ghost use Rattle.std.specs.Str.{bytes_eq};
ghost use Rattle.attr_tuples.specs.Giving.{gives};
ghost use Rattle.attr_tuples.specs.Matching.{has_name};
ghost use Rattle.key_lists.specs.Lists.{serves};
ghost use Rattle.key_ring.specs.Wanting.{passes};

use crate::key::Key;
use attr_tuples::{Tuple, gives, has_name, matches, public_equal};

/// Which key is looked for.
#[derive(Clone, Copy)]
pub enum Wanted<'a> {
    /// One that matches the template and either names no role or has this one.
    Serving(&'a Tuple, &'a [u8]),
    /// One that matches the template.
    Matching(&'a Tuple),
    /// One that is the same as the tuple in public.
    Equal(&'a Tuple),
}

impl Wanted<'_> {
    ghost use Rattle.std.specs.Prelude.{◌≡◌};
    ghost use Rattle.key_ring.specs.Wanting.{passes};

    /// Whether a key is such a one.
    pub fn check(&self, key: &Key) -> bool
        ensures { result ≡ passes self.now key.now }
    {
        match self {
            Wanted::Serving(template, role) => check_serves(template, role, key),
            Wanted::Matching(template) => matches(template, key.tuple()),
            Wanted::Equal(tuple) => public_equal(tuple, key.tuple()),
        }
    }
}

/// Whether a key matches the template and either names no role or has this one.
pub fn check_serves(template: &Tuple, role: &[u8], key: &Key) -> bool
    ensures { result ≡ serves template.now role.now key.now }
{
    matches(template, key.tuple()) && check_role(key.tuple(), role)
}

fn check_role(tuple: &Tuple, role: &[u8]) -> bool
    ensures { result ≡ (not (has_name tuple.now (codes "role"))
        || gives (codes "role") (λ text. bytes_eq text role.now) tuple.now) }
{
    let attrs = tuple.attrs();
    let name = b"role".as_slice();
    !has_name(attrs, name) || gives(attrs, name, role)
}
