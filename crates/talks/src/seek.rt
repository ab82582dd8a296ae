// The search for a key among those of a ring. Nothing here takes memory.
ghost use Rattle.std.specs.Prelude.{◌≡◌, ◌<◌, ◌≤◌, IfSome, length, position, take};
ghost use Rattle.key_lists.specs.Listing.{most_offered};
ghost use Rattle.talks.specs.Meanings.{meant};
ghost use Rattle.talks.specs.Searches.{found_by, is_among, is_passed_over, is_refused, is_served, one_left, picked_by, wants_consent};
ghost use Rattle.talks.specs.Seeking.{none_past};

use crate::found::Found;
use crate::said::{Asking, Said};
use attr_tuples::{Tuple, has_name};
use key_ring::{Key, KeyRing};
use roles::Tuples;
use wire_base::List;

/// Searches the keys of a moment for one that serves a template and a role, in the order of the ring: a key that its user
/// wants to be asked about is passed over where he denied it, and where nobody can be asked. It takes no memory.
#[tactic(auto, unfolding(crate::specs::Searches::found_by))]
pub fn search_keys<'a>(
    ring: &'a KeyRing,
    template: &Tuple,
    role: &[u8],
    said: &Said,
    asking: Asking,
) -> Found<'a>
    ensures { meant result ≡ found_by template.now role.now said.now asking ring.now }
{
    let mut next = ring.find(template, role);
    let mut passed = false;
    let most = ring.len();
    for turn in 0..most {
        let Some(key) = next else {
            return end_search(said, asking, passed);
        };
        if !is_passed_over(said, asking, key) {
            return take_key(said, key);
        }
        passed = true;
        next = ring.next_after(template, role, key.serial());
    }
    end_search(said, asking, passed)
}

// What is found where no key is left.
fn end_search<'a>(said: &Said, asking: Asking, passed: bool) -> Found<'a>
    ensures { meant result ≡ none_past passed said.now asking }
{
    if passed || said.denied.len() > 0 {
        Found::Denied
    } else if asking.needkey && !said.asked {
        Found::AsksKey
    } else {
        Found::NoneServes
    }
}

// What is found where a key is left.
fn take_key<'a>(said: &Said, key: &'a Key) -> Found<'a>
    ensures { meant result ≡ one_left said.now key.now }
{
    if wants_consent(key) && !is_among(&said.agreed, key) {
        Found::AsksConsent(key)
    } else {
        Found::Chosen(key)
    }
}

// Whether a key may not be used: it was denied, or nobody can be asked about it.
fn is_passed_over(said: &Said, asking: Asking, key: &Key) -> bool
    ensures { result ≡ is_passed_over said.now asking key.now }
{
    wants_consent(key) && is_refused(said, asking, key)
}

fn is_refused(said: &Said, asking: Asking, key: &Key) -> bool
    ensures { result ≡ is_refused said.now asking key.now }
{
    is_among(&said.denied, key) || (!is_among(&said.agreed, key) && !asking.confirm)
}

// Whether the user is to be asked before a key is used.
fn wants_consent(key: &Key) -> bool
    ensures { result ≡ wants_consent key.now }
{
    has_name(key.tuple().attrs(), b"confirm".as_slice())
}

fn is_among(serials: &List<u64>, key: &Key) -> bool
    ensures { result ≡ is_among serials.now key.now }
{
    let sought = key.serial();
    serials.as_slice().iter().any(|serial| *serial == sought)
}

/// How many templates are looked at: no list of offers has more bytes.
const MOST_OFFERED: usize = 1024;

/// The place of the first template that a key serves, and 0 where none is served. It takes no memory.
#[tactic(auto, unfolding(crate::specs::Searches::picked_by))]
pub fn pick_template(ring: &KeyRing, templates: &Tuples, role: &[u8]) -> u32
    ensures { result ≡ picked_by templates.now role.now ring.now }
{
    match find_served(ring, first_ones(templates.as_slice()), role) {
        Some(place) => place as u32,
        None => 0,
    }
}

fn first_ones(templates: &[Tuple]) -> &[Tuple]
    ensures ones { result.now ≡ take most_offered templates.now }
    ensures few { length result.now ≤ most_offered }
{
    &templates[..MOST_OFFERED.min(templates.len())]
}

fn find_served(ring: &KeyRing, templates: &[Tuple], role: &[u8]) -> Option<usize>
    requires { length templates.now ≤ most_offered }
    ensures place { result ≡ position (is_served role.now ring.now) templates.now }
    ensures bound { IfSome result (λ place. place < most_offered) }
{
    templates
        .iter()
        .position(|template| is_served(ring, template, role))
}

// Whether some key serves.
fn is_served(ring: &KeyRing, template: &Tuple, role: &[u8]) -> bool
    ensures { result ≡ is_served role.now ring.now template.now }
{
    ring.find(template, role).is_some()
}
