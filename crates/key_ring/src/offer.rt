// The offers of p9any.
ghost use Rattle.std.specs.Prelude.{◌≡◌, ◌++◌, length, take, OnOk, OnErr, IfOk, map, codes, option_map};
ghost use Rattle.std.specs.List.{list_any};
ghost use Rattle.attr_tuples.specs.Matching.{value_of};
ghost use Rattle.key_lists.specs.Listing.{dom_of, doms_of, each_once, fitting, most_offered, offer_of, offers_text};
ghost use Rattle.key_ring.specs.Steps.{offer_behind, is_this, unless_seen};

use crate::key::Key;
use crate::wanted::check_serves;
use attr_tuples::Tuple;
use wire_base::{Bytes, NoMemory, Text};

const MOST_OFFERED: usize = 1024;

const PROTOCOL: &[u8; 6] = b"p9sk1@";

/// Appends the offers of the keys that serve, and answers how many. What is appended before memory runs out stays.
#[tactic(auto, using(wire_base::proofs::FrontLemmas::kept_then))]
pub fn append_offers(
    keys: &[Key],
    template: &Tuple,
    role: &[u8],
    out: &mut Bytes,
) -> Result<usize, NoMemory>
    ensures ok { OnOk result (out.new
        ≡ out.old ++ offers_text
        (fitting most_offered
        (map offer_of (each_once (doms_of template.now role.now keys.now))))) }
    ensures count { IfOk result
        (λ count. count ≡ length
        (fitting most_offered
        (map offer_of (each_once (doms_of template.now role.now keys.now))))) }
    ensures err { OnErr result (take (length out.old) out.new ≡ out.old) }
{
    let mut room = MOST_OFFERED;
    let mut count = 0;
    for (at, key) in keys.iter().enumerate() {
        let earlier = keys.split_at(at).0;
        if let Some(dom) = find_new_dom(earlier, key, template, role) {
            if dom.len() >= room.saturating_sub(PROTOCOL.len()) {
                return Ok(count);
            }
            append_offer(count, dom, out)?;
            room -= PROTOCOL.len() + dom.len() + 1;
            count += 1;
        }
    }
    Ok(count)
}

// The domain of a key that serves, if it names one that no earlier key that serves names.
fn find_new_dom<'a>(
    earlier: &[Key],
    key: &'a Key,
    template: &Tuple,
    role: &[u8],
) -> Option<&'a Text>
    ensures { option_map (λ dom. dom.now) result
        ≡ unless_seen (doms_of template.now role.now earlier.now)
        (dom_of template.now role.now key.now) }
{
    let dom = find_dom(key, template, role)?;
    if check_seen(earlier, dom, template, role) {
        None
    } else {
        Some(dom)
    }
}

fn find_dom<'a>(key: &'a Key, template: &Tuple, role: &[u8]) -> Option<&'a Text>
    ensures { option_map (λ dom. dom.now) result ≡ dom_of template.now role.now key.now }
{
    if check_serves(template, role, key) {
        key.dom()
    } else {
        None
    }
}

// Whether a key that serves names the domain.
fn check_seen(keys: &[Key], dom: &Text, template: &Tuple, role: &[u8]) -> bool
    ensures { result ≡ list_any
        (λ key. is_this dom.now (dom_of template.now role.now key)) keys.now }
{
    keys.iter().any(|key| check_dom(key, dom, template, role))
}

fn check_dom(key: &Key, dom: &Text, template: &Tuple, role: &[u8]) -> bool
    ensures { result ≡ is_this dom.now (dom_of template.now role.now key.now) }
{
    names_dom(key, dom) && check_serves(template, role, key)
}

fn names_dom(key: &Key, dom: &Text) -> bool
    ensures { result ≡ is_this dom.now (value_of (codes "dom") key.now.tuple) }
{
    match key.dom() {
        Some(other) => other.as_slice() == dom.as_slice(),
        None => false,
    }
}

// A blank where it isn't the first one, and the offer.
fn append_offer(count: usize, dom: &Text, out: &mut Bytes) -> Result<(), NoMemory>
    ensures ok { OnOk result (out.new ≡ out.old ++ offer_behind count dom.now) }
    ensures err { OnErr result (take (length out.old) out.new ≡ out.old) }
{
    if count != 0 {
        out.push(b' ')?;
    }
    out.append(PROTOCOL)?;
    out.append(dom.as_slice())
}
