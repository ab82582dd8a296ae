// A search and a pick, by hand from the rules of searches.
use crate::expect::expect;
use crate::rings::ring_of;
use attr_tuples::{Tuple, parse_tuple};
use key_ring::KeyRing;
use roles::Tuples;
use std::alloc::Global;
use std::process::Abort;
use std::test::Fail;
use talks::{Asking, Found, Said, pick_template, search_keys};
use wire_base::List;

const KEY: &[u8] = b"proto=p9sk1 dom=x user=ann confirm !password=a";

const OPEN: Asking = Asking {
    confirm: true,
    needkey: true,
};

fn check_asked(rt: &impl Abort, ring: &KeyRing, template: &Tuple, said: &Said) {
    let found = search_keys(ring, template, b"client", said, OPEN);
    assert!(rt; matches!(found, Found::AsksConsent(key) if key.serial() == 1));
}

fn check_denied(rt: &impl Abort, ring: &KeyRing, template: &Tuple, said: &Said) {
    let found = search_keys(ring, template, b"client", said, OPEN);
    assert!(rt; matches!(found, Found::Denied));
}

// A user who wasn't asked is asked for the use of a key, and is asked no more once he denied it.
fn check_search(
    rt: &impl Abort,
    alloc: Global,
    ring: &KeyRing,
    template: &Tuple,
) -> Result<(), Fail> {
    let mut said = Said {
        agreed: List::new(alloc),
        denied: List::new(alloc),
        asked: false,
    };
    check_asked(rt, ring, template, &said);
    said.denied.push(1)?;
    check_denied(rt, ring, template, &said);
    Ok(())
}

#[test]
fn a_user_is_asked_where_he_can_be(rt: HostRuntime) -> Result<(), Fail> {
    let alloc = rt.alloc();
    let template = parse_tuple(alloc, b"proto=p9sk1 dom=x user?")?;
    let ring = ring_of(alloc, KEY)?;
    check_search(&rt, alloc, &ring, &template)
}

// Templates of the domains of a text, a letter each, and the place that is picked where there is a key in x.
static PICKS: [(&[u8], u32); 6] = [
    (b"", 0),
    (b"x", 0),
    (b"yx", 1),
    (b"yxzx", 1),
    (b"yzx", 2),
    (b"yz", 0),
];

fn push_template(alloc: Global, templates: &mut Tuples, dom: u8) -> Result<(), Fail> {
    let text: &[u8] = match dom {
        b'x' => b"proto=p9sk1 dom=x user?",
        b'y' => b"proto=p9sk1 dom=y user?",
        _ => b"proto=p9sk1 dom=z user?",
    };
    templates.push(parse_tuple(alloc, text)?)?;
    Ok(())
}

fn push_templates(alloc: Global, templates: &mut Tuples, doms: &[u8]) -> Result<(), Fail> {
    for dom in doms {
        push_template(alloc, templates, *dom)?;
    }
    Ok(())
}

fn check_pick(
    rt: &impl Abort,
    alloc: Global,
    ring: &KeyRing,
    doms: &[u8],
    place: u32,
) -> Result<(), Fail> {
    let mut templates = Tuples::new(alloc);
    push_templates(alloc, &mut templates, doms)?;
    expect(rt, &pick_template(ring, &templates, b"client"), &place);
    Ok(())
}

fn check_picks(
    rt: &impl Abort,
    alloc: Global,
    ring: &KeyRing,
    rows: &[(&[u8], u32)],
) -> Result<(), Fail> {
    for (doms, place) in rows {
        check_pick(rt, alloc, ring, doms, *place)?;
    }
    Ok(())
}

#[test]
fn the_first_template_that_a_key_serves_is_picked(rt: HostRuntime) -> Result<(), Fail> {
    let alloc = rt.alloc();
    let ring = ring_of(alloc, KEY)?;
    check_picks(&rt, alloc, &ring, &PICKS)
}
