// Which words of a list of offers may be chosen. Nothing here takes memory.
ghost use Rattle.std.specs.Prelude.{◌≡◌, ◌==◌, ◌<◌, ◌∷◌, IfSome, drop, length, true};
ghost use Rattle.std.specs.List.{list_any, position};
ghost use Rattle.attr_tuples.specs.Attributes.{is_value};
ghost use Rattle.attr_tuples.specs.declared.attr.Value.TheVariants.{Is};
ghost use Rattle.conv_p9any.specs.Cutting.{Finds, words_left};
ghost use Rattle.conv_p9any.specs.Offers.{begins, consents, dom_at, dom_in, is_dom_text, is_eligible, is_marked, is_offered, offers_dom, offers_text, words};
ghost use Rattle.conv_p9any.specs.Steps.{start_of};

use crate::own::Own;
use attr_tuples::is_dom;
use roles::is_elsewhere;
use wire_base::check_text;

// ---- the parts of a text

fn begins(front: &[u8], text: &[u8]) -> bool
    ensures { result ≡ begins front.now text.now }
{
    text.starts_with(front)
}

// What stands behind so many bytes.
fn behind(text: &[u8], at: usize) -> &[u8]
    ensures { result.now ≡ drop at text.now }
{
    if at <= text.len() {
        text.split_at(at).1
    } else {
        &[]
    }
}

// Whether a text is the protocol's name, a mark, and what stands behind it.
fn is_marked(mark: &[u8], protocol: &[u8], text: &[u8]) -> bool
    ensures { result ≡ is_marked mark.now protocol.now text.now }
{
    begins(protocol, text) && begins(mark, behind(text, protocol.len()))
}

/// The domain in an offer or a choice.
pub fn dom_in<'a>(protocol: &[u8], text: &'a [u8]) -> &'a [u8]
    ensures { result.now ≡ dom_in protocol.now text.now }
{
    behind(text, protocol.len() + 1)
}

fn is_dom_text(dom: &[u8]) -> bool
    ensures { result ≡ is_dom_text dom.now }
{
    check_text(dom) && is_dom(dom)
}

/// Whether the server of a list consents to the choice.
pub fn consents(list: &[u8]) -> bool
    ensures { result ≡ consents list.now }
{
    begins(b"v.2 ".as_slice(), list)
}

// What the words of a list stand in.
fn offers_text(list: &[u8]) -> &[u8]
    ensures { result.now ≡ offers_text list.now }
{
    if consents(list) {
        behind(list, 4)
    } else {
        list
    }
}

// The first word of a text, and what stands behind its blank if it has one.
fn cut_word(text: &[u8]) -> (&[u8], Option<&[u8]>)
    ensures words { words text.now ≡ result.0.now ∷ words_left result.1 }
    ensures ends { IfSome result.1 (λ rest. length rest.now < length text.now) }
{
    match find_blank(text) {
        Some(at) => {
            let (word, rest) = text.split_at(at);
            (word, Some(rest.split_at(1).1))
        }
        None => (text, None),
    }
}

fn find_blank(bytes: &[u8]) -> Option<usize>
    ensures { result ≡ position (λ b. b == 32) bytes.now }
{
    bytes.iter().position(|byte| *byte == b' ')
}

// ---- the client

/// A word that may be chosen: its domain, and what stands behind it.
#[derive(Clone, Copy)]
pub struct Offer<'a> {
    pub dom: &'a [u8],
    pub rest: Option<&'a [u8]>,
}

#[tactic(auto, unfolding(crate::specs::Offers::is_eligible))]
fn is_eligible(protocol: &[u8], own: &Own, word: &[u8]) -> bool
    ensures { result ≡ is_eligible protocol.now (start_of own.now) word.now }
{
    let dom = dom_in(protocol, word);
    is_marked(b"@".as_slice(), protocol, word)
        && is_dom_text(dom)
        && !is_elsewhere(&own.template, dom)
}

/// The first word that may be chosen, of what is left of a list.
pub fn find_eligible<'a>(protocol: &[u8], own: &Own, left: Option<&'a [u8]>) -> Option<Offer<'a>>
    ensures { Finds protocol.now (start_of own.now) left.entry result }
{
    let mut left = left;
    while let Some(text) = left {
        let (word, rest) = cut_word(text);
        if is_eligible(protocol, own, word) {
            let dom = dom_in(protocol, word);
            return Some(Offer { dom, rest });
        }
        left = rest;
    }
    None
}

/// What is left of a list before its first word.
pub fn all_offers(list: &[u8]) -> Option<&[u8]>
    ensures { words_left result ≡ words (offers_text list.now) }
{
    Some(offers_text(list))
}

/// The domain of the eligible word at a place; none where there is no such place.
#[tactic(auto, unfolding(crate::specs::Offers::eligible), using(crate::proofs::OfferLemmas::dom_text_value, crate::proofs::OfferLemmas::empty_value))]
pub fn dom_at<'a>(protocol: &[u8], own: &Own, list: &'a [u8], place: u32) -> &'a [u8]
    ensures value { result.now ≡ dom_at protocol.now (start_of own.now) list.now place }
    ensures valid { is_value (Is result.now) ≡ true }
{
    let mut left = all_offers(list);
    let mut before = place;
    while let Some(offer) = find_eligible(protocol, own, left) {
        if before == 0 {
            return offer.dom;
        }
        before -= 1;
        left = offer.rest;
    }
    &[]
}

// ---- the server

#[tactic(auto, unfolding(crate::specs::Offers::offers_dom))]
fn offers_dom(protocol: &[u8], dom: &[u8], word: &[u8]) -> bool
    ensures { result ≡ offers_dom protocol.now dom.now word.now }
{
    is_marked(b"@".as_slice(), protocol, word) && dom_in(protocol, word) == dom
}

fn is_offered_in(protocol: &[u8], dom: &[u8], list: &[u8]) -> bool
    ensures { result
        ≡ list_any (λ word. offers_dom protocol.now dom.now word) (words list.now) }
{
    let mut left = Some(list);
    while let Some(text) = left {
        let (word, rest) = cut_word(text);
        if offers_dom(protocol, dom, word) {
            return true;
        }
        left = rest;
    }
    false
}

/// Whether a text chooses a domain that a word of a list offers.
#[tactic(auto, unfolding(crate::specs::Offers::is_offered))]
pub fn is_offered(protocol: &[u8], list: &[u8], text: &[u8]) -> bool
    ensures { result ≡ is_offered protocol.now list.now text.now }
{
    let dom = dom_in(protocol, text);
    is_marked(b" ".as_slice(), protocol, text)
        && is_dom_text(dom)
        && is_offered_in(protocol, dom, list)
}
