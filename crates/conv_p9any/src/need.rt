// What a conversation needs while it chooses.
ghost use Rattle.std.specs.Prelude.{◌≡◌, IfOk, true};
ghost use Rattle.attr_tuples.specs.Attributes.{is_value};
ghost use Rattle.attr_tuples.specs.declared.attr.Value.TheVariants.{Is};
ghost use Rattle.conv_p9any.specs.Courses.{asked_each, asked_first};
ghost use Rattle.conv_p9any.specs.Steps.{start_of};

use crate::offers::{all_offers, find_eligible};
use crate::own::Own;
use attr_tuples::Tuple;
use roles::{Tuples, build_asked, find_dom};
use std::alloc::Global;
use wire_base::NoMemory;

/// The template of a server's keys.
pub fn ask_first(alloc: Global, protocol: &[u8], own: &Own) -> Result<Tuple, NoMemory>
    requires { is_value (Is protocol.now) ≡ true }
    ensures { IfOk result (λ t. t ≡ asked_first protocol.now (start_of own.now)) }
{
    let dom = find_dom(&own.template);
    build_asked(alloc, protocol, &own.role, &own.template, dom)
}

/// The templates of the keys in the eligible domains of a list.
#[tactic(auto, unfolding(crate::specs::Offers::eligible), using(crate::proofs::OfferLemmas::dom_text_value))]
pub fn ask_each(alloc: Global, protocol: &[u8], own: &Own, list: &[u8]) -> Result<Tuples, NoMemory>
    requires { is_value (Is protocol.now) ≡ true }
    ensures { IfOk result (λ templates. templates
        ≡ asked_each protocol.now (start_of own.now) list.now) }
{
    let mut templates = Tuples::new(alloc);
    let mut left = all_offers(list);
    while let Some(offer) = find_eligible(protocol, own, left) {
        let dom = Some(offer.dom);
        let template = build_asked(alloc, protocol, &own.role, &own.template, dom)?;
        templates.push(template)?;
        left = offer.rest;
    }
    Ok(templates)
}
