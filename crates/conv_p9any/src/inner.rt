// The start of the inner role.
ghost use Rattle.std.specs.Prelude.{◌≡◌, ◌+◌, ◌≤◌, ◌++◌, IfOk, OnOk, length, true};
ghost use Rattle.std.specs.List.{list_all};
ghost use Rattle.attr_tuples.specs.Attributes.{is_attr, is_value};
ghost use Rattle.attr_tuples.specs.declared.attr.Value.TheVariants.{Is};
ghost use Rattle.conv_p9any.specs.Inner.{inner_template, is_replaced, left_part};

use crate::own::Own;
use attr_tuples::{Attr, Tuple, is_named};
use roles::{put_attr, put_given};
use std::alloc::Global;
use wire_base::NoMemory;

/// The template of the inner role's start in a domain.
#[tactic(auto, using(roles::proofs::TemplateLemmas::proto_is_name, roles::proofs::TemplateLemmas::dom_is_name))]
pub fn build_inner(alloc: Global, protocol: &[u8], own: &Own, dom: &[u8]) -> Result<Tuple, NoMemory>
    requires protocol { is_value (Is protocol.now) ≡ true }
    requires dom { is_value (Is dom.now) ≡ true }
    ensures { IfOk result (λ t. t ≡ inner_template protocol.now own.now.template dom.now) }
{
    let mut template = Tuple::new(alloc);
    put_given(alloc, &mut template, b"proto".as_slice(), protocol)?;
    put_given(alloc, &mut template, b"dom".as_slice(), dom)?;
    put_left(&mut template, own.template.attrs())?;
    Ok(template)
}

// The attributes that the choice doesn't replace.
fn put_left(template: &mut Tuple, attrs: &[Attr]) -> Result<(), NoMemory>
    requires room { length template.old + length (left_part attrs.now) ≤ 36 }
    requires valid { list_all is_attr attrs.now ≡ true }
    ensures { OnOk result (template.new ≡ template.old ++ left_part attrs.now) }
{
    for attr in attrs {
        if !is_replaced(attr) {
            put_attr(template, attr.copy()?)?;
        }
    }
    Ok(())
}

fn is_replaced(attr: &Attr) -> bool
    ensures { result ≡ is_replaced attr.now }
{
    is_named(attr, b"proto".as_slice()) || is_named(attr, b"dom".as_slice())
}
