// Tuples compared: with a template, with each other, and asked for a name's value. Nothing here takes memory.
ghost use Rattle.std.specs.Prelude.{◌≡◌, count_by, option_map};
ghost use Rattle.std.specs.List.{list_all};
ghost use Rattle.attr_tuples.specs.Attributes.{is_named, is_public, is_secret};
ghost use Rattle.attr_tuples.specs.Equality.{same_value, same_attr, public_part, as_often, public_equal};
ghost use Rattle.attr_tuples.specs.Matching.{holds, has_name, is_null, has_null, meets, matches, text_for, value_of};

use crate::attr::{Attr, Value};
use crate::tuple::Tuple;
use wire_base::Text;

/// Whether the tuple matches the template: each `a=v` of the template is in it, each `a?` and each secret name alone
/// is a name in it, and each public name alone stands in it alone or with the empty value. It takes no memory.
#[tactic(auto, unfolding(crate::specs::Matching::matches))]
pub fn matches(template: &Tuple, t: &Tuple) -> bool
    ensures { result ≡ matches template.now t.now }
{
    let attrs = t.attrs();
    template
        .attrs()
        .iter()
        .all(|wanted| check_met(attrs, wanted))
}

fn check_met(attrs: &[Attr], wanted: &Attr) -> bool
    ensures { result ≡ meets attrs.now wanted.now.name wanted.now.value }
{
    let name = wanted.name.as_slice();
    match &wanted.value {
        Value::Is(_) => check_holds(attrs, wanted),
        Value::Ask => has_name(attrs, name),
        Value::Bare if is_secret_name(name) => has_name(attrs, name),
        Value::Bare => check_has_null(attrs, name),
    }
}

/// Whether a name is that of a secret: it begins with `!`.
pub fn is_secret_name(name: &[u8]) -> bool
    ensures { result ≡ is_secret name.now }
{
    matches!(name, [b'!', ..])
}

fn check_holds(attrs: &[Attr], wanted: &Attr) -> bool
    ensures { result ≡ holds attrs.now wanted.now }
{
    attrs.iter().any(|attr| check_same(wanted, attr))
}

/// Whether one of the attributes has this name.
pub fn has_name(attrs: &[Attr], name: &[u8]) -> bool
    ensures { result ≡ has_name attrs.now name.now }
{
    attrs.iter().any(|attr| is_named(attr, name))
}

fn check_has_null(attrs: &[Attr], name: &[u8]) -> bool
    ensures { result ≡ has_null attrs.now name.now }
{
    attrs
        .iter()
        .any(|attr| is_named(attr, name) && check_null(&attr.value))
}

fn check_null(value: &Value) -> bool
    ensures { result ≡ is_null value.now }
{
    match value {
        Value::Is(text) => text.as_slice().is_empty(),
        Value::Ask => false,
        Value::Bare => true,
    }
}

/// Whether an attribute has this name.
pub fn is_named(attr: &Attr, name: &[u8]) -> bool
    ensures { result ≡ is_named name.now attr.now }
{
    attr.name.as_slice() == name
}

fn check_same(a: &Attr, b: &Attr) -> bool
    ensures { result ≡ same_attr a.now b.now }
{
    a.name.as_slice() == b.name.as_slice() && check_same_value(&a.value, &b.value)
}

fn check_same_value(a: &Value, b: &Value) -> bool
    ensures { result ≡ same_value a.now b.now }
{
    match (a, b) {
        (Value::Is(x), Value::Is(y)) => x.as_slice() == y.as_slice(),
        (Value::Ask, Value::Ask) | (Value::Bare, Value::Bare) => true,
        (_, _) => false,
    }
}

/// Whether the tuples hold the same public attributes, each the same number of times; their order counts for
/// nothing, and secrets aren't compared. It takes no memory.
#[tactic(auto, unfolding(crate::specs::Equality::public_equal))]
pub fn public_equal(a: &Tuple, b: &Tuple) -> bool
    ensures { result ≡ public_equal a.now b.now }
{
    let (a, b) = (a.attrs(), b.attrs());
    check_counts(a, b, a) && check_counts(a, b, b)
}

// Whether each public attribute of the sought ones stands in both lists the same number of times.
fn check_counts(a: &[Attr], b: &[Attr], sought: &[Attr]) -> bool
    ensures { result ≡ list_all (as_often (public_part a.now) (public_part b.now))
        (public_part sought.now) }
{
    sought
        .iter()
        .filter(|attr| check_public(attr))
        .all(|attr| count_same(a, attr) == count_same(b, attr))
}

fn check_public(attr: &Attr) -> bool
    ensures { result ≡ is_public attr.now }
{
    !is_secret_name(attr.name.as_slice())
}

// How often a list has an attribute among its public ones.
fn count_same(attrs: &[Attr], sought: &Attr) -> usize
    ensures { result ≡ count_by (same_attr sought.now) (public_part attrs.now) }
{
    attrs
        .iter()
        .filter(|attr| check_public(attr))
        .filter(|attr| check_same(sought, attr))
        .count()
}

/// The text of the first `name=v`. It takes no memory.
pub fn value_of<'a>(t: &'a Tuple, name: &[u8]) -> Option<&'a Text>
    ensures { option_map (λ text. text.now) result ≡ value_of name.now t.now }
{
    for attr in t.attrs() {
        if let Some(text) = text_for(attr, name) {
            return Some(text);
        }
    }
    None
}

fn text_for<'a>(attr: &'a Attr, name: &[u8]) -> Option<&'a Text>
    ensures { option_map (λ text. text.now) result ≡ text_for name.now attr.now }
{
    match &attr.value {
        Value::Is(text) if is_named(attr, name) => Some(text),
        Value::Is(_) | Value::Ask | Value::Bare => None,
    }
}
