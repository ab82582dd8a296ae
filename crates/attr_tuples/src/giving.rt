// What attributes give to a name. Nothing here takes memory.
ghost use Rattle.std.specs.Prelude.{◌≡◌, codes, filter, length};
ghost use Rattle.std.specs.Str.{bytes_eq};
ghost use Rattle.attr_tuples.specs.Attributes.{is_named, is_named_once, is_given};
ghost use Rattle.attr_tuples.specs.Forms.{is_user, is_dom};
ghost use Rattle.attr_tuples.specs.Giving.{gives, gives_once, is_any};

use crate::attr::{Attr, Value};
use crate::compare::is_named;
use crate::forms::{is_dom, is_user};

/// Whether just one attribute has the name.
pub fn is_named_once(attrs: &[Attr], name: &[u8]) -> bool
    ensures { result ≡ is_named_once name.now attrs.now }
{
    count_named(attrs, name) == 1
}

fn count_named(attrs: &[Attr], name: &[u8]) -> usize
    ensures { result ≡ length (filter (is_named name.now) attrs.now) }
{
    attrs.iter().filter(|attr| is_named(attr, name)).count()
}

/// Whether a value is given, be it empty.
pub fn is_given(value: &Value) -> bool
    ensures { result ≡ is_given is_any value.now }
{
    match value {
        Value::Is(_) => true,
        Value::Ask | Value::Bare => false,
    }
}

fn is_given_as(value: &Value, text: &[u8]) -> bool
    ensures { result ≡ is_given (λ given. bytes_eq given text.now) value.now }
{
    match value {
        Value::Is(given) => given.as_slice() == text,
        Value::Ask | Value::Bare => false,
    }
}

/// Whether an attribute of the name has any value.
pub fn gives_any(attrs: &[Attr], name: &[u8]) -> bool
    ensures { result ≡ gives name.now is_any attrs.now }
{
    attrs
        .iter()
        .any(|attr| is_named(attr, name) && is_given(&attr.value))
}

/// Whether an attribute of the name has this value.
pub fn gives(attrs: &[Attr], name: &[u8], text: &[u8]) -> bool
    ensures { result ≡ gives name.now (λ given. bytes_eq given text.now) attrs.now }
{
    attrs.iter().any(|attr| is_named(attr, name) && is_given_as(&attr.value, text))
}

/// Whether just one attribute is named `user`, and its value is a user.
pub fn gives_user(attrs: &[Attr]) -> bool
    ensures { result ≡ gives_once (codes "user") is_user attrs.now }
{
    is_named_once(attrs, b"user".as_slice()) && has_user(attrs)
}

/// Whether just one attribute is named `dom`, and its value is a domain.
pub fn gives_dom(attrs: &[Attr]) -> bool
    ensures { result ≡ gives_once (codes "dom") is_dom attrs.now }
{
    is_named_once(attrs, b"dom".as_slice()) && has_dom(attrs)
}

fn has_user(attrs: &[Attr]) -> bool
    ensures { result ≡ gives (codes "user") is_user attrs.now }
{
    let name = b"user".as_slice();
    attrs.iter().any(|attr| is_named(attr, name) && check_user_value(&attr.value))
}

fn has_dom(attrs: &[Attr]) -> bool
    ensures { result ≡ gives (codes "dom") is_dom attrs.now }
{
    let name = b"dom".as_slice();
    attrs.iter().any(|attr| is_named(attr, name) && check_dom_value(&attr.value))
}

fn check_user_value(value: &Value) -> bool
    ensures { result ≡ is_given is_user value.now }
{
    match value {
        Value::Is(text) => is_user(text.as_slice()),
        Value::Ask | Value::Bare => false,
    }
}

fn check_dom_value(value: &Value) -> bool
    ensures { result ≡ is_given is_dom value.now }
{
    match value {
        Value::Is(text) => is_dom(text.as_slice()),
        Value::Ask | Value::Bare => false,
    }
}
