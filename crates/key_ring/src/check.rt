// What is asked of a tuple before it is a key. Nothing here takes memory.
ghost use Rattle.std.specs.Prelude.{◌≡◌, ◌&&◌, not, codes, find, option_copied};
ghost use Rattle.std.specs.List.{list_any};
ghost use Rattle.attr_tuples.specs.Attributes.{is_named, is_given};
ghost use Rattle.attr_tuples.specs.Forms.{is_dom, is_hex_key};
ghost use Rattle.attr_tuples.specs.Giving.{gives, gives_once};
ghost use Rattle.attr_tuples.specs.Matching.{has_name};
ghost use Rattle.key_lists.specs.KeyFaults.{key_fault, is_asked, is_protocol, is_p9sk1, has_secret, is_bad_hex, has_bad_name};
ghost use Rattle.key_lists.specs.Lists.{tells_secret};

use attr_tuples::{
    Attr, Tuple, Value, gives, gives_any, gives_dom, gives_user, has_name, is_given, is_named,
    is_named_once, is_secret_name,
};
use key_lists::{AddFault, decode_key};

/// The first rule of keys that the tuple breaks, if it breaks one.
#[tactic(auto, unfolding(key_lists::specs::KeyFaults::key_fault))]
pub fn find_fault(tuple: &Tuple) -> Option<AddFault>
    ensures { result ≡ key_fault tuple.now }
{
    let attrs = tuple.attrs();
    if check_asks(attrs) {
        Some(AddFault::AskInKey)
    } else if !has_name(attrs, b"proto".as_slice()) {
        Some(AddFault::NoProto)
    } else if !check_protocol(attrs) {
        Some(AddFault::UnknownProto)
    } else if !has_name(attrs, b"user".as_slice()) {
        Some(AddFault::NoUser)
    } else if check_p9sk1(attrs) && !has_name(attrs, b"dom".as_slice()) {
        Some(AddFault::NoDom)
    } else if check_bad_name(attrs) {
        Some(AddFault::BadName)
    } else if !check_secret(attrs) {
        Some(AddFault::NoSecret)
    } else if check_p9sk1(attrs) && check_bad_hex(attrs) {
        Some(AddFault::BadHex)
    } else {
        None
    }
}

// ---- attributes

fn check_asks(attrs: &[Attr]) -> bool
    ensures { result ≡ list_any is_asked attrs.now }
{
    attrs.iter().any(|attr| check_asked(attr))
}

fn check_asked(attr: &Attr) -> bool
    ensures { result ≡ is_asked attr.now }
{
    match attr.value {
        Value::Ask => true,
        Value::Is(_) | Value::Bare => false,
    }
}

/// Whether a secret attribute has a value.
pub fn check_tells_secret(attrs: &[Attr]) -> bool
    ensures { result ≡ list_any tells_secret attrs.now }
{
    attrs.iter().any(|attr| is_secret_name(attr.name.as_slice()) && is_given(&attr.value))
}

// ---- the protocol

/// Whether a key is one of p9sk1.
pub fn check_p9sk1(attrs: &[Attr]) -> bool
    ensures { result ≡ is_p9sk1 attrs.now }
{
    gives(attrs, b"proto".as_slice(), b"p9sk1".as_slice())
}

fn check_protocol(attrs: &[Attr]) -> bool
    ensures { result ≡ gives_once (codes "proto") is_protocol attrs.now }
{
    is_named_once(attrs, b"proto".as_slice()) && gives_protocol(attrs)
}

fn gives_protocol(attrs: &[Attr]) -> bool
    ensures { result ≡ gives (codes "proto") is_protocol attrs.now }
{
    let name = b"proto".as_slice();
    attrs.iter().any(|attr| is_named(attr, name) && check_protocol_value(&attr.value))
}

fn check_protocol_value(value: &Value) -> bool
    ensures { result ≡ is_given is_protocol value.now }
{
    match value {
        Value::Is(text) => check_protocol_text(text.as_slice()),
        Value::Ask | Value::Bare => false,
    }
}

fn check_protocol_text(text: &[u8]) -> bool
    ensures { result ≡ is_protocol text.now }
{
    text == b"p9sk1".as_slice() || text == b"apop".as_slice() || text == b"cram".as_slice()
}

// ---- names

fn check_bad_name(attrs: &[Attr]) -> bool
    ensures { result ≡ has_bad_name attrs.now }
{
    !gives_user(attrs) || check_bad_dom(attrs)
}

fn check_bad_dom(attrs: &[Attr]) -> bool
    ensures { result ≡ (has_name attrs.now (codes "dom")
        && not (gives_once (codes "dom") is_dom attrs.now)) }
{
    has_name(attrs, b"dom".as_slice()) && !gives_dom(attrs)
}

// ---- secrets

fn check_secret(attrs: &[Attr]) -> bool
    ensures { result ≡ has_secret attrs.now }
{
    gives_any(attrs, b"!password".as_slice())
        || check_p9sk1(attrs) && gives_any(attrs, b"!hex".as_slice())
}

fn check_bad_hex(attrs: &[Attr]) -> bool
    ensures { result ≡ is_bad_hex (find (is_named (codes "!hex")) attrs.now) }
{
    match find_named(attrs, b"!hex".as_slice()) {
        Some(attr) => !check_hex_value(&attr.value),
        None => false,
    }
}

fn find_named<'a>(attrs: &'a [Attr], name: &[u8]) -> Option<&'a Attr>
    ensures { option_copied result ≡ find (is_named name.now) attrs.now }
{
    attrs.iter().find(|attr| is_named(attr, name))
}

fn check_hex_value(value: &Value) -> bool
    ensures { result ≡ is_given is_hex_key value.now }
{
    match value {
        Value::Is(text) => decode_key(text.as_slice()).is_some(),
        Value::Ask | Value::Bare => false,
    }
}
