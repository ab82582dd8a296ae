// A tuple: attributes in order, each such as a line of text can give.
ghost use Rattle.std.specs.Prelude.{◌≡◌, [], ◌∷◌, ◌++◌, ◌&&◌, nat_lt, length, true, IfOk, OnErr, if◌then◌else◌};
ghost use Rattle.std.specs.List.{list_all};
ghost use Rattle.attr_tuples.specs.Lines.{is_line_byte};
ghost use Rattle.wire_base.specs.Texts.{is_text};
ghost use Rattle.attr_tuples.specs.Attributes.{is_attr, is_tuple, is_name, is_value, is_name_byte};

use crate::attr::{Attr, Value};
use crate::line::check_line_byte;
use std::alloc::Global;
use std::marker::Model;
use wire_base::{NoMemory, Text};

pub(crate) const MOST_ATTRIBUTES: usize = 36;

/// At most 36 attributes in order, as one line of text can give them. It has no Debug, which would print their
/// secrets.
#[derive(Drop)]
pub struct Tuple {
    list: Vec<Attr>,
}

impl Model for Tuple {
    ghost use Rattle.std.specs.Prelude.{◌≡◌, List, true};
    ghost use Rattle.attr_tuples.specs.declared.attr.Attr.{Attr};
    ghost use Rattle.attr_tuples.specs.Attributes.{is_tuple};

    ghost Value = { List Attr };

    ghost view = { λ t. t.list.items };

    ghost invariant = { λ t. is_tuple t.list.items ≡ true };
}

fn check_name_byte(byte: u8) -> bool
    ensures { result ≡ is_name_byte byte }
{
    byte > b' ' && byte != b'\'' && byte != b'=' && byte != b'?'
}

fn check_name_bytes(bytes: &[u8]) -> bool
    ensures { result ≡ list_all is_name_byte bytes.now }
{
    bytes.iter().all(|byte| check_name_byte(*byte))
}

fn check_line_bytes(bytes: &[u8]) -> bool
    ensures { result ≡ list_all is_line_byte bytes.now }
{
    bytes.iter().all(|byte| check_line_byte(*byte))
}

pub(crate) fn check_name(bytes: &[u8]) -> bool
    requires { is_text bytes.now ≡ true }
    ensures { result ≡ is_name bytes.now }
{
    !bytes.is_empty() && bytes != b"!".as_slice() && check_name_bytes(bytes)
}

fn check_value(value: &Value) -> bool
    ensures { result ≡ is_value value.now }
{
    match value {
        Value::Is(text) => check_line_bytes(text.as_slice()),
        Value::Ask | Value::Bare => true,
    }
}

fn check_attr(attr: &Attr) -> bool
    ensures { result ≡ is_attr attr.now }
{
    check_name(attr.name.as_slice()) && check_value(&attr.value)
}

impl Tuple {
    /// No attributes. It takes no memory.
    pub fn new(alloc: Global) -> Tuple
        ensures { result ≡ [] }
    {
        Tuple {
            list: Vec::new(alloc),
        }
    }

    // The tuple of attributes that are one.
    pub(crate) fn from_vec(list: Vec<Attr>) -> Tuple
        requires { is_tuple list.items ≡ true }
        ensures { result ≡ list.items }
    {
        Tuple { list }
    }

    pub(crate) fn into_vec(self) -> Vec<Attr>
        ensures same { result.items ≡ self }
        ensures valid { is_tuple result.items ≡ true }
    {
        self.list
    }

    pub fn attrs(&self) -> &[Attr]
        ensures same { result.now ≡ self.now }
        ensures valid { is_tuple result.now ≡ true }
    {
        &self.list
    }

    /// Puts an attribute last. False exactly where 36 stand or a line of text can't give the attribute; it is
    /// dropped then, and nothing changes.
    pub fn push(&mut self, attr: Attr) -> Result<bool, NoMemory>
        ensures answer { IfOk result (λ put. put ≡ (nat_lt (length self.old) 36 && is_attr attr)) }
        ensures put { IfOk result
            (λ put. self.new ≡ (if put then self.old ++ attr ∷ [] else self.old)) }
        ensures err { OnErr result (self.new ≡ self.old) }
    {
        if self.list.len() >= MOST_ATTRIBUTES || !check_attr(&attr) {
            return Ok(false);
        }
        self.list.push(attr)?;
        Ok(true)
    }

    pub fn copy(&self) -> Result<Tuple, NoMemory>
        ensures { IfOk result (λ tuple. tuple ≡ self.now) }
    {
        let attrs = self.attrs();
        let mut list = Vec::new(*self.list.allocator());
        for attr in attrs {
            list.push(attr.copy()?)?;
        }
        Ok(Tuple::from_vec(list))
    }
}
