// An attribute: its name, and what it says of its value.
ghost use Rattle.std.specs.Prelude.{◌≡◌, true, IfOk};
ghost use Rattle.wire_base.specs.Texts.{is_text};

use std::alloc::Global;
use wire_base::{NoMemory, Text};

/// What an attribute says of its value. It has no Debug, which would print a secret.
#[derive(Drop)]
pub enum Value {
    /// It is this text.
    Is(Text),
    /// It is asked for.
    Ask,
    /// The attribute is its name alone.
    Bare,
}

/// An attribute of a key or a template (factotum(4) of the Plan 9 manual). It has no Debug, which would print a
/// secret.
#[derive(Drop)]
pub struct Attr {
    pub name: Text,
    pub value: Value,
}

impl Value {
    pub fn copy(&self) -> Result<Value, NoMemory>
        ensures { IfOk result (λ value. value ≡ self.now) }
    {
        match self {
            Value::Is(text) => {
                let text = text.copy()?;
                Ok(Value::Is(text))
            }
            Value::Ask => Ok(Value::Ask),
            Value::Bare => Ok(Value::Bare),
        }
    }
}

impl Attr {
    pub fn copy(&self) -> Result<Attr, NoMemory>
        ensures { IfOk result (λ attr. attr ≡ self.now) }
    {
        let name = self.name.copy()?;
        let value = self.value.copy()?;
        Ok(Attr { name, value })
    }
}

// A copy of bytes that are text.
pub(crate) fn build_text(alloc: Global, bytes: &[u8]) -> Result<Text, NoMemory>
    requires { is_text bytes.now ≡ true }
    ensures { IfOk result (λ text. text ≡ bytes.now) }
{
    match Text::from_slice(alloc, bytes)? {
        Some(text) => Ok(text),
        None => unreachable!(),
    }
}
