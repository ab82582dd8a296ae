// Text: bytes that are UTF-8 and hold no NUL.
ghost use Rattle.std.specs.Prelude.{◌≡◌, length, true, IfOk, IfSome, IsSome, IsTrue, ◌↔◌};
ghost use Rattle.std.specs.Str.{IsUtf8};
ghost use Rattle.wire_base.specs.Texts.{is_text};

use crate::bytes::NoMemory;
use crate::list::List;
use std::alloc::Global;
use std::marker::Model;

/// A text: UTF-8 without NUL, as the strings of 9P are (intro(5) of the Plan 9 manual).
#[derive(Debug, Drop)]
pub struct Text {
    list: Vec<u8>,
}

impl Model for Text {
    ghost use Rattle.std.specs.Prelude.{◌≡◌, ℕ, List, true};
    ghost use Rattle.std.specs.Coded.{coded_list, coded_ℕ};
    ghost use Rattle.wire_base.specs.Texts.{is_text};

    ghost Value = { List ℕ };

    ghost coded = { coded_list coded_ℕ };

    ghost view = { λ t. t.list.items };

    ghost invariant = { λ t. is_text t.list.items ≡ true };
}

#[tactic(auto, using(crate::proofs::TextLemmas::same_test))]
fn check_utf8(input: &[u8]) -> bool
    ensures exactly { IsTrue result ↔ IsUtf8 input.now }
{
    std::str::from_utf8(input).is_ok()
}

/// Whether the bytes are UTF-8 and hold no NUL.
#[tactic(auto, unfolding(crate::specs::Texts::is_text), using(crate::proofs::TextLemmas::same_test))]
pub fn check_text(input: &[u8]) -> bool
    ensures { result ≡ is_text input.now }
{
    !input.contains(&0) && check_utf8(input)
}

impl Text {
    /// A copy of the input, where it is text.
    pub fn from_slice(alloc: Global, input: &[u8]) -> Result<Option<Text>, NoMemory>
        ensures exactly { IfOk result (λ text. IsSome text ↔ (is_text input.now ≡ true)) }
        ensures value { IfOk result (λ text. IfSome text (λ t. t ≡ input.now)) }
    {
        if check_text(input) {
            let list = Vec::from_slice(alloc, input)?;
            Ok(Some(Text { list }))
        } else {
            Ok(None)
        }
    }

    pub fn as_slice(&self) -> &[u8]
        ensures same { result.now ≡ self.now }
        ensures text { is_text result.now ≡ true }
    {
        &self.list
    }

    pub fn len(&self) -> usize
        ensures { result ≡ length self.now }
    {
        self.list.len()
    }

    pub fn copy(&self) -> Result<Text, NoMemory>
        ensures { IfOk result (λ text. text ≡ self.now) }
    {
        let list = self.list.clone()?;
        Ok(Text { list })
    }
}

/// Texts, in order.
pub type TextList = List<Text>;
