// What the line of a question says.
ghost use Rattle.std.specs.Prelude.{◌≡◌, true, IfOk};
ghost use Rattle.attr_tuples.specs.Attributes.{is_tuple};
ghost use Rattle.attr_tuples.specs.Grammar.{tuple_of};
ghost use Rattle.side_files.specs.Reading.{asks, number_in, question_of, tag_in, without_newline, question_in};

use crate::decimal::parse_decimal;
use attr_tuples::{Attr, Tuple, TupleFault, Value, is_named, parse_tuple};
use std::alloc::Global;
use wire_base::NoMemory;

/// A question that is asked of people. It has no Debug, as tuples have none.
#[derive(Drop)]
pub struct Question {
    /// Whether a key may be used is asked, and else for a key.
    pub confirm: bool,
    /// Its reply names this tag.
    pub tag: u64,
    /// The public attributes of the key that may be used, or the template that a key is to match.
    pub tuple: Tuple,
}

/// Reads the line of a question: `confirm ` or `needkey ` and a tuple whose first attribute is `tag=N`, N being a decimal
/// number below 2^64. One newline at its end counts for nothing. None exactly where the line isn't so.
#[tactic(auto, unfolding(crate::specs::Reading::question_of))]
pub fn parse_question(alloc: Global, line: &[u8]) -> Result<Option<Question>, NoMemory>
    ensures { IfOk result (λ question. question ≡ question_of line.now) }
{
    let line = without_newline(line);
    if let Some(text) = line.strip_prefix(b"confirm ".as_slice()) {
        return read_question(alloc, true, text);
    }
    if let Some(text) = line.strip_prefix(b"needkey ".as_slice()) {
        return read_question(alloc, false, text);
    }
    Ok(None)
}

pub(crate) fn without_newline(line: &[u8]) -> &[u8]
    ensures { result.now ≡ without_newline line.now }
{
    match line {
        [front @ .., b'\n'] => front,
        _ => line,
    }
}

// The question that stands behind the verb.
fn read_question(alloc: Global, confirm: bool, text: &[u8]) -> Result<Option<Question>, NoMemory>
    ensures { IfOk result (λ question. question ≡ asks confirm (tuple_of text.now)) }
{
    match parse_tuple(alloc, text) {
        Ok(tuple) => split_tuple(alloc, confirm, &tuple),
        Err(TupleFault::NotText { .. }) => Ok(None),
        Err(TupleFault::Quote { .. }) => Ok(None),
        Err(TupleFault::Name { .. }) => Ok(None),
        Err(TupleFault::TooMany) => Ok(None),
        Err(TupleFault::NoMemory) => Err(NoMemory),
    }
}

fn split_tuple(alloc: Global, confirm: bool, tuple: &Tuple) -> Result<Option<Question>, NoMemory>
    ensures { IfOk result (λ question. question ≡ question_in confirm tuple.now) }
{
    let [first, others @ ..] = tuple.attrs() else {
        return Ok(None);
    };
    let Some(tag) = tag_in(first) else {
        return Ok(None);
    };
    let tuple = copy_attrs(alloc, others)?;
    Ok(Some(Question {
        confirm,
        tag,
        tuple,
    }))
}

fn tag_in(attr: &Attr) -> Option<u64>
    ensures { result ≡ tag_in attr.now }
{
    if is_named(attr, b"tag".as_slice()) {
        number_in(&attr.value)
    } else {
        None
    }
}

pub(crate) fn number_in(value: &Value) -> Option<u64>
    ensures { result ≡ number_in value.now }
{
    match value {
        Value::Is(text) => parse_decimal(text.as_slice()),
        Value::Ask | Value::Bare => None,
    }
}

// The tuple of attributes that stand behind others in one.
fn copy_attrs(alloc: Global, attrs: &[Attr]) -> Result<Tuple, NoMemory>
    requires { is_tuple attrs.now ≡ true }
    ensures { IfOk result (λ tuple. tuple ≡ attrs.now) }
{
    let mut tuple = Tuple::new(alloc);
    for attr in attrs {
        tuple.push(attr.copy()?)?;
    }
    Ok(tuple)
}
