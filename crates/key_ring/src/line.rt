// One line of ctl.
ghost use Rattle.std.specs.Prelude.{◌≡◌, nat_le, length, false, None, Some, IfOk, Ok, if◌then◌else◌};
ghost use Rattle.key_lists.specs.Edits.{Add, Delete};
ghost use Rattle.key_lists.specs.CtlLines.{few_of, line_with, most_attrs, read_line};
ghost use Rattle.key_ring.specs.Faults.{has_tuple_verb};
ghost use Rattle.key_ring.specs.WriteSteps.{bare_line, said_by};

use crate::fault::LineFault;
use attr_tuples::{Tuple, TupleFault, parse_tuple};
use key_lists::Edit;
use std::alloc::Global;
use wire_base::NoMemory;

const MOST_ATTRIBUTES: usize = 32;

/// What a line says. It has no Debug, which would print the secrets of its key.
#[derive(Drop)]
pub enum Said {
    /// An edit of the keys.
    OnKeys(Edit),
    /// The further lines of the log are switched on or off.
    Debug,
    /// Nothing that can be read.
    Nothing(LineFault),
}

/// Reads a line, which isn't empty. A verb that isn't known is refused before memory is taken: a tuple alone takes any.
#[tactic(auto, unfolding(key_lists::specs::CtlLines::read_line))]
pub fn read_line(alloc: Global, line: &[u8]) -> Result<Said, NoMemory>
    ensures said { IfOk result (λ said. said_by said ≡ read_line line.now) }
    ensures bare { has_tuple_verb line.now ≡ false → result ≡ Ok (bare_line line.now) }
{
    if let Some(key) = line.strip_prefix(b"key ".as_slice()) {
        return read_key(alloc, key);
    }
    if let Some(template) = line.strip_prefix(b"delkey ".as_slice()) {
        return read_template(alloc, template);
    }
    if line == b"debug".as_slice() {
        return Ok(Said::Debug);
    }
    Ok(Said::Nothing(LineFault::UnknownVerb))
}

fn read_key(alloc: Global, text: &[u8]) -> Result<Said, NoMemory>
    ensures { IfOk result (λ said. said_by said ≡ line_with Add (few_of text.now)) }
{
    match read_tuple(alloc, text)? {
        Some(key) => Ok(Said::OnKeys(Edit::Add(key))),
        None => Ok(Said::Nothing(LineFault::BadTuple)),
    }
}

fn read_template(alloc: Global, text: &[u8]) -> Result<Said, NoMemory>
    ensures { IfOk result (λ said. said_by said ≡ line_with Delete (few_of text.now)) }
{
    match read_tuple(alloc, text)? {
        Some(template) => Ok(Said::OnKeys(Edit::Delete(template))),
        None => Ok(Said::Nothing(LineFault::BadTuple)),
    }
}

// The tuple that a text is, if it has few enough attributes.
fn read_tuple(alloc: Global, text: &[u8]) -> Result<Option<Tuple>, NoMemory>
    ensures { IfOk result (λ tuple. tuple ≡ few_of text.now) }
{
    match parse_tuple(alloc, text) {
        Ok(tuple) => Ok(limit_tuple(tuple)),
        Err(TupleFault::NotText { .. }) => Ok(None),
        Err(TupleFault::Quote { .. }) => Ok(None),
        Err(TupleFault::Name { .. }) => Ok(None),
        Err(TupleFault::TooMany) => Ok(None),
        Err(TupleFault::NoMemory) => Err(NoMemory),
    }
}

fn limit_tuple(tuple: Tuple) -> Option<Tuple>
    ensures { result ≡ (if nat_le (length tuple) most_attrs then Some tuple else None) }
{
    if tuple.attrs().len() <= MOST_ATTRIBUTES {
        Some(tuple)
    } else {
        None
    }
}
