// Steps, one behind the other.
ghost use Rattle.std.specs.Prelude.{◌≡◌, ◌∷◌, ◌++◌, ◌+◌, [], OnOk, IfOk};
ghost use Rattle.wire_histories.specs.declared.step.Step.TheVariants.{Reply, Out, In, Refused};

use std::alloc::Global;
use wire_base::{Bytes, NoMemory};
use wire_histories::Step;

/// Puts a step behind others.
pub(crate) fn put(step: Step, steps: &mut Vec<Step>) -> Result<(), NoMemory>
    ensures { OnOk result (steps.new.items ≡ steps.old.items ++ step ∷ []) }
{
    steps.push(step)?;
    Ok(())
}

/// The number behind a message's; want of memory where it has none.
pub(crate) fn next(number: u32) -> Result<u32, NoMemory>
    ensures { IfOk result (λ more. more ≡ number + 1) }
{
    match number.checked_add(1) {
        Some(more) => Ok(more),
        None => Err(NoMemory),
    }
}

/// An answer that is recorded as it is.
pub(crate) fn put_reply(
    alloc: Global,
    conv: &[u8],
    text: &[u8],
    steps: &mut Vec<Step>,
) -> Result<(), NoMemory>
    ensures { OnOk result (steps.new.items ≡ steps.old.items ++ Reply conv.now text.now ∷ []) }
{
    let step = Step::Reply {
        conv: Bytes::from_slice(alloc, conv)?,
        answer: Bytes::from_slice(alloc, text)?,
    };
    put(step, steps)
}

/// A message that is given.
pub(crate) fn put_out(
    alloc: Global,
    number: u32,
    conv: &[u8],
    bytes: &[u8],
    steps: &mut Vec<Step>,
) -> Result<(), NoMemory>
    ensures { OnOk result (steps.new.items
        ≡ steps.old.items ++ Out number conv.now bytes.now ∷ []) }
{
    let step = Step::Out {
        number,
        conv: Bytes::from_slice(alloc, conv)?,
        bytes: Bytes::from_slice(alloc, bytes)?,
    };
    put(step, steps)
}

/// Bytes that are taken.
pub(crate) fn put_taken(
    alloc: Global,
    conv: &[u8],
    bytes: &[u8],
    steps: &mut Vec<Step>,
) -> Result<(), NoMemory>
    ensures { OnOk result (steps.new.items ≡ steps.old.items ++ In conv.now bytes.now ∷ []) }
{
    let step = Step::In {
        conv: Bytes::from_slice(alloc, conv)?,
        bytes: Bytes::from_slice(alloc, bytes)?,
    };
    put(step, steps)
}

/// A line that ctl refuses.
pub(crate) fn put_refused(
    alloc: Global,
    node: &[u8],
    text: &[u8],
    steps: &mut Vec<Step>,
) -> Result<(), NoMemory>
    ensures { OnOk result (steps.new.items
        ≡ steps.old.items ++ Refused node.now text.now ∷ []) }
{
    let step = Step::Refused {
        node: Bytes::from_slice(alloc, node)?,
        answer: Bytes::from_slice(alloc, text)?,
    };
    put(step, steps)
}
