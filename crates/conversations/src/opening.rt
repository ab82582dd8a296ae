// How a conversation is started.
ghost use Rattle.std.specs.Prelude.{◌≡◌, ◌≢◌, IfOk, IfSome, Some, None, length, nat_le, true, if◌then◌else◌};
ghost use Rattle.key_lists.specs.CtlLines.{few_of, most_attrs};
ghost use Rattle.roles.specs.Starts.{fits_start};
ghost use Rattle.talks.specs.Answers.{start_answer};
ghost use Rattle.conversations.specs.Begins.{Opens};

use crate::begun::Begun;
use attr_tuples::{Tuple, TupleFault, parse_tuple};
use roles::{Machine, StartFault};
use std::alloc::Global;
use talks::{Conv, RpcAnswer};
use wire_base::NoMemory;

const MOST_ATTRIBUTES: usize = 32;

/// A start that was tried.
#[derive(Drop)]
pub enum Opening {
    Refused(RpcAnswer),
    Started(Begun),
}

/// The template that a text is, if it has few enough attributes.
pub fn read_template(alloc: Global, text: &[u8]) -> Result<Option<Tuple>, NoMemory>
    ensures value { IfOk result (λ template. template ≡ few_of text.now) }
    ensures fits { IfOk result (λ template. IfSome template (λ t. fits_start t ≡ true)) }
{
    match parse_tuple(alloc, text) {
        Ok(template) => Ok(limit_template(template)),
        Err(TupleFault::NotText { .. }) => Ok(None),
        Err(TupleFault::Quote { .. }) => Ok(None),
        Err(TupleFault::Name { .. }) => Ok(None),
        Err(TupleFault::TooMany) => Ok(None),
        Err(TupleFault::NoMemory) => Err(NoMemory),
    }
}

#[tactic(auto, using(crate::proofs::TemplateLemmas::few_fit))]
fn limit_template(template: Tuple) -> Option<Tuple>
    ensures value { result
        ≡ (if nat_le (length template) most_attrs then Some template else None) }
    ensures fits { IfSome result (λ t. fits_start t ≡ true) }
{
    if template.attrs().len() <= MOST_ATTRIBUTES {
        Some(template)
    } else {
        None
    }
}

/// Starts a conversation by a template, with a random word.
pub fn open(alloc: Global, template: Tuple, word: [u8; 8]) -> Result<Opening, NoMemory>
    requires { fits_start template ≡ true }
    ensures { IfOk result (λ opening. Opens opening template word) }
{
    match Conv::start(alloc, &template, word) {
        Ok(machine) => Ok(Opening::Started(Begun {
            machine,
            template,
            key: None,
        })),
        Err(fault) => match answer_fault(fault) {
            Some(answer) => Ok(Opening::Refused(answer)),
            None => Err(NoMemory),
        },
    }
}

// The answer to a start that is refused for another reason than want of memory.
fn answer_fault(fault: StartFault) -> Option<RpcAnswer>
    ensures told { IfSome result (λ answer. answer ≡ start_answer fault) }
    ensures memory { IfSome result (λ answer. fault ≢ StartFault.NoMemory) }
{
    match fault {
        StartFault::SecretValue => Some(RpcAnswer::SecretInTemplate),
        StartFault::UnknownProto => Some(RpcAnswer::UnknownProto),
        StartFault::UnknownRole => Some(RpcAnswer::UnknownRole),
        StartFault::BadUser => Some(RpcAnswer::BadUser),
        StartFault::NoMemory => None,
    }
}
