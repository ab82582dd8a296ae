// What a start says.
ghost use Rattle.std.specs.Prelude.{◌≡◌, ◌∷◌, ◌++◌, [], OnOk, IfOk};
ghost use Rattle.key_lists.specs.CtlLines.{few_of};
ghost use Rattle.world_history.specs.Talking.{protocol_named, role_named, start_step, tuple_in};

use crate::steps::put;
use attr_tuples::Tuple;
use conversations::read_template;
use roles::says;
use std::alloc::Global;
use wire_base::{Bytes, NoMemory};
use wire_histories::{Protocol, Role, Step};

// The tuple of a start; an empty one where the text is none, or has too many attributes.
fn read_tuple(alloc: Global, text: &[u8]) -> Result<Tuple, NoMemory>
    ensures { IfOk result (λ tuple. tuple ≡ tuple_in (few_of text.now)) }
{
    match read_template(alloc, text)? {
        Some(tuple) => Ok(tuple),
        None => Ok(Tuple::new(alloc)),
    }
}

fn protocol_named(tuple: &Tuple) -> Protocol
    ensures { result ≡ protocol_named tuple.now }
{
    if says(tuple, b"proto", b"p9any") {
        return Protocol::P9any;
    }
    if says(tuple, b"proto", b"apop") {
        return Protocol::Apop;
    }
    if says(tuple, b"proto", b"cram") {
        return Protocol::Cram;
    }
    Protocol::P9sk1
}

fn role_named(tuple: &Tuple) -> Role
    ensures { result ≡ role_named tuple.now }
{
    if says(tuple, b"role", b"speakfor") {
        return Role::Speakfor;
    }
    if says(tuple, b"role", b"server") {
        return Role::Server;
    }
    Role::Client
}

/// A start by a tuple, with a random word.
#[tactic(auto, unfolding(world_history::specs::Talking::start_step))]
pub(crate) fn put_start(
    alloc: Global,
    conv: &[u8],
    word: [u8; 8],
    text: &[u8],
    steps: &mut Vec<Step>,
) -> Result<(), NoMemory>
    ensures { OnOk result (steps.new.items
        ≡ steps.old.items ++ start_step conv.now word text.now ∷ []) }
{
    let tuple = read_tuple(alloc, text)?;
    let step = Step::Start {
        conv: Bytes::from_slice(alloc, conv)?,
        protocol: protocol_named(&tuple),
        role: role_named(&tuple),
        word,
    };
    put(step, steps)
}
