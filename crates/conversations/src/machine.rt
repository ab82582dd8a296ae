// The calls of the machine, where want of memory is an error.
ghost use Rattle.std.specs.Prelude.{◌≡◌, [], IfOk, OnErr, option_map};
ghost use Rattle.roles.specs.Talks.{found, get, give, heard};
ghost use Rattle.conversations.specs.Begins.{Made, Got};

use roles::{Gave, Machine, SkKey};
use std::alloc::Global;
use talks::Conv;
use wire_base::{Bytes, NoMemory, Text};

pub fn give_message(machine: &mut Conv, alloc: Global, bytes: &[u8]) -> Result<Gave, NoMemory>
    ensures made { IfOk result (λ gave. Made machine.old machine.new (give bytes.now) gave) }
    ensures unchanged { OnErr result (machine.new ≡ machine.old) }
{
    match machine.give(alloc, bytes) {
        Gave::NoMemory => Err(NoMemory),
        gave => Ok(gave),
    }
}

/// Gets a message into bytes that are empty.
pub fn get_message(machine: &mut Conv, out: &mut Bytes) -> Result<Gave, NoMemory>
    requires { out.old ≡ [] }
    ensures made { IfOk result (λ gave. Made machine.old machine.new get gave) }
    ensures got { IfOk result (λ gave. Got machine.old out.new) }
    ensures unchanged { OnErr result (machine.new ≡ machine.old) }
{
    match machine.get(out) {
        Gave::NoMemory => Err(NoMemory),
        gave => Ok(gave),
    }
}

pub fn give_key(
    machine: &mut Conv,
    alloc: Global,
    key: &SkKey,
    password: Option<&Text>,
) -> Result<Gave, NoMemory>
    ensures made { IfOk result (λ gave. Made machine.old machine.new
        (found key.now (option_map (λ text. text.now) password.entry)) gave) }
    ensures unchanged { OnErr result (machine.new ≡ machine.old) }
{
    match machine.with_key(alloc, key, password) {
        Gave::NoMemory => Err(NoMemory),
        gave => Ok(gave),
    }
}

pub fn give_answer(machine: &mut Conv, alloc: Global, answer: &[u8]) -> Result<Gave, NoMemory>
    ensures made { IfOk result (λ gave. Made machine.old machine.new (heard answer.now) gave) }
    ensures unchanged { OnErr result (machine.new ≡ machine.old) }
{
    match machine.with_answer(alloc, answer) {
        Gave::NoMemory => Err(NoMemory),
        gave => Ok(gave),
    }
}
