// What is asked of a machine of any role.
ghost use Rattle.std.specs.Prelude.{◌≡◌, option_map};
ghost use Rattle.roles.specs.Answers.{Keeps, KeepsAlways, Puts, Shows, TakesBack, Tells, TellsAlways};
ghost use Rattle.roles.specs.Talks.{found, get, give, heard, roomless, undone, unheard};
ghost use Rattle.roles.specs.declared.answer.Gave.TheVariants.{NoMemory};

use roles::{Gave, Machine, Need, Outcome, SkKey};
use std::alloc::Global;
use wire_base::{Bytes, Text};

/// As `Machine::give`.
pub fn take_message<M: Machine>(machine: &mut M, alloc: Global, bytes: &[u8]) -> Gave
    ensures told { Tells M.stands M.answers machine.old result (give bytes.now) }
    ensures kept { Keeps M.stands machine.old machine.new result (give bytes.now) }
    ensures unchanged { result ≡ NoMemory → machine.new ≡ machine.old }
{
    machine.give(alloc, bytes)
}

/// As `Machine::get`.
pub fn put_message<M: Machine>(machine: &mut M, out: &mut Bytes) -> Gave
    ensures told { Tells M.stands M.answers machine.old result get }
    ensures put { Puts M.stands M.puts machine.old result get out.old out.new }
    ensures kept { Keeps M.stands machine.old machine.new result get }
    ensures unchanged { result ≡ NoMemory → machine.new ≡ machine.old }
{
    machine.get(out)
}

/// As `Machine::with_answer`.
pub fn hear_answer<M: Machine>(machine: &mut M, alloc: Global, answer: &[u8]) -> Gave
    ensures told { Tells M.stands M.answers machine.old result (heard answer.now) }
    ensures kept { Keeps M.stands machine.old machine.new result (heard answer.now) }
    ensures unchanged { result ≡ NoMemory → machine.new ≡ machine.old }
{
    machine.with_answer(alloc, answer)
}

/// As `Machine::without_answer`.
pub fn hear_nothing<M: Machine>(machine: &mut M) -> Gave
    ensures told { TellsAlways M.stands M.answers machine.old result unheard }
    ensures kept { KeepsAlways M.stands machine.old machine.new unheard }
{
    machine.without_answer()
}

/// As `Machine::without_room`.
pub fn lack_room<M: Machine>(machine: &mut M) -> Gave
    ensures told { TellsAlways M.stands M.answers machine.old result roomless }
    ensures kept { KeepsAlways M.stands machine.old machine.new roomless }
{
    machine.without_room()
}

/// As `Machine::undo_need`.
pub fn undo_need<M: Machine>(machine: &mut M)
    ensures kept { KeepsAlways M.stands machine.old machine.new undone }
    ensures back { TakesBack M.stands M.needs machine.old machine.new }
{
    machine.undo_need()
}

/// As `Machine::has_ended`.
pub fn has_ended<M: Machine>(machine: &M) -> bool
    ensures { Shows M.stands M.ended machine.now result }
{
    machine.has_ended()
}
