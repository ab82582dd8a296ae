// The public calls of `world_history`.
ghost use Rattle.std.specs.Prelude.{◌≡◌, option_map, slice_get, length, IfOk, OnErr, OnOk, ◌<◌};
ghost use Rattle.world_history.specs.Servers.{is_next, IsToldAgain, IsToldBy};
ghost use Rattle.world_history.specs.Worlds.{messages_in};
ghost use Rattle.world_scripts.specs.Scripts.{script_lines};

use std::alloc::Global;
use wire_base::NoMemory;
use world_history::{Record, Tables};
use world_scripts::ScriptLines;

/// As `Record::message`.
pub fn record_message<'x>(kept: &'x Record, number: u64) -> Option<&'x [u8]>
    ensures { option_map (λ bytes. bytes.now) result
        ≡ slice_get (messages_in kept.now) number }
{
    kept.message(number)
}

/// As `Record::next_message`.
pub fn record_next_message(kept: &Record) -> Result<u32, NoMemory>
    ensures { IfOk result (λ number. number ≡ length (messages_in kept.now)) }
{
    kept.next_message()
}

/// As `Tables::refuses_key`.
pub fn tables_refuses_key(tables: &Tables, before: u32) -> bool
    ensures { result ≡ is_next tables.now.bad_key before }
{
    tables.refuses_key(before)
}

/// As `Tables::refuses_speak`.
pub fn tables_refuses_speak(tables: &Tables, before: u32) -> bool
    ensures { result ≡ is_next tables.now.bad_speak before }
{
    tables.refuses_speak(before)
}

/// As `read_tables`.
pub fn read_tables(alloc: Global, script: &[u8]) -> Result<Tables, NoMemory>
    ensures { IfOk result (λ tables. IsToldBy (script_lines script.now) tables) }
{
    world_history::read_tables(alloc, script)
}

/// As `Tables::read_again`.
pub fn tables_read_again(
    tables: &mut Tables,
    alloc: Global,
    lines: &ScriptLines<'_>,
) -> Result<(), NoMemory>
    ensures told { OnOk result (IsToldAgain lines.now tables.old tables.new) }
    ensures same { OnErr result (tables.new ≡ tables.old) }
{
    tables.read_again(alloc, lines)
}
