// What is noted of the setting of a script's record ahead of its lines: the server's domain, and its tables.
ghost use Rattle.std.specs.Prelude.{OnOk, IfOk};
ghost use Rattle.world_scripts.specs.Scripts.{script_lines};
ghost use Rattle.world_history.specs.NotingFronts.{BeginsSo, NotesTables};

use crate::domains::{ToldDomain, find_domain};
use crate::tables::read_lines;
use std::alloc::Global;
use wire_base::NoMemory;
use wire_histories::Setting;
use world_scripts::ScriptLines;

/// The tables of which lines tell are noted. Where memory runs out, nothing is.
pub fn note_told_tables(
    alloc: Global,
    lines: &ScriptLines<'_>,
    setting: &mut Setting,
) -> Result<(), NoMemory>
    ensures { OnOk result (NotesTables lines.now setting.old setting.new) }
{
    let read = read_lines(alloc, lines)?;
    setting.note_tables(read.keys, read.speaks)
}

/// The setting of a script's record before its first line: its server's domain as the lines before the first request to
/// it tell it, and the first tables as those before that and before the first reading again.
pub fn begin_setting(alloc: Global, script: &[u8]) -> Result<Setting, NoMemory>
    ensures { IfOk result (λ setting. BeginsSo (script_lines script.now) setting) }
{
    let lines = ScriptLines::new(script);
    let ToldDomain { dom } = find_domain(alloc, lines.rest())?;
    let mut setting = Setting::new(alloc, dom);
    note_told_tables(alloc, &lines, &mut setting)?;
    Ok(setting)
}
