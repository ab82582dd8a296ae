// The lines of a script that tell of the tables of its server, gathered as a text for each.
ghost use Rattle.std.specs.Prelude.{◌≡◌, ◌∷◌, ◌++◌, [], IfOk, OnOk};
ghost use Rattle.world_history.specs.Told.{ends_tables, gathered_behind, nothing, told};

use std::alloc::Global;
use std::marker::Model;
use wire_base::{Bytes, NoMemory};
use world_scripts::{BadForm, Line, ScriptLines, parse_line};

/// What was gathered. Each line of a table has a newline behind it.
#[derive(Drop)]
pub(crate) struct Gathering {
    pub(crate) keys: Bytes,
    pub(crate) speaks: Bytes,
}

impl Model for Gathering {
    ghost use Rattle.world_history.specs.Told.{Gathered};

    ghost Value = { Gathered };

    ghost view = { λ g. record { keys = g.keys; speaks = g.speaks } };
}

// One more line of a table.
fn put_line(tuple: &[u8], table: &mut Bytes) -> Result<(), NoMemory>
    ensures { OnOk result (table.new ≡ table.old ++ (tuple.now ++ 10 ∷ [])) }
{
    table.append(tuple)?;
    table.push(b'\n')
}

impl Gathering {
    ghost use Rattle.std.specs.Prelude.{◌≡◌, [], List, Some, IfOk, if◌then◌else◌};
    ghost use Rattle.world_scripts.specs.Lines.{ScriptLine};
    ghost use Rattle.world_scripts.specs.Reading.{line_of};
    ghost use Rattle.world_scripts.specs.Said.{said_line};
    ghost use Rattle.world_history.specs.Told.{ends_tables, gathered_behind, nothing, told_on};

    // Nothing yet.
    fn new(alloc: Global) -> Gathering
        ensures { result ≡ nothing }
    {
        Gathering {
            keys: Bytes::new(alloc),
            speaks: Bytes::new(alloc),
        }
    }

    // A line is taken. Whether those behind it are, too.
    fn take_line(&mut self, line: Line<'_>) -> Result<bool, NoMemory>
        ensures { IfOk result (λ goes_on. (more : List ScriptLine)
            → gathered_behind self.old (told_on ends_tables (Some (said_line line.entry)) more)
            ≡ gathered_behind self.new (if goes_on then more else [])) }
    {
        match line {
            Line::AsKey { tuple } => put_line(tuple, &mut self.keys)?,
            Line::AsSpeak { tuple } => put_line(tuple, &mut self.speaks)?,
            Line::AsGive { .. } | Line::Reload => return Ok(false),
            Line::Dom { .. }
            | Line::Node { .. }
            | Line::Restart { .. }
            | Line::Ctl { .. }
            | Line::Open { .. }
            | Line::Start { .. }
            | Line::Read { .. }
            | Line::Write { .. }
            | Line::Answer { .. }
            | Line::NoAnswer { .. }
            | Line::Close { .. } => {}
        }
        Ok(true)
    }

    // The same of a text, which may be no line.
    fn take_text(&mut self, text: &[u8]) -> Result<bool, NoMemory>
        ensures { IfOk result (λ goes_on. (more : List ScriptLine)
            → gathered_behind self.old (told_on ends_tables (line_of text.now) more)
            ≡ gathered_behind self.new (if goes_on then more else [])) }
    {
        match parse_line(text) {
            Ok(line) => self.take_line(line),
            Err(BadForm) => Ok(false),
        }
    }
}

/// What lines tell of the tables.
pub(crate) fn gather(alloc: Global, mut lines: ScriptLines<'_>) -> Result<Gathering, NoMemory>
    ensures { IfOk result (λ gathering. gathering
        ≡ gathered_behind nothing (told ends_tables lines.entry)) }
{
    let mut gathering = Gathering::new(alloc);
    while let Some(line) = lines.next() {
        if !gathering.take_text(line.text)? {
            return Ok(gathering);
        }
    }
    Ok(gathering)
}
