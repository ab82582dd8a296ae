// A script, line by line.
ghost use Rattle.std.specs.Prelude.{◌≡◌, ◌≤◌, ◌^◌, length};
ghost use Rattle.wire_streams.specs.Causes.{CountsOutcome};
ghost use Rattle.world_run.specs.Noting.{NotesScript};
ghost use Rattle.world_run.specs.Runs.{RunsSo, is_fault};

use crate::run::Run;
use crate::stops::{BAD_LINE, Done, Stop};
use auth_program::ScriptCause;
use std::alloc::Global;
use wire_base::NoMemory;
use wire_histories::{Setting, Wire};
use wire_streams::Sink;
use world_history::{Cut, begin_setting, read_tables};
use world_scripts::{BadForm, Line, NumberedLine, ScriptLines, parse_line};

/// The most bytes of a script.
const MOST_SCRIPT: usize = 4194304;

/// How a run ended.
#[derive(Clone, Copy, Debug, PartialEq, Eq)]
pub enum WorldEnd {
    /// All lines were carried out.
    Done,
    /// This line, counted from 1, is the first that was refused.
    Bad { line: u32, cause: ScriptCause },
    /// A line of the record couldn't be written.
    WriteFault,
    NoMemory,
}

impl Run {
    ghost use Rattle.std.specs.Prelude.{◌≡◌, ◌≤◌, true, length};
    ghost use Rattle.wire_streams.specs.Causes.{CountsOutcome};
    ghost use Rattle.world_scripts.specs.Given.{said_number};
    ghost use Rattle.world_scripts.specs.Lines.{is_formed};
    ghost use Rattle.world_scripts.specs.Said.{said_line};
    ghost use Rattle.world_run.specs.Standing.{CarriesBefore, CarriesText, IsShort};
    ghost use Rattle.world_run.specs.Noting.{NotesAll, NotesDone, NotesOne};
    ghost use Rattle.world_run.specs.Playing.{PlaysAll, PlaysOne, write_failed};

    // A line is carried out, before those that are left; its steps.
    fn do_line(&mut self, line: Line<'_>, left: &ScriptLines<'_>) -> Done
        requires { IsShort (said_line line) }
        ensures carried { CarriesBefore left.now (said_line line.entry) self.old result self.new }
        ensures recorded { self.new.recorded ≡ self.old.recorded }
    {
        match line {
            Line::Dom { dom } => self.tell_domain(dom),
            Line::AsKey { tuple } => self.tell_key(tuple),
            Line::AsSpeak { tuple } => self.tell_speak(tuple),
            Line::Reload => self.reload(left),
            Line::Node { node } => self.make(node),
            Line::Restart { node } => self.restart(node),
            Line::Ctl { node, line } => self.tell(node, line),
            Line::Open { node, conv } => self.open(node, conv),
            Line::Start {
                conv,
                random,
                tuple,
            } => self.start(conv, random, tuple),
            Line::Read { conv } => self.get(conv),
            Line::Write { conv, pieces } => self.give(conv, pieces),
            Line::Answer { conv, pieces } => self.answer(conv, pieces),
            Line::NoAnswer { conv } => self.miss(conv),
            Line::AsGive {
                session,
                pieces,
                first,
                second,
                third,
            } => self.serve(session, pieces, first, second, third),
            Line::Close { conv } => self.close(conv),
        }
    }

    // The same of a text, which may be no line. One that is longer than a script is want of memory.
    fn do_text(&mut self, text: &[u8], left: &ScriptLines<'_>) -> Done
        ensures carried { CarriesText text.now left.now self.old result self.new }
        ensures recorded { self.new.recorded ≡ self.old.recorded }
    {
        if text.len() > MOST_SCRIPT {
            return Err(Stop::NoMemory);
        }
        match parse_line(text) {
            Ok(line) => self.do_line(line, left),
            Err(BadForm) => Err(BAD_LINE),
        }
    }

    // The same, and what it changes of the setting is noted.
    fn do_noted(&mut self, text: &[u8], left: &ScriptLines<'_>, setting: &mut Setting) -> Done
        ensures carried { CarriesText text.now left.now self.old result self.new }
        ensures recorded { self.new.recorded ≡ self.old.recorded }
        ensures noted { NotesDone text.now left.now self.old result setting.old setting.new }
    {
        let steps = self.do_text(text, left)?;
        self.note_text(text, left, setting)?;
        Ok(steps)
    }

    // A line is carried out, noted and recorded, before those that are left. The end that it comes to, if it does.
    fn play<W: Sink>(
        &mut self,
        line: NumberedLine<'_>,
        left: &ScriptLines<'_>,
        setting: &mut Setting,
        sink: &mut W,
    ) -> Option<WorldEnd>
        ensures played { PlaysOne (said_number line.entry) left.now self.old result self.new
            (W.holds sink.old) (W.holds sink.new) }
        ensures noted { NotesOne (said_number line.entry) left.now self.old result
            setting.old setting.new }
        ensures counted { W.faults sink.old ≤ W.faults sink.new }
        ensures exact { CountsOutcome (W.faults sink.old) (W.faults sink.new)
            (write_failed result) }
    {
        match self.do_noted(line.text, left, setting) {
            Ok(steps) => match self.recorded.put_all(steps, sink) {
                Ok(()) => None,
                Err(Cut::WriteFault) => Some(WorldEnd::WriteFault),
                Err(Cut::NoMemory) => Some(WorldEnd::NoMemory),
            },
            Err(Stop::Refused(cause)) => match u32::try_from(line.number) {
                Ok(line) => Some(WorldEnd::Bad { line, cause }),
                Err(_) => Some(WorldEnd::NoMemory),
            },
            Err(Stop::NoMemory) => Some(WorldEnd::NoMemory),
        }
    }

    // The lines that are left.
    fn play_all<W: Sink>(
        &mut self,
        mut lines: ScriptLines<'_>,
        setting: &mut Setting,
        sink: &mut W,
    ) -> WorldEnd
        ensures played { PlaysAll lines.entry self.old result self.new
            (W.holds sink.old) (W.holds sink.new) }
        ensures noted { NotesAll lines.entry self.old result setting.old setting.new }
        ensures counted { W.faults sink.old ≤ W.faults sink.new }
        ensures exact { CountsOutcome (W.faults sink.old) (W.faults sink.new) (is_fault result) }
    {
        while let Some(line) = lines.next() {
            if let Some(end) = self.play(line, &lines, setting, sink) {
                return end;
            }
        }
        WorldEnd::Done
    }
}

/// Runs a script as `run_world` does, and hands out beside its record what a test of labels asks of its setting; None
/// where memory ran out before its first line.
pub fn run_world_setting<W: Sink>(
    alloc: Global,
    script: &[u8],
    sink: &mut W,
) -> (Wire, Option<Setting>, WorldEnd)
    requires { length script.now ≤ 2 ^ 22 }
    ensures so { RunsSo result.2 script.now result.0 (W.holds sink.old) (W.holds sink.new) }
    ensures counted { W.faults sink.old ≤ W.faults sink.new }
    ensures exact { CountsOutcome (W.faults sink.old) (W.faults sink.new) (is_fault result.2) }
    ensures noted { NotesScript script.now result.2 result.1 }
{
    let tables = match read_tables(alloc, script) {
        Ok(tables) => tables,
        Err(NoMemory) => return (Wire::new(alloc), None, WorldEnd::NoMemory),
    };
    let mut setting = match begin_setting(alloc, script) {
        Ok(setting) => setting,
        Err(NoMemory) => return (Wire::new(alloc), None, WorldEnd::NoMemory),
    };
    let mut run = Run::new(alloc, tables);
    let end = run.play_all(ScriptLines::new(script), &mut setting, sink);
    (run.recorded.into_steps(), Some(setting), end)
}

/// Runs a script of at most 2^22 bytes with real agents and the real authentication server. The steps of its record are
/// handed out, and the line of each is written as soon as it is made. The steps before a bad line stand.
pub fn run_world<W: Sink>(alloc: Global, script: &[u8], sink: &mut W) -> (Wire, WorldEnd)
    requires { length script.now ≤ 2 ^ 22 }
    ensures so { RunsSo result.1 script.now result.0 (W.holds sink.old) (W.holds sink.new) }
    ensures counted { W.faults sink.old ≤ W.faults sink.new }
    ensures exact { CountsOutcome (W.faults sink.old) (W.faults sink.new) (is_fault result.1) }
{
    let (steps, _setting, end) = run_world_setting(alloc, script, sink);
    (steps, end)
}
