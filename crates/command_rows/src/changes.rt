// Rows that change passwords.
use crate::came::Came;
use crate::memory::{drawn_of, sink_of, source_of};
use crate::stage::{Stage, words_of};
use crate::texts::argument;
use anyhow::bail;
use pass_program::{Event, Log, PassStatus, print_event, print_status, run_pass, run_pass_noting};
use row_files::{Report, Row};
use std::alloc::Global;
use wire_base::{Bytes, Name, TextList};
use wire_streams::{MemSink, MemSource, MemWords};

/// The lines of what was noted, and whether one was lost for want of memory.
#[derive(Drop)]
struct Notes {
    lines: Bytes,
    lost: bool,
}

impl Log for Notes {
    ghost use Rattle.std.specs.Prelude.{None};

    ghost noted = { λ _. None };

    fn note(&mut self, user: &Name<28>, event: Event) {
        if print_event(user, event, &mut self.lines).is_err() {
            self.lost = true;
        }
    }
}

/// What a change of a password works on.
#[derive(Drop)]
struct Changed {
    words: TextList,
    input: MemSource,
    keys: MemSource,
    output: MemSink,
    table: MemSink,
    rand: MemWords,
    notes: Notes,
}

impl Changed {
    // What a row `VERB WORDS INPUT FAULT..` has its change work on.
    fn new(rt: &HostRuntime, stage: &Stage, row: &Row) -> anyhow::Result<Changed> {
        let alloc = rt.alloc();
        let faults = stage.faults_of(row, 3)?;
        let input = stage.bytes_at(rt, row, 2)?;
        Ok(Changed {
            words: words_of(alloc, argument(row, 1)?)?,
            input: source_of(alloc, input.as_slice(), faults.read)?,
            keys: source_of(alloc, stage.keys.as_slice(), faults.keys)?,
            output: sink_of(alloc, b"", faults.write)?,
            table: sink_of(alloc, b"", faults.table)?,
            rand: drawn_of(alloc, stage.drawn.as_slice(), faults.word)?,
            notes: Notes {
                lines: Bytes::new(alloc),
                lost: false,
            },
        })
    }

    // Changes the password, with notes.
    fn change(&mut self, alloc: Global) -> PassStatus {
        run_pass_noting(
            alloc,
            self.words.as_slice(),
            &mut self.input,
            &mut self.keys,
            &mut self.output,
            &mut self.table,
            &mut self.rand,
            &mut self.notes,
        )
    }

    // The same without notes.
    fn change_quietly(&mut self, alloc: Global) -> PassStatus {
        run_pass(
            alloc,
            self.words.as_slice(),
            &mut self.input,
            &mut self.keys,
            &mut self.output,
            &mut self.table,
            &mut self.rand,
        )
    }
}

// Puts a status: its number and its line.
fn put_status(alloc: Global, status: PassStatus, came: &mut Came) -> anyhow::Result<()> {
    let mut line = Bytes::new(alloc);
    print_status(alloc, status, &mut line)?;
    came.put_number(u64::from(status.number()))?;
    Ok(came.put(line.as_slice())?)
}

// Puts a status, what was answered, and the new table.
fn put_change(
    rt: &HostRuntime,
    stage: &Stage,
    row: &Row,
    (status, changed): (PassStatus, &Changed),
    came: &mut Came,
) -> anyhow::Result<()> {
    put_status(rt.alloc(), status, came)?;
    stage
        .texts
        .put_came(rt, row, 2, changed.output.content(), came)?;
    Ok(came.put(changed.table.content())?)
}

// A change, with notes or without.
fn play_change(
    rt: &HostRuntime,
    stage: &Stage,
    row: &Row,
    is_quiet: bool,
    came: &mut Came,
) -> anyhow::Result<()> {
    let mut changed = Changed::new(rt, stage, row)?;
    if is_quiet {
        let status = changed.change_quietly(rt.alloc());
        return put_change(rt, stage, row, (status, &changed), came);
    }
    let status = changed.change(rt.alloc());
    put_change(rt, stage, row, (status, &changed), came)?;
    if changed.notes.lost {
        bail!("a note was lost");
    }
    Ok(came.put(changed.notes.lines.as_slice())?)
}

fn play_row(rt: &HostRuntime, stage: &mut Stage, row: &Row, came: &mut Came) -> anyhow::Result<()> {
    if stage.set(rt, row)? {
        return Ok(());
    }
    match row.word() {
        b"change" => play_change(rt, stage, row, false, came),
        b"quiet" => play_change(rt, stage, row, true, came),
        b"no_memory" => put_status(rt.alloc(), PassStatus::NoMemory, came),
        _ => bail!("no such verb"),
    }
}

/// Plays rows `change WORDS INPUT FAULT..`, and the same by `quiet`, or what stands around those that follow.
pub(crate) fn play(
    rt: &HostRuntime,
    file: &str,
    rows: &[Row],
    report: &mut Report,
) -> anyhow::Result<()> {
    let mut stage = Stage::new(rt.alloc());
    for row in rows {
        let mut came = Came::new(rt.alloc());
        let played = play_row(rt, &mut stage, row, &mut came);
        came.tell(file, row, played, report)?;
    }
    Ok(())
}
