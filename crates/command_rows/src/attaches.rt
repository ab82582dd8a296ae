// Rows that serve a connection to a file server that asks an agent.
use crate::came::Came;
use crate::memory::{drawn_of, sink_of, source_of};
use crate::stage::{Stage, words_of};
use crate::texts::argument;
use anyhow::bail;
use attach_program::{
    AttachStatus, Log, print_attach, print_status, run_attach, run_attach_noting,
};
use row_files::{Report, Row};
use std::alloc::Global;
use wire_base::{Bytes, TextList};
use wire_streams::{MemSink, MemSource, MemWords};

/// The lines of what was noted, and whether one was lost for want of memory.
#[derive(Drop)]
struct Notes {
    lines: Bytes,
    lost: bool,
}

impl Log for Notes {
    ghost use Rattle.std.specs.Prelude.{None};

    ghost noted = { λ _. None };

    fn note(&mut self, uname: &[u8], refusal: Option<&[u8]>) {
        if print_attach(uname, refusal, &mut self.lines).is_err() {
            self.lost = true;
        }
    }
}

/// What a connection is served by.
#[derive(Drop)]
struct Served {
    words: TextList,
    input: MemSource,
    keys: MemSource,
    output: MemSink,
    rand: MemWords,
    notes: Notes,
}

impl Served {
    // What a row `VERB WORDS INPUT FAULT..` has its connection served by.
    fn new(rt: &HostRuntime, stage: &Stage, row: &Row) -> anyhow::Result<Served> {
        let alloc = rt.alloc();
        let faults = stage.faults_of(row, 3)?;
        let input = stage.bytes_at(rt, row, 2)?;
        Ok(Served {
            words: words_of(alloc, argument(row, 1)?)?,
            input: source_of(alloc, input.as_slice(), faults.read)?,
            keys: source_of(alloc, stage.keys.as_slice(), faults.keys)?,
            output: sink_of(alloc, b"", faults.write)?,
            rand: drawn_of(alloc, stage.drawn.as_slice(), faults.word)?,
            notes: Notes {
                lines: Bytes::new(alloc),
                lost: false,
            },
        })
    }

    // Serves it, with notes.
    fn serve(&mut self, alloc: Global) -> AttachStatus {
        run_attach_noting(
            alloc,
            self.words.as_slice(),
            &mut self.input,
            &mut self.keys,
            &mut self.output,
            &mut self.rand,
            &mut self.notes,
        )
    }

    // The same without notes.
    fn serve_quietly(&mut self, alloc: Global) -> AttachStatus {
        run_attach(
            alloc,
            self.words.as_slice(),
            &mut self.input,
            &mut self.keys,
            &mut self.output,
            &mut self.rand,
        )
    }
}

// Puts a status: its number and its line.
fn put_status(alloc: Global, status: AttachStatus, came: &mut Came) -> anyhow::Result<()> {
    let mut line = Bytes::new(alloc);
    print_status(alloc, status, &mut line)?;
    came.put_number(u64::from(status.number()))?;
    Ok(came.put(line.as_slice())?)
}

// Puts a status and what was written.
fn put_served(
    rt: &HostRuntime,
    stage: &Stage,
    row: &Row,
    (status, served): (AttachStatus, &Served),
    came: &mut Came,
) -> anyhow::Result<()> {
    put_status(rt.alloc(), status, came)?;
    stage
        .texts
        .put_came(rt, row, 2, served.output.content(), came)
}

// A connection, with notes or without.
fn play_connection(
    rt: &HostRuntime,
    stage: &Stage,
    row: &Row,
    is_quiet: bool,
    came: &mut Came,
) -> anyhow::Result<()> {
    let mut served = Served::new(rt, stage, row)?;
    if is_quiet {
        let status = served.serve_quietly(rt.alloc());
        return put_served(rt, stage, row, (status, &served), came);
    }
    let status = served.serve(rt.alloc());
    put_served(rt, stage, row, (status, &served), came)?;
    if served.notes.lost {
        bail!("a note was lost");
    }
    Ok(came.put(served.notes.lines.as_slice())?)
}

fn play_row(rt: &HostRuntime, stage: &mut Stage, row: &Row, came: &mut Came) -> anyhow::Result<()> {
    if stage.set(rt, row)? {
        return Ok(());
    }
    match row.word() {
        b"attach" => play_connection(rt, stage, row, false, came),
        b"quiet" => play_connection(rt, stage, row, true, came),
        b"no_memory" => put_status(rt.alloc(), AttachStatus::NoMemory, came),
        b"flood" => put_status(rt.alloc(), AttachStatus::Flood { limit: 1 << 40 }, came),
        _ => bail!("no such verb"),
    }
}

/// Plays rows `attach WORDS INPUT FAULT..`, and the same by `quiet`, or what stands around those that follow.
pub(crate) fn play(
    rt: &HostRuntime,
    file: &str,
    rows: &[Row],
    report: &mut Report,
) -> anyhow::Result<()> {
    let mut stage = Stage::new(rt.alloc());
    for row in rows {
        let mut came = Came::new(rt.alloc());
        let played = play_row(rt, &mut stage, row, &mut came);
        came.tell(file, row, played, report)?;
    }
    Ok(())
}
