// Rows that carry out commands on objects in memory and on files.
use crate::came::Came;
use crate::memory::{Around, Memory};
use crate::stage::Stage;
use crate::texts::argument;
use crate::{hearing, pieces, real_files, rooms};
use anyhow::bail;
use row_files::{Report, Row};
use wire_base::Shape;
use wire_streams::{Got, Made, MemSource, Outcome, Source};

// Puts what the next read gives: its bytes, or that it failed.
fn put_next(input: &mut MemSource, came: &mut Came) -> anyhow::Result<()> {
    let mut bytes = [0_u8; 64];
    match input.read(&mut bytes) {
        Got::Bytes(count) => Ok(came.put(bytes.get(..count).unwrap_or(b""))?),
        Got::End => Ok(came.put(b"end")?),
        Got::Failed => Ok(came.put(b"failed")?),
    }
}

// Puts the last bytes, as many as are wanted there.
fn put_last(row: &Row, written: &[u8], came: &mut Came) -> anyhow::Result<()> {
    let count = match row.wanted.get(2) {
        Some(field) => field.as_slice().len(),
        None => 0,
    };
    let from = written.len().saturating_sub(count);
    Ok(came.put(&written[from..])?)
}

// Puts how many calls the dialer had.
fn put_calls(memory: &Memory, came: &mut Came) -> anyhow::Result<()> {
    match memory.around.calls() {
        Some(calls) => came.put_number(calls.len() as u64),
        None => bail!("the dialer tells no calls"),
    }
}

fn shape_word(shape: Shape) -> &'static [u8] {
    match shape {
        Shape::Tickets => b"tickets",
        Shape::Challenge => b"challenge",
        Shape::Vouch => b"vouch",
    }
}

fn outcome_word(outcome: &Outcome) -> &'static [u8] {
    match outcome {
        Outcome::Answered(_) => b"heard",
        Outcome::Unanswered => b"failed",
        Outcome::NoRoom => b"no_room",
    }
}

// Puts a call of the dialer.
fn put_call(
    rt: &HostRuntime,
    stage: &Stage,
    row: &Row,
    call: &Made,
    came: &mut Came,
) -> anyhow::Result<()> {
    match call {
        Made::Close { conv } => {
            came.put(b"close")?;
            came.put_number(*conv)
        }
        Made::Exchange {
            conv,
            request,
            shape,
            outcome,
        } => {
            came.put(shape_word(*shape))?;
            came.put_number(*conv)?;
            let at = came.len();
            stage.texts.put_came(rt, row, at, request.as_slice(), came)?;
            Ok(came.put(outcome_word(outcome))?)
        }
    }
}

/// Puts the word that is drawn next, and the calls of the dialer.
pub(crate) fn put_calls_made(
    rt: &HostRuntime,
    stage: &Stage,
    row: &Row,
    around: &mut Around,
    came: &mut Came,
) -> anyhow::Result<()> {
    match around.next_word() {
        Some(word) => came.put(&word)?,
        None => came.put(b"failed")?,
    }
    let Some(calls) = around.calls() else {
        bail!("the dialer tells no calls");
    };
    for call in calls {
        put_call(rt, stage, row, call, came)?;
    }
    Ok(())
}

// Puts what a verb compares beside the status.
fn put_rest(
    rt: &HostRuntime,
    stage: &Stage,
    row: &Row,
    memory: &mut Memory,
    came: &mut Came,
) -> anyhow::Result<()> {
    match row.word() {
        b"end" => Ok(()),
        b"run" => stage
            .texts
            .put_came(rt, row, 2, memory.output.content(), came),
        b"next" => {
            stage
                .texts
                .put_came(rt, row, 2, memory.output.content(), came)?;
            put_next(&mut memory.input, came)
        }
        b"calls" => {
            stage
                .texts
                .put_came(rt, row, 2, memory.output.content(), came)?;
            put_calls_made(rt, stage, row, &mut memory.around, came)
        }
        b"last" => {
            put_last(row, memory.output.content(), came)?;
            put_calls(memory, came)
        }
        _ => bail!("no such verb"),
    }
}

// A command on objects in memory.
fn play_memory(rt: &HostRuntime, stage: &Stage, row: &Row, came: &mut Came) -> anyhow::Result<()> {
    let mut memory = Memory::new(rt, stage, row)?;
    memory.carry_out(rt.alloc(), argument(row, 1)?, came)?;
    put_rest(rt, stage, row, &mut memory, came)
}

fn play_row(rt: &HostRuntime, stage: &mut Stage, row: &Row, came: &mut Came) -> anyhow::Result<()> {
    if stage.set(rt, row)? {
        return Ok(());
    }
    match row.word() {
        b"files" => real_files::compare(rt, stage, row, came),
        b"show" => real_files::show(rt, stage, row, came),
        b"room" => rooms::play(rt, stage, row, came),
        b"waits" => hearing::play(rt, stage, row, came),
        b"frames" => pieces::play_frames(rt, stage, row, came),
        _ => play_memory(rt, stage, row, came),
    }
}

/// Plays rows: a command each, or what stands around those that follow.
pub(crate) fn play(
    rt: &HostRuntime,
    file: &str,
    rows: &[Row],
    report: &mut Report,
) -> anyhow::Result<()> {
    let mut stage = Stage::new(rt.alloc());
    for row in rows {
        if row.word() == b"cuts".as_slice() {
            pieces::play(rt, &stage, file, row, report)?;
            continue;
        }
        let mut came = Came::new(rt.alloc());
        let played = play_row(rt, &mut stage, row, &mut came);
        came.tell(file, row, played, report)?;
    }
    Ok(())
}
