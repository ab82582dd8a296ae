// Rows of records: the lines of their steps, and messages by their numbers.
use crate::came::Came;
use crate::steps::step_of;
use crate::texts::number_at;
use anyhow::bail;
use row_files::{Report, Row};
use std::alloc::Global;
use std::mem::replace;
use wire_base::Bytes;
use wire_histories::{Step, print_step};
use wire_streams::MemSink;
use world_history::{Cut, Record};

/// A record, and the steps that are put next.
#[derive(Drop)]
struct Recorder {
    record: Record,
    steps: Vec<Step>,
}

// Puts the line of a step, which is appended to what stands.
fn put_line(alloc: Global, step: &Step, came: &mut Came) -> anyhow::Result<()> {
    let mut out = Bytes::from_slice(alloc, b"so ")?;
    print_step(step, &mut out)?;
    match out.as_slice().strip_prefix(b"so ".as_slice()) {
        Some(line) => Ok(came.put(line)?),
        None => bail!("what stood is gone"),
    }
}

// Puts the lines of steps, one behind the other.
fn put_lines(alloc: Global, steps: &[Step], came: &mut Came) -> anyhow::Result<()> {
    let mut out = Bytes::new(alloc);
    for step in steps {
        print_step(step, &mut out)?;
    }
    Ok(came.put(out.as_slice())?)
}

impl Recorder {
    fn new(alloc: Global) -> Recorder {
        Recorder {
            record: Record::new(alloc),
            steps: Vec::new(alloc),
        }
    }

    // Records the steps that stand; what the record's sink holds then.
    fn put(&mut self, alloc: Global, sink: &mut MemSink, came: &mut Came) -> anyhow::Result<()> {
        let steps = replace(&mut self.steps, Vec::new(alloc));
        match self.record.put_all(steps, sink) {
            Ok(()) => came.put(b"done")?,
            Err(Cut::WriteFault) => return Ok(came.put(b"write_fault")?),
            Err(Cut::NoMemory) => bail!("out of memory"),
        }
        Ok(came.put(sink.content())?)
    }

    fn play_put(&mut self, alloc: Global, row: &Row, came: &mut Came) -> anyhow::Result<()> {
        let mut fails = Vec::new(alloc);
        fails.push(number_at(row, 1)?)?;
        let mut sink = MemSink::new(Vec::new(alloc), fails);
        self.put(alloc, &mut sink, came)
    }

    fn play(&mut self, alloc: Global, row: &Row, came: &mut Came) -> anyhow::Result<()> {
        match row.word() {
            b"record" => {
                *self = Recorder::new(alloc);
                Ok(())
            }
            b"step" => Ok(self.steps.push(step_of(alloc, row)?)?),
            b"lines" => put_lines(alloc, &self.steps, came),
            b"put" => self.play_put(alloc, row, came),
            b"next" => came.put_number(u64::from(self.record.next_message()?)),
            b"message" => {
                let number = number_at(row, 1)?;
                came.put_yes(self.record.message(number).is_some())
            }
            b"line" => {
                let step = step_of(alloc, row)?;
                put_line(alloc, &step, came)
            }
            _ => bail!("no such verb"),
        }
    }
}

/// Plays rows of records.
pub(crate) fn play(
    alloc: Global,
    file: &str,
    rows: &[Row],
    report: &mut Report,
) -> anyhow::Result<()> {
    let mut recorder = Recorder::new(alloc);
    for row in rows {
        let mut came = Came::new(alloc);
        let played = recorder.play(alloc, row, &mut came);
        came.tell(file, row, played, report)?;
    }
    Ok(())
}
