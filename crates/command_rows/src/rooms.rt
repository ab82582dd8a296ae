// Outputs that have room for so many bytes.
use crate::came::Came;
use crate::memory::{Around, source_of};
use crate::stage::Stage;
use crate::texts::{argument, number_at};
use row_files::Row;
use std::alloc::Global;
use std::io::{self, Write};
use wire_streams::WriteSink;

/// Room for so many bytes more, and those that it took.
#[derive(Drop)]
struct Room {
    left: usize,
    taken: Vec<u8>,
}

impl Write for Room {
    fn write(&mut self, buf: &[u8]) -> io::Result<usize> {
        let count = self.left.min(buf.len());
        self.taken.extend_from_slice(&buf[..count])?;
        self.left -= count;
        Ok(count)
    }

    fn flush(&mut self) -> io::Result<()> {
        Ok(())
    }
}

fn room_of(alloc: Global, left: u64) -> Room {
    Room {
        left: left as usize,
        taken: Vec::new(alloc),
    }
}

/// Plays a row `room WORDS INPUT SIZE`: a command whose output has room for so many bytes.
pub(crate) fn play(
    rt: &HostRuntime,
    stage: &Stage,
    row: &Row,
    came: &mut Came,
) -> anyhow::Result<()> {
    let mut around = Around::new(rt.alloc(), stage, &stage.faults)?;
    let input = stage.bytes_at(rt, row, 2)?;
    let mut input = source_of(rt.alloc(), input.as_slice(), 0)?;
    let mut room = room_of(rt.alloc(), number_at(row, 3)?);
    let line = argument(row, 1)?;
    around.carry_out(
        rt.alloc(),
        line,
        &mut input,
        &mut WriteSink::new(&mut room),
        came,
    )?;
    stage.texts.put_came(rt, row, 2, &room.taken, came)
}
