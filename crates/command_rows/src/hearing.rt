// A client that asks again only once it was answered.
use crate::came::Came;
use crate::memory::Around;
use crate::stage::Stage;
use crate::texts::{argument, number_at};
use row_files::Row;
use std::cell::Cell;
use std::io::{self, ErrorKind, Read, Write};
use wire_streams::{ReadSource, WriteSink};

/// The same question so often, each behind the whole reply to the one before, which has so many bytes.
#[derive(Drop)]
struct Asking<'a> {
    question: &'a [u8],
    reply: u64,
    left: u64,
    asked: u64,
    heard: &'a Cell<u64>,
}

impl Read for Asking<'_> {
    fn read(&mut self, buf: &mut [u8]) -> io::Result<usize> {
        if self.heard.get() < self.asked.saturating_mul(self.reply) {
            return Err(io::Error::from(ErrorKind::WouldBlock));
        }
        if self.left == 0 {
            return Ok(0);
        }
        self.left -= 1;
        self.asked = self.asked.saturating_add(1);
        let mut question = self.question;
        question.read(buf)
    }
}

/// What counts the bytes of its answers.
#[derive(Drop)]
struct Hearing<'a> {
    heard: &'a Cell<u64>,
}

impl Write for Hearing<'_> {
    fn write(&mut self, buf: &[u8]) -> io::Result<usize> {
        self.heard
            .set(self.heard.get().saturating_add(buf.len() as u64));
        Ok(buf.len())
    }

    fn flush(&mut self) -> io::Result<()> {
        Ok(())
    }
}

/// Plays a row `waits WORDS QUESTION SIZE TIMES`: how many bytes of answers the client heard.
pub(crate) fn play(
    rt: &HostRuntime,
    stage: &Stage,
    row: &Row,
    came: &mut Came,
) -> anyhow::Result<()> {
    let mut around = Around::new(rt.alloc(), stage, &stage.faults)?;
    let question = stage.bytes_at(rt, row, 2)?;
    let heard = Cell::new(0);
    let mut input = ReadSource::new(Asking {
        question: question.as_slice(),
        reply: number_at(row, 3)?,
        left: number_at(row, 4)?,
        asked: 0,
        heard: &heard,
    });
    let mut output = WriteSink::new(Hearing { heard: &heard });
    around.carry_out(rt.alloc(), argument(row, 1)?, &mut input, &mut output, came)?;
    came.put_number(heard.get())
}
