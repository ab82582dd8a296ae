// The lines of a log.
use crate::fault::{PromptFault, TooSmall};
use crate::line::is_over;
use circular_buffer::HeapCircularBuffer;
use std::alloc::Global;
use std::marker::Model;
use wire_base::{Bytes, NoMemory};

/// How many lines are kept.
pub const LOG_LINES: usize = 64;

/// The newest lines that nobody has read, at most 64.
#[derive(Drop)]
pub struct LogRing {
    lines: HeapCircularBuffer<Bytes>,
}

impl Model for LogRing {
    ghost use Rattle.std.specs.Prelude.{◌≡◌, ℕ, List};
    ghost use Rattle.side_files.specs.declared.ring.TheConstants.{LOG_LINES};

    ghost Value = { List (List ℕ) };

    ghost view = { λ r. r.lines.items };

    ghost invariant = { λ r. r.lines.capacity ≡ LOG_LINES };
}

impl LogRing {
    ghost use Rattle.std.specs.Prelude.{◌≡◌, ◌++◌, [], drop, IfOk};
    ghost use Rattle.side_files.specs.Lines.{Hands, Tells, bytes_of, found, if_handed, if_read};
    ghost use Rattle.side_files.specs.Logs.{pushed};

    /// No lines, and room for 64.
    pub fn new(alloc: Global) -> Result<LogRing, NoMemory>
        ensures { IfOk result (λ ring. ring ≡ []) }
    {
        let lines = HeapCircularBuffer::with_capacity(alloc, LOG_LINES)?;
        Ok(LogRing { lines })
    }

    /// Adds a line with its newline. A full ring loses its oldest line. It takes no memory.
    pub fn push(&mut self, line: Bytes)
        ensures { self.new ≡ pushed line self.old }
    {
        self.lines.push_back(line);
    }

    /// Hands out the oldest line, where it has at most so many bytes: it is appended, and dropped here. False: there is
    /// none.
    pub fn take(&mut self, count: u32, out: &mut Bytes) -> Result<bool, PromptFault>
        ensures answer { Tells (found count self.old) result }
        ensures out { out.new
            ≡ if_read result (out.old ++ bytes_of (found count self.old)) out.old }
        ensures lines { self.new ≡ if_read result (drop 1 self.old) self.old }
    {
        let Some(line) = self.lines.front() else {
            return Ok(false);
        };
        if is_over(line, count) {
            return Err(PromptFault::TooSmall);
        }
        out.append(line.as_slice())?;
        self.lines.pop_front();
        Ok(true)
    }

    /// Hands out the oldest line itself, where it has at most so many bytes. None: there is none. It takes no memory.
    pub fn hand_out(&mut self, count: u32) -> Result<Option<Bytes>, TooSmall>
        ensures answer { Hands (found count self.old) result }
        ensures lines { self.new ≡ if_handed result (drop 1 self.old) self.old }
    {
        let Some(line) = self.lines.front() else {
            return Ok(None);
        };
        if is_over(line, count) {
            return Err(TooSmall);
        }
        Ok(self.lines.pop_front())
    }
}
