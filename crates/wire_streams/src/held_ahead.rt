// Bytes that were read and not handed out.
ghost use Rattle.std.specs.Prelude.{◌≡◌, ◌<◌, ◌≤◌, [], IfOk, drop, false, true, length, min, take};
ghost use Rattle.wire_streams.specs.Causes.{CountsOutcome};
ghost use Rattle.wire_streams.specs.Streams.{read_failed};
ghost use Rattle.wire_streams.specs.Ahead.{Refills};

use crate::{Got, Source};
use std::alloc::Global;
use std::marker::Model;
use wire_base::NoMemory;

/// Bytes that were read and not handed out. They are overwritten as soon as they are handed out, or at last.
pub(crate) struct Held {
    room: Vec<u8>,
    at: usize,
    end: usize,
}

impl Model for Held {
    ghost use Rattle.std.specs.Prelude.{◌<◌, ◌≤◌, ◌-◌, List, drop, length, take, ℕ};

    ghost Value = { List ℕ };

    ghost view = { λ held. take (held.end - held.at) (drop held.at held.room.items) };

    ghost invariant = { λ held. (held.at ≤ held.end) × (held.end ≤ length held.room.items)
        × (0 < length held.room.items) };
}

impl Held {
    /// Nothing yet, in a room of so many bytes.
    pub(crate) fn new(alloc: Global, size: usize) -> Result<Held, NoMemory>
        requires { 0 < size }
        ensures { IfOk result (λ held. held ≡ []) }
    {
        match vec![in alloc; 0u8; size] {
            Ok(room) => Ok(Held {
                room,
                at: 0,
                end: 0,
            }),
            Err(_) => Err(NoMemory),
        }
    }

    pub(crate) fn is_empty(&self) -> bool
        ensures some { result ≡ false → 0 < length self.now }
        ensures none { result ≡ true → self.now ≡ [] }
    {
        self.at == self.end
    }

    /// Reads as much as there is room for, where nothing is held.
    pub(crate) fn refill<S: Source>(&mut self, source: &mut S) -> Got
        requires none { self.old ≡ [] }
        ensures bytes { Refills (S.left source.old) (S.left source.new) result self.new }
        ensures counted { S.faults source.old ≤ S.faults source.new }
        ensures exact { CountsOutcome (S.faults source.old) (S.faults source.new)
            (read_failed result) }
    {
        let got = source.read(&mut self.room);
        self.at = 0;
        self.end = match got {
            Got::Bytes(count) => count,
            Got::End | Got::Failed => 0,
        };
        got
    }

    /// Moves as many bytes into the front of `out` as there are and as fit, and returns how many. The place where they
    /// stood is overwritten.
    pub(crate) fn take_into(&mut self, out: &mut [u8]) -> usize
        ensures count { result ≡ min (length self.old) (length out.old) }
        ensures moved { take result out.new ≡ take result self.old }
        ensures left { self.new ≡ drop result self.old }
    {
        let count = (self.end - self.at).min(out.len());
        let used = &mut self.room[self.at..self.at + count];
        out[..count].copy_from_slice(used);
        used.fill(0);
        self.at += count;
        count
    }
}

impl Drop for Held {
    fn drop(self) {
        let Held {
            mut room,
            at: _,
            end: _,
        } = self;
        room.as_mut_slice().fill(0);
    }
}
