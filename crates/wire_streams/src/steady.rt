//! A source and a sink in memory that never fail.
ghost use Rattle.std.specs.Prelude.{◌≡◌, ◌<◌, length};

use crate::memory::Unread;
use crate::sink::{Put, Sink};
use crate::source::{Got, Source};
use std::alloc::Global;

/// A source that gives the bytes that it was made with, as many at a time as fit.
#[derive(Debug, Drop)]
pub struct SteadySource {
    content: Unread,
}

impl SteadySource {
    ghost use Rattle.wire_streams.specs.Steady.{unread_bytes};

    /// A source of `content`.
    pub fn new(content: Vec<u8>) -> SteadySource
        ensures { unread_bytes result ≡ content.items }
    {
        SteadySource {
            content: Unread::new(content),
        }
    }
}

impl Source for SteadySource {
    ghost use Rattle.std.specs.Prelude.{Some, ◌≢◌};
    ghost use Rattle.wire_streams.specs.Memory.{GivesAll};
    ghost use Rattle.wire_streams.specs.Steady.{unread_bytes};
    ghost use Rattle.wire_streams.specs.Causes.{CountsOutcome};
    ghost use Rattle.wire_streams.specs.Streams.{Reads, read_failed};

    ghost left = { λ source. Some (unread_bytes source) };

    ghost faults = { λ _. 0 };

    fn read(&mut self, out: &mut [u8]) -> Got
        requires { 0 < length out.old }
        ensures bytes { Reads (Some (unread_bytes self.old)) (Some (unread_bytes self.new))
            result out.new }
        ensures exact { CountsOutcome 0 0 (read_failed result) }
        ensures steady { result ≢ Got.Failed }
        ensures full { GivesAll (unread_bytes self.old) (length out.old) result }
    {
        match self.content.take_into(out) {
            0 => Got::End,
            count => Got::Bytes(count),
        }
    }
}

/// A sink that takes every piece. One that finds no memory for a piece takes it all the same, and
/// tells no content from then on.
#[derive(Debug, Drop)]
pub struct SteadySink {
    content: Option<Vec<u8>>,
}

impl SteadySink {
    ghost use Rattle.std.specs.Option.{option_copied};
    ghost use Rattle.std.specs.Prelude.{[], Some};
    ghost use Rattle.wire_streams.specs.Steady.{held_bytes};

    /// A sink that holds nothing yet.
    pub fn new(alloc: Global) -> SteadySink
        ensures { held_bytes result ≡ Some [] }
    {
        SteadySink {
            content: Some(Vec::new(alloc)),
        }
    }

    /// What the sink holds; None once it found no memory for a piece.
    pub fn content(&self) -> Option<&[u8]>
        ensures { option_copied result ≡ held_bytes self.now }
    {
        match &self.content {
            Some(bytes) => Some(bytes.as_slice()),
            None => None,
        }
    }
}

impl Sink for SteadySink {
    ghost use Rattle.wire_streams.specs.Steady.{held_bytes};
    ghost use Rattle.wire_streams.specs.Causes.{CountsOutcome};
    ghost use Rattle.wire_streams.specs.Streams.{Writes, write_failed};

    ghost holds = { λ sink. held_bytes sink };

    ghost faults = { λ _. 0 };

    fn write(&mut self, piece: &[u8]) -> Put
        requires { 0 < length piece.now }
        ensures bytes { Writes (held_bytes self.old) (held_bytes self.new) result piece.now }
        ensures exact { CountsOutcome 0 0 (write_failed result) }
        ensures whole { result ≡ Put.Took (length piece.now) }
    {
        if let Some(bytes) = &mut self.content
            && bytes.extend_from_slice(piece).is_err()
        {
            self.content = None;
        }
        Put::Took(piece.len())
    }
}
