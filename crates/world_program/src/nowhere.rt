// A sink that keeps nothing.
ghost use Rattle.std.specs.Prelude.{◌<◌, length};

use wire_streams::{Put, Sink};

/// It takes every piece whole, and tells no content.
#[derive(Clone, Copy, Debug, PartialEq, Eq)]
pub(crate) struct Nowhere;

impl Sink for Nowhere {
    ghost use Rattle.std.specs.Prelude.{None};
    ghost use Rattle.wire_streams.specs.Causes.{CountsOutcome};
    ghost use Rattle.wire_streams.specs.Streams.{Writes, write_failed};

    ghost holds = { λ _. None };

    ghost faults = { λ _. 0 };

    fn write(&mut self, piece: &[u8]) -> Put
        requires { 0 < length piece.now }
        ensures bytes { Writes None None result piece.now }
        ensures exact { CountsOutcome 0 0 (write_failed result) }
    {
        Put::Took(piece.len())
    }
}
