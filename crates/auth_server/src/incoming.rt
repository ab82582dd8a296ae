// The request that is being read: the place where it begins in the stream, and those of its bytes that were read. No
// byte behind it is read before it is answered.
ghost use Rattle.std.specs.Prelude.{◌≡◌, ◌+◌, ◌<◌, ◌≤◌, [], length};

use std::marker::Model;
use wire_streams::{Got, Source};

/// How many bytes a request has at most.
pub(crate) const MOST_REQUEST: usize = 173;

/// The bytes of a request that were read.
#[derive(Drop)]
pub(crate) struct Incoming {
    at: u64,
    bytes: [u8; MOST_REQUEST],
    have: usize,
}

impl Model for Incoming {
    ghost use Rattle.std.specs.Prelude.{◌≡◌, ◌≤◌, length, take};
    ghost use Rattle.auth_server.specs.Steps.{Incoming as State};

    ghost Value = { State };

    ghost view = { λ i. record { at = i.at; bytes = take i.have i.bytes } };

    ghost invariant = { λ i. (i.have ≤ 173) × (length i.bytes ≡ 173) };
}

impl Incoming {
    ghost use Rattle.std.specs.Prelude.{◌≡◌, ◌+◌, ◌<◌, ◌≤◌, ◌^◌, [], length};
    ghost use Rattle.wire_streams.specs.Causes.{Rose};
    ghost use Rattle.auth_server.specs.Steps.{Fills};

    /// Before the first byte of a stream.
    pub(crate) fn new() -> Incoming
        ensures { result ≡ record { at = 0; bytes = [] } }
    {
        Incoming {
            at: 0,
            bytes: [0; MOST_REQUEST],
            have: 0,
        }
    }

    /// Where the request begins.
    pub(crate) fn at(&self) -> u64
        ensures { result ≡ self.now.at }
    {
        self.at
    }

    /// How many bytes were read.
    pub(crate) fn len(&self) -> usize
        ensures { result ≡ length self.now.bytes }
    {
        self.have
    }

    /// The bytes that were read.
    pub(crate) fn as_slice(&self) -> &[u8]
        ensures { result.now ≡ self.now.bytes }
    {
        let whole = &self.bytes[..];
        &whole[..self.have]
    }

    /// Goes on behind the request.
    pub(crate) fn next(&mut self)
        requires { self.old.at + length self.old.bytes < 2 ^ 64 }
        ensures { self.new ≡ record { at = self.old.at + length self.old.bytes; bytes = [] } }
    {
        self.at += self.have as u64;
        self.have = 0;
    }

    /// Reads at most so many bytes more.
    pub(crate) fn fill<R: Source>(&mut self, most: usize, source: &mut R) -> Got
        requires some { 0 < most }
        requires room { length self.old.bytes + most ≤ 173 }
        ensures at { self.new.at ≡ self.old.at }
        ensures fills { Fills (R.left source.old) (R.left source.new)
            self.old.bytes self.new.bytes most result }
        ensures cause { result ≡ Got.Failed → Rose (R.faults source.old) (R.faults source.new) }
        ensures counted { R.faults source.old ≤ R.faults source.new }
    {
        let begin = self.have;
        let end = begin + most;
        let whole = &mut self.bytes[..];
        let got = source.read(&mut whole[begin..end]);
        if let Got::Bytes(count) = got {
            self.have = begin + count;
        }
        got
    }
}
