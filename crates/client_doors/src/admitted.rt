// What a client sends that was let in.
ghost use Rattle.std.specs.Prelude.{◌≡◌};

use crate::{Address, HasAddress};
use std::marker::Model;
use wire_streams::{Got, Source};

/// What a client sends, together with its place inside, which goes with it.
#[derive(Drop)]
pub struct Admitted<S, P> {
    source: S,
    place: P,
}

impl<S, P> Model for Admitted<S, P> {
    ghost Value = { S };

    ghost view = { λ admitted. admitted.source };
}

impl<S, P> Admitted<S, P> {
    /// What a client sends, with its place.
    pub fn new(source: S, place: P) -> Admitted<S, P>
        ensures { result ≡ source }
    {
        Admitted { source, place }
    }

    /// What the client sends, and its place.
    pub fn into_parts(self) -> (S, P)
        ensures { result.0 ≡ self }
    {
        let Admitted { source, place } = self;
        (source, place)
    }
}

impl<S: Source, P> Source for Admitted<S, P> {
    ghost left = { λ source. S.left source };

    ghost faults = { λ source. S.faults source };

    fn read(&mut self, out: &mut [u8]) -> Got {
        self.source.read(out)
    }
}

impl<S: HasAddress, P> HasAddress for Admitted<S, P> {
    ghost address_of = { λ source. S.address_of source };

    fn address(&self) -> Option<Address> {
        self.source.address()
    }
}
