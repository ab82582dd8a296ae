// A listener that lets in no more clients than its door does.
ghost use Rattle.std.specs.Prelude.{◌≡◌, ◌≤◌};
ghost use Rattle.std.specs.Result.{is_err};
ghost use Rattle.wire_streams.specs.Causes.{CountsOutcome};
ghost use Rattle.client_doors.specs.Doors.{AcceptsOne, told};

use crate::HasAddress;
use crate::admitted::Admitted;
use crate::door::Door;
use crate::hung_up::HungUp;
use std::alloc::Global;
use std::io::Eprint;
use std::sync::Wait;
use std::time::Clock;
use wire_streams::{ListenFault, Listener};

/// A listener that accepts of another and hangs up whom its door doesn't let in. How many these are it tells on standard error,
/// once in a minute at most.
#[derive(Drop)]
pub struct LimitedListener<R, L, D> {
    rt: R,
    inner: L,
    door: D,
    hung_up: HungUp,
}

impl<R, L, D> LimitedListener<R, L, D> {
    /// A listener of a program of this name.
    pub fn new(rt: R, alloc: Global, name: String, inner: L, door: D) -> LimitedListener<R, L, D>
        ensures inner { result.inner ≡ inner }
        ensures door { result.door ≡ door }
    {
        LimitedListener {
            rt,
            inner,
            door,
            hung_up: HungUp::new(alloc, name),
        }
    }

    /// Its door, which is told who has gone.
    pub fn door(&mut self) -> &mut D {
        &mut self.door
    }
}

impl<R, L: Listener, D: Door> LimitedListener<R, L, D>
where
    R: Clock + Eprint,
    L::In: HasAddress + Drop,
    L::Out: Drop,
{
    // Accepts one connection: its ends where it is let in, and None where it is hung up.
    fn accept_one(&mut self) -> Result<Option<(Admitted<L::In, D::Place>, L::Out)>, ListenFault>
        ensures accepted { AcceptsOne
            (told L.In.address_of (D.seen self.old.door) (L.to_come self.old.inner))
            (told L.In.address_of (D.seen self.new.door) (L.to_come self.new.inner)) result }
        ensures counted { L.faults self.old.inner ≤ L.faults self.new.inner }
        ensures exact { CountsOutcome (L.faults self.old.inner) (L.faults self.new.inner)
            (is_err result) }
    {
        let (source, sink) = self.inner.accept()?;
        match self.door.let_in(source.address()) {
            Some(place) => {
                self.hung_up.tell(&self.rt);
                Ok(Some((Admitted::new(source, place), sink)))
            }
            None => {
                self.hung_up.count_one();
                self.hung_up.tell(&self.rt);
                Ok(None)
            }
        }
    }
}

impl<R, L: Listener, D: Door> Listener for LimitedListener<R, L, D>
where
    R: Wait + Clock + Eprint + Copy,
    L::In: HasAddress + Drop,
    L::Out: Drop,
{
    type In = Admitted<L::In, D::Place>;

    type Out = L::Out;

    ghost to_come = { λ listener.
        told L.In.address_of (D.seen listener.door) (L.to_come listener.inner) };

    ghost faults = { λ listener. L.faults listener.inner };

    fn accept(&mut self) -> Result<(Admitted<L::In, D::Place>, L::Out), ListenFault> {
        let rt = self.rt;
        for _ in rt.forever() {
            match self.accept_one() {
                Ok(Some(ends)) => return Ok(ends),
                Ok(None) => {}
                Err(fault) => return Err(fault),
            }
        }
        unreachable!()
    }
}
