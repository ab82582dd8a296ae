// Limits that many threads share.
use crate::door::Door;
use crate::{Address, ClientLimits, Limits};
use std::alloc::Global;
use std::sync::{Arc, Mutex, Wait};
use std::time::{Clock, Duration, Instant};

/// Who is inside, and since when the times of wrong answers are counted.
#[derive(Drop)]
struct Kept {
    since: Instant,
    limits: Mutex<ClientLimits>,
}

/// Limits that many threads share. They tell no content. Whoever looks at them may wait for others, each of which looks for no
/// longer than one call takes.
#[derive(Drop)]
pub struct SharedLimits<R> {
    rt: R,
    kept: Arc<Kept, Global>,
}

/// A client's place inside. It is free again once this is dropped.
pub struct Place<R: Wait + Drop> {
    rt: R,
    kept: Arc<Kept, Global>,
    address: Option<Address>,
}

impl<R: Clock> SharedLimits<R> {
    /// Nobody is inside. None where there is no memory for that, or no clock.
    pub fn new(rt: R, alloc: Global, limits: Limits) -> Option<SharedLimits<R>>
    where
        R: Drop,
    {
        let since = Instant::now(&rt).ok()?;
        let limits = Mutex::new(ClientLimits::new(alloc, limits).ok()?);
        let kept = Arc::new(alloc, Kept { since, limits }).ok()?;
        Some(SharedLimits { rt, kept })
    }
}

impl<R: Wait + Copy + Drop> Door for SharedLimits<R> {
    ghost use Rattle.std.specs.Prelude.{None};

    type Place = Place<R>;

    ghost seen = { λ _. None };

    fn let_in(&mut self, address: Option<Address>) -> Option<Place<R>> {
        let kept = Arc::try_clone(&self.kept).ok()?;
        let is_in = kept.limits.lock(&self.rt).admit(address);
        if is_in {
            Some(Place {
                rt: self.rt,
                kept,
                address,
            })
        } else {
            None
        }
    }
}

impl<R: Wait + Drop> Drop for Place<R> {
    fn drop(self) {
        self.kept.limits.lock(&self.rt).leave(self.address);
        let Place {
            rt: _,
            kept: _,
            address: _,
        } = self;
    }
}

impl<R: Wait + Clock + Drop> Place<R> {
    /// The client gave a wrong answer. Where there is no memory for that it isn't remembered.
    pub fn note_wrong(&self) {
        if let Some(now) = self.now() {
            let _ = self
                .kept
                .limits
                .lock(&self.rt)
                .note_wrong(self.address, now);
        }
    }

    /// How long the next answer to the client waits, by the wrong answers of its address.
    pub fn wait(&self) -> Duration {
        match self.now() {
            Some(now) => Duration::from_millis(
                self.kept.limits.lock(&self.rt).wait(self.address, now),
            ),
            None => Duration::from_millis(0),
        }
    }

    // The milliseconds since the limits were made; None where there is no clock.
    fn now(&self) -> Option<u64> {
        let now = Instant::now(&self.rt).ok()?;
        u64::try_from(now.duration_since(self.kept.since).as_millis()).ok()
    }
}
