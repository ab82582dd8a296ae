// One bell.
use std::sync::Wait;
use std::sync::atomic::{AtomicU64, Ordering};

/// A bell that counts how often it was rung. A sleeper that read the count before it looked for work doesn't sleep where
/// the bell was rung since.
#[derive(Drop)]
pub struct Bell {
    rings: AtomicU64,
    sleepers: AtomicU64,
}

impl Bell {
    /// A bell that was never rung.
    pub fn new() -> Bell {
        Bell {
            rings: AtomicU64::new(0),
            sleepers: AtomicU64::new(0),
        }
    }

    /// Rings, and wakes all who sleep. Where no sleeper is counted nobody need be woken, and no call of the system is made:
    /// one who is counted later than that compares the count of rings later still, and finds that it has changed.
    pub fn ring(&self) {
        self.rings.fetch_add(1, Ordering::SeqCst);
        if self.sleepers.load(Ordering::SeqCst) > 0 {
            self.rings.wake_all();
        }
    }

    /// How often it was rung, of which the low 32 bits count.
    pub fn count(&self) -> u32 {
        (self.rings.load(Ordering::SeqCst) % (1 << 32)) as u32
    }

    /// Sleeps until it is rung, unless it was since it was at this count.
    pub fn sleep<R: Wait>(&self, rt: &R, count: u32) {
        self.sleepers.fetch_add(1, Ordering::SeqCst);
        self.rings.park(rt, count);
        self.sleepers.fetch_sub(1, Ordering::SeqCst);
    }
}
