// The bell of those who wait for their turn.
use std::sync::Wait;
use std::sync::atomic::{AtomicU64, Ordering};

/// A bell that wakes one of those who wait for their turn. Nobody's wait is lost: who may have to sleep counts himself first,
/// then reads the count of rings, then looks at the turn again, and sleeps only where the bell wasn't rung since that count.
/// Who gives a turn back makes it free first, and then looks whether anyone is counted. So either he finds the sleeper
/// counted, and rings, or the sleeper's last look comes later than the turn was free.
#[derive(Drop)]
pub(crate) struct TurnBell {
    rings: AtomicU64,
    waiting: AtomicU64,
}

impl TurnBell {
    /// A bell that was never rung, by which nobody waits.
    pub(crate) fn new() -> TurnBell {
        TurnBell {
            rings: AtomicU64::new(0),
            waiting: AtomicU64::new(0),
        }
    }

    /// One more waits.
    pub(crate) fn begin_wait(&self) {
        self.waiting.fetch_add(1, Ordering::SeqCst);
    }

    /// One less waits.
    pub(crate) fn end_wait(&self) {
        self.waiting.fetch_sub(1, Ordering::SeqCst);
    }

    /// How often it was rung, of which the low 32 bits count.
    pub(crate) fn count(&self) -> u32 {
        (self.rings.load(Ordering::SeqCst) % (1 << 32)) as u32
    }

    /// Sleeps until it is rung, unless it was since it was at this count.
    pub(crate) fn sleep<R: Wait>(&self, rt: &R, count: u32) {
        self.rings.park(rt, count);
    }

    /// Rings, and wakes one who sleeps, where someone is counted. He takes the turn, or finds it taken by another, who rings
    /// again when he gives it back: so one is enough.
    pub(crate) fn ring(&self) {
        if self.waiting.load(Ordering::SeqCst) > 0 {
            self.rings.fetch_add(1, Ordering::SeqCst);
            self.rings.wake_one();
        }
    }
}
