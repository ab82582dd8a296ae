// Several bells, by number.
use crate::bell::Bell;
use std::alloc::{AllocFailed, Global};

/// So many bells, at least one. Numbers that are alike modulo how many there are have one bell, which wakes some for
/// nothing.
#[derive(Drop)]
pub struct Bells {
    // That of the numbers that are one less than a multiple of how many there are.
    last: Bell,
    others: Vec<Bell>,
    count: u64,
}

impl Bells {
    /// One bell and so many others; None where memory runs out.
    pub fn new(alloc: Global, more: u32) -> Option<Bells> {
        let mut others = Vec::new(alloc);
        for _ in 0..more {
            if let Err(AllocFailed { .. }) = others.push(Bell::new()) {
                return None;
            }
        }
        Some(Bells {
            last: Bell::new(),
            others,
            count: more as u64 + 1,
        })
    }

    /// The bell of a number.
    pub fn of(&self, number: u64) -> &Bell {
        let place = number.checked_rem(self.count).unwrap_or(0);
        match self.others.get(place as usize) {
            Some(bell) => bell,
            None => &self.last,
        }
    }

    /// Rings all of them.
    pub fn ring_all(&self) {
        for bell in &self.others {
            bell.ring();
        }
        self.last.ring();
    }
}
