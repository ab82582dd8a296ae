// A set of numbers.
ghost use Rattle.std.specs.Prelude.{◌≡◌, ◌<◌, ◌≤◌, ◌+◌, ◌-◌, ◌||◌, ℕ, [], drop, eqb, length, OnOk};
ghost use Rattle.wire_base.specs.Spans.{begun, beside, ends_before, has_number};

use crate::bytes::NoMemory;
use crate::range::Range;
use std::alloc::Global;
use std::marker::Model;

/// A set of numbers, with room for so many ranges more.
#[derive(Drop)]
pub struct Ranges {
    ranges: Vec<Range>,
}

impl Model for Ranges {
    ghost use Rattle.std.specs.Prelude.{◌-◌, ◌≤◌};
    ghost use Rattle.std.specs.Vec.{vec_len, vec_capacity};
    ghost use Rattle.wire_base.specs.Spans.{AreApart, Numbers};

    ghost Value = { Numbers };

    ghost view = { λ r. record {
      ranges = r.ranges.items;
      room = vec_capacity r.ranges - vec_len r.ranges;
    } };

    ghost invariant = { λ r. AreApart r.ranges.items };
}

impl Ranges {
    /// No numbers. It takes no memory.
    pub fn new(alloc: Global) -> Ranges
        ensures { result.ranges ≡ [] }
    {
        Ranges {
            ranges: Vec::new(alloc),
        }
    }

    // How many ranges end before the number. It is in the set if the next one begins at it or before.
    fn ends_before(&self, number: u64) -> usize
        ensures place { result ≡ ends_before number self.now.ranges }
        ensures told { begun number (drop result self.now.ranges)
            ≡ has_number self.now.ranges number }
    {
        self.ranges.partition_point(|range| range.last < number)
    }

    // Whether the range at a place begins at the number or before.
    fn begins(&self, at: usize, number: u64) -> bool
        ensures { result ≡ begun number (drop at self.now.ranges) }
    {
        match self.ranges.get(at) {
            Some(range) => range.first <= number,
            None => false,
        }
    }

    // The range at a place, if it begins right behind the number at the latest.
    fn beside(&self, at: usize, number: u64) -> Option<Range>
        ensures { result ≡ beside number (drop at self.now.ranges) }
    {
        let range = self.ranges.get(at).copied()?;
        if range.begins_by(number) {
            Some(range)
        } else {
            None
        }
    }

    /// Whether the number is in the set.
    pub fn has(&self, number: u64) -> bool
        ensures { result ≡ has_number self.now.ranges number }
    {
        self.begins(self.ends_before(number), number)
    }

    /// Makes room for so many ranges more.
    pub fn reserve(&mut self, more: usize) -> Result<(), NoMemory>
        ensures same { self.new.ranges ≡ self.old.ranges }
        ensures room { OnOk result (more ≤ self.new.room) }
        ensures kept { self.old.room ≤ self.new.room }
    {
        Ok(self.ranges.reserve(more)?)
    }

    /// Puts the number into the set, for which there is room. It takes no memory, and makes one range more at most.
    pub fn add(&mut self, number: u64)
        requires { 0 < self.old.room }
        ensures added { (q : ℕ) → has_number self.new.ranges q
            ≡ (eqb q number || has_number self.old.ranges q) }
        ensures grows { length self.new.ranges ≤ length self.old.ranges + 1 }
        ensures room { self.old.room ≤ self.new.room + 1 }
    {
        let at = self.ends_before(number.saturating_sub(1));
        let Some(range) = self.beside(at, number) else {
            let range = Range {
                first: number,
                last: number,
            };
            self.ranges.insert(at, range).unwrap();
            return;
        };
        let range = range.with(number);
        let Some(next) = self.beside(at + 1, range.last) else {
            self.ranges[at] = range;
            return;
        };
        self.ranges[at] = Range {
            first: range.first,
            last: next.last,
        };
        self.ranges.remove(at + 1);
    }
}
