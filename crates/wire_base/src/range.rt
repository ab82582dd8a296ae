// The numbers between two.
ghost use Rattle.std.specs.Prelude.{◌≡◌, ◌+◌, leb};
ghost use Rattle.wire_base.specs.Spans.{widened};

/// The numbers from the first to the last, both among them.
#[derive(Clone, Copy, Debug, PartialEq, Eq)]
pub struct Range {
    pub first: u64,
    pub last: u64,
}

impl Range {
    /// Whether it begins right behind the number at the latest.
    pub(crate) fn begins_by(self, number: u64) -> bool
        ensures { result ≡ leb self.first (number + 1) }
    {
        self.first.saturating_sub(1) <= number
    }

    /// The range, widened to the number.
    pub(crate) fn with(self, number: u64) -> Range
        ensures { result ≡ widened number self }
    {
        Range {
            first: self.first.min(number),
            last: self.last.max(number),
        }
    }
}
