// The largest message that a connection agreed to.
use std::marker::Model;

/// The largest message that is ever agreed to.
pub const MOST_MSIZE: u32 = 8216;

/// How many bytes the largest message has that was agreed.
#[derive(Clone, Copy, Debug, PartialEq, Eq)]
pub struct Msize {
    bytes: u32,
}

impl Model for Msize {
    ghost use Rattle.std.specs.Prelude.{◌≤◌, ℕ};
    ghost use Rattle.std.specs.Coded.{coded_ℕ};

    ghost Value = { ℕ };

    ghost coded = { coded_ℕ };

    ghost view = { λ m. m.bytes };

    ghost invariant = { λ m. m.bytes ≤ 8216 };

    ghost inverse = { λ n. record { bytes = n } };
}

impl Msize {
    ghost use Rattle.std.specs.Prelude.{◌≡◌, ◌≤◌, min};

    /// What is agreed where a client offers so much.
    pub fn agree(offered: u32) -> Msize
        ensures { result ≡ min offered 8216 }
    {
        Msize {
            bytes: offered.min(MOST_MSIZE),
        }
    }

    pub fn bytes(self) -> u32
        ensures bytes { result ≡ self }
        ensures most { result ≤ 8216 }
    {
        self.bytes
    }
}
