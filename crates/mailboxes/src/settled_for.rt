// Whose reads were settled.
ghost use Rattle.std.specs.Prelude.{◌≡◌, true, false, ℕ};
ghost use Rattle.mailboxes.specs.Rests.{covers};

/// Whose reads that wait were given a reply, since somebody last asked.
#[derive(Clone, Copy, Debug, PartialEq, Eq)]
pub enum SettledFor {
    /// Nobody's.
    Nobody,
    /// Those of one connection.
    One(u64),
    /// Those of several connections.
    Several,
}

impl SettledFor {
    /// With one connection more, if a read of it was found.
    pub(crate) fn and(self, found: bool, conn: u64) -> SettledFor
        ensures before { (other : ℕ) → covers result other ≡ false → covers self other ≡ false }
        ensures found { found ≡ true → covers result conn ≡ true }
    {
        if !found {
            return self;
        }
        match self {
            SettledFor::Nobody => SettledFor::One(conn),
            SettledFor::One(other) if other == conn => self,
            SettledFor::One(_) | SettledFor::Several => SettledFor::Several,
        }
    }
}
