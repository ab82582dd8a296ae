// A ring of keys beside how many were added to it at most, so that its numbers never run out.
ghost use Rattle.std.specs.Prelude.{◌≤◌};

use crate::fields::Came;
use anyhow::bail;
use attr_tuples::Tuple;
use key_lists::{AddFault, DeleteFault};
use key_ring::{KeyRing, write_ctl};
use std::alloc::Global;

/// How many keys may have been added, and how long a write may be.
const MOST: u64 = 1_000_000_000;

/// A ring, and how many keys were ever added to it at most.
#[derive(Drop)]
pub(crate) struct CountedRing {
    ring: KeyRing,
    most: u64,
    ghost counted: { ring.ever_added ≤ most },
}

impl CountedRing {
    pub(crate) fn new(alloc: Global) -> CountedRing {
        CountedRing {
            ring: KeyRing::new(alloc),
            most: 0,
        }
    }

    pub(crate) fn keys(&self) -> &KeyRing {
        &self.ring
    }

    /// Adds a key; its number, or why it is refused.
    pub(crate) fn add(&mut self, tuple: Tuple) -> anyhow::Result<Result<u64, AddFault>> {
        if self.most > MOST {
            bail!("too many keys");
        }
        let answer = self.ring.add(tuple);
        self.most += 1;
        Ok(answer)
    }

    pub(crate) fn delete(&mut self, template: &Tuple) -> Result<usize, DeleteFault> {
        self.ring.delete(template)
    }

    /// Writes to ctl; tells the text that a client gets, whether the further lines of the log are switched, and how
    /// many keys the ring holds then.
    pub(crate) fn write(
        &mut self,
        alloc: Global,
        content: &[u8],
        came: &mut Came,
    ) -> anyhow::Result<()> {
        let size = content.len() as u64;
        if self.most > MOST || size > MOST {
            bail!("too much is written");
        }
        let written = write_ctl(alloc, &mut self.ring, content);
        self.most += size;
        let written = written?;
        came.bytes(written.fault.map_or(b"".as_slice(), |fault| fault.text()))?;
        came.flag(written.switches)?;
        came.count(self.ring.len())
    }
}
