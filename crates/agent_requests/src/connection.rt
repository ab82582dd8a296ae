// One connection.
ghost use Rattle.std.specs.Prelude.{◌≡◌, List, ℕ, true};
ghost use Rattle.agent_history.specs.Deeds.{Deed};
ghost use Rattle.agent_requests.specs.Connections.{IsFresh, Keeps, is_opened, msize_in};

use crate::msize::Msize;
use file_tree::Fids;
use key_ring::SharedText;
use std::alloc::Global;
use std::collections::BTreeMap;

/// How far a connection has come.
#[derive(Clone, Copy, Debug, PartialEq, Eq)]
pub enum Phase {
    /// It took part in no event that was carried out.
    Fresh,
    /// It was opened, and no version is agreed.
    Open,
    /// A version is agreed, with this largest message.
    Agreed(Msize),
}

/// What the agent keeps of one connection.
#[derive(Drop)]
pub struct Connection {
    pub phase: Phase,
    /// The fids that are held.
    pub fids: Fids,
    /// Of a fid that is open on ctl and was read from 0, the text that it reads, with all others that read the same.
    pub texts: BTreeMap<u32, SharedText>,
}

impl Connection {
    /// A connection of which nothing is known yet. It takes no memory.
    pub fn new(alloc: Global) -> Connection
        ensures { IsFresh result }
    {
        Connection {
            phase: Phase::Fresh,
            fids: Fids::new(alloc),
            texts: BTreeMap::new(alloc),
        }
    }

    /// Whether it was opened.
    pub fn is_open(&self) -> bool
        ensures { result ≡ is_opened self.now.phase }
    {
        match self.phase {
            Phase::Fresh => false,
            Phase::Open | Phase::Agreed(_) => true,
        }
    }

    /// The largest message that was agreed.
    pub fn msize(&self) -> Option<Msize>
        ensures { result ≡ msize_in self.now.phase }
    {
        match self.phase {
            Phase::Agreed(msize) => Some(msize),
            Phase::Fresh | Phase::Open => None,
        }
    }

    /// It took part in an event that was carried out.
    pub fn enter(&mut self)
        ensures opened { is_opened self.new.phase ≡ true }
        ensures keeps { (done : List Deed) (conn : ℕ) → Keeps done conn self.old
            → Keeps done conn self.new }
    {
        if let Phase::Fresh = self.phase {
            self.phase = Phase::Open;
        }
    }
}
