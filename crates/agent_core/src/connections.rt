// The connections of an agent.
ghost use Rattle.std.specs.Prelude.{◌≡◌, ◌≤◌, ℕ, None, true};
ghost use Rattle.std.specs.Ordering.{nat_cmp};
ghost use Rattle.std.specs.BTreeMap.{btree_map_len, get};
ghost use Rattle.wire_base.specs.Spans.{has_number};

use agent_requests::Connection;
use std::alloc::Global;
use std::collections::BTreeMap;
use wire_base::{NoMemory, Ranges};

/// The connections by their numbers: what is kept of those that live, and of those that were hung up the number alone.
#[derive(Drop)]
pub struct Connections {
    pub(crate) live: BTreeMap<u64, Connection>,
    pub(crate) gone: Ranges,
    // Each one that lives can be hung up without memory.
    ghost room: { btree_map_len live ≤ gone.room },
    // Of one that was hung up nothing else is kept.
    ghost forgotten: { (q : ℕ) → has_number gone.ranges q ≡ true → get nat_cmp live q ≡ None },
}

impl Connections {
    ghost use Rattle.std.specs.Prelude.{◌≡◌, ℕ, cond, eqb, false, true, IsOk, IsSome, List, OnOk};
    ghost use Rattle.std.specs.Ordering.{nat_cmp};
    ghost use Rattle.std.specs.BTreeMap.{get};
    ghost use Rattle.agent_history.specs.Deeds.{Deed};
    ghost use Rattle.agent_core.specs.Events.{AllStand, HungUp, SameEach, Unknown, is_hung_at, is_open_at, known};

    /// No connections. It takes no memory.
    pub(crate) fn new(alloc: Global) -> Connections
        ensures { (conn : ℕ) → known result conn ≡ Unknown }
    {
        Connections {
            live: BTreeMap::new(alloc),
            gone: Ranges::new(alloc),
        }
    }

    /// Whether the connection was hung up.
    pub(crate) fn is_gone(&self, conn: u64) -> bool
        ensures { result ≡ is_hung_at (known self.now conn) }
    {
        self.gone.has(conn)
    }

    /// Whether the connection was opened, and wasn't hung up.
    pub(crate) fn is_open(&self, conn: u64) -> bool
        ensures { result ≡ is_open_at (known self.now conn) }
    {
        if self.gone.has(conn) {
            return false;
        }
        match self.live.get(&conn) {
            Some(connection) => connection.is_open(),
            None => false,
        }
    }

    /// From now on something is kept of a connection that wasn't hung up.
    pub(crate) fn keep(&mut self, alloc: Global, conn: u64) -> Result<(), NoMemory>
        requires { is_hung_at (known self.old conn) ≡ false }
        ensures kept { OnOk result (IsSome (get nat_cmp self.new.live conn)) }
        ensures live { is_hung_at (known self.new conn) ≡ false }
        ensures stands { (done : List Deed) → AllStand done (known self.old)
            → AllStand done (known self.new) }
        ensures same { SameEach (known self.old) (known self.new) }
        ensures known { IsSome (get nat_cmp self.old.live conn) → IsOk result }
    {
        if self.live.contains_key(&conn) {
            return Ok(());
        }
        self.gone.reserve(self.live.len() + 1)?;
        self.live.insert(conn, Connection::new(alloc))?;
        Ok(())
    }

    /// A connection that is open is hung up. It takes no memory.
    pub(crate) fn hang_up(&mut self, conn: u64)
        requires { is_open_at (known self.old conn) ≡ true }
        ensures { (q : ℕ) → known self.new q ≡ cond (eqb conn q) HungUp (known self.old q) }
    {
        self.live.remove(&conn);
        self.gone.add(conn);
    }
}
