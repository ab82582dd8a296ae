// The lock.
ghost use Rattle.std.specs.Prelude.{◌≡◌};

use crate::logged::Logged;
use crate::turn_bell::TurnBell;
use crate::views::{Turns, View};
use atomic_table::Table;
use std::alloc::Global;

/// A caller's place at a lock. It has no bytes. Contracts see in it the front of the history that the caller has seen,
/// and the numbers of the caller's own entries.
pub type Seat<S> = atomic_table::Seat<Option<S>, View<<S as Logged>::Event>>;

// Word 0 numbers the turns: even while the turn is free, odd while a seat has it.
pub(crate) const TURNS: usize = 0;

// How often who finds the turn taken looks again before he sleeps.
pub(crate) const MOST_LOOKS: u32 = 100;

// The one slot, with the value.
pub(crate) const VALUE: usize = 0;

/// A value that callers change in turns, each through its seat.
#[derive(Drop)]
pub struct TurnLock<S: Logged> {
    pub(crate) table: Table<Option<S>, View<S::Event>, (), Turns<S>, Global>,
    // Who waits for the turn sleeps by it.
    pub(crate) bell: TurnBell,
    ghost sized: { (table.shared.table_id.words ≡ 1) × (table.shared.table_id.slots ≡ 1) },
}
