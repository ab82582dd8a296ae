//! The turn lock: one value behind a lock, whose callers take turns, and one history of what they did. There is no
//! queue: whoever finds the turn free has it. The history isn't stored. Each caller has a seat, a token without bytes,
//! which says what of the history this caller has seen, and which entries of it are the caller's own. Beside it bells,
//! by which threads that have something for others wake those that wait for it; a bell carries no claim.
#![tactic(auto)]

mod bell;
mod bells;
mod laws;
mod lock;
mod logged;
mod plays;
mod seats;
mod turn;
mod turn_bell;
mod views;

pub use bell::Bell;
pub use bells::Bells;
pub use laws::{
    a_joined_seat_owns_the_entries_of_both, a_longest_front_exists,
    a_new_seat_is_numbered_by_the_count, a_number_is_in_one_view,
    a_turn_adds_its_own_entries_alone, a_view_has_all_entries_of_its_numbers,
    an_entry_has_the_least_number, fronts_are_of_one_history, one_view_has_the_turn,
    the_turn_is_taken_while_its_number_is_odd, the_value_at_home_stands_for_the_longest_front,
    what_a_seat_was_told_obeys_the_rule,
};
pub use lock::{Seat, TurnLock};
pub use logged::{Logged, TurnCall};
pub use views::{Entry, Sight, Stage, Turns, View};
