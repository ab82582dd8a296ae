//! A listener that lets in no more clients at once than its limits say, and hangs up the others: in memory, where who is let in
//! is a function of what came and went, and in front of an open network, where each client's job gives its place back.
//!
//! Which clients a server lets in: how many at once, in all and of one address, and how long an address waits after wrong
//! answers. It has no threads, no clock and no sockets: what happened and when is told by the caller.
#![tactic(auto)]

mod address;
mod admitted;
mod door;
mod hung_up;
mod laws;
mod limits;
mod listener;
mod shared;
mod wrongs;

pub use address::{Address, HasAddress};
pub use admitted::Admitted;
pub use door::Door;
pub use laws::{
    no_more_are_inside, others_do_not_count, waits_are_by_all_that_happened,
    who_is_under_the_limits_is_let_in,
};
pub use limits::{ClientLimits, Limits};
pub use listener::LimitedListener;
pub use shared::{Place, SharedLimits};
pub use wrongs::{MINUTE, MOST_ADDRESSES, MOST_TIMES};
