//! The hub: one agent behind a turn lock, whose callers submit events, each through its seat, and a loop that serves the
//! questions for the authentication server. All that callers do is one history, of which the laws of what seats see are
//! stated here too.
#![tactic(auto)]

mod exchange;
mod held;
mod hub;
mod hub_bells;
mod laws;
mod questions;
mod resuming_laws;
mod wakers;

pub use agent_core::Agent;
pub use exchange::{Exchanged, TakesEnd};
pub use held::Held;
pub use hub::{Hub, HubSeat, Submitted};
pub use laws::a_submit_is_one_event_of_the_agent;
pub use questions::{AsksEnd, serve_asks};
pub use resuming_laws::a_login_goes_on_by_the_history_of_all;
