//! The agent: it answers each event as the definitions say of the history before.
#![tactic(auto)]

mod agent;
mod connections;
mod events;
mod news;
mod served;

pub use agent::Agent;
pub use news::{NO_NEWS, News, SettledFor};
pub use served::{Served, TakeEnd};
