//! What happened to an agent, and what that means: the events, the deeds that a history comes to, and what the agent
//! answers after it. The crate of the agent proves that it answers so.
#![tactic(auto)]

mod event;

pub use event::{Event, StepAnswer};
