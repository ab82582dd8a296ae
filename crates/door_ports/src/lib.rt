//! The ports through which a file server asks an agent who its users are: what each call of a port asks the agent for, on a
//! connection of its own, and what it is answered by what the agent replies. The agent is the port's own, or one behind a hub.
#![tactic(auto)]

mod agent_port;
mod agents;
mod exchange;
mod frames;
mod hub_caller;
mod reply;

pub use agent_port::{AgentPort, CorePort};
pub use agents::AskedAgent;
pub use exchange::{prepare, write};
pub use hub_caller::{HubCaller, HubPort};
pub use reply::Reply;
