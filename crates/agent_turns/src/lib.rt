//! One agent of a network, driven by requests on its connection 0: each event is followed by takes until no reply
//! is left, and by takes of questions until none is; and what is done to it: lines of its ctl, requests to its
//! conversations, and the authentication server's answers. What is recorded of it is what the definitions of
//! networks say of the agent's history.
#![tactic(auto)]

mod driven_replies;
mod ends;
mod events;
mod following;
mod nodes;
mod noting;
mod replies;
mod starts;
mod steps;
mod takes;
mod turns;

pub use agent_core::Agent;
pub use driven_replies::{content_in, error_in, is_refused};
pub use events::{File, clunks, opens, reads, walks, writes};
pub use nodes::{CTL, new_node, open_rpc};
pub use noting::note_key;
pub use takes::{Driven, Replies, drive};
pub use turns::{Asks, Turn, Turned, take_turn};
