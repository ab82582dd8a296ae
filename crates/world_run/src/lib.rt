//! Runs scripts of a network: agents by their names, with the conversations that each has open, the sessions of an
//! authentication server, and whoever carries their messages between them, or keeps, changes and repeats them. Each
//! step is recorded, and its line is written.
#![tactic(auto)]

mod clients;
mod fids;
mod found;
mod lines;
mod live;
mod named_talks;
mod node;
mod nodes;
mod noting;
mod play;
mod run;
mod sessions;
mod standing_laws;
mod stops;
mod turns;

pub use clients::{Clients, Served};
pub use fids::Open;
pub use live::{Client, Live};
pub use named_talks::{Talk, Talks};
pub use node::Node;
pub use nodes::Nodes;
pub use play::{WorldEnd, run_world, run_world_setting};
pub use standing_laws::a_node_holds_the_fids_of_its_conversations;
