//! A file server that asks an agent of its own: its keys are read and given to the agent, and then one connection is served by
//! a door over the agent, a word being drawn for each frame.
#![tactic(auto)]

mod input;
mod keys;
mod log;
mod message;
mod run;
mod session;
mod status;

pub use log::{Log, NoLog, print_attach};
pub use run::{run_attach, run_attach_noting};
pub use status::{AttachStatus, print_status};
