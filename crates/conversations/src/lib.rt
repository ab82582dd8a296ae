//! One conversation of rpc: whatever it meets, it stands as the definitions say of what it met.
//!
//! A conversation of rpc that was started: its machine, its key, and what a request leads to. Whatever its role meets, it is
//! what the definitions say was begun.
#![tactic(auto)]

mod answer;
mod asks;
mod begun;
mod conversation;
mod machine;
mod opening;
pub mod phase;
mod resume;
mod shown;

pub use asks::Asks;
pub use begun::{Begun, Wanted};
pub use conversation::Conversation;
pub use opening::{Opening, open, read_template};
pub use phase::{Phase, Stored, store_request};
