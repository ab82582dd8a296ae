//! The replies that weren't taken yet and the reads that wait for one, of each connection, where every event can reach
//! them.
#![tactic(auto)]

mod mailbox;
mod mailboxes;
mod reply;
mod settled_for;
mod wait;

pub use mailboxes::Mailboxes;
pub use reply::{ErrorText, Reply, ToldAnswer, ToldLine};
pub use settled_for::SettledFor;
pub use wait::Read;
