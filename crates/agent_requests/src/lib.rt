//! The requests of a connection: each is answered as the definitions say of what was done before it.
//!
//! What the connections of an agent share: its keys, who has which file open alone, the replies and the reads that wait, and
//! the conversations with their questions and the log. Reads that wait are told the lines and the answers that come.
#![tactic(auto)]

mod call;
mod connection;
mod deliver;
mod end;
mod fid_requests;
mod file_requests;
mod holders;
mod line_requests;
mod meet;
mod msize;
mod refused;
mod rpc_requests;
mod serve;
mod serve_lines;
mod shared;

pub use agent_talks::Conversations;
pub use call::Call;
pub use connection::{Connection, Phase};
pub use deliver::{read_too_small, spell_told};
pub use holders::{Holder, Holders};
pub use shared::{Shared, is_rpc};
