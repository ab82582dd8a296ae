//! Plan 9's authentication server: what it answers to a client's requests, how it serves one client, and how it
//! serves many: each connection that comes is a job for a spawner, over one core.
#![tactic(auto)]

mod client;
mod incoming;
mod laws;
mod listen;
mod log;
mod records;
mod serve;
mod server;
mod session;
mod tables;

pub use client::AuthJob;
pub use laws::{
    a_stream_has_one_session, every_ticket_request_gets_two_tickets, what_is_noted_of_a_grant_is_so,
};
pub use listen::{ListenEnd, accept_clients};
pub use log::{Log, Notice, Outcome};
pub use records::{refuse, word_key};
pub use serve::{AuthEnd, serve_auth, serve_auth_noting};
pub use server::AuthCore;
pub use session::{AsStep, Session};
pub use tables::{FixedTables, LiveTables};
