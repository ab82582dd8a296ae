//! The public calls on keys and of the authentication server, of an agent, of what its connections share, and of the hub
//! behind which many callers share it, each made by a function of its own under the same named relations. That these are
//! proved shows that the contracts of those crates imply theirs, so a wrong body that is refused here, made of public
//! calls, is refused by the real contract. Nothing stands on it.
#![tactic(auto)]

pub mod agents;
pub mod hub_calls;
pub mod requests_of_a_connection;
pub mod rings;
pub mod secrets_and_edits;
pub mod server;
pub mod shared_calls;
pub mod tables;
