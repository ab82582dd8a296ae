//! A conversation of APOP (RFC 1939) or CRAM (RFC 2195): a client that answers a mail server's challenge with a
//! password, and a server that has the authentication server give a challenge and vouch for who answers it (authsrv(6)
//! of the Plan 9 manual). Whatever it is given, it does what its role says.
#![tactic(auto)]

mod client;
mod conv;
mod moves;
mod need;
mod numbers;
mod outcome;
mod own;
mod server;
mod stage;
mod start;
mod step;

pub use conv::ChConv;
pub use stage::{MOST_CHALLENGE, Proto, Side, Stage};
