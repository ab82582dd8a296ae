//! A conversation of p9sk1, Plan 9's shared-key protocol (authsrv(6) of the Plan 9 manual): a client, for itself or
//! speaking for another, and a server. Whatever it is given, it does what its role says.
#![tactic(auto)]

mod client;
mod conv;
mod moves;
mod need;
mod outcome;
mod own;
mod server;
mod step;

pub use conv::SkConv;
