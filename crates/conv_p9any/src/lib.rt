//! A conversation of p9any, by which two agents choose a domain of another protocol and then speak that (authsrv(6) and
//! factotum(4) of the Plan 9 manual): a client and a server, over any machine of a protocol whose domains are offered.
//! Whatever it is given, it does what its role says.
#![tactic(auto)]

mod chooser;
mod conv;
mod inner;
mod judge;
mod need;
mod offers;
mod own;
mod spoken;
mod stage;
mod step;
mod texts;

pub use conv::AnyConv;
pub use stage::{MOST_TEXT, Stage};
