//! Changing a password at the authentication server: what a client's request and the messages behind it are answered, and the
//! table of keys with the new password, which is written whole before the client is told.
#![tactic(auto)]

mod change;
mod fill;
mod log;
mod refusal;
mod request;
mod run;
mod session;
mod status;
mod table;

pub use log::{Log, NoLog, print_event};
pub use refusal::{Event, Refusal};
pub use run::{run_pass, run_pass_noting};
pub use status::{PassStatus, print_status};
