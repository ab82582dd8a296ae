//! The record of a network: one step for each message, question and answer of several agents and an authentication
//! server, its text, and which histories a network can have: each conversation and each session does what its role
//! says, and nothing ties what is taken to what was given.
#![tactic(auto)]

mod laws;
mod line;
mod print;
mod setting;
mod step;
mod wire;

pub use laws::{a_mail_client_has_a_legal_history, what_is_noted_is_of_the_setting};
pub use print::print_step;
pub use setting::Setting;
pub use step::{Protocol, Role, Step};
pub use wire::Wire;
