//! One conversation of any of the protocols, and what its role says; what a conversation of rpc meets and how it
//! stands after it, and the search for a key.
//!
//! The texts of rpc, the file by which a program speaks an authentication protocol (factotum(4) of the Plan 9 manual):
//! requests are read, and answers printed.
#![tactic(auto)]

mod answer;
mod conv;
mod found;
mod print;
mod request;
mod said;
mod seek;
mod size;

pub use answer::RpcAnswer;
pub use conv::Conv;
pub use found::Found;
pub use print::print_answer;
pub use request::{MOST_REQUEST, Request, RpcFault, parse_request};
pub use said::{Asking, Said};
pub use seek::{pick_template, search_keys};
pub use size::answer_fits;
