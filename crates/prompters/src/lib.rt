//! Who answers the questions that an agent asks people: prompters, each of which answers a question or passes it
//! on, asked one after the other; and what a program that answers for a user asks of an agent, as a client of its
//! files confirm and needkey.
#![tactic(auto)]

mod answers;
mod chain;
mod laws;
mod opening;
mod prompter;
mod replies;
mod simple;

pub use answers::{read_request, write_request};
pub use chain::Chain;
pub use laws::{consent_is_given_so_often, one_read_of_a_file_is_under_way};
pub use opening::{are_open, meets_use, opening_requests};
pub use prompter::{Prompter, Say};
pub use replies::{TOO_SMALL, file_read, has_tag, is_refusal, is_refused_by, question_read};
pub use simple::{Deny, Limited};
