//! The files by which an agent speaks with people (confirm, needkey and log of factotum(4) of the Plan 9 manual): questions
//! that are asked, read and replied to, the lines of a log, and what the line of a question and a reply say.
#![tactic(auto)]

mod decimal;
mod fault;
mod laws;
mod line;
mod prompt;
mod prompts;
mod question;
mod reply;
mod ring;

pub use decimal::parse_decimal;
pub use fault::{PromptFault, TooSmall, UnknownTag};
pub use laws::{
    a_question_is_replied_to_once, a_reply_reaches_who_asked,
    a_withdrawn_conversation_has_no_question, questions_are_read_back, tags_rise,
    the_newest_lines_are_held,
};
pub use line::PromptKind;
pub use prompts::Prompts;
pub use question::{Question, parse_question};
pub use reply::{Reply, parse_reply};
pub use ring::{LOG_LINES, LogRing};
