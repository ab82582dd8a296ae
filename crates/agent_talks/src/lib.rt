//! The conversations of an agent that stand, who has them open, their questions for the authentication server, and
//! the connections to it that they keep and give up: they are those that its deeds tell of.
//!
//! The conversations of an agent with the questions to its users and the log: the three files of lines, confirm,
//! needkey and log, what is asked and answered there, and what becomes of a conversation in the log.
#![tactic(auto)]

mod ahead;
mod asks;
mod carry;
mod due;
mod end_line;
mod ends;
mod files;
mod held;
mod kept;
mod log;
mod meeting;
mod number_keys;
mod numbered;
mod question;
mod ready;
mod room;
mod server;
mod sights;
mod speaker;
mod speakers;
mod standing;
mod tell;

pub use due::Due;
pub use end_line::{EndLine, build_start};
pub use files::LineFiles;
pub use held::Talks;
pub use kept::{GivenUp, KeptCalls};
pub use question::Question;
pub use server::Said;
pub use speaker::{Leaving, Speaker, leaves};
pub use standing::Conversations;
pub use tell::Told;
