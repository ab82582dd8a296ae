//! One connection of an agent, served by one job: what it reads is handed to the agent in batches, and the replies that it
//! takes are written, those that other events bring about among them.
#![tactic(auto)]

mod batch;
mod drawing;
mod ends;
mod input;
mod kept;
mod line;

pub use ends::LineEnd;
pub use line::serve_line;
