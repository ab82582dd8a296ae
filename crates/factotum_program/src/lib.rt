//! The program as a library: its command words, what it reads and writes, and the status it ends with. The
//! program's `main` opens the real input and output and calls this.
#![tactic(auto)]

mod asks;
mod command;
mod frames;
mod pipe;
mod words;

pub use command::run_command;
pub use words::{Task, read_words};
pub use world_program::{GenWords, is_world, read_gen_words};
