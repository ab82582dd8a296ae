//! The commands that run scripts, as a library: `world` runs the script that it reads and writes its record, and `gen` runs
//! the script of a number and writes what became of it.
#![tactic(auto)]

mod generated;
mod nowhere;
mod played;
mod summary;
mod words;

pub use generated::play_gen;
pub use played::play_world;
pub use words::{GenWords, has_gen_form, is_world, read_gen_words};
