//! What the `main` of every program does before its own work: it takes the standard descriptors for itself, reads its words,
//! tells how it is used and which version it is, names the word that it doesn't take, and opens files. No contract can say
//! what the system gives or takes, so these promise little beyond safety.
#![tactic(auto)]

mod files;
mod forms;
mod line;
mod standard;
mod told;
mod untaken;
mod version;
mod words;

pub use files::{Guard, Opened, Stamp, look_at, open, open_table};
pub use forms::{Form, Opt, Value};
pub use line::{tell, tell_why};
pub use standard::{Standard, hold_standard};
pub use told::{Asked, Program, find_asked, tell_asked, tell_usage};
pub use untaken::{Untaken, find_untaken};
pub use version::{COMMIT, KIT};
pub use words::{WordsFault, command_words};
