//! What a script of a network means: the acts that its lines come to, the histories of the agents that they drive,
//! the requests of the sessions of an authentication server, and the record of their steps; the record while it is
//! made, and the server's tables as the script's lines tell of them. The crate `world_run` runs scripts.
#![tactic(auto)]

mod domains;
mod laws;
mod noting;
mod question;
mod record;
mod spelling;
mod tables;
mod told;

pub use laws::{names_in_made_scripts_are_known, tables_are_told_in_time};
pub use noting::{begin_setting, note_told_tables};
pub use question::{Question, Questions};
pub use record::{Cut, Record};
pub use tables::{Tables, read_tables};
