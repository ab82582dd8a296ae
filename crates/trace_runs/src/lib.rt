//! What is tested of a labelled run: what conversations and sessions of the authentication server do by a record whose
//! messages are labelled, their moves and their deeds as trees, and whether what they go on after has its form; and what a
//! text of labels reads its atoms as.
#![tactic(auto)]

mod conversation;
mod deeds;
mod forms;
mod gifts;
mod grants;
mod holders;
mod laws;
mod makers;
mod moves;
mod network;
mod parts;
mod readings;
mod rows;
mod shapes;
mod tables;
mod words;

pub use conversation::{Act, Conversation};
pub use deeds::{Deed, Granted, Used, is_answered};
pub use forms::is_formed;
pub use grants::grant_of;
pub use holders::reads_holders;
pub use laws::what_is_told_is_labelled;
pub use moves::{Move, Own, Role};
pub use network::Conversations;
pub use readings::{AtomKind, are_apart, gives_sevens, holder_of, reading_of};
pub use tables::{reads_held, reads_tables};
pub use words::{is_short, reads_words};
