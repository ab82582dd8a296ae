//! The text of labels of a run: what each message that is taken is said to be, and how an attacker who has the network in
//! hands comes to it. How a text is read, line by line; and how a label is judged: whether it spells what was taken, and
//! follows from what is known.
#![tactic(auto)]

mod bounds;
mod judge;
mod laws;
mod line;
mod read;
mod steps;
mod terms;
mod unread;
mod words;

pub use bounds::{MOST_SPELLED, MOST_TERMS};
pub use judge::{label_holds, proves, spells};
pub use laws::{steps_are_read_as_written, terms_are_read_as_written};
pub use line::{LabelLine, parse_label_line};
pub use read::{Labels, LabelsFault, MOST_BYTES, read_labels};
pub use unread::Unread;
