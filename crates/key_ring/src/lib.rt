//! The ring of keys, as Plan 9's factotum keeps it: keys in order under numbers that rise, each with its DES key, and
//! found by their protocols and domains; a write of ctl, carried out on it line by line; and the ring with the text of
//! its list, which is made once for all that read the same list.
#![tactic(auto)]

mod batch;
mod check;
mod des;
mod fault;
mod index;
mod indexed_keys;
mod key;
mod line;
mod listed;
mod offer;
mod rank;
mod ring;
mod shared_text;
mod wanted;
mod write;

pub use batch::Batch;
pub use fault::LineFault;
pub use key::Key;
pub use listed::ListedRing;
pub use ring::KeyRing;
pub use shared_text::SharedText;
pub use write::{Written, write_ctl};
