//! The tables of Plan 9's authentication server, which its administrator edits as text: the keys of users, and who may
//! speak for whom.
#![tactic(auto)]

mod keys;
mod laws;
mod lines;
mod speaks;

pub use keys::{AsKey, KeyTable, parse_keys};
pub use laws::{
    a_denial_goes_before_every_grant, a_written_table_is_read, the_first_bad_line_is_told,
    who_speaks_for_whom,
};
pub use lines::TableFault;
pub use speaks::{SpeaksTable, parse_speaks};
