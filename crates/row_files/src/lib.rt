//! Cases that stand in files, one a line or a block, as a person reads and writes them; and what is told of a case that
//! isn't as wanted: its file, its line, what was wanted and what came.
//!
//! A row is fields with blanks between them. A field stands as it is, or in double quotes, within which `\n`, `\r`,
//! `\t`, `\0`, `\"`, `\\` and `\xHH` are one byte each; `*N` behind the quotes repeats it N times. A field `=>` without
//! quotes stands before what is wanted. A row that begins with `#` is a comment, and an empty one is nothing.
#![tactic(auto)]

mod field;
mod read;
mod report;
mod row;

pub use field::put_field;
pub use read::{FieldFault, RowFault, read_rows};
pub use report::Report;
pub use row::{Row, hex_digit};
