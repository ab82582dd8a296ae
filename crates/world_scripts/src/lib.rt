//! Scripts that drive agents, an authentication server and a hostile network between them: how a script is cut into
//! its numbered lines, and which lines there are; and scripts that are made of the random words of a number, for
//! long runs that are the same each time. What a line does is told elsewhere.
#![tactic(auto)]

mod chacha;
mod laws;
mod line;
mod made_line;
mod made_script;
mod number;
mod pieces;
mod round;
mod script;
mod words;

pub use chacha::ChaChaWords;
pub use laws::{lines_are_what_is_written, made_scripts_are_read, numbers_have_zeros_in_front};
pub use line::{BadForm, Line, parse_line};
pub use made_script::gen_script;
pub use number::number_in;
pub use pieces::{Piece, Pieces};
pub use round::{Drawn, Kind};
pub use script::{NumberedLine, ScriptLines};
