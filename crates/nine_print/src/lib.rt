//! The line of a 9P message, in the manner of Plan 9's fcall format. The values of secret attributes aren't shown,
//! and bytes that aren't text only where secrets are asked for.
#![tactic(auto)]

mod laws;
mod line;
mod reply;
mod request;
mod stream;
mod value;

pub use laws::{no_bytes_are_shown, no_secret_is_shown};
pub use line::put_line;
pub use stream::{ShowEnd, show};
