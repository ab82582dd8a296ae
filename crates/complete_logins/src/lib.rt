//! Laws of the roles: a login whose messages all arrive ends well on both sides, each the contract of a function that does
//! nothing.
#![tactic(auto)]

mod laws;

pub use laws::{a_login_by_p9any_ends_well, a_login_by_p9sk1_ends_well, a_mail_login_ends_well};
