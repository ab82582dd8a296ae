//! The roles of protocols: how a conversation starts, what it needs and how it ends, what a machine of a role promises,
//! the templates by which a key is asked for, and what each call of a p9sk1 client or server comes to (authsrv(6) and
//! factotum(4) of the Plan 9 manual). The machines that do so stand above, and so do the histories that speak of them.
#![tactic(auto)]

mod answer;
mod key;
mod machine;
mod need;
mod stage;
mod start;
mod template;
mod tickets;

pub use answer::{Cause, Gave, PhaseWord, StartFault, refuse};
pub use key::SkKey;
pub use machine::{Machine, Offered};
pub use need::{Need, Outcome, Tuples};
pub use stage::{Role, Stage};
pub use start::{MOST_OTHERS, fits_start, read_role, read_start, says, tells_secret};
pub use template::{build_asked, find_dom, is_elsewhere, put_attr, put_given};
pub use tickets::{find_accepted, is_refusal, no_name, proof_in, test_proof, ticket_in};
