//! What is promised of the record of every script of a network, whoever carries its messages and whatever he makes
//! of them: no uncompromised secret is learnt, each acceptance has its partner, and no ticket serves twice. For
//! this, what a request and an answer do to a driven agent, and that no agent stops and all are idle between acts.
//!
//! No line of a script that is made of a number is refused, so that its run comes to its end.
//!
//! The record of a network that a script's acts make, as a history: which of the laws of legal histories it meets.
//! For this, what is so of each role that a conversation may have, and what a request leaves in its talk and in the
//! record.
#![tactic(auto)]

mod act_laws;
mod answer_laws;
mod laws;
mod legality_laws;
mod request_laws;
mod role_laws;
mod talk_laws;

pub use act_laws::{
    agents_are_idle_between_acts, agents_do_what_their_conversations_do,
    agents_of_a_script_do_what_their_conversations_do, agents_of_a_script_run,
    records_of_scripts_are_legal,
};
pub use answer_laws::{absences_do, absences_leave, answers_do, answers_leave};
pub use laws::{
    every_script_is_promised, fronts_of_records_are_legal, no_made_script_is_refused,
    scripts_are_symbolic_runs, scripts_keep_their_secrets, servers_accept_by_grants,
    tickets_serve_once,
};
pub use legality_laws::{
    acts_of_a_script_are_done, conversations_do_what_talks_leave, keys_are_of_rings,
    messages_are_numbered, records_are_legal, sessions_are_served, the_domain_is_a_name,
    worlds_are_legal,
};
pub use request_laws::{no_search_is_left_open, requests_are_done, requests_leave_the_others};
pub use role_laws::each_role_is_a_role;
pub use talk_laws::{a_request_leaves_what_is_recorded, what_was_started_may_start};
