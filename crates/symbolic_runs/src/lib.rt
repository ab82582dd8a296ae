//! Runs of the authentication protocols as an attacker sees them who has the whole network in hands, and the laws
//! that hold of every such run: what stays secret, and agreement: whom a server accepts was there, and who answered
//! a client was a server.
//!
//! Messages as terms: what an attacker with the whole network in hands can tell apart, what bytes a term stands for
//! under a reading of its atoms, what follows from what is known, and the check of written derivations.
#![tactic(auto)]

mod agreement_laws;
mod derivation;
mod kind;
mod laws;
mod proof;
mod reading;
mod runs;
mod spelling;
mod term;
mod term_laws;
mod term_spelling;

pub use agreement_laws::{
    client_agreement, different_grants, different_tickets, matching_conversation, server_agreement,
};
pub use derivation::{check_derivation, conclude};
pub use kind::MacKind;
pub use laws::{
    a_challenge_is_vouched_for_in_its_session, a_challenge_is_vouched_for_once,
    a_conversation_accepts_once, a_conversation_moves_behind_its_start, a_conversation_starts_once,
    a_cram_login_is_a_run, a_p9any_login_is_a_run, a_p9sk1_login_is_a_run,
    a_part_of_a_run_is_a_run, a_place_has_one_event, an_apop_login_is_a_run,
    digests_have_an_origin, each_move_is_in_its_turn, each_request_comes_once,
    each_request_is_answered_once, each_turn_is_taken_once, forms_are_injective,
    gifts_are_computed, guarded_terms_are_closed, seals_have_an_origin, symbolic_secrecy,
    what_follows_from_less_follows_from_more, what_is_known_stays_known,
};
pub use proof::{Places, Proof, ProofStep};
pub use reading::Reading;
pub use runs::{
    a_betrayed_server_accepts_without_a_grant, a_betrayed_speaker_is_accepted_without_a_match,
    a_client_is_turned_to_another_server, a_key_is_made_up, a_mail_client_answers_anybody,
    a_mail_login_satisfies_a_p9sk1_server, a_p9sk1_login_satisfies_a_mail_server,
    an_exposed_grant_deceives_a_client, the_authentication_server_refuses,
    two_clients_hold_one_ticket,
};
pub use spelling::SpellFault;
pub use term::{Term, Terms};
pub use term_laws::{
    a_derivation_holds_step_by_step, a_derivation_proves_its_conclusions,
    a_reading_changes_one_atom, trees_are_compared_whole,
};
pub use term_spelling::spell;
