//! Clean histories: labelled histories of real bytes, the symbolic runs that they are, and agreement in them: whom
//! a server accepts was there, and who answered a client was a server. Logins by p9any and by APOP whose records are
//! legal and clean, and a record that uses a word twice and isn't, show that the premise is neither empty nor free.
#![tactic(auto)]

mod agreement_laws;
mod example_laws;
mod laws;

pub use agreement_laws::{
    acceptances_name_the_user, client_agreement, different_grants, different_tickets,
    matching_conversation, server_agreement,
};
pub use example_laws::{
    a_clean_record_uses_a_word_once, a_login_and_a_removal_are_legal_and_clean, a_login_is_clean,
    a_login_is_legal_and_clean, a_mail_login_is_legal_and_clean,
};
pub use laws::{
    clean_histories_are_symbolic_runs, clean_histories_keep_their_secrets,
    key_names_tell_keys_apart,
};
