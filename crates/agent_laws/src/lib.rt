//! Laws of the definitions of an agent: what holds of every history and of every list of deeds, each the contract of a
//! function that does nothing.
#![tactic(auto)]

mod laws;

pub use laws::{
    a_closed_file_asks_nobody, a_connection_is_given_up_once,
    a_conversation_stands_while_rpc_is_open, a_fid_held_counts,
    a_fid_stays_until_a_deed_that_concerns_it, a_line_of_the_log_tells_of_a_conversation,
    a_question_is_of_a_conversation_that_waits, a_read_waits_for_an_answer_or_a_line,
    a_refused_request_changes_nothing, a_reply_fits_what_was_agreed, a_reply_is_taken_once,
    a_request_acts_on_its_connection, a_search_is_over_the_keys_of_its_moment, a_search_is_public,
    a_user_is_asked_for_a_conversation_that_waits, a_waiting_read_has_its_question,
    a_write_does_what_its_lines_do, a_write_hides_its_secrets, an_event_changes_its_own_connection,
    an_exclusive_file_is_open_once, ctl_reads_a_list_that_stood, ctl_shows_no_secret,
    keys_are_the_lines_in_order, lines_stand_before_the_first_refused,
    no_later_answer_tells_a_secret, other_connections_change_no_fid,
    reads_of_other_files_are_public, reads_show_no_more_than_a_redaction,
};
