//! What is so of an agent that a network drives: its keys, what its conversations come to, how it stands between
//! what the network does to it, and what of it each turn keeps.
#![tactic(auto)]

mod idle_laws;
mod laws;

pub use idle_laws::{
    a_closing_keeps_an_agent_idle, a_new_node_is_idle, a_write_keeps_an_agent_idle,
    an_event_does_what_is_defined, an_opening_keeps_an_agent_idle, takes_get_what_is_left,
    takes_leave_nothing,
};
pub use laws::{
    closings_change_no_conversation, conversations_are_told_keys_of_a_ring, keys_break_no_rule,
    nodes_name_no_files_of_lines, openings_change_no_conversation, searches_of_nodes_ask_nobody,
    takes_change_no_conversation, writes_start_no_conversation,
};
