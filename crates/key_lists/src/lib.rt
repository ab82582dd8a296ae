//! Lists of keys, as Plan 9's factotum keeps them: which keys are taken, what adding and deleting makes of a list,
//! which key serves whom, what is shown of it, and the DES key of a secret. The crate of the ring proves that its
//! code does so.
#![tactic(auto)]

mod batch_laws;
mod digits;
mod edit;
mod fault;
mod laws;

pub use batch_laws::{a_batch_may_be_cut_in_two, a_batch_numbers_its_keys};
pub use digits::{choose_key, decode_key};
pub use edit::{Edit, EditFault, EditList};
pub use fault::{AddFault, DeleteFault};
pub use laws::{
    a_domain_is_offered_once, a_list_stays_bounded, deleting_drops_what_matches,
    keys_are_found_in_order, keys_are_the_lines_in_order, numbers_rise_and_keys_are_apart,
    offers_are_read_as_their_domains, offers_end_where_they_no_longer_fit,
    the_first_broken_rule_is_told, the_list_shows_no_secret,
};
pub use sealing::Key7;
