//! The fixed tree of files that an agent serves, what each request does to one fid, and the fids of one connection:
//! a table from their numbers to what they name, and what the requests on them do to it.
#![tactic(auto)]

mod directory;
mod fault;
mod fid_laws;
mod fids;
mod laws;
mod refusal;
mod stat;
mod tree;
mod walk;

pub use directory::put_directory;
pub use fault::FidFault;
pub use fid_laws::{a_fid_is_what_the_last_change_made_of_it, other_fids_stay};
pub use fids::{Fid, Fids};
pub use laws::{
    a_file_is_opened_in_these_modes, a_path_is_of_one_file, a_walk_may_be_made_in_parts,
    a_walk_moves_only_to_its_end, names_lead_down_and_up, reads_give_the_files_in_order,
};
pub use refusal::{MOST_FIDS, attach_fault, dir_fault, open_fault, reads, walk_fault, writes};
pub use stat::{put_record, record_size};
pub use tree::{FidState, Node};
pub use walk::{Nodes, walk_from};
