//! The programs of the authentication server as a library: the words of their command lines, its two tables, what a
//! client came to, each client as a job of a thread; and the statuses that a command ends with.
#![tactic(auto)]

mod authd_words;
mod authsrv;
mod cause;
mod ending;
mod file_tables;
mod files;
mod keys_words;
mod laws;
mod log;
mod mem_tables;
mod options;
mod random;
mod renewal;
mod shared_tables;
mod status;
mod table_files;
mod tables;
mod task;
mod words;

pub use authd_words::{AuthdNumbers, AuthdWords, read_authd_words};
pub use authsrv::{serve, status_of_end};
pub use cause::ScriptCause;
pub use ending::Ending;
pub use file_tables::FileTables;
pub use files::read_file;
pub use keys_words::read_keys_words;
pub use laws::clients_are_served_by_any_words;
pub use log::{append_shown, print_client_end, print_fault, print_notice, print_renewal};
pub use mem_tables::MemTables;
pub use options::{as_str, copy_value, required_option};
pub use random::Random;
pub use renewal::Renewal;
pub use shared_tables::SharedTables;
pub use status::{Status, print_status};
pub use table_files::TableFiles;
pub use tables::read_core;
pub use task::{ClientSpawner, ClientTask};
pub use words::{AuthsrvWords, is_value, read_authsrv_words};
