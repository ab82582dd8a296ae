//! The public calls of the commands and of networks: run_command, the words of each command, the authentication server's
//! program, an agent that serves, and who answers questions; terms, records, scripts and runs of a network. Each is made by a
//! function of its own under the same named relations. That these are proved shows that the contracts of those crates
//! imply theirs, so a wrong body that is refused here, made of public calls, is refused by the real contract. Nothing
//! stands on it.
#![tactic(auto)]

pub mod answers_of_users;
pub mod commands;
pub mod records;
pub mod runs_of_clients;
pub mod runs_of_named_talks;
pub mod runs_of_nodes;
pub mod runs_of_play;
pub mod scripts;
pub mod server_programs;
pub mod serving;
pub mod steps;
pub mod terms_and_proofs;
pub mod turns;
pub mod world_commands;
