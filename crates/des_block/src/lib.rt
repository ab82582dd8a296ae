//! The Data Encryption Standard (DES) on one block of eight bytes, as FIPS 46-3 writes it: a schedule of
//! round keys made from a key, and the enciphering and deciphering of a block under it.
#![tactic(auto)]

mod key_choices;
mod look_ups;
mod permutations;
mod rounds;
mod schedule;
mod words;

pub use rounds::combined;
pub use schedule::Schedule;
