//! The public calls of the leaves, each made by a function of its own under the same named relations. That these
//! are proved shows that the contracts of the leaves imply theirs, so a wrong body that is refused here, made of
//! public calls, is refused by the real contract. Nothing stands on it.
#![tactic(auto)]

pub mod answers_heard;
pub mod blocks;
pub mod bytes_and_fields;
pub mod messages;
pub mod outside;
pub mod printed;
pub mod questions_and_lines;
pub mod rpc_texts;
pub mod seals_and_digests;
pub mod servers_asked;
pub mod streams;
pub mod tree_and_fids;
pub mod words_and_tuples;
