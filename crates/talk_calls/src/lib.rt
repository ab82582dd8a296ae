//! The public calls of conversations, from roles up to the conversations of an agent and its log, each made by a
//! function of its own under the same named relations. That these are proved shows that the contracts of those
//! crates imply theirs, so a wrong body that is refused here, made of public calls, is refused by the real
//! contract. Nothing stands on it.
#![tactic(auto)]

pub mod all_conversations;
pub mod begun;
pub mod machines;
pub mod one_conversation;
pub mod replies;
pub mod role_calls;
pub mod searches;
pub mod told;
