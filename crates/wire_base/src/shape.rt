// What is asked of the authentication server, by where its answer ends.

/// Where an answer of the authentication server ends: two tickets, a challenge, or a ticket and an authenticator
/// that vouch for a user.
#[derive(Clone, Copy, Debug, PartialEq, Eq)]
pub enum Shape {
    Tickets,
    Challenge,
    Vouch,
}
