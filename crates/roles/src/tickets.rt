// What a role makes of an answer of the authentication server, of a ticket, and of the authenticator behind it. Nothing
// here takes memory.
ghost use Rattle.std.specs.Prelude.{◌≡◌, ◌≤◌, [], length};
ghost use Rattle.wire_base.specs.Rules.{first_told};
ghost use Rattle.roles.specs.Clients.{is_refusal, proof_tests};
ghost use Rattle.roles.specs.Courses.{accepted};
ghost use Rattle.roles.specs.Tickets.{proof_under, rest_part, ticket_part, ticket_under};

use crate::answer::Cause;
use crate::key::SkKey;
use crate::need::Outcome;
use sealing::{AUTH_ERR, Authenticator, FieldFault, Ticket, expand56, open_auth, open_ticket};
use wire_base::{AuthInfo, Name};

/// Whether an answer of the authentication server is a refusal.
pub fn is_refusal(answer: &[u8]) -> bool
    ensures { result ≡ is_refusal answer.now }
{
    answer.len() == 65 && answer[0] == AUTH_ERR
}

/// The ticket at the front of a message.
pub fn ticket_in(key: &SkKey, bytes: &[u8]) -> Result<Ticket, FieldFault>
    requires { 72 ≤ length bytes.now }
    ensures { result ≡ ticket_under key.now (ticket_part bytes.now) }
{
    let mut part = [0; 72];
    part.copy_from_slice(&bytes[..72]);
    open_ticket(&part, &key.des)
}

/// The authenticator behind a ticket.
pub fn proof_in(ticket: &Ticket, shown: &[u8; 85]) -> Authenticator
    ensures { result ≡ proof_under ticket.now (rest_part shown.now) }
{
    let (_, sealed) = shown.split_at(72);
    let mut part = [0; 13];
    part.copy_from_slice(sealed);
    open_auth(&part, &ticket.key)
}

/// The first test that an authenticator of a kind fails.
pub fn test_proof(kind: u8, challenge: &[u8; 8], proof: &Authenticator) -> Option<Cause>
    ensures { result ≡ first_told (proof_tests kind challenge.now proof.now) }
{
    if proof.num != kind || proof.id != 0 {
        Some(Cause::WrongKind)
    } else if proof.chal != *challenge {
        Some(Cause::WrongChallenge)
    } else {
        None
    }
}

/// Whom the ticket at the front of a message names, where it opens.
pub fn find_accepted(key: &SkKey, bytes: &[u8], cause: Cause) -> Outcome
    requires { 72 ≤ length bytes.now }
    ensures { result ≡ accepted cause (ticket_under key.now (ticket_part bytes.now)) }
{
    match ticket_in(key, bytes) {
        Ok(ticket) => Outcome::Accepted(AuthInfo {
            cuid: ticket.cuid,
            suid: ticket.suid,
            secret: expand56(&ticket.key),
        }),
        Err(_) => Outcome::Broken(cause),
    }
}

/// The name of nobody.
#[tactic(auto, using(crate::proofs::StartLemmas::nobody_is_name))]
pub fn no_name() -> Name<28>
    ensures { result ≡ [] }
{
    match Name::from_text(&[]) {
        Some(name) => name,
        None => unreachable!(),
    }
}
