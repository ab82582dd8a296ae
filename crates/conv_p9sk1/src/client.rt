// The moves of a client. Nothing here takes memory.
ghost use Rattle.std.specs.Prelude.{◌≡◌, ◌++◌, drop, length, take};
ghost use Rattle.wire_base.specs.Rules.{first_told};
ghost use Rattle.roles.specs.Clients.{answer_came, grants_tickets, handed_on, proof_came, proof_tests, request_came, request_tests, ticket_tests, tickets_came, wanted_user};
ghost use Rattle.roles.specs.Talks.{sized};
ghost use Rattle.roles.specs.Tickets.{challenge_in, proof_under, rest_part, ticket_part, ticket_under};
ghost use Rattle.conv_p9sk1.specs.Steps.{LeadsOn, start_of, verdict_of};

use crate::own::Own;
use crate::step::{Step, take_sized};
use attr_tuples::is_dom;
use roles::{Cause, Role, SkKey, Stage, is_elsewhere, is_refusal, test_proof, ticket_in};
use sealing::{
    AUTH_AC, AUTH_AS, AUTH_OK, AUTH_TC, AUTH_TREQ, Authenticator, Ticket, TicketReq, open_auth,
    read_req, seal_auth,
};
use wire_base::Name;

// ---- the second move

/// A server's request was given.
pub fn take_request(own: &Own, bytes: &[u8]) -> Step
    ensures verdict { verdict_of result
        ≡ sized 141 bytes.now (request_came (start_of own.now) bytes.now) }
    ensures ready { LeadsOn result }
{
    let request = match take_sized::<141>(bytes) {
        Ok(request) => request,
        Err(step) => return step,
    };
    match read_req(&request) {
        Ok(asked) => match test_request(own, &asked) {
            None => Step::Waits(Stage::ClientKey { request }),
            Some(cause) => Step::Breaks(cause),
        },
        Err(_) => Step::Breaks(Cause::WrongKind),
    }
}

// The first test that a request fails.
fn test_request(own: &Own, request: &TicketReq) -> Option<Cause>
    ensures { result ≡ first_told (request_tests (start_of own.now) request.now) }
{
    if request.kind != AUTH_TREQ {
        Some(Cause::WrongKind)
    } else if request.authid.text().is_empty() {
        Some(Cause::WrongKind)
    } else if !is_dom(request.authdom.text()) {
        Some(Cause::WrongKind)
    } else if is_elsewhere(&own.template, request.authdom.text()) {
        Some(Cause::NotOffered)
    } else {
        None
    }
}

/// The authentication server answered.
pub fn take_answer(own: &Own, request: &[u8; 141], key: &SkKey, answer: &[u8]) -> Step
    ensures verdict { verdict_of result
        ≡ answer_came (start_of own.now) request.now key.now answer.now }
    ensures ready { LeadsOn result }
{
    if is_refusal(answer) {
        Step::Breaks(Cause::ServerSaidNo)
    } else if grants_tickets(answer) {
        take_tickets(own, request, key, &answer[1..])
    } else {
        Step::Breaks(Cause::WrongKind)
    }
}

fn grants_tickets(answer: &[u8]) -> bool
    ensures { result ≡ grants_tickets answer.now }
{
    answer.len() == 145 && answer[0] == AUTH_OK
}

// Two tickets of the authentication server.
fn take_tickets(own: &Own, request: &[u8; 141], key: &SkKey, granted: &[u8]) -> Step
    requires { length granted.now ≡ 144 }
    ensures verdict { verdict_of result
        ≡ tickets_came (start_of own.now) request.now key.now granted.now }
    ensures ready { LeadsOn result }
{
    let mut tickets = [0; 144];
    tickets.copy_from_slice(granted);
    match ticket_in(key, &tickets) {
        Ok(ticket) => match test_ticket(own, request, key, &ticket) {
            None => Step::Goes(Stage::ClientThird {
                request: *request,
                key: *key,
                tickets,
            }),
            Some(cause) => Step::Breaks(cause),
        },
        Err(_) => Step::Breaks(Cause::BadKey),
    }
}

// The first test that a client's ticket fails.
fn test_ticket(own: &Own, request: &[u8; 141], key: &SkKey, ticket: &Ticket) -> Option<Cause>
    ensures { result ≡ first_told (ticket_tests (start_of own.now) request.now key.now ticket.now) }
{
    if ticket.num != AUTH_TC {
        Some(Cause::BadKey)
    } else if ticket.chal != challenge_in(request) {
        Some(Cause::WrongChallenge)
    } else if ticket.cuid.text() != key.user.text()
        || ticket.suid.text() != wanted_user(&own.role, key).text()
    {
        Some(Cause::WrongUser)
    } else {
        None
    }
}

/// Whom the client asks to be.
pub fn wanted_user(role: &Role, key: &SkKey) -> Name<28>
    ensures { result ≡ wanted_user role.now key.now }
{
    match role {
        Role::Speakfor { user } => *user,
        Role::Client | Role::Server => key.user,
    }
}

fn challenge_in(request: &[u8; 141]) -> [u8; 8]
    ensures { result ≡ challenge_in request.now }
{
    let mut challenge = [0; 8];
    challenge.copy_from_slice(&request[77..85]);
    challenge
}

// ---- the third and the fourth move

/// The server's ticket and an authenticator for its challenge.
pub fn hand_on(request: &[u8; 141], tickets: &[u8; 144], ticket: &Ticket) -> [u8; 85]
    ensures { result ≡ handed_on request.now tickets.now ticket.now }
{
    let proof = seal_auth(
        &Authenticator {
            num: AUTH_AC,
            chal: challenge_in(request),
            id: 0,
        },
        &ticket.key,
    );
    let (_, handed) = tickets.split_at(72);
    join_parts(handed, &proof)
}

// A ticket and the authenticator behind it.
fn join_parts(ticket: &[u8], proof: &[u8; 13]) -> [u8; 85]
    requires { length ticket.now ≡ 72 }
    ensures { result ≡ ticket.now ++ proof.now }
{
    let mut message = [0; 85];
    message[..72].copy_from_slice(ticket);
    message[72..].copy_from_slice(proof);
    message
}

/// The server's authenticator was given.
pub fn take_proof(
    own: &Own,
    request: &[u8; 141],
    key: &SkKey,
    tickets: &[u8; 144],
    bytes: &[u8],
) -> Step
    ensures verdict { verdict_of result ≡ sized 13 bytes.now
        (proof_came (start_of own.now) request.now key.now tickets.now bytes.now) }
    ensures ready { LeadsOn result }
{
    let proof = match take_sized::<13>(bytes) {
        Ok(proof) => proof,
        Err(step) => return step,
    };
    match ticket_in(key, tickets) {
        Ok(ticket) => match test_proof(AUTH_AS, &own.word, &open_auth(&proof, &ticket.key)) {
            None => Step::Goes(Stage::ClientDone {
                request: *request,
                key: *key,
                tickets: *tickets,
                proof,
            }),
            Some(cause) => Step::Breaks(cause),
        },
        Err(_) => Step::Breaks(Cause::BadKey),
    }
}
