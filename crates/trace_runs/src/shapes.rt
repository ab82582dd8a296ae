// Whether terms have the shapes of messages. They are compared piece by piece; nothing is built.
ghost use Rattle.std.specs.Prelude.{◌≡◌, ◌&&◌, map};
ghost use Rattle.symbolic_runs.specs.Forms.{authenticator, for_client, for_server, pair, tickets};
ghost use Rattle.symbolic_runs.specs.Gifts.{are_whole, body, bytes, fields_of, has_names, hears_challenge, hears_tickets, is_request, opened, part, shown, takes_ticket, ticket_like};
ghost use Rattle.symbolic_runs.specs.Trees.{plain, same_tree, seal};
ghost use Rattle.symbolic_runs.specs.Views.{tree};
ghost use Rattle.trace_runs.specs.Parts.{found_tree};
ghost use Rattle.trace_runs.specs.Shapes.{are_answer, are_authenticator, are_challenge, are_request, are_shown, are_ticket, are_vouch, is_answer, is_public, is_ticket_for, is_vouch, proves_ticket};
ghost use Rattle.trace_runs.specs.Views.{own_of};

use crate::makers::{ANSWER_OK, BY_CLIENT, FOR_CLIENT, FOR_SERVER, NO_ID, TICKET_REQUEST};
use crate::moves::Own;
use crate::parts::{body, bytes_at, inner_bytes, inner_part, opened, pieces, shown};
use symbolic_runs::Term;

// The bytes of a name's field, and of a domain's.
const NAME_SIZE: usize = 28;

const DOMAIN_SIZE: usize = 48;

// The bytes before a challenge.
const HEAD_SIZE: usize = 6;

/// Whether a term is these bytes.
pub fn is_plain(term: &Term, wanted: &[u8]) -> bool
    ensures { result ≡ same_tree (tree term.now) (plain wanted.now) }
{
    match term {
        Term::Pub(bytes) => bytes.as_slice() == wanted,
        Term::Nonce(_)
        | Term::AsChal(_)
        | Term::LKey(_)
        | Term::SKey(_)
        | Term::Junk(_)
        | Term::Pw(_)
        | Term::Cat(_)
        | Term::Seal(_, _)
        | Term::Mac(_, _, _) => false,
    }
}

/// Whether a term is bytes that anybody may know.
pub fn is_public(term: &Term) -> bool
    ensures { result ≡ is_public (tree term.now) }
{
    match term {
        Term::Pub(_) => true,
        Term::Nonce(_)
        | Term::AsChal(_)
        | Term::LKey(_)
        | Term::SKey(_)
        | Term::Junk(_)
        | Term::Pw(_)
        | Term::Cat(_)
        | Term::Seal(_, _)
        | Term::Mac(_, _, _) => false,
    }
}

/// Whether a term is the part that was looked for; where there was none, whether it is no bytes.
pub fn is_part(term: &Term, wanted: Option<&Term>) -> bool
    ensures { result ≡ same_tree (tree term.now) (found_tree wanted.entry) }
{
    match wanted {
        Some(part) => term.same(part),
        None => is_plain(term, &[]),
    }
}

fn are_request(kind: &[u8], challenge: Option<&Term>, list: &[Term]) -> bool
    ensures { result ≡ are_request kind.now (found_tree challenge.entry) (map tree list.now) }
{
    match list {
        [number, authid, authdom, own, hostid, uid] => {
            is_plain(number, kind)
                && is_public(authid)
                && is_public(authdom)
                && is_part(own, challenge)
                && is_public(hostid)
                && is_public(uid)
        }
        _ => false,
    }
}

/// Whether a term is a request of this kind with this challenge.
pub fn is_request(kind: &[u8], term: &Term, challenge: Option<&Term>) -> bool
    ensures { result ≡ is_request kind.now (tree term.now) (found_tree challenge.entry) }
{
    match pieces(term) {
        Some(list) => are_request(kind, challenge, list),
        None => false,
    }
}

/// Whether the public fields of a request are whole: names of 28 bytes and a domain of 48.
pub fn are_whole(request: &Term) -> bool
    ensures { result ≡ are_whole (fields_of (tree request.now)) }
{
    bytes_at(request, 1).len() == NAME_SIZE
        && bytes_at(request, 2).len() == DOMAIN_SIZE
        && bytes_at(request, 4).len() == NAME_SIZE
        && bytes_at(request, 5).len() == NAME_SIZE
}

fn are_ticket(number: &[u8], challenge: Option<&Term>, list: &[Term]) -> bool
    ensures { result ≡ are_ticket number.now (found_tree challenge.entry) (map tree list.now) }
{
    match list {
        [kind, own, cuid, suid, _key] => {
            is_plain(kind, number) && is_part(own, challenge) && is_public(cuid) && is_public(suid)
        }
        _ => false,
    }
}

/// Whether a term is a ticket of this number with this challenge, not sealed.
pub fn is_ticket(number: &[u8], challenge: Option<&Term>, term: &Term) -> bool
    ensures { result ≡ same_tree (tree term.now)
        (ticket_like number.now (found_tree challenge.entry) (tree term.now)) }
{
    match pieces(term) {
        Some(list) => are_ticket(number, challenge, list),
        None => false,
    }
}

/// Whether the names of a ticket are whole, 28 bytes each.
pub fn has_names(ticket: &Term) -> bool
    ensures { result ≡ has_names (tree ticket.now) }
{
    bytes_at(ticket, 2).len() == NAME_SIZE && bytes_at(ticket, 3).len() == NAME_SIZE
}

fn are_authenticator(number: &[u8], challenge: Option<&Term>, list: &[Term]) -> bool
    ensures { result ≡ are_authenticator number.now (found_tree challenge.entry) (map tree list.now) }
{
    match list {
        [kind, own, id] => is_plain(kind, number)
            && is_part(own, challenge)
            && is_plain(id, &NO_ID),
        _ => false,
    }
}

/// Whether a term is an authenticator of this number with this challenge, not sealed.
pub fn is_authenticator(number: &[u8], challenge: Option<&Term>, term: &Term) -> bool
    ensures { result ≡ same_tree (tree term.now)
        (authenticator number.now (found_tree challenge.entry)) }
{
    match pieces(term) {
        Some(list) => are_authenticator(number, challenge, list),
        None => false,
    }
}

/// Whether a term is a ticket of this number with this challenge, sealed under a key.
pub fn is_sealed_ticket(key: &Term, number: &[u8], challenge: Option<&Term>, term: &Term) -> bool
    ensures { result ≡ same_tree (tree term.now) (seal (tree key.now)
        (ticket_like number.now (found_tree challenge.entry) (body (tree term.now)))) }
{
    match term {
        Term::Seal(own, body) => own.same(key) && is_ticket(number, challenge, body),
        Term::Pub(_)
        | Term::Nonce(_)
        | Term::AsChal(_)
        | Term::LKey(_)
        | Term::SKey(_)
        | Term::Junk(_)
        | Term::Pw(_)
        | Term::Cat(_)
        | Term::Mac(_, _, _) => false,
    }
}

/// Whether a term is an authenticator of this number with this challenge, sealed under a key.
pub fn is_sealed_authenticator(
    key: Option<&Term>,
    number: &[u8],
    challenge: Option<&Term>,
    term: &Term,
) -> bool
    ensures { result ≡ same_tree (tree term.now) (seal (found_tree key.entry)
        (authenticator number.now (found_tree challenge.entry))) }
{
    match term {
        Term::Seal(own, body) => is_part(own, key) && is_authenticator(number, challenge, body),
        Term::Pub(_)
        | Term::Nonce(_)
        | Term::AsChal(_)
        | Term::LKey(_)
        | Term::SKey(_)
        | Term::Junk(_)
        | Term::Pw(_)
        | Term::Cat(_)
        | Term::Mac(_, _, _) => false,
    }
}

fn are_answer(own: &Own, challenge: Option<&Term>, list: &[Term]) -> bool
    ensures { result
        ≡ are_answer (own_of own.now) (found_tree challenge.entry) (map tree list.now) }
{
    match list {
        [kind, ticket, _handed] => {
            is_plain(kind, &ANSWER_OK) && is_sealed_ticket(&own.key, &FOR_CLIENT, challenge, ticket)
        }
        _ => false,
    }
}

/// Whether a term is an answer to a client's question: a ticket for it under its key, with this challenge, and
/// whatever it hands on.
pub fn is_answer(own: &Own, challenge: Option<&Term>, answer: &Term) -> bool
    ensures { result
        ≡ is_answer (own_of own.now) (found_tree challenge.entry) (tree answer.now) }
{
    match pieces(answer) {
        Some(list) => are_answer(own, challenge, list),
        None => false,
    }
}

/// Whether an answer is tickets for this client, with the challenge of its question.
pub fn hears_tickets(own: &Own, answer: &Term, question: &Term) -> bool
    ensures { result
        ≡ hears_tickets (own_of own.now) (tree answer.now) (tree question.now) }
{
    let challenge = inner_part(opened(answer), 1);
    is_answer(own, challenge, answer)
        && has_whole_names(opened(answer))
        && is_request(&TICKET_REQUEST, question, challenge)
}

/// Whether the names of a ticket that was looked for are whole.
pub fn has_whole_names(ticket: Option<&Term>) -> bool
    ensures { result ≡ has_names (found_tree ticket.entry) }
{
    inner_bytes(ticket, 2).len() == NAME_SIZE && inner_bytes(ticket, 3).len() == NAME_SIZE
}

// Whether a term is a ticket for a server under its key, with its own word.
fn is_ticket_for(own: &Own, ticket: &Term) -> bool
    ensures { result ≡ is_ticket_for (own_of own.now) (tree ticket.now) }
{
    is_sealed_ticket(&own.key, &FOR_SERVER, Some(&own.word), ticket)
}

// Whether an authenticator of a client's stands under the key of a sealed ticket, with a server's own word.
fn proves_ticket(own: &Own, ticket: &Term, proof: &Term) -> bool
    ensures { result ≡ proves_ticket (own_of own.now) (tree ticket.now) (tree proof.now) }
{
    let key = inner_part(body(ticket), 4);
    is_sealed_authenticator(key, &BY_CLIENT, Some(&own.word), proof)
}

fn are_shown(own: &Own, list: &[Term]) -> bool
    ensures { result ≡ are_shown (own_of own.now) (map tree list.now) }
{
    match list {
        [ticket, proof] => is_ticket_for(own, ticket) && proves_ticket(own, ticket, proof),
        _ => false,
    }
}

/// Whether a message is a ticket under a server's key with the server's word, and an authenticator under the ticket's
/// key.
pub fn is_shown(own: &Own, message: &Term) -> bool
    ensures { result ≡ takes_ticket (own_of own.now) (tree message.now)
        (bytes (part (shown (tree message.now)) 3)) }
{
    match pieces(message) {
        Some(list) => are_shown(own, list),
        None => false,
    }
}

/// Whether a message is shown so, and its ticket is for this user, by its field.
pub fn takes_ticket(own: &Own, message: &Term, suid: &[u8]) -> bool
    ensures { result ≡ takes_ticket (own_of own.now) (tree message.now) suid.now }
{
    is_shown(own, message) && inner_bytes(shown(message), 3) == suid
}

fn are_vouch(own: &Own, list: &[Term]) -> bool
    ensures { result ≡ are_vouch (own_of own.now) (map tree list.now) }
{
    match list {
        [kind, ticket, proof] => {
            is_plain(kind, &ANSWER_OK)
                && is_ticket_for(own, ticket)
                && proves_ticket(own, ticket, proof)
        }
        _ => false,
    }
}

/// Whether an answer vouches to a mail server: a ticket under its key with its word, and an authenticator under the
/// ticket's key.
pub fn is_vouch(own: &Own, answer: &Term) -> bool
    ensures { result ≡ is_vouch (own_of own.now) (tree answer.now) }
{
    match pieces(answer) {
        Some(list) => are_vouch(own, list),
        None => false,
    }
}

fn are_challenge(list: &[Term]) -> bool
    ensures { result ≡ are_challenge (map tree list.now) }
{
    match list {
        [head, _challenge] => is_public(head),
        _ => false,
    }
}

fn is_behind_bytes(answer: &Term) -> bool
    ensures { result ≡ same_tree (tree answer.now)
        (pair (plain (bytes (part (tree answer.now) 0))) (part (tree answer.now) 1)) }
{
    match pieces(answer) {
        Some(list) => are_challenge(list),
        None => false,
    }
}

/// Whether an answer is a challenge behind six bytes.
pub fn hears_challenge(answer: &Term) -> bool
    ensures { result ≡ hears_challenge (tree answer.now) }
{
    is_behind_bytes(answer) && bytes_at(answer, 0).len() == HEAD_SIZE
}
