// What a conversation gives or asks next.
ghost use Rattle.std.specs.Prelude.{◌≡◌, ◌∷◌, [], IfOk, option_map};
ghost use Rattle.symbolic_runs.specs.Forms.{Fields, mail_request, request};
ghost use Rattle.symbolic_runs.specs.Gifts.{next_gift};
ghost use Rattle.symbolic_runs.specs.Moves.{client, gives, mail_client, mail_server, server, takes};
ghost use Rattle.symbolic_runs.specs.Views.{tree};
ghost use Rattle.trace_runs.specs.Gifts.{challenge_on, client_proof, second_question, server_proof};
ghost use Rattle.trace_runs.specs.Views.{fields_of, move_of, newest_first, own_of, role_of};

use crate::makers::{
    TICKET_REQUEST, client_message, copy_part, digest, mail_kind, pair, request, server_message,
};
use crate::moves::{Move, Names, Own, Role};
use crate::parts::{inner_part, opened, part, shown};
use crate::rows::{
    Accepted, accepted_row, answer_and_question, answer_heard, digest_and_user, first_taken,
    nothing_done, request_and_word,
};
use crate::shapes::{
    are_whole, hears_challenge, hears_tickets, is_public, is_request, takes_ticket,
};
use std::alloc::Global;
use symbolic_runs::{MacKind, Term};
use wire_base::NoMemory;

// A client that took a request asks for tickets, where the request is whole.
fn client_question(
    alloc: Global,
    own: &Own,
    word: &Term,
    taken: &Term,
    names: &Names,
) -> Result<Option<Move>, NoMemory>
    ensures { IfOk result (λ gift. option_map move_of gift
        ≡ next_gift (own_of own.now) client (takes (tree taken.now) ∷ gives (tree word.now) ∷ [])
        (fields_of names.now)) }
{
    let challenge = part(taken, 3);
    if !(word.same(&own.word)
        && is_request(&TICKET_REQUEST, taken, challenge)
        && are_whole(taken))
    {
        return Ok(None);
    }
    let challenge = copy_part(alloc, challenge)?;
    let question = request(alloc, &TICKET_REQUEST, names, challenge)?;
    Ok(Some(Move::Asks(question)))
}

fn client_gift(
    alloc: Global,
    own: &Own,
    moves: &[Move],
    names: &Names,
) -> Result<Option<Move>, NoMemory>
    ensures { IfOk result (λ gift. option_map move_of gift
        ≡ next_gift (own_of own.now) client (newest_first moves.now) (fields_of names.now)) }
{
    if nothing_done(moves) {
        return Ok(Some(Move::Gives(own.word.copy(alloc)?)));
    }
    if let Some((taken, word)) = request_and_word(moves) {
        return client_question(alloc, own, word, taken, names);
    }
    match answer_and_question(moves) {
        Some((answer, question)) => client_proof(alloc, own, question, answer),
        None => Ok(None),
    }
}

// A client that heard tickets hands one on, with an authenticator.
fn client_proof(
    alloc: Global,
    own: &Own,
    question: &Term,
    answer: &Term,
) -> Result<Option<Move>, NoMemory>
    ensures { IfOk result (λ gift. option_map move_of gift
        ≡ client_proof (own_of own.now) (tree question.now) (tree answer.now)) }
{
    if !hears_tickets(own, answer, question) {
        return Ok(None);
    }
    let ticket = opened(answer);
    let handed = copy_part(alloc, part(answer, 2))?;
    let key = copy_part(alloc, inner_part(ticket, 4))?;
    let challenge = copy_part(alloc, inner_part(ticket, 1))?;
    let message = client_message(alloc, handed, key, challenge)?;
    Ok(Some(Move::Gives(message)))
}

// A server that accepted answers with its own authenticator.
fn server_proof(alloc: Global, own: &Own, row: &Accepted) -> Result<Option<Move>, NoMemory>
    ensures { IfOk result (λ gift. option_map move_of gift ≡ server_proof (own_of own.now)
        row.now.suid.now (tree row.now.message.now) (tree row.now.question.now)
        (tree row.now.challenge.now)) }
{
    if !(takes_ticket(own, row.message, row.suid)
        && is_request(&TICKET_REQUEST, row.question, Some(&own.word)))
    {
        return Ok(None);
    }
    let key = copy_part(alloc, inner_part(shown(row.message), 4))?;
    let answer = server_message(alloc, key, row.challenge.copy(alloc)?)?;
    Ok(Some(Move::Gives(answer)))
}

fn server_gift(
    alloc: Global,
    own: &Own,
    moves: &[Move],
    names: &Names,
) -> Result<Option<Move>, NoMemory>
    ensures { IfOk result (λ gift. option_map move_of gift
        ≡ next_gift (own_of own.now) server (newest_first moves.now) (fields_of names.now)) }
{
    if first_taken(moves).is_some() {
        let challenge = own.word.copy(alloc)?;
        return Ok(Some(Move::Gives(request(alloc, &TICKET_REQUEST, names, challenge)?)));
    }
    match accepted_row(moves) {
        Some(row) => server_proof(alloc, own, &row),
        None => Ok(None),
    }
}

fn mail_client_gift(
    alloc: Global,
    own: &Own,
    kind: MacKind,
    moves: &[Move],
) -> Result<Option<Move>, NoMemory>
    ensures { (names : Fields) → IfOk result (λ gift. option_map move_of gift
        ≡ next_gift (own_of own.now) (mail_client kind) (newest_first moves.now) names) }
{
    match first_taken(moves) {
        Some(challenge) => {
            let secret = own.password.copy(alloc)?;
            Ok(Some(Move::Gives(digest(alloc, kind, secret, challenge.copy(alloc)?)?)))
        }
        None => Ok(None),
    }
}

fn mail_question(alloc: Global, own: &Own, kind: MacKind, names: &Names) -> Result<Term, NoMemory>
    ensures { IfOk result (λ term. tree term
        ≡ request (mail_request kind) (fields_of names.now) (tree own.now.word)) }
{
    let challenge = own.word.copy(alloc)?;
    request(alloc, &mail_kind(kind), names, challenge)
}

// A mail server hands on the challenge that it heard.
fn challenge_on(alloc: Global, answer: &Term) -> Result<Option<Move>, NoMemory>
    ensures { IfOk result (λ gift. option_map move_of gift ≡ challenge_on (tree answer.now)) }
{
    if !hears_challenge(answer) {
        return Ok(None);
    }
    let challenge = copy_part(alloc, part(answer, 1))?;
    Ok(Some(Move::Gives(challenge)))
}

// A mail server asks whether the digest that it took is right.
fn second_question(
    alloc: Global,
    own: &Own,
    kind: MacKind,
    user: &Term,
    taken: &Term,
    names: &Names,
) -> Result<Option<Move>, NoMemory>
    ensures { IfOk result (λ gift. option_map move_of gift ≡ second_question (own_of own.now) kind
        (tree user.now) (tree taken.now) (fields_of names.now)) }
{
    if !is_public(user) {
        return Ok(None);
    }
    let question = mail_question(alloc, own, kind, names)?;
    Ok(Some(Move::Asks(pair(alloc, question, taken.copy(alloc)?)?)))
}

fn mail_server_gift(
    alloc: Global,
    own: &Own,
    kind: MacKind,
    moves: &[Move],
    names: &Names,
) -> Result<Option<Move>, NoMemory>
    ensures { IfOk result (λ gift. option_map move_of gift
        ≡ next_gift (own_of own.now) (mail_server kind) (newest_first moves.now)
        (fields_of names.now)) }
{
    if nothing_done(moves) {
        return Ok(Some(Move::Asks(mail_question(alloc, own, kind, names)?)));
    }
    if let Some(answer) = answer_heard(moves) {
        return challenge_on(alloc, answer);
    }
    match digest_and_user(moves) {
        Some((taken, user)) => second_question(alloc, own, kind, user, taken, names),
        None => Ok(None),
    }
}

/// The move that gives or asks next, computed from what a conversation did, the newest last, with these names where the
/// table leaves them free; none where no such move may come.
pub fn next_gift(
    alloc: Global,
    own: &Own,
    role: Role,
    moves: &[Move],
    names: &Names,
) -> Result<Option<Move>, NoMemory>
    ensures { IfOk result (λ gift. option_map move_of gift
        ≡ next_gift (own_of own.now) (role_of role) (newest_first moves.now)
        (fields_of names.now)) }
{
    match role {
        Role::Client => client_gift(alloc, own, moves, names),
        Role::Server => server_gift(alloc, own, moves, names),
        Role::MailClient(kind) => mail_client_gift(alloc, own, kind, moves),
        Role::MailServer(kind) => mail_server_gift(alloc, own, kind, moves, names),
    }
}
