// Whether what came last to a conversation has the form of its move.
ghost use Rattle.std.specs.Prelude.{◌≡◌, ◌↔◌, ◌&&◌, true, IfOk};
ghost use Rattle.clean_runs.specs.Forms.{IsFormed};
ghost use Rattle.symbolic_runs.specs.Answers.{atoms_of};
ghost use Rattle.symbolic_runs.specs.Moves.{client, mail_server, server};
ghost use Rattle.symbolic_runs.specs.declared.kind.MacKind.{MacKind};
ghost use Rattle.symbolic_runs.specs.Spellings.{Atoms, spelling};
ghost use Rattle.symbolic_runs.specs.Views.{tree};
ghost use Rattle.trace_runs.specs.Formed.{formed, is_right_answer, is_server_proof, is_seven, is_whole_request, is_whole_shown, is_whole_vouch};
ghost use Rattle.trace_runs.specs.Parts.{found_tree};
ghost use Rattle.trace_runs.specs.Views.{newest_first, own_of, role_of};

use crate::makers::{BY_SERVER, TICKET_REQUEST};
use crate::moves::{Move, Own, Role};
use crate::parts::{inner_part, opened, part, shown};
use crate::rows::{
    answer_and_question, answer_heard, proof_and_answer, request_and_word, ticket_taken,
    user_taken, vouch_heard,
};
use crate::shapes::{
    are_whole, has_whole_names, hears_challenge, is_answer, is_public, is_request,
    is_sealed_authenticator, is_shown, is_vouch,
};
use symbolic_runs::{Reading, SpellFault, Term, spell};
use wire_base::{Bytes, NoMemory};

// The bytes of a key.
const KEY_SIZE: usize = 7;

#[tactic(auto, using(crate::proofs::FormLaws::seven_spelled, crate::proofs::FormLaws::unspelled))]
fn is_term_seven(reading: &Reading, key: &Term) -> Result<bool, NoMemory>
    ensures { IfOk result (λ so. so
        ≡ is_seven (spelling (atoms_of reading.now) (tree key.now))) }
{
    let mut spelled = Bytes::new(reading.allocator());
    match spell(reading, key, &mut spelled) {
        Ok(()) => Ok(spelled.len() == KEY_SIZE),
        Err(SpellFault::NoAtom) => Ok(true),
        Err(SpellFault::BadSeal) => Ok(true),
        Err(SpellFault::NoMemory) => Err(NoMemory),
    }
}

// Whether a key has seven bytes, where it is spelled under the reading.
fn is_seven(reading: &Reading, key: Option<&Term>) -> Result<bool, NoMemory>
    ensures { IfOk result (λ so. so
        ≡ is_seven (spelling (atoms_of reading.now) (found_tree key.entry))) }
{
    match key {
        Some(key) => is_term_seven(reading, key),
        None => Ok(false),
    }
}

/// Whether a term is a request of this kind with whole fields.
pub fn is_whole_request(kind: &[u8], term: &Term) -> bool
    ensures { result ≡ is_whole_request kind.now (tree term.now) }
{
    is_request(kind, term, part(term, 3)) && are_whole(term)
}

fn is_right_answer(
    reading: &Reading,
    own: &Own,
    question: &Term,
    answer: &Term,
) -> Result<bool, NoMemory>
    ensures { IfOk result (λ so. so ≡ is_right_answer (atoms_of reading.now) (own_of own.now)
        (tree question.now) (tree answer.now)) }
{
    let ticket = opened(answer);
    if !(is_answer(own, part(question, 3), answer) && has_whole_names(ticket)) {
        return Ok(false);
    }
    is_seven(reading, inner_part(ticket, 4))
}

fn is_server_proof(own: &Own, answer: &Term, taken: &Term) -> bool
    ensures { result
        ≡ is_server_proof (own_of own.now) (tree answer.now) (tree taken.now) }
{
    let key = inner_part(opened(answer), 4);
    is_sealed_authenticator(key, &BY_SERVER, Some(&own.word), taken)
}

fn is_whole_shown(own: &Own, taken: &Term) -> bool
    ensures { result ≡ is_whole_shown (own_of own.now) (tree taken.now) }
{
    is_shown(own, taken) && has_whole_names(shown(taken))
}

fn is_whole_vouch(own: &Own, answer: &Term) -> bool
    ensures { result ≡ is_whole_vouch (own_of own.now) (tree answer.now) }
{
    is_vouch(own, answer) && has_whole_names(opened(answer))
}

#[tactic(auto, using(crate::proofs::FormLaws::client_request, crate::proofs::FormLaws::client_answer, crate::proofs::FormLaws::client_proven, crate::proofs::FormLaws::client_free))]
fn is_client_formed(reading: &Reading, own: &Own, moves: &[Move]) -> Result<bool, NoMemory>
    ensures { IfOk result (λ so. so ≡ formed (atoms_of reading.now) (own_of own.now) client
        (newest_first moves.now)) }
{
    if let Some((taken, _)) = request_and_word(moves) {
        return Ok(is_whole_request(&TICKET_REQUEST, taken));
    }
    if let Some((answer, question)) = answer_and_question(moves) {
        return is_right_answer(reading, own, question, answer);
    }
    match proof_and_answer(moves) {
        Some((proof, answer)) => Ok(is_server_proof(own, answer, proof)),
        None => Ok(true),
    }
}

#[tactic(auto, using(crate::proofs::FormLaws::server_ticket, crate::proofs::FormLaws::server_free))]
fn is_server_formed(own: &Own, moves: &[Move]) -> bool
    ensures { (atoms : Atoms)
        → result ≡ formed atoms (own_of own.now) server (newest_first moves.now) }
{
    match ticket_taken(moves) {
        Some(message) => is_whole_shown(own, message),
        None => true,
    }
}

#[tactic(auto, using(crate::proofs::FormLaws::mail_challenge, crate::proofs::FormLaws::mail_user, crate::proofs::FormLaws::mail_vouch, crate::proofs::FormLaws::mail_free))]
fn is_mail_formed(own: &Own, moves: &[Move]) -> bool
    ensures { (atoms : Atoms) (kind : MacKind)
        → result ≡ formed atoms (own_of own.now) (mail_server kind) (newest_first moves.now) }
{
    if let Some(answer) = answer_heard(moves) {
        return hears_challenge(answer);
    }
    if let Some(user) = user_taken(moves) {
        return is_public(user);
    }
    match vouch_heard(moves) {
        Some(answer) => is_whole_vouch(own, answer),
        None => true,
    }
}

fn decide(reading: &Reading, own: &Own, role: Role, moves: &[Move]) -> Result<bool, NoMemory>
    ensures { IfOk result (λ so. so ≡ formed (atoms_of reading.now) (own_of own.now)
        (role_of role) (newest_first moves.now)) }
{
    match role {
        Role::Client => is_client_formed(reading, own, moves),
        Role::Server => Ok(is_server_formed(own, moves)),
        Role::MailClient(_) => Ok(true),
        Role::MailServer(_) => Ok(is_mail_formed(own, moves)),
    }
}

/// Whether what came last to a conversation has the form of its move, under the reading. The newest move stands last.
pub fn is_formed(reading: &Reading, own: &Own, role: Role, moves: &[Move]) -> Result<bool, NoMemory>
    ensures { IfOk result (λ so. (so ≡ true) ↔ IsFormed (atoms_of reading.now) (own_of own.now)
        (role_of role) (newest_first moves.now)) }
{
    decide(reading, own, role, moves)
}
