// What stands in what a conversation did, where it is all that comes before a move of its row. The moves stand in the
// order in which they were made, and are looked at from the newest on.
ghost use Rattle.std.specs.Prelude.{◌≡◌, option_map};
ghost use Rattle.symbolic_runs.specs.Views.{tree};
ghost use Rattle.trace_runs.specs.Rows.{accepted_row, request_and_word, answer_and_question, proof_and_answer, first_taken, is_nothing, ticket_taken, answer_heard, user_taken, digest_and_user, vouch_heard};
ghost use Rattle.trace_runs.specs.Views.{newest_first};

use crate::moves::Move;
use symbolic_runs::Term;

/// Whether nothing was done.
#[tactic(auto, using(crate::proofs::RowSizes::nothing_is))]
pub fn nothing_done(moves: &[Move]) -> bool
    ensures { result ≡ is_nothing (newest_first moves.now) }
{
    moves.is_empty()
}

/// The request taken and the word given, where a client did this and no more.
#[tactic(auto, using(crate::proofs::RowSizes::request_and_word_few, crate::proofs::RowSizes::request_and_word_many))]
pub fn request_and_word(moves: &[Move]) -> Option<(&Term, &Term)>
    ensures { option_map (λ parts. (tree parts.0.now, tree parts.1.now)) result
        ≡ request_and_word (newest_first moves.now) }
{
    match moves {
        [first, second] => {
            let request = second.taken()?;
            let word = first.given()?;
            Some((request, word))
        }
        _ => None,
    }
}

/// The tickets heard and the question asked, where a client did this last.
#[tactic(auto, using(crate::proofs::RowSizes::answer_and_question_few, crate::proofs::RowSizes::answer_and_question_many))]
pub fn answer_and_question(moves: &[Move]) -> Option<(&Term, &Term)>
    ensures { option_map (λ parts. (tree parts.0.now, tree parts.1.now)) result
        ≡ answer_and_question (newest_first moves.now) }
{
    match moves {
        [first, second, third, fourth] => {
            let answer = fourth.heard()?;
            let question = third.asked()?;
            second.taken()?;
            first.given()?;
            Some((answer, question))
        }
        _ => None,
    }
}

/// The server's proof taken and the tickets heard, where a client did this last.
#[tactic(auto, using(crate::proofs::RowSizes::proof_and_answer_few, crate::proofs::RowSizes::proof_and_answer_many))]
pub fn proof_and_answer(moves: &[Move]) -> Option<(&Term, &Term)>
    ensures { option_map (λ parts. (tree parts.0.now, tree parts.1.now)) result
        ≡ proof_and_answer (newest_first moves.now) }
{
    match moves {
        [first, second, third, fourth, fifth, sixth] => {
            let proof = sixth.taken()?;
            fifth.given()?;
            let answer = fourth.heard()?;
            third.asked()?;
            second.taken()?;
            first.given()?;
            Some((proof, answer))
        }
        _ => None,
    }
}

/// The challenge taken, where nothing else was done.
#[tactic(auto, using(crate::proofs::RowSizes::first_taken_few, crate::proofs::RowSizes::first_taken_many))]
pub fn first_taken(moves: &[Move]) -> Option<&Term>
    ensures { option_map (λ term. tree term.now) result
        ≡ first_taken (newest_first moves.now) }
{
    match moves {
        [first] => {
            let challenge = first.taken()?;
            Some(challenge)
        }
        _ => None,
    }
}

/// The ticket taken, where a server did this last.
#[tactic(auto, using(crate::proofs::RowSizes::ticket_taken_few, crate::proofs::RowSizes::ticket_taken_many))]
pub fn ticket_taken(moves: &[Move]) -> Option<&Term>
    ensures { option_map (λ term. tree term.now) result
        ≡ ticket_taken (newest_first moves.now) }
{
    match moves {
        [first, second, third] => {
            let message = third.taken()?;
            second.given()?;
            first.taken()?;
            Some(message)
        }
        _ => None,
    }
}

/// The challenge heard, where a mail server did this last.
#[tactic(auto, using(crate::proofs::RowSizes::answer_heard_few, crate::proofs::RowSizes::answer_heard_many))]
pub fn answer_heard(moves: &[Move]) -> Option<&Term>
    ensures { option_map (λ term. tree term.now) result
        ≡ answer_heard (newest_first moves.now) }
{
    match moves {
        [first, second] => {
            let answer = second.heard()?;
            first.asked()?;
            Some(answer)
        }
        _ => None,
    }
}

/// The user taken, where a mail server did this last.
#[tactic(auto, using(crate::proofs::RowSizes::user_taken_few, crate::proofs::RowSizes::user_taken_many))]
pub fn user_taken(moves: &[Move]) -> Option<&Term>
    ensures { option_map (λ term. tree term.now) result
        ≡ user_taken (newest_first moves.now) }
{
    match moves {
        [first, second, third, fourth] => {
            let user = fourth.taken()?;
            third.given()?;
            second.heard()?;
            first.asked()?;
            Some(user)
        }
        _ => None,
    }
}

/// The digest and the user taken, where a mail server did this last.
#[tactic(auto, using(crate::proofs::RowSizes::digest_and_user_few, crate::proofs::RowSizes::digest_and_user_many))]
pub fn digest_and_user(moves: &[Move]) -> Option<(&Term, &Term)>
    ensures { option_map (λ parts. (tree parts.0.now, tree parts.1.now)) result
        ≡ digest_and_user (newest_first moves.now) }
{
    match moves {
        [first, second, third, fourth, fifth] => {
            let digest = fifth.taken()?;
            let user = fourth.taken()?;
            third.given()?;
            second.heard()?;
            first.asked()?;
            Some((digest, user))
        }
        _ => None,
    }
}

/// The vouch heard, where a mail server did this last.
#[tactic(auto, using(crate::proofs::RowSizes::vouch_heard_few, crate::proofs::RowSizes::vouch_heard_many))]
pub fn vouch_heard(moves: &[Move]) -> Option<&Term>
    ensures { option_map (λ term. tree term.now) result
        ≡ vouch_heard (newest_first moves.now) }
{
    match moves {
        [first, second, third, fourth, fifth, sixth, seventh] => {
            let answer = seventh.heard()?;
            sixth.asked()?;
            fifth.taken()?;
            fourth.taken()?;
            third.given()?;
            second.heard()?;
            first.asked()?;
            Some(answer)
        }
        _ => None,
    }
}

/// What a server did that accepted last.
#[derive(Clone, Copy)]
pub struct Accepted<'a> {
    pub suid: &'a [u8],
    pub message: &'a Term,
    pub question: &'a Term,
    pub challenge: &'a Term,
}

/// The user accepted, the message and the request by which it came, and the challenge, where a server did this.
#[tactic(auto, using(crate::proofs::RowSizes::accepted_row_few, crate::proofs::RowSizes::accepted_row_many))]
pub fn accepted_row(moves: &[Move]) -> Option<Accepted<'_>>
    ensures { option_map (λ row. (
      row.suid.now,
      (
        tree row.message.now,
        (tree row.question.now, tree row.challenge.now),
      ),
    )) result
        ≡ accepted_row (newest_first moves.now) }
{
    match moves {
        [first, second, third, fourth] => {
            let suid = fourth.accepted()?;
            let message = third.taken()?;
            let question = second.given()?;
            let challenge = first.taken()?;
            Some(Accepted {
                suid,
                message,
                question,
                challenge,
            })
        }
        _ => None,
    }
}
