// The moves of a server.
ghost use Rattle.std.specs.Prelude.{◌≡◌, ◌≤◌, ◌++◌, IfOk, OnErr, length};
ghost use Rattle.wire_base.specs.Rules.{first_told};
ghost use Rattle.conv_challenge.specs.Servers.{challenge_came, challenge_got, digits_came, grants_challenge, grants_vouch, has_length, user_came, vouch_came, vouch_opened, vouch_tests};
ghost use Rattle.conv_challenge.specs.Steps.{NeedsNothing, ReadsUser, start_of, verdict_of, with_bytes};

use crate::numbers::told_length;
use crate::own::Own;
use crate::stage::{MOST_CHALLENGE, Stage};
use crate::step::{Step, find_misfit};
use attr_tuples::is_user;
use roles::{Cause, SkKey, is_refusal, proof_in, test_proof, ticket_in};
use sealing::{AUTH_AC, AUTH_OK, AUTH_OK_VAR, AUTH_TS, Authenticator, Ticket};
use std::alloc::Global;
use wire_base::{Bytes, Name, NoMemory, check_text};

// ---- the start

/// The authentication server answered the question for a challenge.
pub fn take_granted(alloc: Global, key: &SkKey, answer: &[u8]) -> Result<Step, NoMemory>
    ensures { IfOk result (λ step. verdict_of step ≡ challenge_came key.now answer.now) }
{
    if is_refusal(answer) {
        Ok(Step::Breaks(Cause::ServerSaidNo))
    } else if grants_challenge(answer) {
        Ok(Step::Goes(Stage::ServerFirst {
            key: *key,
            challenge: Bytes::from_slice(alloc, &answer[6..])?,
        }))
    } else {
        Ok(Step::Breaks(Cause::WrongKind))
    }
}

fn grants_challenge(answer: &[u8]) -> bool
    ensures { result ≡ grants_challenge answer.now }
{
    answer.len() >= 6 && answer[0] == AUTH_OK_VAR && has_length(answer)
}

// Whether as many bytes stand behind the length in an answer as it tells, and no more than a challenge may have.
fn has_length(answer: &[u8]) -> bool
    requires { 6 ≤ length answer.now }
    ensures { result ≡ has_length answer.now }
{
    let told = told_length(&answer[1..6]);
    1 <= told && told <= MOST_CHALLENGE && answer.len() == 6 + told
}

// ---- the first move

/// The challenge is put behind what stands.
pub fn put_challenge(key: &SkKey, challenge: &Bytes, out: &mut Bytes) -> Result<Step, NoMemory>
    ensures verdict { IfOk result (λ step. with_bytes step challenge.now
        ≡ challenge_got key.now challenge.now) }
    ensures put { IfOk result (λ _. out.new ≡ out.old ++ challenge.now) }
    ensures err { OnErr result (out.new ≡ out.old) }
    ensures free { IfOk result NeedsNothing }
{
    let next = Stage::ServerSecond {
        key: *key,
        challenge: challenge.copy()?,
    };
    out.append(challenge.as_slice())?;
    Ok(Step::Goes(next))
}

// ---- the second and the third move

/// A user's name was given.
pub fn take_user(key: &SkKey, challenge: &Bytes, bytes: &[u8]) -> Result<Step, NoMemory>
    ensures { IfOk result (λ step. verdict_of step ≡ user_came key.now challenge.now bytes.now) }
{
    if let Some(answer) = find_misfit(bytes, 1, 27) {
        return Ok(Step::Stays(answer));
    }
    match read_user(bytes) {
        Some(user) => Ok(Step::Goes(Stage::ServerThird {
            key: *key,
            challenge: challenge.copy()?,
            user,
        })),
        None => Ok(Step::Breaks(Cause::WrongUser)),
    }
}

// The user whom the bytes name, if they name one.
#[tactic(auto, using(roles::proofs::StartLemmas::user_is_name))]
fn read_user(bytes: &[u8]) -> Option<Name<28>>
    ensures { ReadsUser result bytes.now }
{
    if !is_user(bytes) || !check_text(bytes) {
        return None;
    }
    match Name::from_text(bytes) {
        Some(user) => Some(user),
        None => unreachable!(),
    }
}

/// A user's digits were given.
pub fn take_digits(
    key: &SkKey,
    challenge: &Bytes,
    user: &Name<28>,
    bytes: &[u8],
) -> Result<Step, NoMemory>
    ensures { IfOk result (λ step. verdict_of step
        ≡ digits_came key.now challenge.now user.now bytes.now) }
{
    if let Some(answer) = find_misfit(bytes, 32, 32) {
        return Ok(Step::Stays(answer));
    }
    let mut digits = [0; 32];
    digits.copy_from_slice(bytes);
    Ok(Step::Waits(Stage::ServerVouch {
        key: *key,
        challenge: challenge.copy()?,
        user: *user,
        digits,
    }))
}

// ---- the authentication server vouches

/// The authentication server answered the question whether it vouches.
pub fn take_vouch(
    own: &Own,
    key: &SkKey,
    challenge: &Bytes,
    user: &Name<28>,
    digits: &[u8; 32],
    answer: &[u8],
) -> Result<Step, NoMemory>
    ensures { IfOk result (λ step. verdict_of step
        ≡ vouch_came (start_of own.now) key.now challenge.now user.now digits.now answer.now) }
{
    if is_refusal(answer) {
        Ok(Step::Breaks(Cause::ServerSaidNo))
    } else if grants_vouch(answer) {
        open_vouch(own, key, challenge, user, digits, &answer[1..])
    } else {
        Ok(Step::Breaks(Cause::WrongKind))
    }
}

fn grants_vouch(answer: &[u8]) -> bool
    ensures { result ≡ grants_vouch answer.now }
{
    answer.len() == 86 && answer[0] == AUTH_OK
}

// A ticket and an authenticator.
fn open_vouch(
    own: &Own,
    key: &SkKey,
    challenge: &Bytes,
    user: &Name<28>,
    digits: &[u8; 32],
    granted: &[u8],
) -> Result<Step, NoMemory>
    requires { length granted.now ≡ 85 }
    ensures { IfOk result (λ step. verdict_of step
        ≡ vouch_opened (start_of own.now) key.now challenge.now user.now digits.now granted.now) }
{
    let mut vouch = [0; 85];
    vouch.copy_from_slice(granted);
    match ticket_in(key, &vouch) {
        Ok(ticket) => match test_vouch(own, user, &ticket, &proof_in(&ticket, &vouch)) {
            None => Ok(Step::Goes(Stage::ServerDone {
                key: *key,
                challenge: challenge.copy()?,
                user: *user,
                digits: *digits,
                vouch,
            })),
            Some(cause) => Ok(Step::Breaks(cause)),
        },
        Err(_) => Ok(Step::Breaks(Cause::BadKey)),
    }
}

// The first test that a ticket and its authenticator fail.
fn test_vouch(own: &Own, user: &Name<28>, ticket: &Ticket, proof: &Authenticator) -> Option<Cause>
    ensures { result ≡ first_told (vouch_tests (start_of own.now) user.now ticket.now proof.now) }
{
    if ticket.num != AUTH_TS {
        Some(Cause::BadKey)
    } else if ticket.chal != own.word {
        Some(Cause::WrongChallenge)
    } else if ticket.cuid.text() != user.text() || ticket.suid.text() != user.text() {
        Some(Cause::WrongUser)
    } else {
        test_proof(AUTH_AC, &own.word, proof)
    }
}
