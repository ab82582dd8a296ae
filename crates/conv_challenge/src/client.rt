// The moves of a client.
ghost use Rattle.std.specs.Prelude.{◌≡◌, ◌++◌, [], IfOk, OnErr, option_map, unwrap_or};
ghost use Rattle.roles.specs.Courses.{bytes_of};
ghost use Rattle.conv_challenge.specs.Clients.{challenge_given, digits_by, digits_got, password_came};
ghost use Rattle.conv_challenge.specs.Steps.{NeedsNothing, start_of, verdict_of, with_bytes};

use crate::own::Own;
use crate::stage::{MOST_CHALLENGE, Proto, Stage};
use crate::step::{Step, find_misfit};
use sealing::{apop_answer, cram_answer};
use std::alloc::Global;
use wire_base::{Bytes, NoMemory, Text};

/// A challenge was given.
pub fn take_challenge(alloc: Global, bytes: &[u8]) -> Result<Step, NoMemory>
    ensures { IfOk result (λ step. verdict_of step ≡ challenge_given bytes.now) }
{
    match find_misfit(bytes, 1, MOST_CHALLENGE as u32) {
        Some(answer) => Ok(Step::Stays(answer)),
        None => Ok(Step::Waits(Stage::ClientKey {
            challenge: Bytes::from_slice(alloc, bytes)?,
        })),
    }
}

/// A key was found for the challenge.
pub fn take_password(
    alloc: Global,
    challenge: &Bytes,
    password: Option<&Text>,
) -> Result<Step, NoMemory>
    ensures { IfOk result (λ step. verdict_of step
        ≡ password_came challenge.now (option_map (λ text. text.now) password.entry)) }
{
    Ok(Step::Goes(Stage::ClientSecond {
        challenge: challenge.copy()?,
        password: copy_password(alloc, password)?,
    }))
}

// The password of a key, and the empty one where it has none.
fn copy_password(alloc: Global, password: Option<&Text>) -> Result<Text, NoMemory>
    ensures { IfOk result (λ text. text
        ≡ unwrap_or (option_map (λ text. text.now) password.entry) []) }
{
    match password {
        Some(password) => password.copy(),
        None => make_no_text(alloc),
    }
}

#[tactic(auto, using(crate::proofs::TextLemmas::nothing_is_text))]
fn make_no_text(alloc: Global) -> Result<Text, NoMemory>
    ensures { IfOk result (λ text. text ≡ []) }
{
    match Text::from_slice(alloc, &[])? {
        Some(text) => Ok(text),
        None => unreachable!(),
    }
}

/// The digits are put behind what stands.
pub fn put_digits(
    own: &Own,
    challenge: &Bytes,
    password: &Text,
    out: &mut Bytes,
) -> Result<Step, NoMemory>
    ensures verdict { IfOk result (λ step. with_bytes step
        (bytes_of (digits_got (start_of own.now) challenge.now password.now))
        ≡ digits_got (start_of own.now) challenge.now password.now) }
    ensures put { IfOk result (λ _. out.new
        ≡ out.old ++ bytes_of (digits_got (start_of own.now) challenge.now password.now)) }
    ensures err { OnErr result (out.new ≡ out.old) }
    ensures free { IfOk result NeedsNothing }
{
    let next = Stage::ClientDone {
        challenge: challenge.copy()?,
        password: password.copy()?,
    };
    out.append(&make_digits(own.proto, challenge, password))?;
    Ok(Step::Goes(next))
}

// The digits that answer a challenge by a protocol.
fn make_digits(proto: Proto, challenge: &Bytes, password: &Text) -> [u8; 32]
    ensures { result ≡ digits_by proto challenge.now password.now }
{
    match proto {
        Proto::Apop => apop_answer(challenge.as_slice(), password.as_slice()),
        Proto::Cram => cram_answer(challenge.as_slice(), password.as_slice()),
    }
}
