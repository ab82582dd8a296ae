// What a call comes to at a stage.
ghost use Rattle.std.specs.Prelude.{◌≡◌, ◌++◌, IfOk, OnErr, option_map};
ghost use Rattle.roles.specs.Courses.{bytes_of};
ghost use Rattle.roles.specs.Talks.{found, get, give, heard, roomless, undone, unheard};
ghost use Rattle.conv_challenge.specs.Courses.{move};
ghost use Rattle.conv_challenge.specs.Steps.{NeedsNothing, start_of, verdict_of, with_bytes};

use crate::client::{put_digits, take_challenge, take_password};
use crate::own::Own;
use crate::server::{put_challenge, take_digits, take_granted, take_user, take_vouch};
use crate::stage::Stage;
use crate::step::{Step, idle};
use roles::{Cause, SkKey};
use std::alloc::Global;
use wire_base::{Bytes, NoMemory, Text};

/// A message was given.
pub fn judge_given(alloc: Global, own: &Own, stage: &Stage, bytes: &[u8]) -> Result<Step, NoMemory>
    ensures { IfOk result (λ step. verdict_of step
        ≡ move (start_of own.now) stage.now (give bytes.now)) }
{
    match stage {
        Stage::ClientFirst => take_challenge(alloc, bytes),
        Stage::ServerSecond { key, challenge } => take_user(key, challenge, bytes),
        Stage::ServerThird {
            key,
            challenge,
            user,
        } => take_digits(key, challenge, user, bytes),
        Stage::ClientKey { .. }
        | Stage::ClientSecond { .. }
        | Stage::ClientDone { .. }
        | Stage::ServerKey
        | Stage::ServerAsk { .. }
        | Stage::ServerFirst { .. }
        | Stage::ServerVouch { .. }
        | Stage::ServerDone { .. } => Ok(Step::Stays(idle(stage))),
    }
}

/// A message is put behind what stands.
pub fn put_message(own: &Own, stage: &Stage, out: &mut Bytes) -> Result<Step, NoMemory>
    ensures verdict { IfOk result (λ step. with_bytes step
        (bytes_of (move (start_of own.now) stage.now get))
        ≡ move (start_of own.now) stage.now get) }
    ensures put { IfOk result (λ _. out.new
        ≡ out.old ++ bytes_of (move (start_of own.now) stage.now get)) }
    ensures err { OnErr result (out.new ≡ out.old) }
    ensures free { IfOk result NeedsNothing }
{
    match stage {
        Stage::ClientSecond {
            challenge,
            password,
        } => put_digits(own, challenge, password, out),
        Stage::ServerFirst { key, challenge } => put_challenge(key, challenge, out),
        Stage::ClientFirst
        | Stage::ClientKey { .. }
        | Stage::ClientDone { .. }
        | Stage::ServerKey
        | Stage::ServerAsk { .. }
        | Stage::ServerSecond { .. }
        | Stage::ServerThird { .. }
        | Stage::ServerVouch { .. }
        | Stage::ServerDone { .. } => Ok(Step::Stays(idle(stage))),
    }
}

/// A key was found, with its password, if it has one.
pub fn judge_found(
    alloc: Global,
    own: &Own,
    stage: &Stage,
    key: &SkKey,
    password: Option<&Text>,
) -> Result<Step, NoMemory>
    ensures { IfOk result (λ step. verdict_of step ≡ move (start_of own.now) stage.now
        (found key.now (option_map (λ text. text.now) password.entry))) }
{
    match stage {
        Stage::ClientKey { challenge } => take_password(alloc, challenge, password),
        Stage::ServerKey => Ok(Step::Waits(Stage::ServerAsk { key: *key })),
        Stage::ClientFirst
        | Stage::ClientSecond { .. }
        | Stage::ClientDone { .. }
        | Stage::ServerAsk { .. }
        | Stage::ServerFirst { .. }
        | Stage::ServerSecond { .. }
        | Stage::ServerThird { .. }
        | Stage::ServerVouch { .. }
        | Stage::ServerDone { .. } => Ok(Step::Stays(idle(stage))),
    }
}

/// The authentication server answered.
pub fn judge_heard(alloc: Global, own: &Own, stage: &Stage, answer: &[u8]) -> Result<Step, NoMemory>
    ensures { IfOk result (λ step. verdict_of step
        ≡ move (start_of own.now) stage.now (heard answer.now)) }
{
    match stage {
        Stage::ServerAsk { key } => take_granted(alloc, key, answer),
        Stage::ServerVouch {
            key,
            challenge,
            user,
            digits,
        } => take_vouch(own, key, challenge, user, digits, answer),
        Stage::ClientFirst
        | Stage::ClientKey { .. }
        | Stage::ClientSecond { .. }
        | Stage::ClientDone { .. }
        | Stage::ServerKey
        | Stage::ServerFirst { .. }
        | Stage::ServerSecond { .. }
        | Stage::ServerThird { .. }
        | Stage::ServerDone { .. } => Ok(Step::Stays(idle(stage))),
    }
}

/// The authentication server wasn't reached. It takes no memory.
pub fn judge_unheard(own: &Own, stage: &Stage) -> Step
    ensures verdict { verdict_of result ≡ move (start_of own.now) stage.now unheard }
    ensures free { NeedsNothing result }
{
    match stage {
        Stage::ServerAsk { .. } | Stage::ServerVouch { .. } => Step::Breaks(Cause::NoServer),
        Stage::ClientFirst
        | Stage::ClientKey { .. }
        | Stage::ClientSecond { .. }
        | Stage::ClientDone { .. }
        | Stage::ServerKey
        | Stage::ServerFirst { .. }
        | Stage::ServerSecond { .. }
        | Stage::ServerThird { .. }
        | Stage::ServerDone { .. } => Step::Stays(idle(stage)),
    }
}

/// There was no memory for the authentication server's answer. It takes no memory itself.
pub fn judge_roomless(own: &Own, stage: &Stage) -> Step
    ensures verdict { verdict_of result ≡ move (start_of own.now) stage.now roomless }
    ensures free { NeedsNothing result }
{
    match stage {
        Stage::ServerAsk { .. } | Stage::ServerVouch { .. } => Step::Breaks(Cause::NoRoom),
        Stage::ClientFirst
        | Stage::ClientKey { .. }
        | Stage::ClientSecond { .. }
        | Stage::ClientDone { .. }
        | Stage::ServerKey
        | Stage::ServerFirst { .. }
        | Stage::ServerSecond { .. }
        | Stage::ServerThird { .. }
        | Stage::ServerDone { .. } => Step::Stays(idle(stage)),
    }
}

/// The call that wanted a key is taken back. It takes no memory.
pub fn judge_undone(own: &Own, stage: &Stage) -> Step
    ensures verdict { verdict_of result ≡ move (start_of own.now) stage.now undone }
    ensures free { NeedsNothing result }
{
    match stage {
        Stage::ClientKey { .. } => Step::Goes(Stage::ClientFirst),
        Stage::ClientFirst
        | Stage::ClientSecond { .. }
        | Stage::ClientDone { .. }
        | Stage::ServerKey
        | Stage::ServerAsk { .. }
        | Stage::ServerFirst { .. }
        | Stage::ServerSecond { .. }
        | Stage::ServerThird { .. }
        | Stage::ServerVouch { .. }
        | Stage::ServerDone { .. } => Step::Stays(idle(stage)),
    }
}
