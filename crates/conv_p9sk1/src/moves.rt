// What a call comes to at a stage. Nothing here takes memory but what is put behind what stands.
ghost use Rattle.std.specs.Prelude.{◌≡◌, ◌++◌, IfOk, List, ℕ, OnErr, Option};
ghost use Rattle.roles.specs.Clients.{tickets_got};
ghost use Rattle.roles.specs.Courses.{bytes_of, move};
ghost use Rattle.roles.specs.Servers.{proof_got};
ghost use Rattle.roles.specs.Talks.{found, get, give, heard, roomless, undone, unheard};
ghost use Rattle.conv_p9sk1.specs.Steps.{LeadsOn, NeedsNothing, start_of, verdict_of, with_bytes};

use crate::client::{hand_on, take_answer, take_proof, take_request};
use crate::own::Own;
use crate::server::{make_proof, make_request, take_challenge, take_shown};
use crate::step::{Step, idle};
use roles::{Cause, SkKey, Stage, ticket_in};
use sealing::read_req;
use wire_base::{Bytes, NoMemory};

/// A message was given.
pub fn judge_given(own: &Own, stage: &Stage, bytes: &[u8]) -> Step
    ensures verdict { verdict_of result ≡ move (start_of own.now) stage.now (give bytes.now) }
    ensures ready { LeadsOn result }
{
    match stage {
        Stage::ClientSecond => take_request(own, bytes),
        Stage::ClientFourth {
            request,
            key,
            tickets,
        } => take_proof(own, request, key, tickets, bytes),
        Stage::ServerFirst { key } => take_challenge(key, bytes),
        Stage::ServerThird { key, theirs } => take_shown(own, key, theirs, bytes),
        Stage::ClientFirst
        | Stage::ClientKey { .. }
        | Stage::ClientAsk { .. }
        | Stage::ClientThird { .. }
        | Stage::ClientDone { .. }
        | Stage::ServerKey
        | Stage::ServerSecond { .. }
        | Stage::ServerFourth { .. }
        | Stage::ServerDone { .. } => Step::Stays(idle(stage)),
    }
}

/// A message is put behind what stands.
pub fn put_message(own: &Own, stage: &Stage, out: &mut Bytes) -> Result<Step, NoMemory>
    ensures verdict { IfOk result (λ step. with_bytes step
        (bytes_of (move (start_of own.now) stage.now get))
        ≡ move (start_of own.now) stage.now get) }
    ensures put { IfOk result (λ _. out.new
        ≡ out.old ++ bytes_of (move (start_of own.now) stage.now get)) }
    ensures err { OnErr result (out.new ≡ out.old) }
    ensures free { IfOk result NeedsNothing }
{
    match stage {
        Stage::ClientFirst => {
            out.append(&own.word)?;
            Ok(Step::Goes(Stage::ClientSecond))
        }
        Stage::ClientThird {
            request,
            key,
            tickets,
        } => put_tickets(request, key, tickets, out),
        Stage::ServerSecond { key, theirs } => {
            out.append(&make_request(own, key))?;
            Ok(Step::Goes(Stage::ServerThird {
                key: *key,
                theirs: *theirs,
            }))
        }
        Stage::ServerFourth { key, theirs, shown } => put_proof(key, theirs, shown, out),
        Stage::ClientSecond
        | Stage::ClientKey { .. }
        | Stage::ClientAsk { .. }
        | Stage::ClientFourth { .. }
        | Stage::ClientDone { .. }
        | Stage::ServerKey
        | Stage::ServerFirst { .. }
        | Stage::ServerThird { .. }
        | Stage::ServerDone { .. } => Ok(Step::Stays(idle(stage))),
    }
}

// The server's ticket and the client's authenticator.
fn put_tickets(
    request: &[u8; 141],
    key: &SkKey,
    tickets: &[u8; 144],
    out: &mut Bytes,
) -> Result<Step, NoMemory>
    ensures verdict { IfOk result (λ step. with_bytes step
        (bytes_of (tickets_got request.now key.now tickets.now))
        ≡ tickets_got request.now key.now tickets.now) }
    ensures put { IfOk result (λ _. out.new
        ≡ out.old ++ bytes_of (tickets_got request.now key.now tickets.now)) }
    ensures err { OnErr result (out.new ≡ out.old) }
    ensures free { IfOk result NeedsNothing }
{
    match ticket_in(key, tickets) {
        Ok(ticket) => {
            out.append(&hand_on(request, tickets, &ticket))?;
            Ok(Step::Goes(Stage::ClientFourth {
                request: *request,
                key: *key,
                tickets: *tickets,
            }))
        }
        Err(_) => Ok(Step::Breaks(Cause::BadKey)),
    }
}

// The server's authenticator.
fn put_proof(
    key: &SkKey,
    theirs: &[u8; 8],
    shown: &[u8; 85],
    out: &mut Bytes,
) -> Result<Step, NoMemory>
    ensures verdict { IfOk result (λ step. with_bytes step
        (bytes_of (proof_got key.now theirs.now shown.now))
        ≡ proof_got key.now theirs.now shown.now) }
    ensures put { IfOk result (λ _. out.new
        ≡ out.old ++ bytes_of (proof_got key.now theirs.now shown.now)) }
    ensures err { OnErr result (out.new ≡ out.old) }
    ensures free { IfOk result NeedsNothing }
{
    match ticket_in(key, shown) {
        Ok(ticket) => {
            out.append(&make_proof(theirs, &ticket))?;
            Ok(Step::Goes(Stage::ServerDone {
                key: *key,
                theirs: *theirs,
                shown: *shown,
            }))
        }
        Err(_) => Ok(Step::Breaks(Cause::WrongKind)),
    }
}

/// A key was found.
pub fn judge_found(own: &Own, stage: &Stage, key: &SkKey) -> Step
    ensures verdict { (password : Option (List ℕ)) → verdict_of result
        ≡ move (start_of own.now) stage.now (found key.now password) }
    ensures ready { LeadsOn result }
{
    match stage {
        Stage::ClientKey { request } => match read_req(request) {
            Ok(_) => Step::Waits(Stage::ClientAsk {
                request: *request,
                key: *key,
            }),
            Err(_) => Step::Breaks(Cause::WrongKind),
        },
        Stage::ServerKey => Step::Goes(Stage::ServerFirst { key: *key }),
        Stage::ClientFirst
        | Stage::ClientSecond
        | Stage::ClientAsk { .. }
        | Stage::ClientThird { .. }
        | Stage::ClientFourth { .. }
        | Stage::ClientDone { .. }
        | Stage::ServerFirst { .. }
        | Stage::ServerSecond { .. }
        | Stage::ServerThird { .. }
        | Stage::ServerFourth { .. }
        | Stage::ServerDone { .. } => Step::Stays(idle(stage)),
    }
}

/// The authentication server answered.
pub fn judge_heard(own: &Own, stage: &Stage, answer: &[u8]) -> Step
    ensures verdict { verdict_of result ≡ move (start_of own.now) stage.now (heard answer.now) }
    ensures ready { LeadsOn result }
{
    match stage {
        Stage::ClientAsk { request, key } => take_answer(own, request, key, answer),
        Stage::ClientFirst
        | Stage::ClientSecond
        | Stage::ClientKey { .. }
        | Stage::ClientThird { .. }
        | Stage::ClientFourth { .. }
        | Stage::ClientDone { .. }
        | Stage::ServerKey
        | Stage::ServerFirst { .. }
        | Stage::ServerSecond { .. }
        | Stage::ServerThird { .. }
        | Stage::ServerFourth { .. }
        | Stage::ServerDone { .. } => Step::Stays(idle(stage)),
    }
}

/// The authentication server wasn't reached.
pub fn judge_unheard(own: &Own, stage: &Stage) -> Step
    ensures verdict { verdict_of result ≡ move (start_of own.now) stage.now unheard }
    ensures free { NeedsNothing result }
{
    match stage {
        Stage::ClientAsk { .. } => Step::Breaks(Cause::NoServer),
        Stage::ClientFirst
        | Stage::ClientSecond
        | Stage::ClientKey { .. }
        | Stage::ClientThird { .. }
        | Stage::ClientFourth { .. }
        | Stage::ClientDone { .. }
        | Stage::ServerKey
        | Stage::ServerFirst { .. }
        | Stage::ServerSecond { .. }
        | Stage::ServerThird { .. }
        | Stage::ServerFourth { .. }
        | Stage::ServerDone { .. } => Step::Stays(idle(stage)),
    }
}

/// There was no memory for the authentication server's answer.
pub fn judge_roomless(own: &Own, stage: &Stage) -> Step
    ensures verdict { verdict_of result ≡ move (start_of own.now) stage.now roomless }
    ensures free { NeedsNothing result }
{
    match stage {
        Stage::ClientAsk { .. } => Step::Breaks(Cause::NoRoom),
        Stage::ClientFirst
        | Stage::ClientSecond
        | Stage::ClientKey { .. }
        | Stage::ClientThird { .. }
        | Stage::ClientFourth { .. }
        | Stage::ClientDone { .. }
        | Stage::ServerKey
        | Stage::ServerFirst { .. }
        | Stage::ServerSecond { .. }
        | Stage::ServerThird { .. }
        | Stage::ServerFourth { .. }
        | Stage::ServerDone { .. } => Step::Stays(idle(stage)),
    }
}

/// The call that wanted a key is taken back.
pub fn judge_undone(own: &Own, stage: &Stage) -> Step
    ensures verdict { verdict_of result ≡ move (start_of own.now) stage.now undone }
    ensures free { NeedsNothing result }
{
    match stage {
        Stage::ClientKey { .. } => Step::Goes(Stage::ClientSecond),
        Stage::ClientFirst
        | Stage::ClientSecond
        | Stage::ClientAsk { .. }
        | Stage::ClientThird { .. }
        | Stage::ClientFourth { .. }
        | Stage::ClientDone { .. }
        | Stage::ServerKey
        | Stage::ServerFirst { .. }
        | Stage::ServerSecond { .. }
        | Stage::ServerThird { .. }
        | Stage::ServerFourth { .. }
        | Stage::ServerDone { .. } => Step::Stays(idle(stage)),
    }
}
