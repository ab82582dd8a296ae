// How a conversation of the port is begun and asked.
ghost use Rattle.std.specs.Prelude.{◌≡◌, ◌∷◌, ℕ, List, Some, true, IfOk};
ghost use Rattle.doors.specs.Calls.{PortCall, Asked, given, heard, heard_in, is_done, is_fit, is_ok, is_well};
ghost use Rattle.doors.specs.Answers.{Begins, Starts, heard_of, said_of};

use crate::port::{Port, PortOpen, PortSaid};
use std::alloc::Global;
use wire_base::{Bytes, NoMemory};

const START: &[u8; 29] = b"start proto=p9any role=server";

/// What an answer tells by its first word.
#[derive(Clone, Copy, Debug, PartialEq, Eq)]
pub enum Answer {
    /// `ok`: the request was carried out, and what stands behind the blank is what it gave.
    Well,
    /// `done`: the conversation is past its last move.
    Ended,
    /// Anything else.
    Else,
}

// The answer is `ok`, alone or with bytes behind a blank.
fn is_ok(answer: &[u8]) -> bool
    ensures { result ≡ is_ok answer.now }
{
    answer == b"ok".as_slice() || answer.starts_with(b"ok ")
}

fn is_done(answer: &[u8]) -> bool
    ensures { result ≡ is_done answer.now }
{
    answer.starts_with(b"done")
}

fn answer_in(bytes: &[u8]) -> Answer
    ensures { heard_of (Some result) bytes.now ≡ heard_in bytes.now }
{
    if is_ok(bytes) {
        Answer::Well
    } else if is_done(bytes) {
        Answer::Ended
    } else {
        Answer::Else
    }
}

/// What stands in an answer behind `ok` and a blank.
pub(crate) fn given(answer: &[u8]) -> &[u8]
    ensures { result.now ≡ given answer.now }
{
    let first = answer.len().min(3);
    answer.split_at(first).1
}

/// Asks a conversation. None where the agent is gone.
#[tactic(auto, unfolding(crate::specs::Calls::heard))]
pub(crate) fn ask<P: Port>(
    port: &mut P,
    conv: u64,
    request: &[u8],
    answer: &mut Bytes,
) -> Result<Option<Answer>, NoMemory>
    requires { is_fit request.now ≡ true }
    ensures port { IfOk result (λ came. (setting : P.Setting) (past : List PortCall)
        → P.stands setting past port.old
        → P.stands setting (Asked conv request.now (said_of came) answer.new ∷ past) port.new) }
    ensures heard { IfOk result (λ came. heard (said_of came) answer.new
        ≡ heard_of came answer.new) }
{
    match port.rpc(conv, request, answer) {
        PortSaid::Said => Ok(Some(answer_in(answer.as_slice()))),
        PortSaid::Gone => Ok(None),
        PortSaid::NoMemory => Err(NoMemory),
    }
}

// A request was carried out.
fn is_well(came: Option<Answer>) -> bool
    ensures { (answer : List ℕ) → result ≡ is_well (heard_of came answer) }
{
    match came {
        Some(Answer::Well) => true,
        Some(Answer::Ended) => false,
        Some(Answer::Else) => false,
        None => false,
    }
}

// Starts a conversation that was opened. Where that isn't answered well, it is closed.
fn start<P: Port>(alloc: Global, port: &mut P, conv: u64) -> Result<bool, NoMemory>
    ensures { IfOk result (λ well. (setting : P.Setting) (past : List PortCall)
        → P.stands setting past port.old
        → Starts (P.stands setting) past port.new conv well) }
{
    let mut answer = Bytes::new(alloc);
    let came = ask(port, conv, START, &mut answer)?;
    if is_well(came) {
        return Ok(true);
    }
    port.close(conv);
    Ok(false)
}

/// Begins a conversation by which a user is to be authenticated. None where the agent refuses it or is gone.
pub(crate) fn begin<P: Port>(alloc: Global, port: &mut P) -> Result<Option<u64>, NoMemory>
    ensures { IfOk result (λ begun. (setting : P.Setting) (past : List PortCall)
        → P.stands setting past port.old
        → Begins (P.stands setting) past port.new begun) }
{
    match port.open() {
        PortOpen::Open(conv) => {
            if start(alloc, port, conv)? {
                Ok(Some(conv))
            } else {
                Ok(None)
            }
        }
        PortOpen::Refused => Ok(None),
        PortOpen::NoMemory => Err(NoMemory),
    }
}
