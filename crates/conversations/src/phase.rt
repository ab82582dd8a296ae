// What became of the latest request.
ghost use Rattle.std.specs.Prelude.{◌≡◌, IfOk, option_copied};
ghost use Rattle.talks.specs.Requests.{meant};
ghost use Rattle.talks.specs.Standings.{phase_after, waits_for_user};
ghost use Rattle.conversations.specs.Meanings.{phase_of, request_of};
ghost use Rattle.conversations.specs.Shown.{answer_in, asks_for_key, has_answer, has_request, is_resting, is_seeking, serial_in, waits_for_server};

use attr_tuples::Tuple;
use roles::Need;
use std::alloc::Global;
use talks::{Request, RpcAnswer};
use wire_base::{Bytes, NoMemory};

/// A request as it is kept until it is carried out. It has no Debug, which would print what is written.
#[derive(Drop)]
pub enum Stored {
    Start(Bytes),
    Read,
    Write(Bytes),
    AuthInfo,
    Attr,
}

/// What became of the latest request. It has no Debug, which would print secrets.
#[derive(Drop)]
pub enum Phase {
    /// Its answer was read, or there was none.
    Resting,
    /// It isn't carried out yet.
    Waiting(Stored),
    /// It needs something of the keys, which is searched for.
    Seeking,
    /// The user is asked whether the key of this number may be used.
    OnConfirm(u64),
    /// The user is asked for a key that matches this template.
    OnNeedkey(Tuple),
    /// The authentication server is asked.
    OnServer,
    /// It has this answer, which wasn't read yet.
    Kept(RpcAnswer),
}

/// A copy of a request.
pub fn store_request(alloc: Global, request: Request<'_>) -> Result<Stored, NoMemory>
    ensures { IfOk result (λ stored. request_of stored ≡ meant request.entry) }
{
    match request {
        Request::Start(template) => Ok(Stored::Start(Bytes::from_slice(alloc, template)?)),
        Request::Read => Ok(Stored::Read),
        Request::Write(message) => Ok(Stored::Write(Bytes::from_slice(alloc, message)?)),
        Request::AuthInfo => Ok(Stored::AuthInfo),
        Request::Attr => Ok(Stored::Attr),
    }
}

/// The phase behind a move that is answered so, where nothing more is needed.
pub fn choose_phase(need: &Need, answer: RpcAnswer) -> Phase
    ensures { phase_of result ≡ phase_after need.now answer }
{
    match need {
        Need::Nothing => Phase::Kept(answer),
        Need::Key(_) | Need::Offers(_) | Need::Pick(_) => Phase::Seeking,
        Need::Exchange { .. } => Phase::OnServer,
    }
}

// ---- tests

pub fn is_resting(phase: &Phase) -> bool
    ensures { result ≡ is_resting (phase_of phase.now) }
{
    match phase {
        Phase::Resting => true,
        Phase::Waiting(_) | Phase::Seeking | Phase::OnConfirm(_) => false,
        Phase::OnNeedkey(_) | Phase::OnServer | Phase::Kept(_) => false,
    }
}

pub fn has_request(phase: &Phase) -> bool
    ensures { result ≡ has_request (phase_of phase.now) }
{
    match phase {
        Phase::Waiting(_) => true,
        Phase::Resting | Phase::Seeking | Phase::OnConfirm(_) => false,
        Phase::OnNeedkey(_) | Phase::OnServer | Phase::Kept(_) => false,
    }
}

pub fn is_seeking(phase: &Phase) -> bool
    ensures { result ≡ is_seeking (phase_of phase.now) }
{
    match phase {
        Phase::Seeking => true,
        Phase::Resting | Phase::Waiting(_) | Phase::OnConfirm(_) => false,
        Phase::OnNeedkey(_) | Phase::OnServer | Phase::Kept(_) => false,
    }
}

pub fn waits_for_server(phase: &Phase) -> bool
    ensures { result ≡ waits_for_server (phase_of phase.now) }
{
    match phase {
        Phase::OnServer => true,
        Phase::Resting | Phase::Waiting(_) | Phase::Seeking => false,
        Phase::OnConfirm(_) | Phase::OnNeedkey(_) | Phase::Kept(_) => false,
    }
}

pub fn has_answer(phase: &Phase) -> bool
    ensures { result ≡ has_answer (phase_of phase.now) }
{
    match phase {
        Phase::Kept(_) => true,
        Phase::Resting | Phase::Waiting(_) | Phase::Seeking => false,
        Phase::OnConfirm(_) | Phase::OnNeedkey(_) | Phase::OnServer => false,
    }
}

pub fn waits_for_user(phase: &Phase) -> bool
    ensures { result ≡ waits_for_user (phase_of phase.now) }
{
    match phase {
        Phase::Seeking | Phase::OnConfirm(_) | Phase::OnNeedkey(_) => true,
        Phase::Resting | Phase::Waiting(_) | Phase::OnServer | Phase::Kept(_) => false,
    }
}

pub fn asks_for_key(phase: &Phase) -> bool
    ensures { result ≡ asks_for_key (phase_of phase.now) }
{
    match phase {
        Phase::OnNeedkey(_) => true,
        Phase::Resting | Phase::Waiting(_) | Phase::Seeking => false,
        Phase::OnConfirm(_) | Phase::OnServer | Phase::Kept(_) => false,
    }
}

// ---- what stands in it

/// The number of the key whose use the user is asked about.
pub fn asked_serial(phase: &Phase) -> Option<u64>
    ensures { result ≡ serial_in (phase_of phase.now) }
{
    match phase {
        Phase::OnConfirm(serial) => Some(*serial),
        Phase::Resting | Phase::Waiting(_) | Phase::Seeking => None,
        Phase::OnNeedkey(_) | Phase::OnServer | Phase::Kept(_) => None,
    }
}

/// The answer that is there.
pub fn kept_answer(phase: &Phase) -> Option<&RpcAnswer>
    ensures { option_copied result ≡ answer_in (phase_of phase.now) }
{
    match phase {
        Phase::Kept(answer) => Some(answer),
        Phase::Resting | Phase::Waiting(_) | Phase::Seeking => None,
        Phase::OnConfirm(_) | Phase::OnNeedkey(_) | Phase::OnServer => None,
    }
}
