// What a stage needs.
ghost use Rattle.std.specs.Prelude.{◌≡◌, true, IfOk};
ghost use Rattle.roles.specs.Clients.{question_for};
ghost use Rattle.roles.specs.Courses.{need_of};
ghost use Rattle.roles.specs.Templates.{asked_first, asked_in};
ghost use Rattle.attr_tuples.specs.Forms.{is_dom};
ghost use Rattle.roles.specs.declared.stage.Stage.TheVariants.{ClientAsk, ClientKey};
ghost use Rattle.conv_p9sk1.specs.Standing.{Needs};
ghost use Rattle.conv_p9sk1.specs.Steps.{IsReady, LeadsOn, start_of};

use crate::client::wanted_user;
use crate::own::Own;
use crate::step::Step;
use attr_tuples::Tuple;
use roles::{Need, Role, SkKey, Stage, build_asked, find_dom};
use sealing::{AUTH_TREQ, TicketReq, read_req, write_req};
use std::alloc::Global;
use wire_base::{Bytes, Name, NoMemory, Shape};

/// What the next stage of a step needs.
pub fn make_next(alloc: Global, own: &Own, step: &Step) -> Result<Need, NoMemory>
    requires { LeadsOn step.now }
    ensures { IfOk result (λ need. Needs (start_of own.now) step.now need) }
{
    match step {
        Step::Goes(next) | Step::Waits(next) => make_need(alloc, own, next),
        Step::Stays(_) | Step::Breaks(_) => Ok(Need::Nothing),
    }
}

/// What a stage needs.
pub fn make_need(alloc: Global, own: &Own, stage: &Stage) -> Result<Need, NoMemory>
    requires { IsReady stage.now }
    ensures { IfOk result (λ need. need ≡ need_of (start_of own.now) stage.now) }
{
    match stage {
        Stage::ClientKey { request } => make_key_need(alloc, own, request),
        Stage::ClientAsk { request, key } => make_question(alloc, own, request, key),
        Stage::ServerKey => Ok(Need::Key(ask_first(alloc, own)?)),
        Stage::ClientFirst
        | Stage::ClientSecond
        | Stage::ClientThird { .. }
        | Stage::ClientFourth { .. }
        | Stage::ClientDone { .. }
        | Stage::ServerFirst { .. }
        | Stage::ServerSecond { .. }
        | Stage::ServerThird { .. }
        | Stage::ServerFourth { .. }
        | Stage::ServerDone { .. } => Ok(Need::Nothing),
    }
}

fn make_key_need(alloc: Global, own: &Own, request: &[u8; 141]) -> Result<Need, NoMemory>
    requires { IsReady (ClientKey request.now) }
    ensures { IfOk result (λ need. need ≡ need_of (start_of own.now) (ClientKey request.now)) }
{
    match read_req(request) {
        Ok(asked) => Ok(Need::Key(ask_in(alloc, own, &asked.authdom)?)),
        Err(_) => Ok(Need::Nothing),
    }
}

// The template asked in a domain.
#[tactic(auto, using(roles::proofs::ValueLemmas::dom_is_value, roles::proofs::ValueLemmas::protocol_is_value))]
fn ask_in(alloc: Global, own: &Own, dom: &Name<48>) -> Result<Tuple, NoMemory>
    requires { is_dom dom.now ≡ true }
    ensures { IfOk result (λ t. t ≡ asked_in (start_of own.now) dom.now) }
{
    build_asked(
        alloc,
        b"p9sk1".as_slice(),
        &own.role,
        &own.template,
        Some(dom.text()),
    )
}

// The template asked at the start.
#[tactic(auto, using(roles::proofs::ValueLemmas::protocol_is_value))]
fn ask_first(alloc: Global, own: &Own) -> Result<Tuple, NoMemory>
    ensures { IfOk result (λ t. t ≡ asked_first (start_of own.now)) }
{
    build_asked(
        alloc,
        b"p9sk1".as_slice(),
        &own.role,
        &own.template,
        find_dom(&own.template),
    )
}

fn make_question(
    alloc: Global,
    own: &Own,
    request: &[u8; 141],
    key: &SkKey,
) -> Result<Need, NoMemory>
    ensures { IfOk result (λ need. need
        ≡ need_of (start_of own.now) (ClientAsk request.now key.now)) }
{
    match read_req(request) {
        Ok(asked) => {
            let question = write_question(&own.role, key, &asked);
            Ok(Need::Exchange {
                request: Bytes::from_slice(alloc, &question)?,
                shape: Shape::Tickets,
            })
        }
        Err(_) => Ok(Need::Nothing),
    }
}

fn write_question(role: &Role, key: &SkKey, request: &TicketReq) -> [u8; 141]
    ensures { result ≡ question_for role.now key.now request.now }
{
    write_req(&TicketReq {
        kind: AUTH_TREQ,
        authid: request.authid,
        authdom: request.authdom,
        chal: request.chal,
        hostid: key.user,
        uid: wanted_user(role, key),
    })
}
