// What a stage needs.
ghost use Rattle.std.specs.Prelude.{◌≡◌, true, IfOk};
ghost use Rattle.attr_tuples.specs.Attributes.{is_value};
ghost use Rattle.attr_tuples.specs.declared.attr.Value.TheVariants.{Is};
ghost use Rattle.conv_challenge.specs.Courses.{need_of};
ghost use Rattle.conv_challenge.specs.Servers.{challenge_question, request_about, request_kind, vouch_question};
ghost use Rattle.conv_challenge.specs.Standing.{Needs};
ghost use Rattle.conv_challenge.specs.Starts.{asked_by_client, asked_by_server, proto_name};
ghost use Rattle.conv_challenge.specs.Steps.{start_of};

use crate::own::Own;
use crate::stage::{Proto, Stage};
use crate::step::Step;
use attr_tuples::Tuple;
use roles::{Need, Role, SkKey, build_asked, find_dom, no_name};
use sealing::{AUTH_APOP, AUTH_CRAM, TicketReq, write_req};
use std::alloc::Global;
use wire_base::{Bytes, Name, NoMemory, Shape};

/// What the next stage of a step needs.
pub fn make_next(alloc: Global, own: &Own, step: &Step) -> Result<Need, NoMemory>
    ensures { IfOk result (λ need. Needs (start_of own.now) step.now need) }
{
    match step {
        Step::Goes(next) | Step::Waits(next) => make_need(alloc, own, next),
        Step::Stays(_) | Step::Breaks(_) => Ok(Need::Nothing),
    }
}

/// What a stage needs.
pub fn make_need(alloc: Global, own: &Own, stage: &Stage) -> Result<Need, NoMemory>
    ensures { IfOk result (λ need. need ≡ need_of (start_of own.now) stage.now) }
{
    match stage {
        Stage::ClientKey { .. } => Ok(Need::Key(ask_by_client(alloc, own)?)),
        Stage::ServerKey => Ok(Need::Key(ask_by_server(alloc, own)?)),
        Stage::ServerAsk { key } => Ok(Need::Exchange {
            request: ask_for_challenge(alloc, own, key)?,
            shape: Shape::Challenge,
        }),
        Stage::ServerVouch {
            key,
            user,
            digits,
            ..
        } => Ok(Need::Exchange {
            request: ask_to_vouch(alloc, own, key, user, digits)?,
            shape: Shape::Vouch,
        }),
        Stage::ClientFirst
        | Stage::ClientSecond { .. }
        | Stage::ClientDone { .. }
        | Stage::ServerFirst { .. }
        | Stage::ServerSecond { .. }
        | Stage::ServerThird { .. }
        | Stage::ServerDone { .. } => Ok(Need::Nothing),
    }
}

// ---- keys

fn ask_by_client(alloc: Global, own: &Own) -> Result<Tuple, NoMemory>
    ensures { IfOk result (λ t. t ≡ asked_by_client (start_of own.now)) }
{
    build_asked(
        alloc,
        name_of(own.proto),
        &Role::Client,
        &own.template,
        find_dom(&own.template),
    )
}

#[tactic(auto, using(roles::proofs::ValueLemmas::protocol_is_value))]
fn ask_by_server(alloc: Global, own: &Own) -> Result<Tuple, NoMemory>
    ensures { IfOk result (λ t. t ≡ asked_by_server (start_of own.now)) }
{
    build_asked(
        alloc,
        b"p9sk1".as_slice(),
        &Role::Server,
        &own.template,
        find_dom(&own.template),
    )
}

#[tactic(auto, using(crate::proofs::TextLemmas::apop_is_value, crate::proofs::TextLemmas::cram_is_value))]
fn name_of(proto: Proto) -> &'static [u8]
    ensures name { result.now ≡ proto_name proto }
    ensures value { is_value (Is result.now) ≡ true }
{
    match proto {
        Proto::Apop => b"apop".as_slice(),
        Proto::Cram => b"cram".as_slice(),
    }
}

// ---- questions for the authentication server

fn ask_for_challenge(alloc: Global, own: &Own, key: &SkKey) -> Result<Bytes, NoMemory>
    ensures { IfOk result (λ request. request ≡ challenge_question (start_of own.now) key.now) }
{
    Bytes::from_slice(alloc, &write_request(own, key, no_name()))
}

fn ask_to_vouch(
    alloc: Global,
    own: &Own,
    key: &SkKey,
    user: &Name<28>,
    digits: &[u8; 32],
) -> Result<Bytes, NoMemory>
    ensures { IfOk result (λ request. request
        ≡ vouch_question (start_of own.now) key.now user.now digits.now) }
{
    let mut question = Bytes::from_slice(alloc, &write_request(own, key, *user))?;
    question.append(digits)?;
    Ok(question)
}

fn write_request(own: &Own, key: &SkKey, user: Name<28>) -> [u8; 141]
    ensures { result ≡ request_about (start_of own.now) key.now user }
{
    write_req(&TicketReq {
        kind: request_kind(own.proto),
        authid: key.user,
        authdom: key.dom,
        chal: own.word,
        hostid: key.user,
        uid: user,
    })
}

fn request_kind(proto: Proto) -> u8
    ensures { result ≡ request_kind proto }
{
    match proto {
        Proto::Apop => AUTH_APOP,
        Proto::Cram => AUTH_CRAM,
    }
}
