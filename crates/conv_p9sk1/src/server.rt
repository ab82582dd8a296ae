// The moves of a server. Nothing here takes memory.
ghost use Rattle.std.specs.Prelude.{◌≡◌, []};
ghost use Rattle.wire_base.specs.Rules.{first_told};
ghost use Rattle.roles.specs.Servers.{server_request, shown_came, shown_tests};
ghost use Rattle.roles.specs.Talks.{goes, sized};
ghost use Rattle.roles.specs.Tickets.{proof_for, proof_under, rest_part};
ghost use Rattle.roles.specs.declared.answer.Gave.TheVariants as g;
ghost use Rattle.roles.specs.declared.stage.Stage.TheVariants.{ServerSecond};
ghost use Rattle.conv_p9sk1.specs.Steps.{LeadsOn, start_of, verdict_of};

use crate::own::Own;
use crate::step::{Step, take_sized};
use roles::{Cause, SkKey, Stage, no_name, proof_in, test_proof, ticket_in};
use sealing::{
    AUTH_AC, AUTH_AS, AUTH_TREQ, AUTH_TS, Authenticator, Ticket, TicketReq, seal_auth, write_req,
};

/// The client's challenge was given.
pub fn take_challenge(key: &SkKey, bytes: &[u8]) -> Step
    ensures verdict { verdict_of result
        ≡ sized 8 bytes.now (goes (ServerSecond key.now bytes.now) g.Ok []) }
    ensures ready { LeadsOn result }
{
    match take_sized::<8>(bytes) {
        Ok(theirs) => Step::Goes(Stage::ServerSecond { key: *key, theirs }),
        Err(step) => step,
    }
}

/// The request for the client.
pub fn make_request(own: &Own, key: &SkKey) -> [u8; 141]
    ensures { result ≡ server_request (start_of own.now) key.now }
{
    let nobody = no_name();
    write_req(&TicketReq {
        kind: AUTH_TREQ,
        authid: key.user,
        authdom: key.dom,
        chal: own.word,
        hostid: nobody,
        uid: nobody,
    })
}

/// The client's ticket and authenticator were given.
pub fn take_shown(own: &Own, key: &SkKey, theirs: &[u8; 8], bytes: &[u8]) -> Step
    ensures verdict { verdict_of result ≡ sized 85 bytes.now
        (shown_came (start_of own.now) key.now theirs.now bytes.now) }
    ensures ready { LeadsOn result }
{
    let shown = match take_sized::<85>(bytes) {
        Ok(shown) => shown,
        Err(step) => return step,
    };
    match ticket_in(key, &shown) {
        Ok(ticket) => match test_shown(own, &ticket, &proof_in(&ticket, &shown)) {
            None => Step::Goes(Stage::ServerFourth {
                key: *key,
                theirs: *theirs,
                shown,
            }),
            Some(cause) => Step::Breaks(cause),
        },
        Err(_) => Step::Breaks(Cause::WrongKind),
    }
}

// The first test that a ticket and its authenticator fail.
fn test_shown(own: &Own, ticket: &Ticket, proof: &Authenticator) -> Option<Cause>
    ensures { result ≡ first_told (shown_tests (start_of own.now) ticket.now proof.now) }
{
    if ticket.num != AUTH_TS {
        Some(Cause::WrongKind)
    } else if ticket.chal != own.word {
        Some(Cause::WrongChallenge)
    } else if ticket.suid.text().is_empty() {
        Some(Cause::WrongUser)
    } else {
        test_proof(AUTH_AC, &own.word, proof)
    }
}

/// The server's authenticator for the client's challenge.
pub fn make_proof(theirs: &[u8; 8], ticket: &Ticket) -> [u8; 13]
    ensures { result ≡ proof_for AUTH_AS theirs.now ticket.now }
{
    seal_auth(
        &Authenticator {
            num: AUTH_AS,
            chal: *theirs,
            id: 0,
        },
        &ticket.key,
    )
}
