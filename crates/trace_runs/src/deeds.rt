// What a session of the authentication server does, and whether what it answers has its form.
ghost use Rattle.std.specs.Prelude.{◌≡◌, ◌↔◌, ◌∷◌, ◌&&◌, ℕ, List, true, IfOk, map};
ghost use Rattle.clean_runs.specs.Forms.{IsAnswered};
ghost use Rattle.symbolic_runs.specs.Forms.{mail_challenge};
ghost use Rattle.symbolic_runs.specs.Gifts.{are_whole, fields_of, part};
ghost use Rattle.symbolic_runs.specs.Runs.{Setting};
ghost use Rattle.symbolic_runs.specs.Sessions as table;
ghost use Rattle.symbolic_runs.specs.Trees.{password, same_tree};
ghost use Rattle.symbolic_runs.specs.Views.{tree};
ghost use Rattle.trace_runs.specs.Deeds.{answers, are_right, deed_of, has_right_pieces, used_of};
ghost use Rattle.trace_runs.specs.Formed.{is_digest, is_right};

use crate::forms::is_whole_request;
use crate::makers::{TICKET_REQUEST, mail_challenge, mail_kind};
use crate::parts::{part, pieces};
use crate::shapes::{are_whole, is_request};
use std::alloc::Global;
use symbolic_runs::{MacKind, Term};
use wire_base::{Bytes, NoMemory, Text};

/// One deed of a session. The numbers are those of its requests.
#[derive(Drop)]
pub enum Deed {
    /// A request came.
    Got {
        number: u32,
        request: Term,
    },
    GivesTickets(u32),
    /// A challenge, behind these bytes.
    GivesChallenge {
        kind: MacKind,
        number: u32,
        head: Bytes,
    },
    /// A right answer is vouched for, to the challenge that was given at the request `first`.
    GivesVouch {
        kind: MacKind,
        number: u32,
        first: u32,
    },
    /// Anything else is answered by these bytes.
    Refuses {
        number: u32,
        bytes: Bytes,
    },
}

/// The key names that were used at a request; none where a key was made up.
#[derive(Drop)]
pub enum Used {
    Keys {
        sealer: Option<Text>,
        host: Option<Text>,
    },
    KeyAndPassword {
        sealer: Option<Text>,
        name: Text,
    },
}

fn is_password(term: &Term, name: &[u8]) -> bool
    ensures { result ≡ same_tree (tree term.now) (password name.now) }
{
    match term {
        Term::Pw(own) => own.as_slice() == name,
        Term::Pub(_)
        | Term::Nonce(_)
        | Term::AsChal(_)
        | Term::LKey(_)
        | Term::SKey(_)
        | Term::Junk(_)
        | Term::Cat(_)
        | Term::Seal(_, _)
        | Term::Mac(_, _, _) => false,
    }
}

fn is_mail_challenge(
    alloc: Global,
    domain: &[u8],
    number: u32,
    term: &Term,
) -> Result<bool, NoMemory>
    ensures { IfOk result (λ so. so
        ≡ same_tree (tree term.now) (mail_challenge domain.now number)) }
{
    let challenge = mail_challenge(alloc, domain, number)?;
    Ok(term.same(&challenge))
}

// The digest that answers a challenge: its kind, the key name of the password, the authentication server's domain, and
// the number of the request at which the challenge was given.
#[derive(Clone, Copy)]
struct Right<'a> {
    kind: MacKind,
    name: &'a [u8],
    domain: &'a [u8],
    first: u32,
}

// Whether a term is the digest of the challenge of a request under the password of a name.
fn is_digest(alloc: Global, right: &Right, term: &Term) -> Result<bool, NoMemory>
    ensures { IfOk result (λ so. so ≡ is_digest right.now.kind right.now.name.now
        right.now.domain.now right.now.first (tree term.now)) }
{
    match term {
        Term::Mac(own, secret, text) => {
            if !(*own == right.kind && is_password(secret, right.name)) {
                return Ok(false);
            }
            is_mail_challenge(alloc, right.domain, right.first, text)
        }
        Term::Pub(_)
        | Term::Nonce(_)
        | Term::AsChal(_)
        | Term::LKey(_)
        | Term::SKey(_)
        | Term::Junk(_)
        | Term::Pw(_)
        | Term::Cat(_)
        | Term::Seal(_, _) => Ok(false),
    }
}

fn are_right(
    alloc: Global,
    right: &Right,
    challenge: &Term,
    list: &[Term],
) -> Result<bool, NoMemory>
    ensures { IfOk result (λ so. so ≡ are_right right.now.name.now (tree challenge.now)
        right.now.domain.now right.now.kind right.now.first (map tree list.now)) }
{
    match list {
        [question, digits] => {
            if !is_request(&mail_kind(right.kind), question, Some(challenge)) {
                return Ok(false);
            }
            is_digest(alloc, right, digits)
        }
        _ => Ok(false),
    }
}

fn has_right_pieces(
    alloc: Global,
    right: &Right,
    challenge: &Term,
    request: &Term,
) -> Result<bool, NoMemory>
    ensures { IfOk result (λ so. so ≡ has_right_pieces right.now.name.now (tree challenge.now)
        right.now.domain.now right.now.kind right.now.first (tree request.now)) }
{
    match pieces(request) {
        Some(list) => are_right(alloc, right, challenge, list),
        None => Ok(false),
    }
}

// Whether the first piece of a request is one with whole fields.
fn is_first_whole(request: &Term) -> bool
    ensures { result ≡ are_whole (fields_of (part (tree request.now) 0)) }
{
    match part(request, 0) {
        Some(first) => are_whole(first),
        None => false,
    }
}

/// What was used at a request, and what its tickets hold.
#[derive(Drop)]
pub struct Granted {
    pub used: Used,
    pub challenge: Term,
    /// The field of the host's name: none of a request that can't be read.
    pub host: Bytes,
    /// The field of the user's name, in the same way.
    pub user: Bytes,
}

// Whether a request asks by a right answer.
#[tactic(auto, using(crate::proofs::DeedLaws::part_fails, crate::proofs::DeedLaws::rest_holds))]
fn is_right(
    alloc: Global,
    granted: &Granted,
    domain: &[u8],
    kind: MacKind,
    first: u32,
    request: &Term,
) -> Result<bool, NoMemory>
    ensures { IfOk result (λ so. so ≡ is_right (used_of granted.now.used)
        (tree granted.now.challenge) domain.now kind first (tree request.now)) }
{
    let Used::KeyAndPassword { name, .. } = &granted.used else {
        return Ok(false);
    };
    if !is_first_whole(request) {
        return Ok(false);
    }
    let right = Right {
        kind,
        name: name.as_slice(),
        domain,
        first,
    };
    has_right_pieces(alloc, &right, &granted.challenge, request)
}

fn decide(
    alloc: Global,
    domain: &[u8],
    granted: &Granted,
    request: &Term,
    deed: &Deed,
) -> Result<bool, NoMemory>
    ensures { IfOk result (λ so. so ≡ answers (used_of granted.now.used)
        (tree granted.now.challenge) domain.now (tree request.now) (deed_of deed.now)) }
{
    match deed {
        Deed::Got { .. } => Ok(true),
        Deed::GivesTickets(_) => Ok(is_whole_request(&TICKET_REQUEST, request)),
        Deed::GivesChallenge { kind, .. } => Ok(is_whole_request(&mail_kind(*kind), request)),
        Deed::GivesVouch { kind, first, .. } => {
            is_right(alloc, granted, domain, *kind, *first, request)
        }
        Deed::Refuses { .. } => Ok(true),
    }
}

/// Whether a request that came last has the form of what is answered to it. What was granted is that of the request.
pub fn is_answered(
    alloc: Global,
    domain: &[u8],
    granted: &Granted,
    request: &Term,
    deed: &Deed,
) -> Result<bool, NoMemory>
    ensures { (s : Setting) (number : ℕ) (before : List table.Deed) → s.domain ≡ domain.now
        → (s.grants number).used ≡ used_of granted.now.used
        → (s.grants number).chal ≡ tree granted.now.challenge
        → IfOk result (λ so. (so ≡ true)
        ↔ IsAnswered s (table.got number (tree request.now) ∷ before) (deed_of deed.now)) }
{
    decide(alloc, domain, granted, request, deed)
}
