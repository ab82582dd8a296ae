// Messages made as terms, of pieces that are moved into them.
ghost use Rattle.std.specs.Prelude.{◌≡◌, ◌∷◌, ◌++◌, [], IfOk, OnOk};
ghost use Rattle.symbolic_runs.specs.Forms.{authenticator, client_message, mail_challenge, mail_request, pair, request, server_message, ticket, tickets, vouch};
ghost use Rattle.symbolic_runs.specs.Trees.{digest, joined, plain, seal};
ghost use Rattle.symbolic_runs.specs.Views.{and_last, tree, trees};
ghost use Rattle.trace_runs.specs.Parts.{found_tree};
ghost use Rattle.trace_runs.specs.Views.{fields_of};

use crate::moves::Names;
use std::alloc::Global;
use symbolic_runs::{MacKind, Term, Terms};
use wire_base::{Bytes, NoMemory};

// The kinds of records and the numbers of tickets and authenticators, as bytes.
pub(crate) const TICKET_REQUEST: [u8; 1] = [1];

pub(crate) const ANSWER_OK: [u8; 1] = [4];

pub(crate) const FOR_SERVER: [u8; 1] = [64];

pub(crate) const FOR_CLIENT: [u8; 1] = [65];

pub(crate) const BY_SERVER: [u8; 1] = [66];

pub(crate) const BY_CLIENT: [u8; 1] = [67];

// The id behind the challenge of an authenticator.
pub(crate) const NO_ID: [u8; 4] = [0, 0, 0, 0];

// The kind of a mail request.
pub(crate) fn mail_kind(kind: MacKind) -> [u8; 1]
    ensures { result ≡ mail_request kind }
{
    match kind {
        MacKind::Apop => [7],
        MacKind::Cram => [12],
    }
}

fn plain(alloc: Global, bytes: &[u8]) -> Result<Term, NoMemory>
    ensures { IfOk result (λ term. tree term ≡ plain bytes.now) }
{
    Ok(Term::Pub(Bytes::from_slice(alloc, bytes)?))
}

fn put_plain(alloc: Global, list: &mut Terms, bytes: &[u8]) -> Result<(), NoMemory>
    ensures { OnOk result (trees list.new ≡ and_last (trees list.old) (plain bytes.now)) }
{
    list.push(plain(alloc, bytes)?)
}

fn joined(list: Terms) -> Term
    ensures { tree result ≡ joined (trees list) }
{
    Term::Cat(list)
}

fn seal(alloc: Global, key: Term, body: Term) -> Result<Term, NoMemory>
    ensures { IfOk result (λ term. tree term ≡ seal (tree key) (tree body)) }
{
    let key = Box::new(alloc, key)?;
    let body = Box::new(alloc, body)?;
    Ok(Term::Seal(key, body))
}

/// The part that was looked for; where there was none, no bytes.
pub fn copy_part(alloc: Global, found: Option<&Term>) -> Result<Term, NoMemory>
    ensures { IfOk result (λ term. tree term ≡ found_tree found.entry) }
{
    match found {
        Some(term) => term.copy(alloc),
        None => Ok(Term::Pub(Bytes::new(alloc))),
    }
}

/// The digest of a text under a secret.
pub fn digest(alloc: Global, kind: MacKind, secret: Term, text: Term) -> Result<Term, NoMemory>
    ensures { IfOk result (λ term. tree term ≡ digest kind (tree secret) (tree text)) }
{
    let secret = Box::new(alloc, secret)?;
    let text = Box::new(alloc, text)?;
    Ok(Term::Mac(kind, secret, text))
}

/// Two terms one behind the other.
pub fn pair(alloc: Global, first: Term, second: Term) -> Result<Term, NoMemory>
    ensures { IfOk result (λ term. tree term ≡ pair (tree first) (tree second)) }
{
    let mut list = Terms::new(alloc);
    list.push(first)?;
    list.push(second)?;
    Ok(joined(list))
}

/// A request to the authentication server of this kind, with these names and this challenge.
pub fn request(alloc: Global, kind: &[u8], names: &Names, challenge: Term) -> Result<Term, NoMemory>
    ensures { IfOk result (λ term. tree term
        ≡ request kind.now (fields_of names.now) (tree challenge)) }
{
    let mut list = Terms::new(alloc);
    put_plain(alloc, &mut list, kind)?;
    put_plain(alloc, &mut list, names.authid)?;
    put_plain(alloc, &mut list, names.authdom)?;
    list.push(challenge)?;
    put_plain(alloc, &mut list, names.hostid)?;
    put_plain(alloc, &mut list, names.uid)?;
    Ok(joined(list))
}

/// A ticket that isn't sealed yet: its number, the challenge, the fields of the client's and the server's user, and the
/// key.
pub fn ticket(
    alloc: Global,
    number: &[u8],
    challenge: Term,
    cuid: &[u8],
    suid: &[u8],
    key: Term,
) -> Result<Term, NoMemory>
    ensures { IfOk result (λ term. tree term
        ≡ ticket number.now (tree challenge) cuid.now suid.now (tree key)) }
{
    let mut list = Terms::new(alloc);
    put_plain(alloc, &mut list, number)?;
    list.push(challenge)?;
    put_plain(alloc, &mut list, cuid)?;
    put_plain(alloc, &mut list, suid)?;
    list.push(key)?;
    Ok(joined(list))
}

/// An authenticator that isn't sealed yet: its number, the challenge and the id 0.
pub fn authenticator(alloc: Global, number: &[u8], challenge: Term) -> Result<Term, NoMemory>
    ensures { IfOk result (λ term. tree term ≡ authenticator number.now (tree challenge)) }
{
    let mut list = Terms::new(alloc);
    put_plain(alloc, &mut list, number)?;
    list.push(challenge)?;
    put_plain(alloc, &mut list, &NO_ID)?;
    Ok(joined(list))
}

/// The answer to a ticket request: what is for the client, and what it hands on.
pub fn tickets(alloc: Global, for_the_client: Term, for_the_server: Term) -> Result<Term, NoMemory>
    ensures { IfOk result (λ term. tree term
        ≡ tickets (tree for_the_client) (tree for_the_server)) }
{
    let mut list = Terms::new(alloc);
    put_plain(alloc, &mut list, &ANSWER_OK)?;
    list.push(for_the_client)?;
    list.push(for_the_server)?;
    Ok(joined(list))
}

/// What a client gives to a server: the ticket as it came, and an authenticator.
pub fn client_message(
    alloc: Global,
    handed: Term,
    key: Term,
    challenge: Term,
) -> Result<Term, NoMemory>
    ensures { IfOk result (λ term. tree term
        ≡ client_message (tree handed) (tree key) (tree challenge)) }
{
    let proof = authenticator(alloc, &BY_CLIENT, challenge)?;
    let sealed = seal(alloc, key, proof)?;
    pair(alloc, handed, sealed)
}

/// What a server answers to it.
pub fn server_message(alloc: Global, key: Term, challenge: Term) -> Result<Term, NoMemory>
    ensures { IfOk result (λ term. tree term
        ≡ server_message (tree key) (tree challenge)) }
{
    let proof = authenticator(alloc, &BY_SERVER, challenge)?;
    seal(alloc, key, proof)
}

/// The answer that vouches for a mail login: a ticket and an authenticator.
pub fn vouch(alloc: Global, for_the_server: Term, proof: Term) -> Result<Term, NoMemory>
    ensures { IfOk result (λ term. tree term ≡ vouch (tree for_the_server) (tree proof)) }
{
    let mut list = Terms::new(alloc);
    put_plain(alloc, &mut list, &ANSWER_OK)?;
    list.push(for_the_server)?;
    list.push(proof)?;
    Ok(joined(list))
}

// A mark, the domain and `>`.
fn domain_text(alloc: Global, domain: &[u8]) -> Result<Bytes, NoMemory>
    ensures { IfOk result (λ text. text ≡ 64 ∷ (domain.now ++ 62 ∷ [])) }
{
    let mut text = Bytes::new(alloc);
    text.push(b'@')?;
    text.append(domain)?;
    text.push(b'>')?;
    Ok(text)
}

/// The challenge of a mail login: `<`, the digits of the word of the request of a number, `@`, the domain and `>`.
pub fn mail_challenge(alloc: Global, domain: &[u8], number: u32) -> Result<Term, NoMemory>
    ensures { IfOk result (λ term. tree term ≡ mail_challenge domain.now number) }
{
    let behind = Term::Pub(domain_text(alloc, domain)?);
    let mut list = Terms::new(alloc);
    put_plain(alloc, &mut list, b"<")?;
    list.push(Term::AsChal(number))?;
    list.push(behind)?;
    Ok(joined(list))
}
