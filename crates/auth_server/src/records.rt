// What the server writes: its answers as whole records, and the keys that words stand for.
ghost use Rattle.std.specs.Prelude.{◌≡◌, ◌≤◌, length};
ghost use Rattle.hex.specs.Hex.{encode_lower};
ghost use Rattle.auth_server.specs.Answers.{challenge_answer, challenge_at, refusal, ticket, tickets, vouch_text, word_key};

use crate::session::MOST_CHALLENGE;
use sealing::{
    AUTH_AC, AUTH_ERR, AUTH_OK, AUTH_OK_VAR, AUTH_TC, AUTH_TS, Authenticator, Key7, RecordWriter,
    Ticket, TicketReq, seal_auth, seal_ticket,
};
use wire_base::Name;

/// How many bytes a challenge's length is written in.
const LENGTH_BYTES: usize = 5;

/// The key that a word stands for: its first seven bytes.
pub fn word_key(word: &[u8; 8]) -> Key7
    ensures { result.0 ≡ word_key word.now }
{
    let [a, b, c, d, e, f, g, _] = *word;
    Key7([a, b, c, d, e, f, g])
}

/// The two tickets of a grant, under their byte.
#[tactic(auto, unfolding(crate::specs::Answers::tickets))]
pub(crate) fn write_tickets(
    asked: &TicketReq,
    shared: Key7,
    hosts: &Key7,
    servers: &Key7,
) -> [u8; 145]
    ensures { result ≡ tickets asked.now shared.0 hosts.now.0 servers.now.0 }
{
    let mut out = RecordWriter::<145>::new();
    out.put(&[AUTH_OK]);
    out.put(&seal_for(AUTH_TC, asked, asked.hostid, shared, hosts));
    out.put(&seal_for(AUTH_TS, asked, asked.hostid, shared, servers));
    out.finish()
}

/// The vouch for a user's right answer: the server's ticket and an authenticator, under their byte.
#[tactic(auto, unfolding(crate::specs::Answers::vouch_text))]
pub(crate) fn write_vouch(asked: &TicketReq, shared: Key7, servers: &Key7) -> [u8; 86]
    ensures { result ≡ vouch_text asked.now shared.0 servers.now.0 }
{
    let proof = Authenticator {
        num: AUTH_AC,
        chal: asked.chal,
        id: 0,
    };
    let mut out = RecordWriter::<86>::new();
    out.put(&[AUTH_OK]);
    out.put(&seal_for(AUTH_TS, asked, asked.uid, shared, servers));
    out.put(&seal_auth(&proof, &shared));
    out.finish()
}

// The ticket for one of the two, by which a client speaks for the user asked for.
fn seal_for(num: u8, asked: &TicketReq, client: Name<28>, shared: Key7, key: &Key7) -> [u8; 72]
    ensures { result ≡ ticket num asked.now.chal client asked.now.uid shared.0 key.now.0 }
{
    let ticket = Ticket {
        num,
        chal: asked.chal,
        cuid: client,
        suid: asked.uid,
        key: shared,
    };
    seal_ticket(&ticket, key)
}

/// An error and its text of at most 64 bytes, with NULs to 64 bytes (AuthErr of authsrv(6)).
#[tactic(auto, unfolding(crate::specs::Answers::refusal))]
pub fn refuse(text: &[u8]) -> [u8; 65]
    requires { length text.now ≤ 64 }
    ensures { result ≡ refusal text.now }
{
    let mut out = RecordWriter::<65>::new();
    out.put(&[AUTH_ERR]);
    out.put(text);
    out.put_nuls(64 - text.len());
    out.finish()
}

/// The text of a challenge: a word in digits, at a domain.
#[tactic(auto, unfolding(crate::specs::Answers::challenge_at))]
pub(crate) fn write_challenge(word: &[u8; 8], dom: &[u8]) -> RecordWriter<MOST_CHALLENGE>
    requires { length dom.now ≤ 47 }
    ensures { result ≡ challenge_at word.now dom.now }
{
    let mut out = RecordWriter::<MOST_CHALLENGE>::new();
    out.put(b"<");
    out.put(&word_digits(word));
    out.put(b"@");
    out.put(dom);
    out.put(b">");
    out
}

// A word as hexadecimal digits in lower case.
fn word_digits(word: &[u8; 8]) -> [u8; 16]
    ensures { result ≡ encode_lower word.now }
{
    let mut digits = [0; 16];
    hex::encode_to_slice(word, &mut digits).unwrap();
    digits
}

/// A challenge under its byte, behind its length.
#[tactic(auto, unfolding(crate::specs::Answers::challenge_answer))]
pub(crate) fn give_challenge(text: &[u8]) -> RecordWriter<72>
    requires { length text.now ≤ 66 }
    ensures { result ≡ challenge_answer text.now }
{
    let mut buffer = itoa::Buffer::new();
    let length = buffer.format(text.len() as u8).as_bytes();
    let blanks = [b' '; LENGTH_BYTES];
    let mut out = RecordWriter::<72>::new();
    out.put(&[AUTH_OK_VAR]);
    out.put(length);
    out.put(blanks.split_at(LENGTH_BYTES - length.len()).0);
    out.put(text);
    out
}
