// The request that begins a session: it is read, and answered by a ticket.
ghost use Rattle.std.specs.Io.KnownBytes.{Consumes};
ghost use Rattle.std.specs.Prelude.{◌≡◌, ◌≤◌, ◌∷◌, [], IfErr, IfOk, OnErr, OnOk, List, Option, ℕ, length};
ghost use Rattle.wire_base.specs.Kinds.{password_request};
ghost use Rattle.wire_streams.specs.Causes.{Rose};
ghost use Rattle.auth_server.specs.Sessions.{DrawsAll};
ghost use Rattle.auth_tables.specs.Keys.{KeyLine};
ghost use Rattle.pass_program.specs.Changes.{ticket_answer};
ghost use Rattle.pass_program.specs.Changing.{IsCaused, Moment, SessionEnds, moment};
ghost use Rattle.pass_program.specs.Steps.{AnswerEnds, DrawsNotBoth, IsAnswered, IsRequested, Served, at_left};
ghost use Rattle.pass_program.specs.declared.refusal.Event.{Event as Told};

use crate::fill::{end_of_lack, fill};
use crate::session::Session;
use crate::status::PassStatus;
use auth_server::{refuse, word_key};
use auth_tables::KeyTable;
use sealing::{
    AUTH_OK, AUTH_PASS, AUTH_TP, RecordWriter, Ticket, TicketReq, read_req, seal_ticket,
};
use wire_streams::{Sink, Source, WordFault, Words, write_all};

/// How many bytes a request has.
pub(crate) const REQUEST_BYTES: usize = 141;

// Reads the byte that begins a request. It is that of the one kind that is served, or the session is over.
fn read_kind<R: Source>(input: &mut R) -> Result<(), PassStatus>
    ensures ok { OnOk result
        (Consumes (R.left input.old) (R.left input.new) (password_request ∷ [])) }
    ensures err { IfErr result (λ status. (keys : List KeyLine) (o : Moment) → SessionEnds keys status
        (at_left o (R.left input.old)) (at_left o (R.left input.new))) }
    ensures cause { IfErr result (λ status.
        IsCaused status (Rose (R.faults input.old) (R.faults input.new)) ⊥ ⊥) }
    ensures counted { R.faults input.old ≤ R.faults input.new }
{
    let mut kind = [0; 1];
    if let Err(lack) = fill(&mut kind, 0, input) {
        return Err(end_of_lack(lack, 0));
    }
    if kind[0] != AUTH_PASS {
        return Err(PassStatus::Refused);
    }
    Ok(())
}

// Reads a request. Behind a first byte of another kind nothing is read.
fn read_request<R: Source>(input: &mut R) -> Result<[u8; REQUEST_BYTES], PassStatus>
    ensures ok { IfOk result (IsRequested (R.left input.old) (R.left input.new)) }
    ensures err { IfErr result (λ status. (keys : List KeyLine) (o : Moment) → SessionEnds keys status
        (at_left o (R.left input.old)) (at_left o (R.left input.new))) }
    ensures cause { IfErr result (λ status.
        IsCaused status (Rose (R.faults input.old) (R.faults input.new)) ⊥ ⊥) }
    ensures counted { R.faults input.old ≤ R.faults input.new }
{
    read_kind(input)?;
    let mut request = [AUTH_PASS; REQUEST_BYTES];
    match fill(&mut request, 1, input) {
        Ok(()) => Ok(request),
        Err(lack) => Err(end_of_lack(lack, 0)),
    }
}

// Two words for a request.
fn draw_words<G: Words>(words: &mut G) -> Result<[[u8; 8]; 2], WordFault>
    ensures drawn { IfOk result
        (λ drawn. DrawsAll (G.to_come words.old) (G.to_come words.new) drawn) }
    ensures two { IfOk result (λ drawn. length drawn ≡ 2) }
    ensures err { OnErr result (DrawsNotBoth (G.to_come words.old) (G.to_come words.new)) }
    ensures cause { OnErr result (Rose (G.faults words.old) (G.faults words.new)) }
    ensures counted { G.faults words.old ≤ G.faults words.new }
{
    let first = words.word8()?;
    let second = words.word8()?;
    Ok([first, second])
}

// The ticket for a user to himself, under its byte.
#[tactic(auto, unfolding(crate::specs::Changes::ticket_answer))]
fn write_ticket(keys: &KeyTable, asked: &TicketReq, words: &[[u8; 8]; 2]) -> [u8; 73]
    ensures { result ≡ ticket_answer keys.now words.now asked.now }
{
    let ticket = Ticket {
        num: AUTH_TP,
        chal: asked.chal,
        cuid: asked.uid,
        suid: asked.uid,
        key: word_key(&words[0]),
    };
    let key = match keys.find(asked.uid.text()) {
        Some(key) => key.des(),
        None => word_key(&words[1]),
    };
    let mut out = RecordWriter::<73>::new();
    out.put(&[AUTH_OK]);
    out.put(&seal_ticket(&ticket, &key));
    out.finish()
}

// Answers a request.
fn answer_request<W: Sink>(
    keys: &KeyTable,
    request: &[u8],
    words: &[[u8; 8]; 2],
    output: &mut W,
) -> Result<Session, PassStatus>
    ensures ok { IfOk result (IsAnswered keys.now request.now words.now
        (W.holds output.old) (W.holds output.new)) }
    ensures err { IfErr result (λ status. AnswerEnds keys.now request.now words.now status
        (W.holds output.old) (W.holds output.new)) }
    ensures cause { IfErr result (λ status.
        IsCaused status ⊥ (Rose (W.faults output.old) (W.faults output.new)) ⊥) }
    ensures counted { W.faults output.old ≤ W.faults output.new }
{
    match read_req(request) {
        Ok(asked) => {
            write_all(&write_ticket(keys, &asked, words), output)?;
            Ok(Session {
                user: asked.uid,
                key: word_key(&words[0]),
            })
        }
        Err(_) => {
            write_all(&refuse(b"bad request"), output)?;
            Err(PassStatus::Refused)
        }
    }
}

/// Begins a session: reads its request, and answers it.
pub(crate) fn begin<R: Source, W: Sink, G: Words>(
    keys: &KeyTable,
    input: &mut R,
    output: &mut W,
    rand: &mut G,
) -> Result<Session, PassStatus>
    ensures ok { IfOk result
        (λ session. (table : Option (List ℕ)) (noted : Option (List (List ℕ × Told)))
        → Served keys.now
        (moment (R.left input.old) (G.to_come rand.old) (W.holds output.old) table noted)
        (moment (R.left input.new) (G.to_come rand.new) (W.holds output.new) table noted)
        session 0) }
    ensures err { IfErr result
        (λ status. (table : Option (List ℕ)) (noted : Option (List (List ℕ × Told)))
        → SessionEnds keys.now status
        (moment (R.left input.old) (G.to_come rand.old) (W.holds output.old) table noted)
        (moment (R.left input.new) (G.to_come rand.new) (W.holds output.new) table noted)) }
    ensures cause { IfErr result (λ status. IsCaused status
        (Rose (R.faults input.old) (R.faults input.new))
        (Rose (W.faults output.old) (W.faults output.new))
        (Rose (G.faults rand.old) (G.faults rand.new))) }
    ensures counted_reads { R.faults input.old ≤ R.faults input.new }
    ensures counted_writes { W.faults output.old ≤ W.faults output.new }
    ensures counted_words { G.faults rand.old ≤ G.faults rand.new }
{
    let request = read_request(input)?;
    let words = draw_words(rand)?;
    answer_request(keys, &request, &words, output)
}
