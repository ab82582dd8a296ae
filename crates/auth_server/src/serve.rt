// One client, served from its first byte to its last.
ghost use Rattle.std.specs.Prelude.{◌≡◌, ◌⊎◌, ◌++◌, ◌+◌, ◌<◌, ◌≤◌, List, ℕ, Option, None, Some, [], ◌∷◌, true, false, length, Err, IfErr, IfOk, OnOk};
ghost use Rattle.std.specs.Io.KnownBytes.{IsAtEnd};
ghost use Rattle.wire_streams.specs.Causes.{Rose};
ghost use Rattle.wire_streams.specs.Streams.{Gains};
ghost use Rattle.auth_server.specs.Requests.{kind_of, needed};
ghost use Rattle.auth_server.specs.Answers.{Posed, most_wrong};
ghost use Rattle.auth_server.specs.Standing.{knowledge};
ghost use Rattle.auth_server.specs.Sessions.{DrawsAll, DrawsFew, IsPart, IsUnfinished};
ghost use Rattle.wire_streams.specs.Spawning.{Gains as Notes};
ghost use Rattle.auth_server.specs.Notices.{EndsNoted, notices_of};
ghost use Rattle.auth_server.specs.declared.log.Notice.{Notice};
ghost use Rattle.auth_server.specs.Serving.{EndsSo, IsServable, IsSpent, Moment, moment, most_input};
ghost use Rattle.auth_server.specs.Steps.{EndsBehind, HasAnswered, IsAnswerEnd, IsReadEnd, IsSince, Progressed, Received};
ghost use Rattle.auth_server.specs.declared.serve.Progress.TheVariants.{Whole, Part, Ended};

use crate::incoming::Incoming;
use crate::log::{Log, NoLog};
use crate::server::AuthCore;
use crate::session::{AsStep, Session};
use crate::tables::{FixedTables, LiveTables};
use std::alloc::Global;
use wire_base::{Bytes, NoMemory};
use wire_streams::{Got, Sink, Source, WordFault, Words, WriteFault, write_all};

/// How many bytes of a client are taken.
const MOST_INPUT: u64 = 1 << 40;

/// How many bytes every request has at least.
const LEAST_REQUEST: usize = 141;

/// How a server of one client ended. Offsets count the bytes of the client from 0.
#[derive(Clone, Copy, Debug, PartialEq, Eq)]
pub enum AuthEnd {
    /// The input ended behind a request.
    End,
    /// The byte at this offset begins no request that is served.
    UnknownType { at: u64, kind: u8 },
    /// The input ended inside the request that begins at this offset.
    Torn { at: u64 },
    /// The session had its fifth wrong answer.
    TooManyWrong,
    /// A read failed.
    ReadFault,
    /// A write failed.
    WriteFault,
    /// No word could be drawn.
    WordFault,
    /// The client sent more than 2^40 bytes.
    Flood,
    /// Memory ran out.
    NoMemory,
}

impl From<NoMemory> for AuthEnd {
    ghost use Rattle.std.specs.Prelude.{◌≡◌};
    ghost use Rattle.auth_server.specs.declared.serve.AuthEnd.TheVariants as ends;

    ghost from_gives = { λ _ end. end ≡ ends.NoMemory };

    fn from(_: NoMemory) -> Self {
        AuthEnd::NoMemory
    }
}

impl From<WriteFault> for AuthEnd {
    ghost use Rattle.std.specs.Prelude.{◌≡◌};
    ghost use Rattle.auth_server.specs.declared.serve.AuthEnd.TheVariants as ends;

    ghost from_gives = { λ _ end. end ≡ ends.WriteFault };

    fn from(_: WriteFault) -> Self {
        AuthEnd::WriteFault
    }
}

impl From<WordFault> for AuthEnd {
    ghost use Rattle.std.specs.Prelude.{◌≡◌};
    ghost use Rattle.auth_server.specs.declared.serve.AuthEnd.TheVariants as ends;

    ghost from_gives = { λ _ end. end ≡ ends.WordFault };

    fn from(_: WordFault) -> Self {
        AuthEnd::WordFault
    }
}

/// What one read of a request came to.
#[derive(Clone, Copy, PartialEq, Eq)]
pub(crate) enum Progress {
    /// The request is whole.
    Whole,
    /// It isn't yet.
    Part,
    /// The input ended before its first byte.
    Ended,
}

// How many bytes the request lacks; before its first byte, as many as every request has.
fn lacking(core: &AuthCore, session: &Session, incoming: &Incoming) -> usize
    requires { IsUnfinished session.now.held incoming.now.bytes }
    ensures some { 0 < result }
    ensures most { length incoming.now.bytes + result ≤ 173 }
    ensures first { incoming.now.bytes ≡ [] → result ≡ 141 }
    ensures later { (need : ℕ) → 0 < length incoming.now.bytes
        → needed session.now.held (kind_of incoming.now.bytes) ≡ Some need
        → length incoming.now.bytes + result ≡ need }
{
    match incoming.as_slice() {
        [] => LEAST_REQUEST,
        [kind, ..] => match core.need(session, *kind) {
            Some(need) => need - incoming.len(),
            None => unreachable!(),
        },
    }
}

// What the bytes of a request come to behind a read that gave some.
fn weigh(core: &AuthCore, session: &Session, incoming: &Incoming) -> Result<Progress, AuthEnd>
    requires some { 0 < length incoming.now.bytes }
    requires few { (need : ℕ) → needed session.now.held (kind_of incoming.now.bytes) ≡ Some need
        → length incoming.now.bytes ≤ need }
    ensures whole { IfOk result (λ progress. progress ≡ Whole
        → needed session.now.held (kind_of incoming.now.bytes) ≡ Some (length incoming.now.bytes)) }
    ensures part { IfOk result (λ progress. progress ≡ Part
        → IsPart session.now.held incoming.now.bytes) }
    ensures goes_on { IfOk result (λ progress. progress ≡ Ended → ⊥) }
    ensures unknown { IfErr result (λ end. (end
        ≡ AuthEnd.UnknownType incoming.now.at (kind_of incoming.now.bytes))
        × (needed session.now.held (kind_of incoming.now.bytes) ≡ None)) }
{
    let [kind, ..] = incoming.as_slice() else {
        unreachable!();
    };
    match core.need(session, *kind) {
        Some(need) if incoming.len() == need => Ok(Progress::Whole),
        Some(_) => Ok(Progress::Part),
        None => Err(AuthEnd::UnknownType {
            at: incoming.at(),
            kind: *kind,
        }),
    }
}

// Reads a piece of the request.
fn read_piece<C: LiveTables, R: Source>(
    tables: &C,
    session: &Session,
    incoming: &mut Incoming,
    source: &mut R,
) -> Result<Progress, AuthEnd>
    requires unfinished { IsUnfinished session.now.held incoming.old.bytes }
    requires few { incoming.old.at + length incoming.old.bytes ≤ most_input }
    ensures received { IfOk result
        (λ progress. (first : C) (before : Moment) (words : Option (List (List ℕ)))
        (holds : Option (List ℕ)) (requests : List Posed)
        → Received (C.in_force first) before (moment (R.left source.old) words holds)
        requests session.now incoming.old
        → Received (C.in_force first) before (moment (R.left source.new) words holds)
        requests session.now incoming.new) }
    ensures progress { IfOk result
        (λ progress. Progressed progress session.now incoming.new (R.left source.new)) }
    ensures few { OnOk result (incoming.new.at + length incoming.new.bytes ≤ most_input) }
    ensures longer { IfOk result (λ progress. progress ≡ Part
        → length incoming.old.bytes < length incoming.new.bytes) }
    ensures bound { length incoming.new.bytes ≤ 173 }
    ensures err { IfErr result
        (λ end. (first : C) (before : Moment) (words : Option (List (List ℕ)))
        (holds : Option (List ℕ)) (requests : List Posed)
        → Received (C.in_force first) before (moment (R.left source.old) words holds)
        requests session.now incoming.old
        → EndsBehind (C.in_force first) end before (moment (R.left source.new) words holds)
        requests) }
    ensures cause { result ≡ Err AuthEnd.ReadFault
        → Rose (R.faults source.old) (R.faults source.new) }
    ensures others { IfErr result IsReadEnd }
    ensures counted { R.faults source.old ≤ R.faults source.new }
{
    let left = MOST_INPUT - (incoming.at() + incoming.len() as u64);
    let most = left
        .max(1)
        .min(lacking(tables.core(), session, incoming) as u64) as usize;
    match incoming.fill(most, source) {
        Got::Bytes(_) if left == 0 => Err(AuthEnd::Flood),
        Got::Bytes(_) => weigh(tables.core(), session, incoming),
        Got::End if incoming.len() == 0 => Ok(Progress::Ended),
        Got::End => Err(AuthEnd::Torn { at: incoming.at() }),
        Got::Failed => Err(AuthEnd::ReadFault),
    }
}

// Reads a request to its end; whether there is one.
fn read_request<C: LiveTables, R: Source>(
    tables: &C,
    session: &Session,
    incoming: &mut Incoming,
    source: &mut R,
) -> Result<bool, AuthEnd>
    requires new { incoming.old.bytes ≡ [] }
    requires few { incoming.old.at ≤ most_input }
    ensures received { IfOk result
        (λ found. (first : C) (before : Moment) (words : Option (List (List ℕ)))
        (holds : Option (List ℕ)) (requests : List Posed)
        → Received (C.in_force first) before (moment (R.left source.old) words holds)
        requests session.now incoming.old
        → Received (C.in_force first) before (moment (R.left source.new) words holds)
        requests session.now incoming.new) }
    ensures whole { IfOk result (λ found. found ≡ true
        → needed session.now.held (kind_of incoming.new.bytes) ≡ Some (length incoming.new.bytes)) }
    ensures few { OnOk result (incoming.new.at + length incoming.new.bytes ≤ most_input) }
    ensures ended { IfOk result (λ found. found ≡ false
        → (incoming.new.bytes ≡ []) × IsAtEnd (R.left source.new)) }
    ensures err { IfErr result
        (λ end. (first : C) (before : Moment) (words : Option (List (List ℕ)))
        (holds : Option (List ℕ)) (requests : List Posed)
        → Received (C.in_force first) before (moment (R.left source.old) words holds)
        requests session.now incoming.old
        → EndsBehind (C.in_force first) end before (moment (R.left source.new) words holds)
        requests) }
    ensures cause { result ≡ Err AuthEnd.ReadFault
        → Rose (R.faults source.old) (R.faults source.new) }
    ensures others { IfErr result IsReadEnd }
    ensures counted { R.faults source.old ≤ R.faults source.new }
{
    loop {
        match read_piece(tables, session, incoming, source)? {
            Progress::Whole => return Ok(true),
            Progress::Part => {}
            Progress::Ended => return Ok(false),
        }
    }
}

// Three words for a request.
fn draw_words<G: Words>(words: &mut G) -> Result<[[u8; 8]; 3], AuthEnd>
    ensures drawn { IfOk result
        (λ drawn. DrawsAll (G.to_come words.old) (G.to_come words.new) drawn) }
    ensures three { IfOk result (λ drawn. length drawn ≡ 3) }
    ensures err { IfErr result (λ end. (end ≡ AuthEnd.WordFault)
        × DrawsFew (G.to_come words.old) (G.to_come words.new)) }
    ensures cause { IfErr result (λ end. Rose (G.faults words.old) (G.faults words.new)) }
    ensures counted { G.faults words.old ≤ G.faults words.new }
{
    let first = words.word8()?;
    let second = words.word8()?;
    let third = words.word8()?;
    Ok([first, second, third])
}

// Answers a request that is whole, and notes what came of it.
fn answer_request<C: LiveTables, W: Sink, G: Words, L: Log>(
    tables: &mut C,
    session: &mut Session,
    request: &[u8],
    words: &mut G,
    sink: &mut W,
    log: &mut L,
    out: &mut Bytes,
) -> Result<(), AuthEnd>
    requires whole { needed session.old.held (kind_of request.now) ≡ Some (length request.now) }
    requires goes_on { session.old.wrong < most_wrong }
    ensures answered { OnOk result
        ((first : C) (before : Moment) (left : Option (List ℕ)) (at : ℕ) (requests : List Posed)
        (noted : Option (List Notice))
        → IsSince (C.in_force first) (C.in_force tables.old) (length requests)
        → Received (C.in_force first) before
        (moment left (G.to_come words.old) (W.holds sink.old)) requests session.old
        (record { at = at; bytes = request.now })
        → Notes noted (L.noted log.old) (notices_of requests)
        → HasAnswered (C.in_force first) (C.in_force tables.new) before
        (moment left (G.to_come words.new) (W.holds sink.new)) noted (L.noted log.new) (at
        + length request.now) session.new) }
    ensures err { IfErr result
        (λ end. (first : C) (before : Moment) (left : Option (List ℕ)) (at : ℕ)
        (requests : List Posed) (noted : Option (List Notice))
        → IsSince (C.in_force first) (C.in_force tables.old) (length requests)
        → Received (C.in_force first) before
        (moment left (G.to_come words.old) (W.holds sink.old)) requests session.old
        (record { at = at; bytes = request.now })
        → Notes noted (L.noted log.old) (notices_of requests)
        → EndsNoted (C.in_force first) end before
        (moment left (G.to_come words.new) (W.holds sink.new)) noted (L.noted log.new)) }
    ensures others { IfErr result IsAnswerEnd }
    ensures write_fault { result ≡ Err AuthEnd.WriteFault
        → Rose (W.faults sink.old) (W.faults sink.new) }
    ensures word_fault { result ≡ Err AuthEnd.WordFault
        → Rose (G.faults words.old) (G.faults words.new) }
    ensures counted_writes { W.faults sink.old ≤ W.faults sink.new }
    ensures counted_words { G.faults words.old ≤ G.faults words.new }
{
    let drawn = draw_words(words)?;
    tables.renew()?;
    let core = tables.core();
    let notice = core.notice(session, request);
    out.clear();
    let step = core.step(session, request, &drawn, out)?;
    log.note(&notice);
    write_all(out.as_slice(), sink)?;
    match step {
        AsStep::Replied => Ok(()),
        AsStep::TooManyWrong => Err(AuthEnd::TooManyWrong),
    }
}

// Answers requests until the input ends.
fn serve_requests<C: LiveTables, R: Source, W: Sink, G: Words, L: Log>(
    alloc: Global,
    tables: &mut C,
    source: &mut R,
    sink: &mut W,
    words: &mut G,
    log: &mut L,
) -> Result<(), AuthEnd>
    ensures end { OnOk result (EndsNoted (C.in_force tables.old) AuthEnd.End
        (moment (R.left source.old) (G.to_come words.old) (W.holds sink.old))
        (moment (R.left source.new) (G.to_come words.new) (W.holds sink.new))
        (L.noted log.old) (L.noted log.new)) }
    ensures err { IfErr result
        (λ end. EndsNoted (C.in_force tables.old) end
        (moment (R.left source.old) (G.to_come words.old) (W.holds sink.old))
        (moment (R.left source.new) (G.to_come words.new) (W.holds sink.new))
        (L.noted log.old) (L.noted log.new)) }
    ensures others { IfErr result (λ end. end ≡ AuthEnd.End → ⊥) }
    ensures read_fault { result ≡ Err AuthEnd.ReadFault
        → Rose (R.faults source.old) (R.faults source.new) }
    ensures write_fault { result ≡ Err AuthEnd.WriteFault
        → Rose (W.faults sink.old) (W.faults sink.new) }
    ensures word_fault { result ≡ Err AuthEnd.WordFault
        → Rose (G.faults words.old) (G.faults words.new) }
    ensures counted_reads { R.faults source.old ≤ R.faults source.new }
    ensures counted_writes { W.faults sink.old ≤ W.faults sink.new }
    ensures counted_words { G.faults words.old ≤ G.faults words.new }
{
    let mut session = Session::new();
    let mut incoming = Incoming::new();
    let mut out = Bytes::new(alloc);
    'requests: while read_request(tables, &session, &mut incoming, source)? {
        answer_request(
            tables,
            &mut session,
            incoming.as_slice(),
            words,
            sink,
            log,
            &mut out,
        )?;
        incoming.next();
    }
    Ok(())
}

/// The same as `serve_auth`, by the tables in force at each request, and what came of each is noted. That what is servable is
/// served to its end follows from these clauses.
pub fn serve_auth_noting<C: LiveTables, R: Source, W: Sink, G: Words, L: Log>(
    alloc: Global,
    tables: &mut C,
    source: &mut R,
    sink: &mut W,
    words: &mut G,
    log: &mut L,
) -> AuthEnd
    ensures ends { EndsNoted (C.in_force tables.old) result
        (moment (R.left source.old) (G.to_come words.old) (W.holds sink.old))
        (moment (R.left source.new) (G.to_come words.new) (W.holds sink.new))
        (L.noted log.old) (L.noted log.new) }

    // A fault comes only where the count of its object rose, and no count falls.
    ensures read_fault { result ≡ AuthEnd.ReadFault
        → Rose (R.faults source.old) (R.faults source.new) }
    ensures write_fault { result ≡ AuthEnd.WriteFault
        → Rose (W.faults sink.old) (W.faults sink.new) }
    ensures word_fault { result ≡ AuthEnd.WordFault
        → Rose (G.faults words.old) (G.faults words.new) }
    ensures counted_reads { R.faults source.old ≤ R.faults source.new }
    ensures counted_writes { W.faults sink.old ≤ W.faults sink.new }
    ensures counted_words { G.faults words.old ≤ G.faults words.new }
{
    match serve_requests(alloc, tables, source, sink, words, log) {
        Ok(()) => AuthEnd::End,
        Err(end) => end,
    }
}

/// Serves one client: its requests are answered in order, each before more is read, with three words drawn for each.
/// What was read, drawn and written by then is told for every end.
pub fn serve_auth<R: Source, W: Sink, G: Words>(
    alloc: Global,
    core: &AuthCore,
    source: &mut R,
    sink: &mut W,
    words: &mut G,
) -> AuthEnd
    ensures ends { EndsSo (knowledge core.now) result
        (moment (R.left source.old) (G.to_come words.old) (W.holds sink.old))
        (moment (R.left source.new) (G.to_come words.new) (W.holds sink.new)) }

    // A fault comes only where the count of its object rose, and no count falls.
    ensures read_fault { result ≡ AuthEnd.ReadFault
        → Rose (R.faults source.old) (R.faults source.new) }
    ensures write_fault { result ≡ AuthEnd.WriteFault
        → Rose (W.faults sink.old) (W.faults sink.new) }
    ensures word_fault { result ≡ AuthEnd.WordFault
        → Rose (G.faults words.old) (G.faults words.new) }
    ensures counted_reads { R.faults source.old ≤ R.faults source.new }
    ensures counted_writes { W.faults sink.old ≤ W.faults sink.new }
    ensures counted_words { G.faults words.old ≤ G.faults words.new }

    // What is told, servable and without faults is served to its end, unless memory runs out.
    ensures complete { IsServable (knowledge core.now)
        (moment (R.left source.old) (G.to_come words.old) (W.holds sink.old))
        → (Rose (R.faults source.old) (R.faults source.new) → ⊥)
        → (Rose (W.faults sink.old) (W.faults sink.new) → ⊥)
        → (Rose (G.faults words.old) (G.faults words.new) → ⊥)
        → (result ≡ AuthEnd.End) ⊎ (result ≡ AuthEnd.NoMemory) }

    // And what is told to begin with five wrong answers is served to the fifth.
    ensures spent { IsSpent (knowledge core.now)
        (moment (R.left source.old) (G.to_come words.old) (W.holds sink.old))
        → (Rose (R.faults source.old) (R.faults source.new) → ⊥)
        → (Rose (W.faults sink.old) (W.faults sink.new) → ⊥)
        → (Rose (G.faults words.old) (G.faults words.new) → ⊥)
        → (result ≡ AuthEnd.TooManyWrong) ⊎ (result ≡ AuthEnd.NoMemory) }
{
    let mut tables = FixedTables { core };
    serve_auth_noting(alloc, &mut tables, source, sink, words, &mut NoLog)
}
