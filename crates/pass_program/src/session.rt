// One client's change of its password.
ghost use Rattle.std.specs.Io.KnownBytes.{Consumes};
ghost use Rattle.std.specs.Prelude.{◌≡◌, ◌<◌, ◌≤◌, ◌⊎◌, IfErr, IfOk, IfSome, OnOk, List, Option, true, ℕ, length};
ghost use Rattle.wire_streams.specs.Causes.{Rose};
ghost use Rattle.auth_tables.specs.Keys.{KeyLine};
ghost use Rattle.auth_tables.specs.Printing.{is_new_password, table_text, with_password};
ghost use Rattle.pass_program.specs.Changes.{most_refusals};
ghost use Rattle.pass_program.specs.Changing.{Changes, IsCaused, Moment, SessionEnds, moment};
ghost use Rattle.pass_program.specs.Steps.{Hears, HearsOne, LacksSo, Served};

use crate::change::{MESSAGE_BYTES, judge};
use crate::fill::{Lack, end_of_lack, fill};
use crate::log::Log;
use crate::refusal::{Event, Refusal, refuse_for};
use crate::request::{REQUEST_BYTES, begin};
use crate::status::PassStatus;
use auth_tables::KeyTable;
use sealing::{AUTH_OK, Key7};
use std::alloc::Global;
use wire_base::{Bytes, Name, NoMemory};
use wire_streams::{Sink, Source, Words, WriteFault, write_all};

/// How many refusals end a session.
const MOST_REFUSALS: u64 = 5;

/// Whom a session is of, and the key that its ticket gave. It has no Debug, which would print the key.
#[derive(Clone, Copy)]
pub(crate) struct Session {
    pub(crate) user: Name<28>,
    pub(crate) key: Key7,
}

// Reads a message.
fn read_message<R: Source>(input: &mut R) -> Result<[u8; MESSAGE_BYTES], Lack>
    ensures read { IfOk result
        (λ message. Consumes (R.left input.old) (R.left input.new) message) }
    ensures whole { IfOk result (λ message. length message ≡ 90) }
    ensures err { IfErr result (λ lack. LacksSo lack (R.left input.old) (R.left input.new) 0 90) }
    ensures cause { IfErr result (λ lack. lack ≡ Lack.Failed
        → Rose (R.faults input.old) (R.faults input.new)) }
    ensures counted { R.faults input.old ≤ R.faults input.new }
{
    let mut message = [0; MESSAGE_BYTES];
    match fill(&mut message, 0, input) {
        Ok(()) => Ok(message),
        Err(lack) => Err(lack),
    }
}

// Hears the message behind so many refusals: the new password, where it is taken, and else it is refused.
fn hear<R: Source, W: Sink, L: Log>(
    keys: &KeyTable,
    session: &Session,
    refusals: u64,
    input: &mut R,
    output: &mut W,
    log: &mut L,
) -> Result<Option<Name<28>>, PassStatus>
    requires { refusals < most_refusals }
    ensures ok { IfOk result
        (λ heard. (before : Moment) (to_come : Option (List (List ℕ))) (table : Option (List ℕ))
        → Served keys.now before
        (moment (R.left input.old) to_come (W.holds output.old) table (L.noted log.old))
        session.now refusals
        → HearsOne keys.now before
        (moment (R.left input.new) to_come (W.holds output.new) table (L.noted log.new))
        session.now refusals heard) }
    ensures err { IfErr result
        (λ status. (before : Moment) (to_come : Option (List (List ℕ))) (table : Option (List ℕ))
        → Served keys.now before
        (moment (R.left input.old) to_come (W.holds output.old) table (L.noted log.old))
        session.now refusals
        → SessionEnds keys.now status before
        (moment (R.left input.new) to_come (W.holds output.new) table (L.noted log.new))) }
    ensures good { IfOk result
        (λ heard. IfSome heard (λ password. is_new_password password ≡ true)) }
    ensures cause { IfErr result (λ status. IsCaused status
        (Rose (R.faults input.old) (R.faults input.new))
        (Rose (W.faults output.old) (W.faults output.new)) ⊥) }
    ensures counted_reads { R.faults input.old ≤ R.faults input.new }
    ensures counted_writes { W.faults output.old ≤ W.faults output.new }
{
    let at = REQUEST_BYTES as u64 + MESSAGE_BYTES as u64 * refusals;
    let message = match read_message(input) {
        Ok(message) => message,
        Err(lack) => return Err(end_of_lack(lack, at)),
    };
    match judge(keys, &session.user, &session.key, &message) {
        Ok(password) => Ok(Some(password)),
        Err(why) => {
            log.note(&session.user, Event::Refused(why));
            write_all(&refuse_for(why), output)?;
            Ok(None)
        }
    }
}

// Hears messages until one is taken: the new password.
fn hear_all<R: Source, W: Sink, L: Log>(
    keys: &KeyTable,
    session: &Session,
    input: &mut R,
    output: &mut W,
    log: &mut L,
) -> Result<Name<28>, PassStatus>
    ensures ok { IfOk result
        (λ password. (before : Moment) (to_come : Option (List (List ℕ))) (table : Option (List ℕ))
        → Served keys.now before
        (moment (R.left input.old) to_come (W.holds output.old) table (L.noted log.old))
        session.now 0
        → Hears keys.now before
        (moment (R.left input.new) to_come (W.holds output.new) table (L.noted log.new))
        session.now.user password) }
    ensures err { IfErr result
        (λ status. (before : Moment) (to_come : Option (List (List ℕ))) (table : Option (List ℕ))
        → Served keys.now before
        (moment (R.left input.old) to_come (W.holds output.old) table (L.noted log.old))
        session.now 0
        → SessionEnds keys.now status before
        (moment (R.left input.new) to_come (W.holds output.new) table (L.noted log.new))) }
    ensures good { IfOk result (λ password. is_new_password password ≡ true) }
    ensures cause { IfErr result (λ status. IsCaused status
        (Rose (R.faults input.old) (R.faults input.new))
        (Rose (W.faults output.old) (W.faults output.new)) ⊥) }
    ensures counted_reads { R.faults input.old ≤ R.faults input.new }
    ensures counted_writes { W.faults output.old ≤ W.faults output.new }
{
    for refusals in 0..MOST_REFUSALS {
        if let Some(password) = hear(keys, session, refusals, input, output, log)? {
            return Ok(password);
        }
    }
    Err(PassStatus::Refused)
}

// The text of the table in which a user has a password.
fn new_table(
    alloc: Global,
    keys: &mut KeyTable,
    user: &Name<28>,
    password: &Name<28>,
) -> Result<Bytes, NoMemory>
    requires { is_new_password password.now ≡ true }
    ensures { IfOk result
        (λ text. text ≡ table_text (with_password user.now password.now keys.old)) }
{
    keys.set_password(user.text(), password.text())?;
    let mut text = Bytes::new(alloc);
    keys.print_keys(&mut text)?;
    Ok(text)
}

// Writes a new table, and then tells the user; that it wasn't taken, as far as that can be told.
fn write_table<W: Sink, T: Sink, L: Log>(
    user: &Name<28>,
    text: &[u8],
    output: &mut W,
    table: &mut T,
    log: &mut L,
) -> Result<(), PassStatus>
    ensures ok { OnOk result
        ((keys : List KeyLine) (before : Moment) (password : List ℕ)
        (left : Option (List ℕ)) (to_come : Option (List (List ℕ)))
        → text.now ≡ table_text (with_password user.now password keys)
        → Hears keys before
        (moment left to_come (W.holds output.old) (T.holds table.old) (L.noted log.old))
        user.now password
        → Changes keys before
        (moment left to_come (W.holds output.new) (T.holds table.new) (L.noted log.new))) }
    ensures err { IfErr result
        (λ status. (keys : List KeyLine) (before : Moment) (password : List ℕ)
        (left : Option (List ℕ)) (to_come : Option (List (List ℕ)))
        → text.now ≡ table_text (with_password user.now password keys)
        → Hears keys before
        (moment left to_come (W.holds output.old) (T.holds table.old) (L.noted log.old))
        user.now password
        → SessionEnds keys status before
        (moment left to_come (W.holds output.new) (T.holds table.new) (L.noted log.new))) }
    ensures cause { IfErr result (λ status. IsCaused status ⊥
        (Rose (W.faults output.old) (W.faults output.new)
        ⊎ Rose (T.faults table.old) (T.faults table.new)) ⊥) }
    ensures counted_writes { W.faults output.old ≤ W.faults output.new }
    ensures counted_table { T.faults table.old ≤ T.faults table.new }
{
    if let Err(WriteFault) = write_all(text, table) {
        let why = Refusal::TableNotWritten;
        log.note(user, Event::Refused(why));
        let _ = write_all(&refuse_for(why), output);
        return Err(PassStatus::WriteFault);
    }
    write_all(&[AUTH_OK], output)?;
    log.note(user, Event::Changed);
    Ok(())
}

// Serves one client to the change of its password.
fn serve<R: Source, W: Sink, T: Sink, G: Words, L: Log>(
    alloc: Global,
    keys: &mut KeyTable,
    input: &mut R,
    output: &mut W,
    table: &mut T,
    rand: &mut G,
    log: &mut L,
) -> Result<(), PassStatus>
    ensures ok { OnOk result (Changes keys.old
        (moment (R.left input.old) (G.to_come rand.old) (W.holds output.old)
        (T.holds table.old) (L.noted log.old))
        (moment (R.left input.new) (G.to_come rand.new) (W.holds output.new)
        (T.holds table.new) (L.noted log.new))) }
    ensures err { IfErr result (λ status. SessionEnds keys.old status
        (moment (R.left input.old) (G.to_come rand.old) (W.holds output.old)
        (T.holds table.old) (L.noted log.old))
        (moment (R.left input.new) (G.to_come rand.new) (W.holds output.new)
        (T.holds table.new) (L.noted log.new))) }
    ensures cause { IfErr result (λ status. IsCaused status
        (Rose (R.faults input.old) (R.faults input.new))
        (Rose (W.faults output.old) (W.faults output.new)
        ⊎ Rose (T.faults table.old) (T.faults table.new))
        (Rose (G.faults rand.old) (G.faults rand.new))) }
    ensures counted_reads { R.faults input.old ≤ R.faults input.new }
    ensures counted_writes { W.faults output.old ≤ W.faults output.new }
    ensures counted_table { T.faults table.old ≤ T.faults table.new }
    ensures counted_words { G.faults rand.old ≤ G.faults rand.new }
{
    let session = begin(keys, input, output, rand)?;
    let password = hear_all(keys, &session, input, output, log)?;
    let text = new_table(alloc, keys, &session.user, &password)?;
    write_table(&session.user, text.as_slice(), output, table, log)
}

/// Serves one client by a table of keys: its request is answered by a ticket, and of the messages behind it at most five
/// are refused. Where one is taken, the new table is written whole, and then the client is told.
pub(crate) fn change_password<R: Source, W: Sink, T: Sink, G: Words, L: Log>(
    alloc: Global,
    keys: &mut KeyTable,
    input: &mut R,
    output: &mut W,
    table: &mut T,
    rand: &mut G,
    log: &mut L,
) -> PassStatus
    ensures ends { SessionEnds keys.old result
        (moment (R.left input.old) (G.to_come rand.old) (W.holds output.old)
        (T.holds table.old) (L.noted log.old))
        (moment (R.left input.new) (G.to_come rand.new) (W.holds output.new)
        (T.holds table.new) (L.noted log.new)) }
    ensures cause { IsCaused result
        (Rose (R.faults input.old) (R.faults input.new))
        (Rose (W.faults output.old) (W.faults output.new)
        ⊎ Rose (T.faults table.old) (T.faults table.new))
        (Rose (G.faults rand.old) (G.faults rand.new)) }
    ensures counted_reads { R.faults input.old ≤ R.faults input.new }
    ensures counted_writes { W.faults output.old ≤ W.faults output.new }
    ensures counted_table { T.faults table.old ≤ T.faults table.new }
    ensures counted_words { G.faults rand.old ≤ G.faults rand.new }
{
    match serve(alloc, keys, input, output, table, rand, log) {
        Ok(()) => PassStatus::Fine { changed: true },
        Err(status) => status,
    }
}
