// The events on the connections of an agent.
ghost use Rattle.std.specs.Prelude.{◌≡◌, ◌<◌, ◌≤◌, ◌+◌, ◌-◌, ◌^◌, ◌∷◌, List, [], Option, true, false, None, Some, IsOk, IfOk, OnOk, OnErr, length, take};
ghost use Rattle.nine.specs.Decoding.{IsFrame};
ghost use Rattle.agent_history.specs.declared.event.Event.TheVariants as events;
ghost use Rattle.agent_history.specs.Deeds.{Deed, HandedOut, is_halted};
ghost use Rattle.agent_history.specs.Conversations.{QuestionDue, due, stands};
ghost use Rattle.agent_history.specs.Requests.{tag_of};
ghost use Rattle.agent_history.specs.Histories.{does, is_reply};
ghost use Rattle.agent_talks.specs.Kept.{question_of};
ghost use Rattle.mailboxes.specs.Deliveries.{replies_at};
ghost use Rattle.agent_requests.specs.Sharing.{SameShared, Shares};
ghost use Rattle.agent_requests.specs.Connections.{SameKept};
ghost use Rattle.agent_core.specs.Events.{AlwaysDone, AnswersAfter, FindsNone, AnswersFor, AsksFewer, GivesUp, HangsUp, IsEvent, IsPut, LeavesOneLess, LivesOn, SameEach, Serves, TakesNoneOf, gives_reply, gives_to, is_some_left, is_stop, known, unasked};

use crate::connections::Connections;
use agent_history::{Event, StepAnswer};
use agent_requests::{Call, Connection, Shared};
use agent_talks::{Due, Question};
use std::alloc::Global;
use wire_base::{Bytes, NoMemory, Shape, get_u16};

/// What an event that is carried out is answered.
pub(crate) type Stepped = Result<StepAnswer, NoMemory>;

// The tag of a frame.
fn tag_of(frame: &[u8]) -> u16
    ensures { result ≡ tag_of frame.now }
{
    get_u16(frame, 5).unwrap_or(0)
}

/// Whether an event stops the agent.
pub(crate) fn is_stop(event: &Event) -> bool
    ensures { result ≡ is_stop event.now }
{
    matches!(event, Event::Stop)
}

// A frame on a connection: the connection is opened, and the frame is answered.
fn request(
    alloc: Global,
    conn: u64,
    connection: &mut Connection,
    shared: &mut Shared,
    frame: &[u8],
    word: [u8; 8],
) -> Result<(), NoMemory>
    requires whole { IsFrame frame.now }
    requires room { shared.old.ring.ever_added + 8216 < 2 ^ 64 - 1 }
    ensures serves { OnOk result ((done : List Deed) → Serves done conn connection.old shared.old
        → Serves (does done (events.Request conn frame.now word)) conn connection.new shared.new) }
    ensures few { shared.new.ring.ever_added ≤ shared.old.ring.ever_added + 8216 }
    ensures err { OnErr result (SameKept connection.old connection.new) }
    ensures err_shared { OnErr result (SameShared shared.old shared.new) }
{
    let call = Call {
        alloc,
        conn,
        tag: tag_of(frame),
        word,
    };
    connection.serve(call, shared, frame)?;
    connection.enter();
    shared.mailboxes.sweep();
    Ok(())
}

// A take on a connection: its oldest reply is put out, if there is one.
fn take(conn: u64, connection: &mut Connection, shared: &mut Shared, out: &mut Bytes) -> Stepped
    ensures serves { OnOk result ((done : List Deed) → Serves done conn connection.old shared.old
        → Serves (does done (events.Take conn)) conn connection.new shared.new) }
    ensures answer { IfOk result (λ a. (done : List Deed) → is_halted done ≡ false
        → Serves done conn connection.old shared.old
        → AnswersAfter done (events.Take conn) a out.old out.new) }
    ensures err { OnErr result ((connection.new ≡ connection.old) × (shared.new ≡ shared.old)
        × (out.new ≡ out.old)) }
    ensures ring { shared.new.ring ≡ shared.old.ring }
    ensures fewer { IfOk result (λ a. is_reply a ≡ true
        → LeavesOneLess (events.Take conn) shared.old shared.new) }
    ensures takes_none { replies_at shared.old.mailboxes conn ≡ [] → IsOk result }
    ensures gives { IfOk result (λ a. is_reply a
        ≡ is_some_left (replies_at shared.old.mailboxes conn)) }
{
    let Some(reply) = shared.mailboxes.front(conn) else {
        connection.enter();
        return Ok(StepAnswer::NoReply);
    };
    reply.put(out)?;
    connection.enter();
    shared.mailboxes.pop(conn);
    Ok(StepAnswer::Reply)
}

/// A frame on a connection of this number.
pub(crate) fn request_at(
    alloc: Global,
    connections: &mut Connections,
    shared: &mut Shared,
    conn: u64,
    frame: &[u8],
    word: [u8; 8],
) -> Result<(), NoMemory>
    requires whole { IsFrame frame.now }
    requires room { shared.old.ring.ever_added + 8216 < 2 ^ 64 - 1 }
    ensures lives { OnOk result (LivesOn (events.Request conn frame.now word)
        (known connections.old) shared.old (known connections.new) shared.new) }
    ensures few { shared.new.ring.ever_added ≤ shared.old.ring.ever_added + 8216 }
    ensures err { OnErr result (SameEach (known connections.old) (known connections.new)) }
    ensures err_shared { OnErr result (SameShared shared.old shared.new) }
{
    if connections.is_gone(conn) {
        return Ok(());
    }
    connections.keep(alloc, conn)?;
    let Some(connection) = connections.live.get_mut(&conn) else {
        unreachable!()
    };
    request(alloc, conn, connection, shared, frame, word)
}

// A take on a connection of this number.
fn take_at(
    alloc: Global,
    connections: &mut Connections,
    shared: &mut Shared,
    conn: u64,
    out: &mut Bytes,
) -> Stepped
    ensures lives { OnOk result (LivesOn (events.Take conn)
        (known connections.old) shared.old (known connections.new) shared.new) }
    ensures answer { IfOk result (λ a. AnswersFor (events.Take conn)
        (known connections.old) shared.old a out.old out.new) }
    ensures ring { shared.new.ring ≡ shared.old.ring }
    ensures err { OnErr result (SameEach (known connections.old) (known connections.new)) }
    ensures err_shared { OnErr result (shared.new ≡ shared.old) }
    ensures err_out { OnErr result (out.new ≡ out.old) }
    ensures fewer { IfOk result (λ a. is_reply a ≡ true
        → LeavesOneLess (events.Take conn) shared.old shared.new) }
    ensures takes_none { FindsNone (known connections.old conn)
        (replies_at shared.old.mailboxes conn) → IsOk result }
    ensures gives { IfOk result (λ a. is_reply a
        ≡ gives_reply (known connections.old conn) (replies_at shared.old.mailboxes conn)) }
{
    if connections.is_gone(conn) {
        return Ok(StepAnswer::Gone);
    }
    connections.keep(alloc, conn)?;
    let Some(connection) = connections.live.get_mut(&conn) else {
        unreachable!()
    };
    take(conn, connection, shared, out)
}

// A hang of a connection of this number: if it was opened it is hung up, and the memory that was kept for it is given up.
fn hang_at(alloc: Global, connections: &mut Connections, shared: &mut Shared, conn: u64)
    ensures lives { LivesOn (events.Hang conn)
        (known connections.old) shared.old (known connections.new) shared.new }
    ensures ring { shared.new.ring ≡ shared.old.ring }
    ensures gives_up { HangsUp conn (known connections.old) (known connections.new) shared.new }
{
    if connections.is_open(conn) {
        connections.hang_up(conn);
        shared.leave(alloc, conn);
        shared.mailboxes.sweep();
    }
}

// What is due is handed out, if anything is: a connection that is to be given up, or a question.
fn take_ask(shared: &mut Shared, out: &mut Bytes) -> Stepped
    ensures shares { OnOk result ((done : List Deed) → Shares done shared.old
        → Shares (does done events.TakeAsk) shared.new) }
    ensures answer { IfOk result (λ a. (done : List Deed) → is_halted done ≡ false
        → Shares done shared.old → AnswersAfter done events.TakeAsk a out.old out.new) }
    ensures ring { shared.new.ring ≡ shared.old.ring }
    ensures err { OnErr result ((shared.new ≡ shared.old) × (out.new ≡ out.old)) }
    ensures fewer { IfOk result (λ a. AsksFewer events.TakeAsk a shared.old shared.new) }
    ensures takes_none { unasked shared.old ≡ 0 → IsOk result }
    ensures none { IfOk result (λ a. is_reply a ≡ false) }
{
    match shared.talks.due() {
        Due::Nothing => Ok(StepAnswer::NoAsk),
        Due::Call(given) => {
            shared.talks.take_drop();
            Ok(StepAnswer::DropCall { conv: given.conv })
        }
        Due::Question(question) => ask(shared, question, out),
    }
}

// The question that is due is put out.
fn ask(shared: &mut Shared, question: Question, out: &mut Bytes) -> Stepped
    ensures shares { OnOk result ((done : List Deed) → Shares done shared.old
        → Shares (HandedOut ∷ done) shared.new) }
    ensures answer { IfOk result (λ a. (done : List Deed) → is_halted done ≡ false
        → due done ≡ QuestionDue (question_of question) → Shares done shared.old
        → AnswersAfter done events.TakeAsk a out.old out.new) }
    ensures ring { shared.new.ring ≡ shared.old.ring }
    ensures err { OnErr result ((shared.new ≡ shared.old) × (out.new ≡ out.old)) }
    ensures fewer { 0 < unasked shared.old
        → IfOk result (λ a. AsksFewer events.TakeAsk a shared.old shared.new) }
    ensures none { IfOk result (λ a. is_reply a ≡ false) }
{
    let Question { call, conv, .. } = question;
    let before = out.len();
    let asked = put_question(shared, conv, out)?;
    let handed = shared.talks.hand_out();
    out.undo_on_err(before, handed)?;
    match asked {
        Some(shape) => Ok(StepAnswer::Ask { call, conv, shape }),
        None => Ok(StepAnswer::NoAsk),
    }
}

// Puts out what a conversation asks the authentication server, and says where its answer ends.
fn put_question(shared: &Shared, conv: u64, out: &mut Bytes) -> Result<Option<Shape>, NoMemory>
    ensures put { IfOk result (λ shape. (done : List Deed) → stands done conv ≡ true
        → Shares done shared.now → IsPut done conv shape out.old out.new) }
    ensures behind { take (length out.old) out.new ≡ out.old }
    ensures err { OnErr result (out.new ≡ out.old) }
{
    let Some(conversation) = shared.talks.talks.conversation(conv) else {
        return Ok(None);
    };
    let Some((request, shape)) = conversation.question() else {
        return Ok(None);
    };
    out.append(request)?;
    Ok(Some(shape))
}

/// Whether a take of the connection is answered by a reply.
pub(crate) fn has_reply(connections: &Connections, shared: &Shared, conn: u64) -> bool
    ensures { result ≡ gives_reply (known connections.now conn)
        (replies_at shared.now.mailboxes conn) }
{
    if connections.is_gone(conn) {
        return false;
    }
    shared.mailboxes.front(conn).is_some()
}

/// Carries out one event, and puts behind `out` what it gives; a stop changes nothing here.
pub(crate) fn act(
    alloc: Global,
    connections: &mut Connections,
    shared: &mut Shared,
    event: &Event,
    out: &mut Bytes,
) -> Stepped
    requires event { IsEvent event.now }
    requires room { shared.old.ring.ever_added + 8216 < 2 ^ 64 - 1 }
    ensures lives { OnOk result (is_stop event.now ≡ false → LivesOn event.now
        (known connections.old) shared.old (known connections.new) shared.new) }
    ensures answer { IfOk result (λ a. AnswersFor event.now
        (known connections.old) shared.old a out.old out.new) }
    ensures few { shared.new.ring.ever_added ≤ shared.old.ring.ever_added + 8216 }
    ensures err { OnErr result (SameEach (known connections.old) (known connections.new)) }
    ensures err_shared { OnErr result (SameShared shared.old shared.new) }
    ensures err_out { OnErr result (out.new ≡ out.old) }
    ensures fewer { IfOk result (λ a. is_reply a ≡ true
        → LeavesOneLess event.now shared.old shared.new) }
    ensures asks { IfOk result (λ a. AsksFewer event.now a shared.old shared.new) }
    ensures takes_none { TakesNoneOf event.now (known connections.old) shared.old → IsOk result }
    ensures done { AlwaysDone event.now result }
    ensures gives { IfOk result (λ a. is_reply a
        ≡ gives_to event.now (known connections.old) shared.old) }
    ensures gives_up { OnOk result (GivesUp event.now (known connections.old)
        (known connections.new) shared.new) }
{
    match event {
        Event::Request { conn, frame, word } => {
            request_at(alloc, connections, shared, *conn, frame.as_slice(), *word)?;
            Ok(StepAnswer::Done)
        }
        Event::Take { conn } => take_at(alloc, connections, shared, *conn, out),
        Event::Hang { conn } => {
            hang_at(alloc, connections, shared, *conn);
            Ok(StepAnswer::Done)
        }
        Event::TakeAsk => take_ask(shared, out),
        Event::Answer { call, bytes } => {
            shared.hear(alloc, *call, bytes.as_slice())?;
            Ok(StepAnswer::Done)
        }
        Event::NoAnswer { call } => {
            shared.hear_nothing(alloc, *call);
            Ok(StepAnswer::Done)
        }
        Event::NoRoom { call } => {
            shared.lack_room(alloc, *call);
            Ok(StepAnswer::Done)
        }
        Event::Stop => Ok(StepAnswer::Done),
    }
}
