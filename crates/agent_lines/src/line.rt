// The job of one connection.
ghost use Rattle.std.specs.Prelude.{◌≡◌, ◌≤◌, ◌<◌, ◌⊎◌, [], ℕ, List, Option, IfErr, OnErr, false, length};
ghost use Rattle.wire_streams.specs.Causes.{Rose};
ghost use Rattle.nine.specs.Framed.{Framing};
ghost use Rattle.nine.specs.Streams.{front, IsShort};
ghost use Rattle.agent_hub.specs.Submits.{HubSeat, IsSeatOf};
ghost use Rattle.agent_hub.specs.Requesting.{most_frame};
ghost use Rattle.nine.specs.Batches.{AreFrames};
ghost use Rattle.agent_lines.specs.Lining.{CausedBy, Ends, LineEndsSo, Moment, moment, most_batch};
ghost use Rattle.agent_lines.specs.Turns.{Going, Halts, HoldsBack, Sends, SettledBy, Settles, SettlesSo, TurnSo, has_room};

use crate::batch::serve_batch;
use crate::drawing::MOST_BATCH;
use crate::ends::LineEnd;
use crate::input::read_more;
use crate::kept::Kept;
use agent_history::Event;
use agent_hub::{Hub, HubSeat, TakesEnd};
use nine::{Batch, Behind, BlockFramer, Framer};
use std::alloc::Global;
use std::sync::Wait;
use wire_base::{Bytes, NoMemory};
use wire_streams::{Awaits, Offers, Ready, Source, Wants, Words};

/// The greatest size of a frame.
const MOST_FRAME: u32 = 8216;

/// How many bytes the block has that a connection is read into.
const ROOM: u32 = 16384;

/// Where so many bytes of replies are kept, they are written before more frames are handed on.
const PIECE: usize = 65536;

// Room to write is waited for, and nothing else.
const ROOM_ALONE: Wants = Wants {
    bytes: false,
    room: true,
    replies: false,
};

// Offers what is kept.
fn offer<W: Offers>(kept: &mut Kept, sink: &mut W) -> Result<(), LineEnd>
    ensures told { (conn : ℕ) (first : Moment) (seat : HubSeat) (words : Option (List (List ℕ)))
        (left : Option (List ℕ)) (framer : Framing)
        → Going conn first (moment seat words left (W.holds sink.old)) framer kept.old
        → TurnSo result conn first (moment seat words left (W.holds sink.new)) framer kept.new }
    ensures caused { IfErr result (λ end. CausedBy end ⊥ ⊥
        (Rose (W.faults sink.old) (W.faults sink.new))) }
    ensures counted { W.faults sink.old ≤ W.faults sink.new }
{
    match kept.offer(sink) {
        Ok(()) => Ok(()),
        Err(_) => Err(LineEnd::WriteFault),
    }
}

// Takes the replies that are left, and offers them.
fn collect<R: Wait, W: Offers>(
    rt: &R,
    hub: &Hub,
    seat: HubSeat,
    conn: u64,
    kept: &mut Kept,
    sink: &mut W,
) -> (HubSeat, Result<(), LineEnd>)
    requires { IsSeatOf hub.now seat }
    ensures seat { IsSeatOf hub.now result.0 }
    ensures told { (first : Moment) (words : Option (List (List ℕ))) (left : Option (List ℕ))
        (framer : Framing)
        → Going conn first (moment seat words left (W.holds sink.old)) framer kept.old
        → TurnSo result.1 conn first (moment result.0 words left (W.holds sink.new))
        framer kept.new }
    ensures caused { IfErr result.1 (λ end. CausedBy end ⊥ ⊥
        (Rose (W.faults sink.old) (W.faults sink.new))) }
    ensures counted { W.faults sink.old ≤ W.faults sink.new }
{
    let (seat, took) = kept.collect(rt, hub, seat, conn);
    if took == TakesEnd::Stopped {
        return (seat, Err(LineEnd::Stopped));
    }
    if took == TakesEnd::Left && kept.len() == 0 {
        return (seat, Err(LineEnd::NoMemory));
    }
    (seat, offer(kept, sink))
}

// Hands a batch on, and offers what is kept, unless there is little of it and perhaps a frame more.
fn serve_frames<R: Wait, W: Offers, G: Words>(
    rt: &R,
    hub: &Hub,
    seat: HubSeat,
    conn: u64,
    batch: Batch,
    framer: &mut BlockFramer,
    kept: &mut Kept,
    sink: &mut W,
    words: &mut G,
) -> (HubSeat, Result<(), LineEnd>)
    requires seat { IsSeatOf hub.now seat }
    requires few { batch.count ≤ most_batch }
    requires frames { AreFrames framer.old.limit framer.old.held batch.count batch.size }
    ensures seat { IsSeatOf hub.now result.0 }
    ensures told { (first : Moment) (left : Option (List ℕ))
        → Going conn first (moment seat (G.to_come words.old) left (W.holds sink.old))
        framer.old kept.old
        → TurnSo result.1 conn first
        (moment result.0 (G.to_come words.new) left (W.holds sink.new)) framer.new kept.new }
    ensures caused { IfErr result.1 (λ end. CausedBy end ⊥
        (Rose (G.faults words.old) (G.faults words.new))
        (Rose (W.faults sink.old) (W.faults sink.new))) }
    ensures counted_words { G.faults words.old ≤ G.faults words.new }
    ensures counted_writes { W.faults sink.old ≤ W.faults sink.new }
{
    let (seat, served) = serve_batch(rt, hub, seat, conn, batch, framer, kept, words);
    if let Err(end) = served {
        return (seat, Err(end));
    }
    if batch.behind == Behind::More && kept.len() < PIECE {
        return (seat, Ok(()));
    }
    (seat, offer(kept, sink))
}

// Waits, and reads, or takes the replies that others brought about, or writes, where all whole frames were handed on.
fn wait_or_read<R: Wait, S: Source, W: Offers, A: Awaits>(
    rt: &R,
    hub: &Hub,
    seat: HubSeat,
    conn: u64,
    framer: &mut BlockFramer,
    kept: &mut Kept,
    source: &mut S,
    sink: &mut W,
    awaits: &mut A,
) -> (HubSeat, Result<(), LineEnd>)
    requires seat { IsSeatOf hub.now seat }
    requires short { front framer.old.limit framer.old.held ≡ IsShort }
    ensures seat { IsSeatOf hub.now result.0 }
    ensures told { (first : Moment) (words : Option (List (List ℕ)))
        → Going conn first (moment seat words (S.left source.old) (W.holds sink.old))
        framer.old kept.old
        → front most_frame framer.old.held ≡ IsShort
        → TurnSo result.1 conn first
        (moment result.0 words (S.left source.new) (W.holds sink.new)) framer.new kept.new }
    ensures caused { IfErr result.1 (λ end. CausedBy end
        (Rose (S.faults source.old) (S.faults source.new)) ⊥
        (Rose (W.faults sink.old) (W.faults sink.new))) }
    ensures counted_reads { S.faults source.old ≤ S.faults source.new }
    ensures counted_writes { W.faults sink.old ≤ W.faults sink.new }
{
    let wants = Wants {
        bytes: true,
        room: kept.len() > 0,
        replies: kept.is_owed(),
    };
    match awaits.await_one(wants) {
        Ready::Bytes => (seat, read_more(framer, source)),
        Ready::Replies => collect(rt, hub, seat, conn, kept, sink),
        Ready::Room => (seat, offer(kept, sink)),
    }
}

// Does what there is to do next.
fn go_on<R: Wait, S: Source, W: Offers, G: Words, A: Awaits>(
    rt: &R,
    hub: &Hub,
    seat: HubSeat,
    conn: u64,
    framer: &mut BlockFramer,
    kept: &mut Kept,
    source: &mut S,
    sink: &mut W,
    words: &mut G,
    awaits: &mut A,
) -> (HubSeat, Result<(), LineEnd>)
    requires { IsSeatOf hub.now seat }
    ensures seat { IsSeatOf hub.now result.0 }
    ensures told { (first : Moment)
        → Going conn first
        (moment seat (G.to_come words.old) (S.left source.old) (W.holds sink.old))
        framer.old kept.old
        → TurnSo result.1 conn first
        (moment result.0 (G.to_come words.new) (S.left source.new) (W.holds sink.new))
        framer.new kept.new }
    ensures held_back { has_room kept.old ≡ false → HoldsBack framer.old framer.new
        (moment seat (G.to_come words.old) (S.left source.old) (W.holds sink.old))
        (moment result.0 (G.to_come words.new) (S.left source.new) (W.holds sink.new)) }
    ensures caused { IfErr result.1 (λ end. CausedBy end
        (Rose (S.faults source.old) (S.faults source.new))
        (Rose (G.faults words.old) (G.faults words.new))
        (Rose (W.faults sink.old) (W.faults sink.new))) }
    ensures counted_reads { S.faults source.old ≤ S.faults source.new }
    ensures counted_words { G.faults words.old ≤ G.faults words.new }
    ensures counted_writes { W.faults sink.old ≤ W.faults sink.new }
{
    if kept.has_more() && kept.len() == 0 {
        return collect(rt, hub, seat, conn, kept, sink);
    }
    if !kept.has_room() {
        let _room = awaits.await_one(ROOM_ALONE);
        return (seat, offer(kept, sink));
    }
    let batch = framer.batch(MOST_BATCH);
    if batch.count > 0 {
        return serve_frames(rt, hub, seat, conn, batch, framer, kept, sink, words);
    }
    match batch.behind {
        Behind::Bad(size) => {
            let at = framer.place();
            (seat, Err(LineEnd::BadFrame { at, size }))
        }
        Behind::Short => wait_or_read(rt, hub, seat, conn, framer, kept, source, sink, awaits),
        Behind::More => unreachable!(),
    }
}

// Serves until no more is handed on.
fn converse<R: Wait, S: Source, W: Offers, G: Words, A: Awaits>(
    rt: &R,
    alloc: Global,
    hub: &Hub,
    mut seat: HubSeat,
    conn: u64,
    kept: &mut Kept,
    source: &mut S,
    sink: &mut W,
    words: &mut G,
    awaits: &mut A,
) -> (HubSeat, LineEnd)
    requires seat { IsSeatOf hub.now seat }
    requires none { kept.old ≡ [] }
    ensures seat { IsSeatOf hub.now result.0 }
    ensures halts { Halts conn result.1
        (moment seat (G.to_come words.old) (S.left source.old) (W.holds sink.old))
        (moment result.0 (G.to_come words.new) (S.left source.new) (W.holds sink.new)) kept.new }
    ensures caused { CausedBy result.1
        (Rose (S.faults source.old) (S.faults source.new))
        (Rose (G.faults words.old) (G.faults words.new))
        (Rose (W.faults sink.old) (W.faults sink.new)) }
    ensures counted_reads { S.faults source.old ≤ S.faults source.new }
    ensures counted_words { G.faults words.old ≤ G.faults words.new }
    ensures counted_writes { W.faults sink.old ≤ W.faults sink.new }
{
    let mut framer = match Framer::with_room(alloc, MOST_FRAME, ROOM) {
        Ok(framer) => framer,
        Err(NoMemory) => return (seat, LineEnd::NoMemory),
    };
    for _ in rt.forever() {
        let (next, went) = go_on(
            rt,
            hub,
            seat,
            conn,
            &mut framer,
            kept,
            source,
            sink,
            words,
            awaits,
        );
        seat = next;
        if let Err(end) = went {
            return (seat, end);
        }
    }
    unreachable!()
}

// Writes what is kept, and waits for room where some is left.
fn write_on<W: Offers, A: Awaits>(
    kept: &mut Kept,
    sink: &mut W,
    awaits: &mut A,
) -> Result<(), LineEnd>
    ensures sends { Sends (W.holds sink.old) (W.holds sink.new) kept.old kept.new }
    ensures left { OnErr result (0 < length kept.new) }
    ensures fault { IfErr result (λ end. end ≡ LineEnd.WriteFault) }
    ensures cause { OnErr result (Rose (W.faults sink.old) (W.faults sink.new)) }
    ensures counted { W.faults sink.old ≤ W.faults sink.new }
{
    let Ok(()) = kept.offer(sink) else {
        return Err(LineEnd::WriteFault);
    };
    if kept.len() > 0 {
        let _room = awaits.await_one(ROOM_ALONE);
    }
    Ok(())
}

// How a connection ends whose last takes ended so. An agent that stopped answers so: else it is looked at once more.
fn settled(end: LineEnd, took: TakesEnd) -> Result<(), LineEnd>
    ensures { SettledBy end took result }
{
    match took {
        TakesEnd::Left => Err(LineEnd::NoMemory),
        TakesEnd::Stopped => Err(end),
        TakesEnd::NoneLeft => {
            if end == LineEnd::Stopped {
                return Ok(());
            }
            Err(end)
        }
    }
}

// Writes, or where nothing is kept takes what is left.
fn settle_on<R: Wait, W: Offers, A: Awaits>(
    rt: &R,
    hub: &Hub,
    seat: HubSeat,
    conn: u64,
    end: LineEnd,
    kept: &mut Kept,
    sink: &mut W,
    awaits: &mut A,
) -> (HubSeat, Result<(), LineEnd>)
    requires { IsSeatOf hub.now seat }
    ensures seat { IsSeatOf hub.now result.0 }
    ensures told { (first : Moment) (words : Option (List (List ℕ))) (left : Option (List ℕ))
        → (end ≡ LineEnd.WriteFault → ⊥)
        → Ends conn [] end kept.old first (moment seat words left (W.holds sink.old))
        → SettlesSo result.1 conn end first
        (moment result.0 words left (W.holds sink.new)) kept.new }
    ensures caused { IfErr result.1 (λ by. CausedBy by (end ≡ LineEnd.ReadFault)
        (end ≡ LineEnd.WordFault)
        ((end ≡ LineEnd.WriteFault) ⊎ Rose (W.faults sink.old) (W.faults sink.new))) }
    ensures counted { W.faults sink.old ≤ W.faults sink.new }
{
    if kept.len() > 0 {
        return (seat, write_on(kept, sink, awaits));
    }
    let (seat, took) = kept.collect(rt, hub, seat, conn);
    if kept.len() > 0 {
        return (seat, Ok(()));
    }
    (seat, settled(end, took))
}

// Takes the replies that needn't wait, and writes all that is kept, where no more is handed on for this cause.
fn settle<R: Wait, W: Offers, A: Awaits>(
    rt: &R,
    hub: &Hub,
    mut seat: HubSeat,
    conn: u64,
    end: LineEnd,
    kept: &mut Kept,
    sink: &mut W,
    awaits: &mut A,
) -> (HubSeat, LineEnd)
    requires { IsSeatOf hub.now seat }
    ensures seat { IsSeatOf hub.now result.0 }
    ensures told { (first : Moment) (words : Option (List (List ℕ))) (left : Option (List ℕ))
        → Halts conn end first (moment seat words left (W.holds sink.old)) kept.old
        → Settles conn result.1 first (moment result.0 words left (W.holds sink.new)) kept.new }
    ensures caused { CausedBy result.1 (end ≡ LineEnd.ReadFault) (end ≡ LineEnd.WordFault)
        ((end ≡ LineEnd.WriteFault) ⊎ Rose (W.faults sink.old) (W.faults sink.new)) }
    ensures counted { W.faults sink.old ≤ W.faults sink.new }
{
    if end == LineEnd::WriteFault {
        return (seat, end);
    }
    for _ in rt.forever() {
        let (next, went) = settle_on(rt, hub, seat, conn, end, kept, sink, awaits);
        seat = next;
        if let Err(by) = went {
            return (seat, by);
        }
    }
    unreachable!()
}

/// Serves a connection: hands the frames that it reads to the agent, each as a request with a word of its own, takes its
/// replies and writes them, those among them that other events bring about; until the input ends, the agent stops or
/// something fails. Then the replies that needn't wait are written, and the connection is hung up; after a write fault at
/// once. It may wait.
///
/// Where it keeps 1 MiB of replies that the sink has no room for, it reads no more until some were written.
pub fn serve_line<R: Wait, S: Source, W: Offers, G: Words, A: Awaits>(
    rt: &R,
    alloc: Global,
    hub: &Hub,
    seat: HubSeat,
    conn: u64,
    source: &mut S,
    sink: &mut W,
    words: &mut G,
    awaits: &mut A,
) -> (HubSeat, LineEnd)
    requires { IsSeatOf hub.now seat }
    ensures seat { IsSeatOf hub.now result.0 }

    // What was read, entered and written.
    ensures served { LineEndsSo result.1 conn
        (moment seat (G.to_come words.old) (S.left source.old) (W.holds sink.old))
        (moment result.0 (G.to_come words.new) (S.left source.new) (W.holds sink.new)) }

    // A fault comes only where the count of its object rose, and no count falls.
    ensures caused { CausedBy result.1
        (Rose (S.faults source.old) (S.faults source.new))
        (Rose (G.faults words.old) (G.faults words.new))
        (Rose (W.faults sink.old) (W.faults sink.new)) }
    ensures counted_reads { S.faults source.old ≤ S.faults source.new }
    ensures counted_words { G.faults words.old ≤ G.faults words.new }
    ensures counted_writes { W.faults sink.old ≤ W.faults sink.new }
{
    let mut kept = Kept::new(alloc);
    let (seat, end) = converse(
        rt, alloc, hub, seat, conn, &mut kept, source, sink, words, awaits,
    );
    let (seat, end) = settle(rt, hub, seat, conn, end, &mut kept, sink, awaits);
    let mut nothing = Bytes::new(alloc);
    let (seat, _) = hub.submit(rt, seat, &Event::Hang { conn }, &mut nothing);
    (seat, end)
}
