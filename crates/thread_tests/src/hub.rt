// The hub on objects in memory and in threads.
ghost use Rattle.std.specs.Prelude.{IfOk};
ghost use Rattle.nine.specs.Decoding.{IsFrame};
ghost use Rattle.agent_core.specs.Events.{IsEvent};
ghost use Rattle.agent_hub.specs.Submits.{IsSeatOf};

mod attaches;
mod lines;
mod sessions;

use agent_core::Agent;
use agent_history::{Event, StepAnswer};
use agent_hub::{AsksEnd, Exchanged, Hub, HubSeat, TakesEnd, serve_asks};
use sessions::{
    ADD_KEY, AGREED, BAD_SIZE, KEY_ADDED, KEYS_READ, LOG_IN, LOGGED_IN, READ_KEYS, VERSION,
};
use std::alloc::Global;
use std::process::Abort;
use std::sync::Wait;
use std::test::Fail;
use std::thread::join;
use wire_base::{Bytes, get_u32};
use wire_streams::{Made, MemDialer};

// A hub without keys and connections.
fn new_hub(alloc: Global) -> Result<(Hub, HubSeat), Fail>
    ensures { IfOk result (λ made. IsSeatOf made.0 made.1) }
{
    Ok(Hub::new(alloc, Agent::new(alloc)?)?)
}

// These bytes as a frame.
fn frame_of(rt: &impl Abort, alloc: Global, bytes: &[u8]) -> Result<Bytes, Fail>
    ensures { IfOk result (λ frame. IsFrame frame) }
{
    let frame = Bytes::from_slice(alloc, bytes)?;
    let size = get_u32(frame.as_slice(), 0).ok_or("no size")?;
    assert!(rt; size >= 7 && size as usize == frame.len(), "no frame");
    Ok(frame)
}

// Where the frame ends that begins at a place.
fn end_of_frame(frames: &[u8], at: usize) -> Result<usize, Fail> {
    let size = get_u32(frames, at).ok_or("no size")?;
    Ok(at.checked_add(size as usize).ok_or("no end")?)
}

// Submits an event that puts these bytes out.
fn submit<R: Wait + Abort>(
    rt: &R,
    alloc: Global,
    hub: &Hub,
    seat: HubSeat,
    event: &Event,
    answer: StepAnswer,
    bytes: &[u8],
) -> Result<HubSeat, Fail>
    requires seat { IsSeatOf hub.now seat }
    requires event { IsEvent event.now }
    ensures { IfOk result (λ seat. IsSeatOf hub.now seat) }
{
    let mut out = Bytes::new(alloc);
    let (seat, answered) = hub.submit(rt, seat, event, &mut out);
    assert_eq!(rt; answered?, answer);
    assert_eq!(rt; out.as_slice(), bytes);
    Ok(seat)
}

// Submits one frame on a connection.
fn ask<R: Wait + Abort>(
    rt: &R,
    alloc: Global,
    hub: &Hub,
    seat: HubSeat,
    conn: u64,
    frame: &[u8],
) -> Result<HubSeat, Fail>
    requires { IsSeatOf hub.now seat }
    ensures { IfOk result (λ seat. IsSeatOf hub.now seat) }
{
    let request = Event::Request {
        conn,
        frame: frame_of(rt, alloc, frame)?,
        word: [7; 8],
    };
    submit(rt, alloc, hub, seat, &request, StepAnswer::Done, b"")
}

// Submits frame by frame.
fn ask_all<R: Wait + Abort>(
    rt: &R,
    alloc: Global,
    hub: &Hub,
    mut seat: HubSeat,
    conn: u64,
    frames: &[u8],
) -> Result<HubSeat, Fail>
    requires { IsSeatOf hub.now seat }
    ensures { IfOk result (λ seat. IsSeatOf hub.now seat) }
{
    let mut at = 0;
    for _ in rt.forever() {
        if at == frames.len() {
            break;
        }
        let end = end_of_frame(frames, at)?;
        seat = ask(
            rt,
            alloc,
            hub,
            seat,
            conn,
            frames.get(at..end).ok_or("no frame")?,
        )?;
        at = end;
    }
    Ok(seat)
}

// Takes on a connection until so many replies were given, which are these.
fn take_all<R: Wait + Abort>(
    rt: &R,
    alloc: Global,
    hub: &Hub,
    mut seat: HubSeat,
    conn: u64,
    count: usize,
) -> Result<(HubSeat, Bytes), Fail>
    requires { IsSeatOf hub.now seat }
    ensures { IfOk result (λ r. IsSeatOf hub.now r.0) }
{
    let mut replies = Bytes::new(alloc);
    let mut taken = 0usize;
    for _ in rt.forever() {
        if taken == count {
            break;
        }
        let (next, answer) = hub.submit(rt, seat, &Event::Take { conn }, &mut replies);
        seat = next;
        if answer? == StepAnswer::Reply {
            taken = taken.saturating_add(1);
        }
    }
    Ok((seat, replies))
}

// These are the replies.
fn expect(rt: &impl Abort, replies: &Bytes, wanted: &[u8]) {
    assert_eq!(rt; replies.as_slice(), wanted);
}

// Half a seat writes a key, and the seat that joins both halves reads it.
fn join_and_read<R: Wait + Abort>(
    rt: &R,
    alloc: Global,
    hub: &Hub,
    seat: HubSeat,
) -> Result<(), Fail>
    requires { IsSeatOf hub.now seat }
{
    let (one, other) = hub.split(seat);
    let one = ask_all(rt, alloc, hub, one, 0, ADD_KEY)?;
    let (one, replies) = take_all(rt, alloc, hub, one, 0, 5)?;
    expect(rt, &replies, KEY_ADDED);
    let both = hub.join(other, one);
    let both = ask_all(rt, alloc, hub, both, 1, READ_KEYS)?;
    let (both, replies) = take_all(rt, alloc, hub, both, 1, 5)?;
    expect(rt, &replies, KEYS_READ);
    let again = Event::Take { conn: 1 };
    submit(rt, alloc, hub, both, &again, StepAnswer::NoReply, b"")?;
    Ok(())
}

#[test]
fn a_joined_seat_goes_on_from_both(rt: HostRuntime) -> Result<(), Fail> {
    let alloc = rt.alloc();
    let (hub, seat) = new_hub(alloc)?;
    join_and_read(&rt, alloc, &hub, seat)
}

// Serves a batch, which comes to this and puts these bytes out.
fn exchange<R: Wait + Abort>(
    rt: &R,
    alloc: Global,
    hub: &Hub,
    seat: HubSeat,
    conn: u64,
    frames: &[u8],
    words: &[[u8; 8]],
    wanted: Exchanged,
    replies: &[u8],
) -> HubSeat
    requires { IsSeatOf hub.now seat }
    ensures { IsSeatOf hub.now result }
{
    let mut out = Bytes::new(alloc);
    let (seat, exchanged) = hub.exchange(rt, alloc, seat, conn, frames, words, &mut out);
    assert_eq!(rt; exchanged, wanted);
    assert_eq!(rt; out.as_slice(), replies);
    seat
}

// Takes what waits on a connection: so many replies, which are these bytes.
fn collect<R: Wait + Abort>(
    rt: &R,
    alloc: Global,
    hub: &Hub,
    seat: HubSeat,
    conn: u64,
    most: usize,
    wanted: (u64, TakesEnd),
    replies: &[u8],
) -> HubSeat
    requires { IsSeatOf hub.now seat }
    ensures { IsSeatOf hub.now result }
{
    let mut out = Bytes::new(alloc);
    let (seat, taken, end) = hub.collect(rt, seat, conn, most, &mut out);
    assert_eq!(rt; (taken, end), wanted);
    assert_eq!(rt; out.as_slice(), replies);
    seat
}

/// A batch of this many frames is answered whole.
const fn all(frames: usize) -> Exchanged {
    Exchanged {
        entered: frames,
        taken: frames as u64,
        end: TakesEnd::NoneLeft,
    }
}

// Batches: one whole, one with a word too many; replies that wait are taken, up to a limit; then the agent stops.
fn serve_batches<R: Wait + Abort>(
    rt: &R,
    alloc: Global,
    hub: &Hub,
    seat: HubSeat,
) -> Result<(), Fail>
    requires { IsSeatOf hub.now seat }
{
    let words = [[7_u8; 8]; 5];
    let seat = exchange(rt, alloc, hub, seat, 0, ADD_KEY, &words, all(5), KEY_ADDED);
    let short = Exchanged {
        entered: 1,
        taken: 1,
        end: TakesEnd::Left,
    };
    let seat = exchange(
        rt,
        alloc,
        hub,
        seat,
        1,
        BAD_SIZE,
        &words[..2],
        short,
        AGREED,
    );
    let seat = collect(rt, alloc, hub, seat, 1, 1, (0, TakesEnd::NoneLeft), b"");
    let seat = ask_all(rt, alloc, hub, seat, 2, VERSION)?;
    let seat = collect(rt, alloc, hub, seat, 2, 0, (0, TakesEnd::Left), b"");
    let seat = collect(rt, alloc, hub, seat, 2, 1, (1, TakesEnd::Left), AGREED);
    let seat = exchange(
        rt,
        alloc,
        hub,
        seat,
        3,
        READ_KEYS,
        &words,
        all(5),
        KEYS_READ,
    );
    let seat = submit(rt, alloc, hub, seat, &Event::Stop, StepAnswer::Done, b"")?;
    let ended = Exchanged {
        entered: 1,
        taken: 0,
        end: TakesEnd::Stopped,
    };
    let seat = exchange(rt, alloc, hub, seat, 3, VERSION, &words[..1], ended, b"");
    collect(rt, alloc, hub, seat, 3, 1, (0, TakesEnd::Stopped), b"");
    Ok(())
}

#[test]
fn batches_are_served_in_one_turn(rt: HostRuntime) -> Result<(), Fail> {
    let alloc = rt.alloc();
    let (hub, seat) = new_hub(alloc)?;
    serve_batches(&rt, alloc, &hub, seat)
}

// Serves the questions of a hub by a dialer that answers this.
fn ask_server<R: Wait>(
    rt: &R,
    alloc: Global,
    hub: &Hub,
    seat: HubSeat,
) -> Result<(AsksEnd, MemDialer), Fail>
    requires { IsSeatOf hub.now seat }
{
    let mut answers = Vec::new(alloc);
    answers.push(Bytes::from_slice(alloc, &[5; 65])?)?;
    let mut dialer = MemDialer::new(alloc, answers, Vec::new(alloc));
    let (_, end) = serve_asks(rt, alloc, hub, seat, &mut dialer);
    Ok((end, dialer))
}

// Logs in on connection 0 up to the reply that comes of the answer to its question; then the agent stops.
fn log_in<R: Wait + Abort>(rt: &R, alloc: Global, hub: &Hub, seat: HubSeat) -> Result<Bytes, Fail>
    requires { IsSeatOf hub.now seat }
{
    let seat = ask_all(rt, alloc, hub, seat, 0, LOG_IN)?;
    let (seat, replies) = take_all(rt, alloc, hub, seat, 0, 13)?;
    submit(rt, alloc, hub, seat, &Event::Stop, StepAnswer::Done, b"")?;
    Ok(replies)
}

// One question was asked, and its answer told.
fn expect_answer(
    rt: &impl Abort,
    asked: Result<(AsksEnd, MemDialer), Fail>,
    replies: Result<Bytes, Fail>,
) -> Result<(), Fail> {
    let Ok((end, dialer)) = asked else {
        panic!(rt; "memory is short")
    };
    let replies = replies?;
    assert_eq!(rt; end, AsksEnd::Stopped);
    let made = dialer.made().ok_or("untold")?;
    assert_eq!(rt; made.len(), 1);
    assert!(rt; matches!(made[0], Made::Exchange { conv: 0, .. }));
    expect(rt, &replies, LOGGED_IN);
    Ok(())
}

#[test]
fn a_question_is_asked_and_its_answer_told(rt: HostRuntime) -> Result<(), Fail> {
    let alloc = rt.alloc();
    let (hub, seat) = new_hub(alloc)?;
    let (one, other) = hub.split(seat);
    let (asked, replies) = join(
        &rt,
        || ask_server(&rt, alloc, &hub, one),
        || log_in(&rt, alloc, &hub, other),
    );
    expect_answer(&rt, asked, replies)
}
