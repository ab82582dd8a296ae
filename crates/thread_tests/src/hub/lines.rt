// Connections that are served by one job, on objects in memory.
ghost use Rattle.std.specs.Prelude.{◌≡◌, ◌<◌, ◌≤◌, None, length, IfOk};
ghost use Rattle.agent_hub.specs.Submits.{IsSeatOf};

use super::sessions::{ADD_KEY, AGREED, BAD_SIZE, KEY_ADDED, KEYS_READ, READ_KEYS, VERSION};
use super::{new_hub, submit};
use agent_history::{Event, StepAnswer};
use agent_hub::{Hub, HubSeat};
use agent_lines::{LineEnd, serve_line};
use std::alloc::Global;
use std::process::Abort;
use std::sync::Wait;
use std::test::Fail;
use wire_streams::{
    AtOnce, Got, MemSink, MemSource, MemWords, Offer, Offers, Put, Sink, Source, WordFault, Words,
};

/// As many words as a connection draws here.
const MANY: usize = 16;

/// The numbers of the calls that fail, counted from 1.
#[derive(Clone, Copy)]
struct Faults {
    read: u64,
    draw: u64,
    write: u64,
}

/// No call fails.
const NONE: Faults = Faults {
    read: 0,
    draw: 0,
    write: 0,
};

// Serves a connection, which ends so and is hung up; these are the replies that were written.
fn serve<R: Wait + Abort>(
    rt: &R,
    alloc: Global,
    hub: &Hub,
    seat: HubSeat,
    conn: u64,
    input: &[u8],
    faults: Faults,
    wanted: LineEnd,
    replies: &[u8],
) -> Result<HubSeat, Fail>
    requires { IsSeatOf hub.now seat }
    ensures { IfOk result (λ seat. IsSeatOf hub.now seat) }
{
    let mut source = MemSource::new(input.to_vec(alloc)?, [faults.read].to_vec(alloc)?);
    let mut sink = MemSink::new(Vec::new(alloc), [faults.write].to_vec(alloc)?);
    let words = vec![in alloc; [7_u8; 8]; MANY]?;
    let mut words = MemWords::new(words, [faults.draw].to_vec(alloc)?);
    let (seat, end) = serve_line(
        rt,
        alloc,
        hub,
        seat,
        conn,
        &mut source,
        &mut sink,
        &mut words,
        &mut AtOnce,
    );
    assert_eq!(rt; end, wanted);
    assert_eq!(rt; sink.content(), replies);
    submit(
        rt,
        alloc,
        hub,
        seat,
        &Event::Take { conn },
        StepAnswer::Gone,
        b"",
    )
}

// Connections that end in each way; the key that was read on the first one stays.
fn serve_all<R: Wait + Abort>(rt: &R, alloc: Global, hub: &Hub, seat: HubSeat) -> Result<(), Fail>
    requires { IsSeatOf hub.now seat }
{
    let seat = serve(
        rt,
        alloc,
        hub,
        seat,
        0,
        ADD_KEY,
        NONE,
        LineEnd::End,
        KEY_ADDED,
    )?;
    let torn = LineEnd::Torn { at: 19 };
    let seat = serve(rt, alloc, hub, seat, 1, &ADD_KEY[..30], NONE, torn, AGREED)?;
    let bad = LineEnd::BadFrame { at: 19, size: 4 };
    let seat = serve(rt, alloc, hub, seat, 2, BAD_SIZE, NONE, bad, AGREED)?;
    let read = Faults { read: 2, ..NONE };
    let seat = serve(
        rt,
        alloc,
        hub,
        seat,
        3,
        VERSION,
        read,
        LineEnd::ReadFault,
        AGREED,
    )?;
    let draw = Faults { draw: 2, ..NONE };
    let seat = serve(
        rt,
        alloc,
        hub,
        seat,
        4,
        ADD_KEY,
        draw,
        LineEnd::WordFault,
        AGREED,
    )?;
    let write = Faults { write: 1, ..NONE };
    let seat = serve(
        rt,
        alloc,
        hub,
        seat,
        5,
        VERSION,
        write,
        LineEnd::WriteFault,
        b"",
    )?;
    let seat = serve(
        rt,
        alloc,
        hub,
        seat,
        6,
        READ_KEYS,
        NONE,
        LineEnd::End,
        KEYS_READ,
    )?;
    let seat = submit(rt, alloc, hub, seat, &Event::Stop, StepAnswer::Done, b"")?;
    serve_stopped(rt, alloc, hub, seat)
}

// After a stop nothing is answered.
fn serve_stopped<R: Wait + Abort>(
    rt: &R,
    alloc: Global,
    hub: &Hub,
    seat: HubSeat,
) -> Result<(), Fail>
    requires { IsSeatOf hub.now seat }
{
    serve(
        rt,
        alloc,
        hub,
        seat,
        7,
        VERSION,
        NONE,
        LineEnd::Stopped,
        b"",
    )?;
    Ok(())
}

#[test]
fn lines_end_and_are_hung_up(rt: HostRuntime) -> Result<(), Fail> {
    let alloc = rt.alloc();
    let (hub, seat) = new_hub(alloc)?;
    serve_all(&rt, alloc, &hub, seat)
}

// So many clients, each of which has sent all before it is served.
fn serve_many<R: Wait + Abort>(
    rt: &R,
    alloc: Global,
    hub: &Hub,
    mut seat: HubSeat,
    count: u64,
) -> Result<(), Fail>
    requires { IsSeatOf hub.now seat }
{
    for conn in 0..count {
        seat = serve(
            rt,
            alloc,
            hub,
            seat,
            conn,
            VERSION,
            NONE,
            LineEnd::End,
            AGREED,
        )?;
    }
    Ok(())
}

#[test]
fn who_shuts_its_sending_half_is_answered(rt: HostRuntime) -> Result<(), Fail> {
    let alloc = rt.alloc();
    let (hub, seat) = new_hub(alloc)?;
    serve_many(&rt, alloc, &hub, seat, 200)
}

/// A client that sends one request after the other without an end.
#[derive(Drop)]
struct Flood {
    at: usize,
    given: u64,
}

impl Source for Flood {
    ghost use Rattle.std.specs.Prelude.{None};

    ghost left = { λ _. None };

    ghost faults = { λ _. 0 };

    fn read(&mut self, out: &mut [u8]) -> Got {
        for place in out.iter_mut() {
            *place = VERSION.get(self.at).copied().unwrap_or(0);
            self.at = if self.at < 18 { self.at + 1 } else { 0 };
        }
        self.given = self.given.saturating_add(out.len() as u64);
        Got::Bytes(out.len())
    }
}

/// A client that reads nothing, and hangs up after so many offers.
#[derive(Drop)]
struct Deaf {
    offers: u32,
    faults: u64,
}

impl Sink for Deaf {
    ghost use Rattle.std.specs.Prelude.{None};

    ghost holds = { λ _. None };

    ghost faults = { λ sink. sink.faults };

    fn write(&mut self, _piece: &[u8]) -> Put {
        self.faults = self.faults.saturating_add(1);
        Put::Failed
    }
}

impl Offers for Deaf {
    fn offer(&mut self, _piece: &[u8]) -> Offer {
        if self.offers > 0 {
            self.offers -= 1;
            return Offer::Full;
        }
        self.faults = self.faults.saturating_add(1);
        Offer::Failed
    }
}

/// The same word without an end.
#[derive(Drop)]
struct Same;

impl Words for Same {
    ghost use Rattle.std.specs.Prelude.{None};

    ghost to_come = { λ _. None };

    ghost faults = { λ _. 0 };

    fn word8(&mut self) -> Result<[u8; 8], WordFault> {
        Ok([7; 8])
    }
}

// Of a client that never reads no more is read than the replies to it may be kept.
fn serve_deaf<R: Wait + Abort>(rt: &R, alloc: Global, hub: &Hub, seat: HubSeat)
    requires { IsSeatOf hub.now seat }
{
    let mut source = Flood { at: 0, given: 0 };
    let mut sink = Deaf {
        offers: 20_000,
        faults: 0,
    };
    let (_, end) = serve_line(
        rt,
        alloc,
        hub,
        seat,
        0,
        &mut source,
        &mut sink,
        &mut Same,
        &mut AtOnce,
    );
    assert_eq!(rt; end, LineEnd::WriteFault);
    assert!(rt; source.given > 200_000 && source.given < 400_000);
}

#[test]
fn of_a_client_that_never_reads_little_is_kept(rt: HostRuntime) -> Result<(), Fail> {
    let alloc = rt.alloc();
    let (hub, seat) = new_hub(alloc)?;
    serve_deaf(&rt, alloc, &hub, seat);
    Ok(())
}
