// An agent that is served, beside an authentication server that holds its answer to one connection until the other one's
// read of ctl was answered.
ghost use Rattle.std.specs.Prelude.{◌≡◌, ◌≢◌, ◌≤◌, ◌<◌, length};
ghost use Rattle.wire_streams.specs.Dials.{IsAnswer};

mod frames;

use agent_core::Agent;
use agent_hub::Hub;
use agent_serving::{Again, HubSpawner, ServeEnd, Tools, serve};
use auth_server::{AuthCore, Session};
use auth_tables::{parse_keys, parse_speaks};
use frames::{LOG_IN, READ_KEYS};
use sockets::{ThreadSpawner, Unstarted};
use std::alloc::Global;
use std::os::fd::RawFd;
use std::sync::Arc;
use std::sync::atomic::{AtomicU64, Ordering};
use std::test::Fail;
use wire_base::{Bytes, Shape, Text, get_u32};
use wire_streams::{
    Dial, Dialer, Got, ListenFault, Listener, MemListener, MemWords, Offer, Offers, Put, Sink,
    Source, SteadySink, SteadySource, Watched,
};

/// The users of the authentication server.
const KEYS: &[u8; 43] = b"user=ann !password=a\nuser=srv !password=b\n\n";

/// How many requests each connection makes.
const LOG_IN_REQUESTS: u64 = 13;

const READ_REQUESTS: u64 = 5;

/// What the objects of all threads tell each other.
#[derive(Drop)]
struct Flags {
    /// How many replies connection 0 was written, and connection 1.
    first: AtomicU64,
    second: AtomicU64,
    /// Whether the last reply to connection 0 ends with `ok`.
    agreed: AtomicU64,
    /// How often the authentication server answered nothing, since the other connection wasn't answered.
    failed: AtomicU64,
}

// Waits until a flag is so high, for at most 2^30 loads. Whether it came to that.
fn wait_for(flag: &AtomicU64, count: u64) -> bool {
    for _ in 0..1_u64 << 30 {
        if flag.load(Ordering::SeqCst) >= count {
            return true;
        }
    }
    false
}

/// What a client sends. It ends once all of its requests were answered.
#[derive(Drop)]
struct Requests {
    inner: SteadySource,
    flags: Arc<Flags, Global>,
    is_first: bool,
}

impl Source for Requests {
    ghost use Rattle.std.specs.Prelude.{Some};
    ghost use Rattle.wire_streams.specs.Steady.{unread_bytes};
    ghost use Rattle.wire_streams.specs.Causes.{CountsOutcome};
    ghost use Rattle.wire_streams.specs.Streams.{Reads, read_failed};

    ghost left = { λ source. Some (unread_bytes source.inner) };

    ghost faults = { λ _. 0 };

    fn read(&mut self, out: &mut [u8]) -> Got
        requires { 0 < length out.old }
        ensures bytes { Reads (Some (unread_bytes self.old.inner))
            (Some (unread_bytes self.new.inner)) result out.new }
        ensures counted { 0 ≤ 0 }
        ensures exact { CountsOutcome 0 0 (read_failed result) }
    {
        let got = self.inner.read(out);
        if got == Got::End {
            let _answered = if self.is_first {
                wait_for(&self.flags.first, LOG_IN_REQUESTS)
            } else {
                wait_for(&self.flags.second, READ_REQUESTS)
            };
        }
        got
    }
}

// How many frames stand one behind the other.
fn count_frames(frames: &[u8]) -> u64 {
    let mut at = 0_usize;
    let mut count = 0_u64;
    for _ in 0..frames.len() {
        match get_u32(frames, at) {
            Some(size) => {
                at = at.saturating_add(size as usize);
                count = count.saturating_add(1);
            }
            None => return count,
        }
    }
    count
}

impl Watched for Requests {
    fn descriptor(&self) -> Option<RawFd> {
        None
    }
}

/// What a client is sent.
#[derive(Drop)]
struct Replies {
    inner: SteadySink,
    flags: Arc<Flags, Global>,
    is_first: bool,
}

impl Sink for Replies {
    ghost use Rattle.wire_streams.specs.Steady.{held_bytes};
    ghost use Rattle.wire_streams.specs.Causes.{CountsOutcome};
    ghost use Rattle.wire_streams.specs.Streams.{Writes, write_failed};

    ghost holds = { λ sink. held_bytes sink.inner };

    ghost faults = { λ _. 0 };

    fn write(&mut self, piece: &[u8]) -> Put
        requires { 0 < length piece.now }
        ensures bytes { Writes (held_bytes self.old.inner) (held_bytes self.new.inner) result
            piece.now }
        ensures counted { 0 ≤ 0 }
        ensures exact { CountsOutcome 0 0 (write_failed result) }
    {
        let put = self.inner.write(piece);
        let count = count_frames(piece);
        if self.is_first {
            let agreed = u64::from(piece.ends_with(b"ok"));
            self.flags.agreed.store(agreed, Ordering::SeqCst);
            self.flags.first.fetch_add(count, Ordering::SeqCst);
        } else {
            self.flags.second.fetch_add(count, Ordering::SeqCst);
        }
        put
    }
}

impl Offers for Replies {
    fn offer(&mut self, piece: &[u8]) -> Offer {
        match self.write(piece) {
            Put::Took(count) => Offer::Took(count),
            Put::Failed => Offer::Failed,
        }
    }
}

/// Two connections. The third time accepting waits for the replies of both, and fails.
#[derive(Drop)]
struct Two {
    inner: MemListener<Requests, Replies>,
    flags: Arc<Flags, Global>,
}

impl Listener for Two {
    ghost use Rattle.std.specs.Prelude.{Some};
    ghost use Rattle.std.specs.Result.{is_err};
    ghost use Rattle.wire_streams.specs.Listening.{Accepts};
    ghost use Rattle.wire_streams.specs.ListenerMemory.{listener_plan, pairs_left};
    ghost use Rattle.wire_streams.specs.Causes.{CountsOutcome};
    ghost use Rattle.wire_streams.specs.Memory.{faults_of};

    type In = Requests;

    type Out = Replies;

    ghost to_come = { λ listener. Some (pairs_left listener.inner) };

    ghost faults = { λ listener. faults_of (listener_plan listener.inner) };

    fn accept(&mut self) -> Result<(Requests, Replies), ListenFault>
        ensures accepted { Accepts (Some (pairs_left self.old.inner))
            (Some (pairs_left self.new.inner)) result }
        ensures counted { faults_of (listener_plan self.old.inner)
            ≤ faults_of (listener_plan self.new.inner) }
        ensures exact { CountsOutcome (faults_of (listener_plan self.old.inner))
            (faults_of (listener_plan self.new.inner)) (is_err result) }
    {
        let accepted = self.inner.accept();
        if accepted.is_err() {
            let _first = wait_for(&self.flags.first, LOG_IN_REQUESTS);
            let _second = wait_for(&self.flags.second, READ_REQUESTS);
        }
        accepted
    }
}

/// The authentication server.
#[derive(Drop)]
struct Held {
    alloc: Global,
    core: Option<AuthCore>,
    flags: Arc<Flags, Global>,
    faults: u64,
}

impl Held {
    // Its answer to a request for tickets, once the other connection was answered.
    fn answer(&self, request: &[u8]) -> Option<Bytes> {
        if !wait_for(&self.flags.second, READ_REQUESTS) {
            self.flags.failed.fetch_add(1, Ordering::SeqCst);
            return None;
        }
        let Some(core) = &self.core else {
            return None;
        };
        let mut session = Session::new();
        let mut answer = Bytes::new(self.alloc);
        if request.len() != 141 || core.need(&session, request[0]) != Some(141) {
            return None;
        }
        match core.step(&mut session, request, &[[7; 8]; 3], &mut answer) {
            Ok(_) => Some(answer),
            Err(_) => None,
        }
    }
}

impl Dialer for Held {
    ghost use Rattle.std.specs.Prelude.{None};
    ghost use Rattle.wire_streams.specs.Causes.{CountsOutcome};
    ghost use Rattle.wire_streams.specs.Dials.{Makes, exchanged, has_failed};
    ghost use Rattle.wire_streams.specs.declared.dialer.Made.TheVariants.{Close};

    ghost told = { λ _. None };

    ghost faults = { λ dialer. dialer.faults };

    fn exchange(&mut self, conv: u64, request: &[u8], shape: Shape, out: &mut Bytes) -> Dial
        ensures told { Makes None None (exchanged conv request.now shape result out.new) }
        ensures heard { result ≡ Dial.Heard → IsAnswer out.new }
        ensures kept { result ≢ Dial.Heard → out.new ≡ out.old }
        ensures counted { self.old.faults ≤ self.new.faults }
        ensures exact { CountsOutcome self.old.faults self.new.faults (has_failed result) }
    {
        match self.answer(request) {
            Some(answer) if answer.len() <= 160 => {
                *out = answer;
                Dial::Heard
            }
            _ => {
                self.faults = self.faults.saturating_add(1);
                Dial::Failed
            }
        }
    }

    fn close(&mut self, conv: u64)
        ensures told { Makes None None (Close conv) }
        ensures exact { self.new.faults ≡ self.old.faults }
    {}
}

/// What the tools of each job are made from.
#[derive(Drop)]
struct GateTools {
    flags: Arc<Flags, Global>,
}

impl Again for GateTools {
    fn again(&self) -> Option<Self> {
        match Arc::try_clone(&self.flags) {
            Ok(flags) => Some(GateTools { flags }),
            Err(_) => None,
        }
    }
}

// What the authentication server knows.
fn core_of(alloc: Global) -> Option<AuthCore> {
    let Ok(Some(dom)) = Text::from_slice(alloc, b"x") else {
        return None;
    };
    if !attr_tuples::is_dom(dom.as_slice()) {
        return None;
    }
    let Ok(keys) = parse_keys(alloc, KEYS) else {
        return None;
    };
    let Ok(speaks) = parse_speaks(alloc, b"") else {
        return None;
    };
    Some(AuthCore::new(dom, keys, speaks))
}

impl<R: AllocGlobal> Tools<R> for GateTools {
    type Dial = Held;

    type Rand = MemWords;

    fn tools(self, rt: &R) -> (Held, MemWords) {
        let alloc = rt.alloc();
        let words = match vec![in alloc; [7_u8; 8]; 16] {
            Ok(words) => words,
            Err(_) => Vec::new(alloc),
        };
        let dialer = Held {
            alloc,
            core: core_of(alloc),
            flags: self.flags,
            faults: 0,
        };
        (dialer, MemWords::new(words, Vec::new(alloc)))
    }

    fn consents(&self) -> u32 {
        0
    }
}

// A connection, and what it is answered.
fn connection(
    alloc: Global,
    flags: &Arc<Flags, Global>,
    requests: &[u8],
    is_first: bool,
) -> Result<(Requests, Replies), Fail> {
    let source = Requests {
        inner: SteadySource::new(requests.to_vec(alloc)?),
        flags: Arc::try_clone(flags)?,
        is_first,
    };
    let sink = Replies {
        inner: SteadySink::new(alloc),
        flags: Arc::try_clone(flags)?,
        is_first,
    };
    Ok((source, sink))
}

#[test]
fn a_connection_is_answered_while_another_waits(rt: HostRuntime) -> Result<(), Fail> {
    let alloc = rt.alloc();
    let flags = Flags {
        first: AtomicU64::new(0),
        second: AtomicU64::new(0),
        agreed: AtomicU64::new(0),
        failed: AtomicU64::new(0),
    };
    let flags = Arc::new(alloc, flags)?;
    let mut pairs = Vec::new(alloc);
    pairs.push(connection(alloc, &flags, LOG_IN, true)?)?;
    pairs.push(connection(alloc, &flags, READ_KEYS, false)?)?;
    let mut listener = Two {
        inner: MemListener::new(pairs, Vec::new(alloc)),
        flags: Arc::try_clone(&flags)?,
    };
    let (hub, seat) = Hub::new(alloc, Agent::new(alloc)?)?;
    let hub = Arc::new(alloc, hub)?;
    let tools = GateTools {
        flags: Arc::try_clone(&flags)?,
    };
    let Ok(threads) = ThreadSpawner::new(rt, alloc, "tests", Unstarted::Told) else {
        return Err("no thread".into());
    };
    let mut spawner = HubSpawner::new(Arc::try_clone(&hub)?, tools, threads);
    let (_, end) = serve(&rt, alloc, &hub, seat, 1, &mut listener, &mut spawner);
    assert_eq!(rt; end, ServeEnd::ListenFault);
    assert_eq!(rt; flags.failed.load(Ordering::SeqCst), 0);
    assert_eq!(rt; flags.first.load(Ordering::SeqCst), LOG_IN_REQUESTS);
    assert_eq!(rt; flags.agreed.load(Ordering::SeqCst), 1);
    Ok(())
}
