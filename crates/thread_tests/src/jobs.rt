// Served connections and answered questions in memory.
ghost use Rattle.std.specs.Prelude.{IfOk};
ghost use Rattle.nine.specs.Decoding.{IsFrame};
ghost use Rattle.agent_hub.specs.Submits.{IsSeatOf};
ghost use Rattle.agent_serving.specs.Jobs.{seat_of};

use agent_core::Agent;
use agent_history::{Event, StepAnswer};
use agent_hub::{AsksEnd, Hub, HubSeat};
use agent_lines::LineEnd;
use agent_serving::{Job, JobEnd, PromptsEnd, ServeEnd, Tells, keep_prompting, run_job, serve};
use attr_tuples::Tuple;
use prompters::{Chain, Deny, Limited, Prompter};
use std::alloc::Global;
use std::process::Abort;
use std::sync::Wait;
use std::test::Fail;
use std::thread::join;
use std::time::Clock;
use wire_base::{Bytes, get_u32};
use wire_streams::{AtOnce, MemDialer, MemListener, MemSink, MemSource, MemSpawner, MemWords};

type ServedJob = Job<MemSource, MemSink>;

static VERSION: &[u8] = b"\x13\x00\x00\x00d\xff\xff\x18\x20\x00\x00\x06\x009P2000";

// A challenge of RFC 1939, section 7, which a client of APOP answers by a key.
static CHALLENGE: &[u8] = b"write <1896.697170952@dbc.mtview.ca.us>";

// A line of ctl that adds a key which is used by consent alone, and the start of a client that uses it.
static KEY: &[u8] = b"key proto=apop user=ann !password=b confirm";

static START: &[u8] = b"start proto=apop role=client user=ann";

// The beginning of another such line, and the start of a client that uses its key.
static LONG_KEY: &[u8] = b"key proto=apop user=bob !password=b confirm x=";

static LONG_START: &[u8] = b"start proto=apop role=client user=bob";

// As many bytes as a write of ctl may have.
const MOST_WRITTEN: usize = 8192;

// A hub without keys and connections.
fn new_hub(alloc: Global) -> Result<(Hub, HubSeat), Fail>
    ensures { IfOk result (λ made. IsSeatOf made.0 made.1) }
{
    Ok(Hub::new(alloc, Agent::new(alloc)?)?)
}

// A chain that says yes to so many questions, and no to all others.
fn consenting(alloc: Global, left: u32) -> Result<Chain, Fail> {
    let template = Tuple::new(alloc);
    let mut list: Vec<Box<dyn Prompter + Send>> = Vec::new(alloc);
    list.push(Box::new(alloc, Limited { template, left })?)?;
    list.push(Box::new(alloc, Deny)?)?;
    Ok(Chain::new(list))
}

// A chain of nobody.
fn nobody(alloc: Global) -> Chain {
    Chain::new(Vec::new(alloc))
}

// A frame of this type and tag with these fields.
fn frame_of(rt: &impl Abort, alloc: Global, kind: u8, tag: u8, fields: &[u8]) -> Result<Bytes, Fail>
    ensures { IfOk result (λ frame. IsFrame frame) }
{
    if fields.len() > MOST_WRITTEN + 16 {
        return Err("too long".into());
    }
    let size = 7_u32.saturating_add(fields.len() as u32);
    let mut frame = Bytes::new(alloc);
    frame.append(&size.to_le_bytes())?;
    frame.append(&[kind, tag, 0])?;
    frame.append(fields)?;
    let read = get_u32(frame.as_slice(), 0).ok_or("no size")?;
    assert!(rt; read >= 7 && read as usize == frame.len(), "no frame");
    Ok(frame)
}

// Makes a request of connection 0, and waits for its reply.
fn exchange<R: Wait + Abort>(
    rt: &R,
    alloc: Global,
    hub: &Hub,
    seat: HubSeat,
    frame: Bytes,
) -> Result<(HubSeat, Bytes), Fail>
    requires seat { IsSeatOf hub.now seat }
    requires whole { IsFrame frame }
    ensures { IfOk result (λ r. IsSeatOf hub.now r.0) }
{
    let mut reply = Bytes::new(alloc);
    let request = Event::Request {
        conn: 0,
        frame,
        word: [7; 8],
    };
    let (mut seat, asked) = hub.submit(rt, seat, &request, &mut reply);
    assert_eq!(rt; asked?, StepAnswer::Done);
    for _ in rt.forever() {
        let rung = hub.count_replies(0);
        let (next, taken) = hub.submit(rt, seat, &Event::Take { conn: 0 }, &mut reply);
        seat = next;
        if taken? == StepAnswer::Reply {
            break;
        }
        hub.sleep_for_replies(rt, 0, rung);
    }
    Ok((seat, reply))
}

// The type of a reply.
fn kind_of(reply: &[u8]) -> u8 {
    match reply.get(4) {
        Some(kind) => *kind,
        None => 0,
    }
}

// A write of a fid.
fn write<R: Wait + Abort>(
    rt: &R,
    alloc: Global,
    hub: &Hub,
    seat: HubSeat,
    fid: u8,
    text: &[u8],
) -> Result<HubSeat, Fail>
    requires { IsSeatOf hub.now seat }
    ensures { IfOk result (λ seat. IsSeatOf hub.now seat) }
{
    let mut fields = Bytes::from_slice(alloc, &[fid, 0, 0, 0, 0, 0, 0, 0, 0, 0, 0, 0])?;
    if text.len() > MOST_WRITTEN {
        return Err("too long".into());
    }
    fields.append(&(text.len() as u32).to_le_bytes())?;
    fields.append(text)?;
    let frame = frame_of(rt, alloc, 118, 1, fields.as_slice())?;
    let (seat, reply) = exchange(rt, alloc, hub, seat, frame)?;
    assert_eq!(rt; kind_of(reply.as_slice()), 119);
    Ok(seat)
}

// What a request of a conversation is answered.
fn ask<R: Wait + Abort>(
    rt: &R,
    alloc: Global,
    hub: &Hub,
    seat: HubSeat,
    fid: u8,
    text: &[u8],
) -> Result<(HubSeat, Bytes), Fail>
    requires { IsSeatOf hub.now seat }
    ensures { IfOk result (λ r. IsSeatOf hub.now r.0) }
{
    let seat = write(rt, alloc, hub, seat, fid, text)?;
    let fields = [fid, 0, 0, 0, 0, 0, 0, 0, 0, 0, 0, 0, 0, 16, 0, 0];
    let frame = frame_of(rt, alloc, 116, 1, &fields)?;
    exchange(rt, alloc, hub, seat, frame)
}

// Starts a client on a fid of its own.
fn start<R: Wait + Abort>(
    rt: &R,
    alloc: Global,
    hub: &Hub,
    seat: HubSeat,
    fid: u8,
    line: &[u8],
) -> Result<HubSeat, Fail>
    requires { IsSeatOf hub.now seat }
    ensures { IfOk result (λ seat. IsSeatOf hub.now seat) }
{
    let seat = open(rt, alloc, hub, seat, fid, b"rpc")?;
    let (seat, reply) = ask(rt, alloc, hub, seat, fid, line)?;
    assert!(rt; reply.as_slice().ends_with(b"ok"));
    Ok(seat)
}

// The reply to an open of a file by connection 0.
fn try_open<R: Wait + Abort>(
    rt: &R,
    alloc: Global,
    hub: &Hub,
    seat: HubSeat,
    fid: u8,
    name: &[u8],
) -> Result<(HubSeat, Bytes), Fail>
    requires { IsSeatOf hub.now seat }
    ensures { IfOk result (λ r. IsSeatOf hub.now r.0) }
{
    let mut fields = Bytes::from_slice(alloc, &[0, 0, 0, 0, fid, 0, 0, 0, 2, 0, 8, 0])?;
    if name.len() > 28 {
        return Err("too long".into());
    }
    fields.append(b"factotum")?;
    fields.append(&[name.len() as u8, 0])?;
    fields.append(name)?;
    let walk = frame_of(rt, alloc, 110, 1, fields.as_slice())?;
    let (seat, reply) = exchange(rt, alloc, hub, seat, walk)?;
    assert_eq!(rt; kind_of(reply.as_slice()), 111);
    let frame = frame_of(rt, alloc, 112, 1, &[fid, 0, 0, 0, 2])?;
    exchange(rt, alloc, hub, seat, frame)
}

// Opens a file of connection 0.
fn open<R: Wait + Abort>(
    rt: &R,
    alloc: Global,
    hub: &Hub,
    seat: HubSeat,
    fid: u8,
    name: &[u8],
) -> Result<HubSeat, Fail>
    requires { IsSeatOf hub.now seat }
    ensures { IfOk result (λ seat. IsSeatOf hub.now seat) }
{
    let (seat, reply) = try_open(rt, alloc, hub, seat, fid, name)?;
    assert_eq!(rt; kind_of(reply.as_slice()), 113);
    Ok(seat)
}

// Begins connection 0.
fn begin<R: Wait + Abort>(rt: &R, alloc: Global, hub: &Hub, seat: HubSeat) -> Result<HubSeat, Fail>
    requires { IsSeatOf hub.now seat }
    ensures { IfOk result (λ seat. IsSeatOf hub.now seat) }
{
    let version = frame_of(rt, alloc, 100, 0, b"\x18\x20\x00\x00\x06\x009P2000")?;
    let (seat, _) = exchange(rt, alloc, hub, seat, version)?;
    let attach = b"\x00\x00\x00\x00\xff\xff\xff\xff\x03\x00ann\x00\x00";
    let (seat, _) = exchange(rt, alloc, hub, seat, frame_of(rt, alloc, 104, 1, attach)?)?;
    Ok(seat)
}

// Begins connection 0, and writes a line to ctl.
fn add_key<R: Wait + Abort>(
    rt: &R,
    alloc: Global,
    hub: &Hub,
    seat: HubSeat,
    line: &[u8],
) -> Result<HubSeat, Fail>
    requires { IsSeatOf hub.now seat }
    ensures { IfOk result (λ seat. IsSeatOf hub.now seat) }
{
    let seat = begin(rt, alloc, hub, seat)?;
    let seat = open(rt, alloc, hub, seat, 1, b"ctl")?;
    write(rt, alloc, hub, seat, 1, line)
}

// Has a client use the key until that is consented to: it is refused for as long as nobody has confirm open.
fn use_until_ok<R: Wait + Abort>(
    rt: &R,
    alloc: Global,
    hub: &Hub,
    mut seat: HubSeat,
) -> Result<HubSeat, Fail>
    requires { IsSeatOf hub.now seat }
    ensures { IfOk result (λ seat. IsSeatOf hub.now seat) }
{
    for _ in rt.forever() {
        let (next, reply) = ask(rt, alloc, hub, seat, 2, CHALLENGE)?;
        seat = next;
        if reply.as_slice().ends_with(b"ok") {
            break;
        }
        assert!(rt; reply.as_slice().ends_with(b"error confirmation denied"));
    }
    Ok(seat)
}

// Stops the agent.
fn stop<R: Wait + Abort>(rt: &R, alloc: Global, hub: &Hub, seat: HubSeat) -> Result<(), Fail>
    requires { IsSeatOf hub.now seat }
{
    let mut nothing = Bytes::new(alloc);
    let (_, stopped) = hub.submit(rt, seat, &Event::Stop, &mut nothing);
    assert_eq!(rt; stopped?, StepAnswer::Done);
    Ok(())
}

// Uses the key twice; then the agent stops.
fn use_key<R: Wait + Abort>(rt: &R, alloc: Global, hub: &Hub, seat: HubSeat) -> Result<Bytes, Fail>
    requires { IsSeatOf hub.now seat }
{
    let seat = add_key(rt, alloc, hub, seat, KEY)?;
    let seat = start(rt, alloc, hub, seat, 2, START)?;
    let seat = start(rt, alloc, hub, seat, 3, START)?;
    let seat = use_until_ok(rt, alloc, hub, seat)?;
    let (seat, reply) = ask(rt, alloc, hub, seat, 3, CHALLENGE)?;
    stop(rt, alloc, hub, seat)?;
    Ok(reply)
}

// Answers a user's questions, of which one is consented to.
fn answer<R: Wait>(rt: &R, alloc: Global, hub: &Hub, seat: HubSeat) -> Result<(JobEnd, usize), Fail>
    requires { IsSeatOf hub.now seat }
{
    let mut chain = consenting(alloc, 1)?;
    let job: ServedJob = Job::Prompts { seat, conn: 9 };
    let mut dialer = MemDialer::new(alloc, Vec::new(alloc), Vec::new(alloc));
    let mut words = MemWords::new(Vec::new(alloc), Vec::new(alloc));
    let (_, end) = run_job(
        rt,
        alloc,
        hub,
        job,
        &mut dialer,
        &mut words,
        &mut chain,
        &mut AtOnce,
    );
    Ok((end, chain.len()))
}

#[test]
fn one_question_is_consented_to_and_the_next_is_not(rt: HostRuntime) -> Result<(), Fail> {
    let alloc = rt.alloc();
    let (hub, seat) = new_hub(alloc)?;
    let (one, other) = hub.split(seat);
    let (answered, used) = join(
        &rt,
        || answer(&rt, alloc, &hub, one),
        || use_key(&rt, alloc, &hub, other),
    );
    let Ok((end, left)) = answered else {
        panic!(rt; "memory is short")
    };
    let reply = used?;
    assert_eq!(rt; end, JobEnd::Prompts(PromptsEnd::Gone));
    assert_eq!(rt; left, 1);
    assert!(rt; reply.as_slice().ends_with(b"error confirmation denied"));
    Ok(())
}

#[test]
fn a_file_that_another_client_has_open_is_in_use(rt: HostRuntime) -> Result<(), Fail> {
    let alloc = rt.alloc();
    let (hub, seat) = new_hub(alloc)?;
    let seat = begin(&rt, alloc, &hub, seat)?;
    let seat = open(&rt, alloc, &hub, seat, 1, b"confirm")?;
    let (end, _) = answer(&rt, alloc, &hub, seat)?;
    assert_eq!(rt; end, JobEnd::Prompts(PromptsEnd::InUse));
    Ok(())
}

// What prompters ended with.
#[derive(Drop)]
struct MemEnds {
    told: Vec<PromptsEnd>,
}

impl Tells for MemEnds {
    ghost use Rattle.std.specs.Prelude.{None};

    ghost told = { λ _. None };

    fn tell(&mut self, end: PromptsEnd) {
        let _ = self.told.push(end);
    }
}

// Answers a user's questions, of which two are consented to, until the agent stops.
fn keep_answering<R: Wait + Clock>(
    rt: &R,
    alloc: Global,
    hub: &Hub,
    seat: HubSeat,
) -> Result<MemEnds, Fail>
    requires { IsSeatOf hub.now seat }
{
    let mut chain = consenting(alloc, 2)?;
    let mut ends = MemEnds {
        told: Vec::new(alloc),
    };
    keep_prompting(rt, alloc, hub, seat, 9, &mut chain, &mut ends);
    Ok(ends)
}

// Uses a key whose question is longer than a read may be, between two uses of one whose question isn't; then the agent stops.
// What the first use and an open of confirm are told behind it, and what the last use is.
fn use_long_key<R: Wait + Abort>(
    rt: &R,
    alloc: Global,
    hub: &Hub,
    seat: HubSeat,
) -> Result<(Bytes, Bytes, Bytes), Fail>
    requires { IsSeatOf hub.now seat }
{
    let mut line = LONG_KEY.to_vec(alloc)?;
    line.resize(MOST_WRITTEN, b'x')?;
    let seat = add_key(rt, alloc, hub, seat, KEY)?;
    let seat = write(rt, alloc, hub, seat, 1, line.as_slice())?;
    let seat = start(rt, alloc, hub, seat, 2, START)?;
    let seat = start(rt, alloc, hub, seat, 3, LONG_START)?;
    let seat = start(rt, alloc, hub, seat, 4, START)?;
    let seat = use_until_ok(rt, alloc, hub, seat)?;
    let (seat, denied) = ask(rt, alloc, hub, seat, 3, CHALLENGE)?;
    let (seat, held) = try_open(rt, alloc, hub, seat, 5, b"confirm")?;
    let (seat, used) = ask(rt, alloc, hub, seat, 4, CHALLENGE)?;
    stop(rt, alloc, hub, seat)?;
    Ok((denied, held, used))
}

#[test]
fn a_question_longer_than_a_read_is_denied_and_the_files_stay_held(
    rt: HostRuntime,
) -> Result<(), Fail> {
    let alloc = rt.alloc();
    let (hub, seat) = new_hub(alloc)?;
    let (one, other) = hub.split(seat);
    let (answered, used) = join(
        &rt,
        || keep_answering(&rt, alloc, &hub, one),
        || use_long_key(&rt, alloc, &hub, other),
    );
    let Ok(ends) = answered else {
        panic!(rt; "memory is short")
    };
    let (denied, held, used) = used?;
    let ends = &ends;
    assert!(rt; ends.told.as_slice() == [PromptsEnd::TooLong, PromptsEnd::Gone].as_slice());
    assert!(rt; denied.as_slice().ends_with(b"error confirmation denied"));
    assert!(rt;
        held.as_slice()
            .ends_with(b"exclusive use file already open")
    );
    assert!(rt; used.as_slice().ends_with(b"ok"));
    Ok(())
}

// Does a job without prompters, whose end is this.
fn expect_end<R: Wait + Abort>(
    rt: &R,
    alloc: Global,
    hub: &Hub,
    job: ServedJob,
    wanted: JobEnd,
) -> Result<HubSeat, Fail>
    requires { IsSeatOf hub.now (seat_of job) }
    ensures { IfOk result (λ seat. IsSeatOf hub.now seat) }
{
    let mut dialer = MemDialer::new(alloc, Vec::new(alloc), Vec::new(alloc));
    let words = vec![in alloc; [7_u8; 8]; 4]?;
    let mut words = MemWords::new(words, Vec::new(alloc));
    let mut chain = nobody(alloc);
    let (seat, end) = run_job(
        rt,
        alloc,
        hub,
        job,
        &mut dialer,
        &mut words,
        &mut chain,
        &mut AtOnce,
    );
    assert_eq!(rt; end, wanted);
    Ok(seat)
}

#[test]
fn each_job_does_what_it_names(rt: HostRuntime) -> Result<(), Fail> {
    let alloc = rt.alloc();
    let (hub, seat) = new_hub(alloc)?;
    let line = Job::Line {
        seat,
        conn: 0,
        source: MemSource::new(VERSION.to_vec(alloc)?, Vec::new(alloc)),
        sink: MemSink::new(Vec::new(alloc), Vec::new(alloc)),
    };
    let seat = expect_end(&rt, alloc, &hub, line, JobEnd::Line(LineEnd::End))?;
    let prompts = Job::Prompts { seat, conn: 1 };
    let idle = JobEnd::Prompts(PromptsEnd::Idle);
    let seat = expect_end(&rt, alloc, &hub, prompts, idle)?;
    let mut nothing = Bytes::new(alloc);
    let (seat, stopped) = hub.submit(&rt, seat, &Event::Stop, &mut nothing);
    assert_eq!(rt; stopped?, StepAnswer::Done);
    let asks = Job::Asks { seat };
    expect_end(&rt, alloc, &hub, asks, JobEnd::Asks(AsksEnd::Stopped))?;
    Ok(())
}

// The name of a job's kind, and its connection.
fn name_of(job: &ServedJob) -> (&'static str, u64) {
    match job {
        Job::Line { conn, .. } => ("line", *conn),
        Job::Asks { .. } => ("asks", 0),
        Job::Prompts { conn, .. } => ("prompts", *conn),
    }
}

// The fifth job finds no thread: that of the second connection, which is hung up.
#[test]
fn each_connection_is_a_job_or_hung_up(rt: HostRuntime) -> Result<(), Fail> {
    let alloc = rt.alloc();
    let (hub, seat) = new_hub(alloc)?;
    let mut pairs = Vec::new(alloc);
    for _ in 0..3 {
        let source = MemSource::new(Vec::new(alloc), Vec::new(alloc));
        let sink = MemSink::new(Vec::new(alloc), Vec::new(alloc));
        pairs.push((source, sink))?;
    }
    let mut listener = MemListener::new(pairs, Vec::new(alloc));
    let jobs: Vec<ServedJob> = Vec::new(alloc);
    let mut spawner = MemSpawner::new(jobs, [5].to_vec(alloc)?);
    let (_, end) = serve(&rt, alloc, &hub, seat, 2, &mut listener, &mut spawner);
    assert_eq!(rt; end, ServeEnd::ListenFault);
    let wanted = [
        ("asks", 0),
        ("asks", 0),
        ("prompts", u64::MAX),
        ("line", 0),
        ("line", 2),
    ];
    let taken = spawner.content();
    assert_eq!(rt; taken.len(), wanted.len());
    for (job, want) in taken.iter().zip(wanted.iter()) {
        assert_eq!(rt; name_of(job), *want);
    }
    Ok(())
}
