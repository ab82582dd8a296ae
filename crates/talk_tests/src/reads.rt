// Reads that wait are told the lines and the answers that come.
use crate::expect::expect;
use agent_requests::Shared;
use file_tree::Node;
use key_ring::ListedRing;
use mailboxes::Read;
use std::alloc::Global;
use std::process::Abort;
use std::test::Fail;
use talks::Request;
use wire_base::{Bytes, NoMemory};

const WORD: [u8; 8] = *b"\x01#Eg\x89\xab\xcd\xef";

const SRV: &[u8] = b"key proto=p9sk1 dom=x user=srv !hex=31323334353637";

const CONFIRMED: &[u8] = b"key proto=p9sk1 dom=x user=srv confirm=yes !hex=31323334353637";

const MAIL: &[u8] = b"proto=apop role=server";

const ASKED: &[u8] =
    b"F\0\0\0u\x06\0;\0\0\0confirm tag=1 proto=p9sk1 dom=x user=srv confirm=yes !hex?\n";

const DENIED: &[u8] = b"$\0\0\0u\x05\0\x19\0\0\0error confirmation denied";

const SMALL: &[u8] = b"\x17\0\0\0k\x01\0\x0e\0read too small";

const LINE: &[u8] = b"\x1d\0\0\0u\x02\0\x12\0\0\x000 error no server\n";

const BROKEN: &[u8] = b"\x1a\0\0\0u\x03\0\x0f\0\0\0error no server";

// What is done, or seen, one behind the other.
#[derive(Clone, Copy)]
enum Step {
    /// A read of connection 1 waits: its tag, its fid, and the bytes that it may hold.
    Wait(u16, u32, u16),
    /// The request of the conversation is carried out.
    CarryOut,
    /// Fid 3 of connection 1 is given up, and the replies that were settled are sent.
    Clunk,
    /// The authentication server can't be reached for the first question.
    HearNothing,
    /// The oldest reply is this one, which is taken.
    Reply(&'static [u8]),
}

static CLOSED: [Step; 6] = [
    Step::Wait(6, 3, 8192),
    Step::CarryOut,
    Step::Wait(5, 7, 8192),
    Step::Clunk,
    Step::Reply(ASKED),
    Step::Reply(DENIED),
];

static TOLD: [Step; 8] = [
    Step::Wait(1, 3, 4),
    Step::Wait(2, 3, 8192),
    Step::CarryOut,
    Step::Wait(3, 7, 8192),
    Step::HearNothing,
    Step::Reply(SMALL),
    Step::Reply(LINE),
    Step::Reply(BROKEN),
];

fn ring_of(alloc: Global, key: &[u8]) -> Result<ListedRing, Fail> {
    let mut ring = ListedRing::new(alloc);
    if ring.write(alloc, key)?.fault.is_some() {
        return Err("no key".into());
    }
    Ok(ring)
}

// A connection opens a file by fid 3, and a conversation by fid 7, which is to be started.
fn open_both(alloc: Global, shared: &mut Shared, node: Node) -> Result<(), NoMemory> {
    shared.open(alloc, node, 1, 3)?;
    shared.open(alloc, Node::Rpc, 1, 7)?;
    shared.store(alloc, 0, Request::Start(MAIL))
}

fn wait(
    alloc: Global,
    shared: &mut Shared,
    tag: u16,
    fid: u32,
    count: u16,
) -> Result<(), NoMemory> {
    shared.mailboxes.reserve_wait(alloc, 1)?;
    shared.mailboxes.wait(1, Read { tag, fid, count });
    Ok(())
}

fn put_front(shared: &Shared, out: &mut Bytes) -> Result<(), NoMemory> {
    match shared.mailboxes.front(1) {
        Some(reply) => reply.put(out),
        None => Ok(()),
    }
}

// The oldest reply is this one.
fn check_reply(
    rt: &impl Abort,
    alloc: Global,
    shared: &mut Shared,
    wanted: &[u8],
) -> Result<(), NoMemory> {
    let mut out = Bytes::new(alloc);
    put_front(shared, &mut out)?;
    shared.mailboxes.pop(1);
    expect(rt, &out.as_slice(), &wanted);
    Ok(())
}

fn follow(rt: &impl Abort, alloc: Global, shared: &mut Shared, step: Step) -> Result<(), NoMemory> {
    match step {
        Step::Wait(tag, fid, count) => wait(alloc, shared, tag, fid, count),
        Step::CarryOut => shared.carry_out(alloc, 0, WORD),
        Step::Clunk => {
            shared.clunk(alloc, 1, 3);
            shared.mailboxes.sweep();
            Ok(())
        }
        Step::HearNothing => {
            shared.hear_nothing(alloc, 1);
            Ok(())
        }
        Step::Reply(wanted) => check_reply(rt, alloc, shared, wanted),
    }
}

fn follow_all(
    rt: &impl Abort,
    alloc: Global,
    shared: &mut Shared,
    node: Node,
    steps: &[Step],
) -> Result<(), Fail> {
    open_both(alloc, shared, node)?;
    for step in steps {
        follow(rt, alloc, shared, *step)?;
    }
    Ok(())
}

// What connections share that have this key, one of which has a file open by fid 3 and a conversation by fid 7, goes
// through these steps.
fn check(
    rt: &impl Abort,
    alloc: Global,
    key: &[u8],
    node: Node,
    steps: &[Step],
) -> Result<(), Fail> {
    let ring = ring_of(alloc, key)?;
    let mut shared = Shared::new(alloc)?;
    shared.ring = ring;
    follow_all(rt, alloc, &mut shared, node, steps)
}

#[test]
fn who_asks_by_a_file_that_is_closed_is_refused(rt: HostRuntime) -> Result<(), Fail> {
    check(&rt, rt.alloc(), CONFIRMED, Node::Confirm, &CLOSED)
}

#[test]
fn a_line_goes_to_the_first_read_that_holds_it(rt: HostRuntime) -> Result<(), Fail> {
    check(&rt, rt.alloc(), SRV, Node::Log, &TOLD)
}
