// Conversations that come to keep a connection to the authentication server, and how they part with it.
use crate::expect::expect;
use crate::rings::ring_of;
use agent_talks::{Conversations, Due, Leaving, Said};
use key_ring::KeyRing;
use std::alloc::Global;
use std::process::Abort;
use std::test::Fail;
use talks::{Asking, Request};
use wire_base::NoMemory;

const WORD: [u8; 8] = *b"\x01#Eg\x89\xab\xcd\xef";

const SRV: &[u8] = b"proto=p9sk1 dom=x user=srv !hex=31323334353637";

const MAIL: &[u8] = b"proto=apop role=server";

const CLOSED: Asking = Asking {
    confirm: false,
    needkey: false,
};

// What is done, or seen, one behind the other.
#[derive(Clone, Copy)]
enum Step {
    /// A fid of a connection opens a conversation of this number, which asks for a challenge.
    Ask(u64, u32, u64),
    /// What is due next, which is handed out: a question by its number and its conversation; 100 and a conversation whose
    /// connection is given up; twice 0 where nothing is.
    Next(u64, u64),
    Clunk(u64, u32),
    Version(u64),
    Hang(u64),
    /// The authentication server answers a question with a challenge.
    Heard(u64),
    Unheard(u64),
    Roomless(u64),
}

static IN_ORDER: [Step; 16] = [
    Step::Ask(1, 7, 0),
    Step::Ask(1, 8, 1),
    Step::Ask(2, 7, 2),
    Step::Next(1, 0),
    Step::Next(2, 1),
    Step::Version(1),
    Step::Ask(2, 8, 3),
    Step::Next(3, 2),
    Step::Next(100, 0),
    Step::Next(100, 1),
    Step::Next(4, 3),
    Step::Next(0, 0),
    Step::Clunk(2, 8),
    Step::Hang(2),
    Step::Next(100, 3),
    Step::Next(100, 2),
];

static TO_THEIR_ENDS: [Step; 15] = [
    Step::Ask(1, 7, 0),
    Step::Ask(1, 8, 1),
    Step::Ask(1, 9, 2),
    Step::Next(1, 0),
    Step::Next(2, 1),
    Step::Next(3, 2),
    Step::Unheard(2),
    Step::Roomless(9),
    Step::Heard(1),
    Step::Next(100, 1),
    Step::Next(0, 0),
    Step::Roomless(3),
    Step::Next(100, 2),
    Step::Hang(1),
    Step::Next(100, 0),
];

// A fid of a connection opens a conversation of this number, which asks for a challenge.
fn ask(
    alloc: Global,
    talks: &mut Conversations,
    ring: &KeyRing,
    conn: u64,
    fid: u32,
    conv: u64,
) -> Result<(), NoMemory> {
    talks.open(alloc, conn, fid)?;
    talks.store(alloc, conv, Request::Start(MAIL))?;
    talks.carry_out(alloc, conv, WORD, ring, CLOSED)
}

// What is due next, which is handed out: a question by its number, a connection by its conversation.
fn hand_out(talks: &mut Conversations) -> Result<(u64, u64), NoMemory> {
    match talks.due() {
        Due::Nothing => Ok((0, 0)),
        Due::Question(question) => {
            talks.hand_out()?;
            Ok((question.call, question.conv))
        }
        Due::Call(given) => {
            talks.take_drop();
            Ok((100, given.conv))
        }
    }
}

fn check_next(
    rt: &impl Abort,
    talks: &mut Conversations,
    call: u64,
    conv: u64,
) -> Result<(), NoMemory> {
    let next = hand_out(talks)?;
    expect(rt, &next.0, &call);
    expect(rt, &next.1, &conv);
    Ok(())
}

fn follow(
    rt: &impl Abort,
    alloc: Global,
    talks: &mut Conversations,
    ring: &KeyRing,
    step: Step,
) -> Result<(), NoMemory> {
    match step {
        Step::Ask(conn, fid, conv) => return ask(alloc, talks, ring, conn, fid, conv),
        Step::Next(call, conv) => return check_next(rt, talks, call, conv),
        Step::Clunk(conn, fid) => talks.end(Leaving::Fid(conn, fid)),
        Step::Version(conn) => talks.end(Leaving::Connection(conn)),
        Step::Hang(conn) => talks.end(Leaving::Connection(conn)),
        Step::Heard(call) => {
            return talks.server_told(alloc, call, Said::Answer(b"\x09    5<1@x>"));
        }
        Step::Unheard(call) => return talks.server_told(alloc, call, Said::Nothing),
        Step::Roomless(call) => return talks.server_told(alloc, call, Said::NoRoom),
    }
    Ok(())
}

fn follow_all(
    rt: &impl Abort,
    alloc: Global,
    talks: &mut Conversations,
    ring: &KeyRing,
    steps: &[Step],
) -> Result<(), Fail> {
    for step in steps {
        follow(rt, alloc, talks, ring, *step)?;
    }
    check_next(rt, talks, 0, 0)?;
    Ok(())
}

// Conversations that nobody has begun yet go through these steps, behind which nothing is due.
fn check(rt: &impl Abort, alloc: Global, steps: &[Step]) -> Result<(), Fail> {
    let ring = ring_of(alloc, SRV)?;
    let mut talks = Conversations::new(alloc)?;
    follow_all(rt, alloc, &mut talks, &ring, steps)
}

#[test]
fn connections_are_given_up_in_order_and_once(rt: HostRuntime) -> Result<(), Fail> {
    check(&rt, rt.alloc(), &IN_ORDER)
}

#[test]
fn one_that_comes_to_its_end_gives_its_connection_up(rt: HostRuntime) -> Result<(), Fail> {
    check(&rt, rt.alloc(), &TO_THEIR_ENDS)
}
