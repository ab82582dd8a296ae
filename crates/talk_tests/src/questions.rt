// Conversations of one agent whose questions for the authentication server come to each of their ends. The messages are
// those of a login of ann at srv in the domain x, made by bench/vectors over OpenSSL's DES.
use crate::expect::{expect, expect_told};
use crate::rings::ring_of;
use agent_talks::{Leaving, Talks, Told};
use conversations::Asks;
use key_ring::KeyRing;
use std::alloc::Global;
use std::process::Abort;
use std::test::Fail;
use talks::{Asking, Request};
use wire_base::NoMemory;

const WORD: [u8; 8] = *b"\x01#Eg\x89\xab\xcd\xef";

const REQUEST: &[u8] = b"\x01srv\0\0\0\0\0\0\0\0\0\0\0\0\0\0\0\0\0\0\0\0\
    \0\0\0\0\0x\0\0\0\0\0\0\0\0\0\0\0\0\0\0\0\0\0\0\
    \0\0\0\0\0\0\0\0\0\0\0\0\0\0\0\0\0\0\0\0\0\0\0\0\
    \0\0\0\0\0\x10\x11\x12\x13\x14\x15\x16\x17\0\0\0\0\0\0\0\0\0\0\0\
    \0\0\0\0\0\0\0\0\0\0\0\0\0\0\0\0\0\0\0\0\0\0\0\0\
    \0\0\0\0\0\0\0\0\0\0\0\0\0\0\0\0\0\0\0\0\0";

const ANSWER: &[u8] = b"\x04q\x82\xe8[4L\x132\xe4/\xcd\xdbU\xe78\xe1|F\xe1\xec#4\xfa\
    \xc9X\xc7\xc1@\x0f\xdc\x01\xd1=\xf6\xf9\xb9Hc\x9ec\x0c\x1dZ\x85\x97m=\
    \x0b\xc5#'\x0eOdw4bu\xa1\x07\xbf\xc2\x8ai\xd8\xf3S\x90s(\xf9\
    2\xe24\x17\xa9\xbbi\xf5\xf6F\xba\x03OO\x9b\xd2oJ\xd9(\xf4\x98\xe4\x95\
    Y\x9c:<n-\x04\xbeD\x86fHw\xae\x0c\x14T\xf9s\x8e~\xc4\xbe\xe7\
    \xd5\xd5\xb3V\xbbL\x10=\xb7Zu\x1f\xcb\xe0u\xb1\xc2\xf6.8J\xac\xbe\x1c\
    \xc7";

const ANN: &[u8] = b"proto=p9sk1 dom=x user=ann !hex=31323334353637";

const CLOSED: Asking = Asking {
    confirm: false,
    needkey: false,
};

// The bytes that a read may hold.
const WIDE: u32 = 8000;

// What becomes of two conversations that asked the authentication server.
#[derive(Clone, Copy)]
enum Course {
    /// It answers one, and can't be reached for the other.
    Answered,
    /// One ends, and there is no memory for the answer of the other, which ends then.
    Ended,
}

fn check_told(
    rt: &impl Abort,
    alloc: Global,
    talks: &mut Talks,
    conv: u64,
    wanted: &[u8],
) -> Result<(), NoMemory> {
    expect_told(rt, alloc, talks.tell(conv, WIDE), wanted)
}

fn carry(
    alloc: Global,
    talks: &mut Talks,
    ring: &KeyRing,
    conv: u64,
    request: Request<'_>,
) -> Result<(), NoMemory> {
    talks.store(alloc, conv, request)?;
    let mut asks = Asks::new(alloc);
    talks.carry_out(alloc, conv, WORD, ring, CLOSED, &mut asks)
}

// A request of a conversation is carried out and has this answer.
fn carry_told(
    rt: &impl Abort,
    alloc: Global,
    talks: &mut Talks,
    ring: &KeyRing,
    conv: u64,
    request: Request<'_>,
    wanted: &[u8],
) -> Result<(), NoMemory> {
    carry(alloc, talks, ring, conv, request)?;
    check_told(rt, alloc, talks, conv, wanted)
}

// A fid of a connection opens a conversation of this number.
fn open(
    rt: &impl Abort,
    alloc: Global,
    talks: &mut Talks,
    conn: u64,
    conv: u64,
) -> Result<(), NoMemory> {
    talks.open(alloc, conn, 7)?;
    expect(rt, &talks.conv_at(conn, 7), &Some(conv));
    assert!(rt; talks.is_resting_at(conn, 7));
    Ok(())
}

// A fid of a connection opens a conversation of this number, which comes to ask the authentication server.
fn ask(
    rt: &impl Abort,
    alloc: Global,
    talks: &mut Talks,
    ring: &KeyRing,
    conn: u64,
    conv: u64,
) -> Result<(), NoMemory> {
    open(rt, alloc, talks, conn, conv)?;
    let start = Request::Start(b"proto=p9sk1 role=client");
    carry_told(rt, alloc, talks, ring, conv, start, b"ok")?;
    let shown = b"ok \x01#Eg\x89\xab\xcd\xef";
    carry_told(rt, alloc, talks, ring, conv, Request::Read, shown)?;
    carry(alloc, talks, ring, conv, Request::Write(REQUEST))?;
    assert!(rt; talks.tell(conv, WIDE).is_none());
    assert!(rt; !talks.is_resting_at(conn, 7));
    Ok(())
}

// The question that is next, which is handed out.
fn hand_out(talks: &mut Talks) -> Option<(u64, u64)> {
    let next = match talks.next_question() {
        Some(question) => Some((question.call, question.conv)),
        None => None,
    };
    talks.hand_out();
    next
}

fn check_next(rt: &impl Abort, talks: &mut Talks, wanted: Option<(u64, u64)>) {
    expect(rt, &hand_out(talks), &wanted);
}

fn check_asker(rt: &impl Abort, talks: &Talks, call: u64, wanted: Option<u64>) {
    expect(rt, &talks.asker(call), &wanted);
}

fn two_ask(
    rt: &impl Abort,
    alloc: Global,
    talks: &mut Talks,
    ring: &KeyRing,
) -> Result<(), NoMemory> {
    ask(rt, alloc, talks, ring, 1, 0)?;
    ask(rt, alloc, talks, ring, 2, 1)?;
    expect(rt, &talks.count(), &2);
    check_next(rt, talks, Some((1, 0)));
    check_next(rt, talks, Some((2, 1)));
    check_next(rt, talks, None);
    check_asker(rt, talks, 2, Some(1));
    Ok(())
}

fn check_answered(rt: &impl Abort, alloc: Global, talks: &mut Talks) -> Result<(), NoMemory> {
    talks.unheard(2);
    check_asker(rt, talks, 2, None);
    talks.heard(alloc, 1, ANSWER)?;
    check_asker(rt, talks, 1, None);
    assert!(rt; talks.has_answer_at(1, 7));
    assert!(rt; matches!(talks.tell(0, 1), Some(Told::TooSmall)));
    check_told(rt, alloc, talks, 0, b"ok")?;
    check_told(rt, alloc, talks, 1, b"error no server")?;
    assert!(rt; matches!(talks.chosen_at(1, 7), Some(key) if key.serial() == 1));
    Ok(())
}

fn check_ended(rt: &impl Abort, alloc: Global, talks: &mut Talks) -> Result<(), NoMemory> {
    talks.end(Leaving::Fid(1, 7));
    check_asker(rt, talks, 1, None);
    check_asker(rt, talks, 2, Some(1));
    talks.roomless(2);
    check_told(rt, alloc, talks, 1, b"error out of memory")?;
    talks.end(Leaving::Connection(2));
    talks.end(Leaving::Connection(3));
    expect(rt, &talks.count(), &0);
    assert!(rt; talks.outcome_at(2, 7).is_none());
    Ok(())
}

fn follow(
    rt: &impl Abort,
    alloc: Global,
    talks: &mut Talks,
    ring: &KeyRing,
    course: Course,
) -> Result<(), NoMemory> {
    two_ask(rt, alloc, talks, ring)?;
    match course {
        Course::Answered => check_answered(rt, alloc, talks),
        Course::Ended => check_ended(rt, alloc, talks),
    }
}

fn check_with(
    rt: &impl Abort,
    alloc: Global,
    ring: &KeyRing,
    course: Course,
) -> Result<(), NoMemory> {
    let mut talks = Talks::new(alloc);
    follow(rt, alloc, &mut talks, ring, course)
}

// Conversations that nobody has begun yet take this course.
fn check(rt: &impl Abort, alloc: Global, course: Course) -> Result<(), Fail> {
    let ring = ring_of(alloc, ANN)?;
    check_with(rt, alloc, &ring, course)?;
    Ok(())
}

#[test]
fn the_server_answers_one_and_cannot_be_reached_for_another(rt: HostRuntime) -> Result<(), Fail> {
    check(&rt, rt.alloc(), Course::Answered)
}

#[test]
fn a_question_ends_with_its_conversation(rt: HostRuntime) -> Result<(), Fail> {
    check(&rt, rt.alloc(), Course::Ended)
}
