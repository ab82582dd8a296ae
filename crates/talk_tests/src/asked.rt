// Conversations that ask their users for a key, and what becomes of them when they are told, or end.
use crate::expect::{expect, expect_told};
use agent_talks::{Conversations, Leaving};
use file_tree::Node;
use key_ring::KeyRing;
use side_files::PromptKind;
use std::alloc::Global;
use std::process::Abort;
use std::test::Fail;
use talks::{Asking, Request};
use wire_base::NoMemory;

const WORD: [u8; 8] = *b"\x01#Eg\x89\xab\xcd\xef";

const OPEN: Asking = Asking {
    confirm: true,
    needkey: true,
};

const START: &[u8] = b"proto=cram role=client dom=x user=ann";

const NEEDED: &[u8] = b"needkey tag=1 proto=cram dom=x user=ann !password?\n";

const REFUSED: &[u8] = b"needkey proto=cram dom=x user=ann !password?";

// What is done, or seen, one behind the other.
#[derive(Clone, Copy)]
enum Step {
    /// A fid of a connection opens a conversation of this number, which asks for a key.
    Ask(u64, u32, u64),
    /// The user of a conversation is asked, and it has no answer yet.
    Untold(u64),
    /// A read of a conversation is told this answer.
    Told(u64, &'static [u8]),
    /// The first line of needkey is this one; none where it is empty.
    Line(&'static [u8]),
    /// The conversation of the question of tag 1.
    Asker(Option<u64>),
    /// The conversation whose question is the oldest.
    First(Option<u64>),
    /// The user of a conversation tells that there is no key, by tag 1.
    NoKey(u64),
    Clunk(u64, u32),
    Version(u64),
    Hang(u64),
    /// The file by which the user of a conversation was asked is closed.
    Shut(u64),
}

static NOT_TOLD: [Step; 8] = [
    Step::Ask(1, 7, 0),
    Step::Untold(0),
    Step::Line(NEEDED),
    Step::Line(b""),
    Step::Asker(Some(0)),
    Step::NoKey(0),
    Step::Asker(None),
    Step::Told(0, REFUSED),
];

static ENDED: [Step; 14] = [
    Step::Ask(1, 7, 0),
    Step::Ask(1, 8, 1),
    Step::Ask(2, 7, 2),
    Step::Ask(3, 7, 3),
    Step::Line(NEEDED),
    Step::Clunk(1, 7),
    Step::First(Some(1)),
    Step::Version(1),
    Step::First(Some(2)),
    Step::Hang(2),
    Step::First(Some(3)),
    Step::Shut(3),
    Step::First(None),
    Step::Told(3, REFUSED),
];

// Writes a request of a conversation and carries it out.
fn carry(
    alloc: Global,
    talks: &mut Conversations,
    ring: &KeyRing,
    conv: u64,
    request: Request<'_>,
) -> Result<(), NoMemory> {
    talks.store(alloc, conv, request)?;
    talks.carry_out(alloc, conv, WORD, ring, OPEN)
}

// A fid of a connection opens a conversation of this number, which asks for a key.
fn ask(
    alloc: Global,
    talks: &mut Conversations,
    ring: &KeyRing,
    conn: u64,
    fid: u32,
    conv: u64,
) -> Result<(), NoMemory> {
    talks.open(alloc, conn, fid)?;
    carry(alloc, talks, ring, conv, Request::Start(START))?;
    talks.tell(conv, 8192);
    carry(alloc, talks, ring, conv, Request::Write(b"<5.1@x>"))
}

fn check_line(rt: &impl Abort, talks: &mut Conversations, wanted: &[u8]) {
    match talks.hand_out_line(Node::Needkey, 8192) {
        Ok(Some(line)) => expect(rt, &line.as_slice(), &wanted),
        Ok(None) => assert!(rt; wanted.is_empty()),
        Err(_) => panic!(rt; "too small"),
    }
}

fn see(rt: &impl Abort, found: Option<u64>, wanted: Option<u64>) {
    expect(rt, &found, &wanted);
}

fn follow(
    rt: &impl Abort,
    alloc: Global,
    talks: &mut Conversations,
    ring: &KeyRing,
    step: Step,
) -> Result<(), NoMemory> {
    let kind = PromptKind::Needkey;
    match step {
        Step::Ask(conn, fid, conv) => return ask(alloc, talks, ring, conn, fid, conv),
        Step::Untold(conv) => assert!(rt; talks.tell(conv, 8192).is_none()),
        Step::Told(conv, wanted) => {
            return expect_told(rt, alloc, talks.tell(conv, 8192), wanted);
        }
        Step::Line(wanted) => check_line(rt, talks, wanted),
        Step::Asker(wanted) => see(rt, talks.asker(kind, 1), wanted),
        Step::First(wanted) => see(rt, talks.first_asker(kind), wanted),
        Step::NoKey(conv) => return talks.reply(alloc, kind, 1, conv, false, ring, OPEN),
        Step::Clunk(conn, fid) => talks.end(Leaving::Fid(conn, fid)),
        Step::Version(conn) => talks.end(Leaving::Connection(conn)),
        Step::Hang(conn) => talks.end(Leaving::Connection(conn)),
        Step::Shut(conv) => talks.shut(kind, conv),
    }
    Ok(())
}

fn follow_all(
    rt: &impl Abort,
    alloc: Global,
    talks: &mut Conversations,
    ring: &KeyRing,
    steps: &[Step],
) -> Result<(), Fail> {
    for step in steps {
        follow(rt, alloc, talks, ring, *step)?;
    }
    Ok(())
}

// Conversations that nobody has begun yet, and no keys, go through these steps.
fn check(rt: &impl Abort, alloc: Global, steps: &[Step]) -> Result<(), Fail> {
    let mut talks = Conversations::new(alloc)?;
    let ring = KeyRing::new(alloc);
    follow_all(rt, alloc, &mut talks, &ring, steps)
}

#[test]
fn one_that_is_told_of_no_key_is_refused(rt: HostRuntime) -> Result<(), Fail> {
    check(&rt, rt.alloc(), &NOT_TOLD)
}

#[test]
fn those_that_end_ask_nobody_any_more(rt: HostRuntime) -> Result<(), Fail> {
    check(&rt, rt.alloc(), &ENDED)
}
