// What becomes of conversations, as the log tells it.
use crate::expect::expect;
use crate::rings::ring_of;
use agent_talks::{Conversations, Leaving, Said};
use file_tree::Node;
use key_ring::KeyRing;
use side_files::PromptKind;
use std::alloc::Global;
use std::process::Abort;
use std::test::Fail;
use talks::{Asking, Request};
use wire_base::NoMemory;

const WORD: [u8; 8] = *b"\x01#Eg\x89\xab\xcd\xef";

const SRV: &[u8] = b"proto=p9sk1 dom=x user=srv !hex=31323334353637";

const CONFIRMED: &[u8] = b"proto=p9sk1 dom=x user=srv confirm=yes !hex=31323334353637";

const MAIL: &[u8] = b"proto=apop role=server";

const CLOSED: Asking = Asking {
    confirm: false,
    needkey: false,
};

const ASKS: Asking = Asking {
    confirm: true,
    needkey: false,
};

// What is done, or seen, one behind the other.
#[derive(Clone, Copy)]
enum Step {
    /// A fid of connection 1 opens a conversation of this number, which is started.
    Start(Asking, u32, u64),
    /// The first line of the log that nobody has read is this one; none where it is empty.
    Line(&'static [u8]),
    /// The further lines of the log are switched on.
    Switch,
    /// The user of a conversation is asked by tag 1, and reads that.
    Asked(u64),
    /// He agrees.
    Agrees(u64),
    /// Fid 7 of connection 1 is given up.
    Clunk,
    Unheard(u64),
    Roomless(u64),
}

static ENDS: [Step; 10] = [
    Step::Start(CLOSED, 7, 0),
    Step::Line(b""),
    Step::Switch,
    Step::Start(CLOSED, 8, 1),
    Step::Line(b"1 start proto=apop role=server\n"),
    Step::Unheard(1),
    Step::Unheard(1),
    Step::Roomless(2),
    Step::Line(b"0 error no server\n"),
    Step::Line(b"1 error out of memory\n"),
];

static AGREED: [Step; 8] = [
    Step::Switch,
    Step::Start(ASKS, 7, 0),
    Step::Line(b""),
    Step::Asked(0),
    Step::Agrees(0),
    Step::Line(b"0 start proto=apop role=server\n"),
    Step::Clunk,
    Step::Unheard(1),
];

// A fid of a connection opens a conversation of this number, which is started.
fn start(
    alloc: Global,
    talks: &mut Conversations,
    ring: &KeyRing,
    asking: Asking,
    fid: u32,
    conv: u64,
) -> Result<(), NoMemory> {
    talks.open(alloc, 1, fid)?;
    talks.store(alloc, conv, Request::Start(MAIL))?;
    talks.carry_out(alloc, conv, WORD, ring, asking)
}

// The first line of the log that nobody has read is this one; none where it is empty.
fn check_line(rt: &impl Abort, talks: &mut Conversations, wanted: &[u8]) {
    match talks.hand_out_line(Node::Log, 8192) {
        Ok(Some(line)) => expect(rt, &line.as_slice(), &wanted),
        Ok(None) => assert!(rt; wanted.is_empty()),
        Err(_) => panic!(rt; "too long"),
    }
}

// The user of a conversation is asked by tag 1, and reads that.
fn check_asked(rt: &impl Abort, talks: &mut Conversations, conv: u64) {
    let kind = PromptKind::Confirm;
    assert!(rt; talks.first_asker(kind) == Some(conv));
    assert!(rt; talks.hand_out_line(Node::Confirm, 8192).is_ok());
    assert!(rt; talks.asker(kind, 1) == Some(conv));
}

fn follow(
    rt: &impl Abort,
    alloc: Global,
    talks: &mut Conversations,
    ring: &KeyRing,
    step: Step,
) -> Result<(), NoMemory> {
    match step {
        Step::Start(asking, fid, conv) => return start(alloc, talks, ring, asking, fid, conv),
        Step::Line(wanted) => check_line(rt, talks, wanted),
        Step::Switch => talks.switch(),
        Step::Asked(conv) => check_asked(rt, talks, conv),
        Step::Agrees(conv) => {
            return talks.reply(alloc, PromptKind::Confirm, 1, conv, true, ring, ASKS);
        }
        Step::Clunk => talks.end(Leaving::Fid(1, 7)),
        Step::Unheard(call) => return talks.server_told(alloc, call, Said::Nothing),
        Step::Roomless(call) => return talks.server_told(alloc, call, Said::NoRoom),
    }
    Ok(())
}

fn follow_all(
    rt: &impl Abort,
    alloc: Global,
    talks: &mut Conversations,
    ring: &KeyRing,
    steps: &[Step],
) -> Result<(), Fail> {
    for step in steps {
        follow(rt, alloc, talks, ring, *step)?;
    }
    check_line(rt, talks, b"");
    Ok(())
}

// Conversations that nobody has begun yet go through these steps, behind which the log has no line that nobody has read.
fn check(rt: &impl Abort, alloc: Global, key: &[u8], steps: &[Step]) -> Result<(), Fail> {
    let ring = ring_of(alloc, key)?;
    let mut talks = Conversations::new(alloc)?;
    follow_all(rt, alloc, &mut talks, &ring, steps)
}

#[test]
fn ends_are_told_once_and_starts_where_they_are_wanted(rt: HostRuntime) -> Result<(), Fail> {
    check(&rt, rt.alloc(), SRV, &ENDS)
}

#[test]
fn a_start_that_waits_for_its_user_is_told_when_he_agrees(rt: HostRuntime) -> Result<(), Fail> {
    check(&rt, rt.alloc(), CONFIRMED, &AGREED)
}
