// The few calls that no request of the agent makes yet, and the order of replies.
use crate::expect::expect;
use mailboxes::{ErrorText, Mailboxes, Read, Reply, SettledFor, ToldAnswer};
use nine::put_flush;
use std::alloc::Global;
use std::process::Abort;
use std::test::Fail;
use talks::{RpcAnswer, answer_fits};
use wire_base::{Bytes, NoMemory};

const WAITED_FOR: Read = Read {
    tag: 5,
    fid: 7,
    count: 100,
};

const SECOND: Read = Read {
    tag: 6,
    fid: 7,
    count: 50,
};

const LATER: Read = Read {
    tag: 6,
    fid: 7,
    count: 100,
};

const ELSEWHERE: Read = Read {
    tag: 6,
    fid: 9,
    count: 100,
};

const TOO_SMALL: &[u8] = b"\x17\x00\x00\x00\x75\x05\x00\x0c\x00\x00\x00toosmall 141";

// What is done, or seen, one behind the other.
#[derive(Clone, Copy)]
enum Step {
    /// A read of a connection waits.
    Wait(u64, Read),
    /// The read of connection 1 that waits under a tag is settled.
    Settle(u16),
    /// The read of connection 1 that waits under tag 5 is told an answer.
    Answer,
    /// The reply to a request of connection 1 under tag 8 comes last.
    Refuse,
    Sweep,
    Leaves(Leaving),
    /// The oldest reply of a connection has this tag, and is dropped; none where there is none.
    Taken(u64, Option<u8>),
    /// The oldest reply of connection 1 is this one.
    Front(&'static [u8]),
    /// Whose reads were settled, which is forgotten then.
    Settled(SettledFor),
    Sees(Sight),
}

// How reads of a connection come to wait no more.
#[derive(Clone, Copy)]
enum Leaving {
    /// That of a tag is flushed.
    Flush(u64, u16),
    /// Their fid is given up.
    GiveUp(u64, u32),
    /// All are dropped.
    Waits(u64),
    /// The connection is hung up.
    All(u64),
}

// What is asked of mailboxes, and the answer.
#[derive(Clone, Copy)]
enum Sight {
    /// Whether some read of a connection waits under a tag.
    Tag(u64, u16, bool),
    /// Whether some read of a connection waits for a fid.
    Fid(u64, u32, bool),
    /// The read that waits for a fid of a connection and isn't settled.
    Reader(u64, u32, Option<Read>),
    /// How many reads of a connection wait.
    Waits(u64, usize),
}

static IN_ORDER: [Step; 15] = [
    Step::Wait(1, WAITED_FOR),
    Step::Wait(1, LATER),
    Step::Wait(2, WAITED_FOR),
    Step::Sees(Sight::Tag(1, 5, true)),
    Step::Sees(Sight::Tag(1, 8, false)),
    Step::Settle(6),
    Step::Settle(5),
    Step::Refuse,
    Step::Sweep,
    Step::Taken(1, Some(8)),
    Step::Taken(1, Some(5)),
    Step::Taken(1, Some(6)),
    Step::Taken(1, None),
    Step::Taken(2, None),
    Step::Sees(Sight::Tag(2, 5, true)),
];

static GIVEN_UP: [Step; 13] = [
    Step::Wait(1, WAITED_FOR),
    Step::Wait(1, ELSEWHERE),
    Step::Leaves(Leaving::Flush(1, 5)),
    Step::Sees(Sight::Tag(1, 5, false)),
    Step::Leaves(Leaving::GiveUp(1, 9)),
    Step::Sweep,
    Step::Taken(1, Some(6)),
    Step::Wait(1, WAITED_FOR),
    Step::Leaves(Leaving::Waits(1)),
    Step::Sees(Sight::Tag(1, 5, false)),
    Step::Wait(1, WAITED_FOR),
    Step::Leaves(Leaving::All(1)),
    Step::Sees(Sight::Tag(1, 5, false)),
];

static READERS: [Step; 14] = [
    Step::Wait(1, WAITED_FOR),
    Step::Wait(1, SECOND),
    Step::Sees(Sight::Reader(1, 7, Some(WAITED_FOR))),
    Step::Sees(Sight::Reader(1, 8, None)),
    Step::Sees(Sight::Reader(2, 7, None)),
    Step::Settle(5),
    Step::Sees(Sight::Reader(1, 7, Some(SECOND))),
    Step::Sees(Sight::Fid(1, 7, true)),
    Step::Sees(Sight::Fid(1, 8, false)),
    Step::Sees(Sight::Fid(2, 7, false)),
    Step::Sees(Sight::Waits(1, 2)),
    Step::Sees(Sight::Waits(2, 0)),
    Step::Sweep,
    Step::Sees(Sight::Waits(1, 1)),
];

static SETTLED: [Step; 9] = [
    Step::Wait(1, WAITED_FOR),
    Step::Wait(2, WAITED_FOR),
    Step::Settle(5),
    Step::Leaves(Leaving::GiveUp(2, 8)),
    Step::Settled(SettledFor::One(1)),
    Step::Settled(SettledFor::Nobody),
    Step::Leaves(Leaving::GiveUp(2, 7)),
    Step::Settle(5),
    Step::Settled(SettledFor::Several),
];

static PRINTED: [Step; 4] = [
    Step::Wait(1, WAITED_FOR),
    Step::Answer,
    Step::Sweep,
    Step::Front(TOO_SMALL),
];

fn wait(alloc: Global, mailboxes: &mut Mailboxes, conn: u64, read: Read) -> Result<(), NoMemory> {
    mailboxes.reserve_wait(alloc, conn)?;
    mailboxes.wait(conn, read);
    Ok(())
}

fn flush_reply(alloc: Global, tag: u16) -> Result<Reply, NoMemory> {
    let mut frame = Bytes::new(alloc);
    put_flush(tag, &mut frame)?;
    Ok(Reply::Spelled(frame))
}

fn settle(alloc: Global, mailboxes: &mut Mailboxes, tag: u16) -> Result<(), NoMemory> {
    let reply = flush_reply(alloc, tag)?;
    mailboxes.settle(1, tag, reply);
    Ok(())
}

fn told(alloc: Global, answer: RpcAnswer) -> Result<ToldAnswer, Fail> {
    if !answer_fits(&answer, 100) {
        return Err("too long".into());
    }
    Ok(ToldAnswer::new(alloc, answer))
}

fn answer(alloc: Global, mailboxes: &mut Mailboxes) -> Result<(), Fail> {
    let answer = told(alloc, RpcAnswer::TooSmall(141))?;
    mailboxes.settle(1, 5, Reply::Answer { tag: 5, answer });
    Ok(())
}

fn refuse(alloc: Global, mailboxes: &mut Mailboxes) -> Result<(), NoMemory> {
    let text = ErrorText::new(b"permission denied".as_slice());
    mailboxes.reserve(alloc, 1)?;
    mailboxes.push(1, Reply::Refused { tag: 8, text });
    Ok(())
}

// Appends the frame of the oldest reply of a connection; false where there is none.
fn put_front(mailboxes: &Mailboxes, conn: u64, frame: &mut Bytes) -> Result<bool, NoMemory> {
    match mailboxes.front(conn) {
        Some(reply) => {
            reply.put(frame)?;
            Ok(true)
        }
        None => Ok(false),
    }
}

fn check_frame(rt: &impl Abort, is_there: bool, frame: &[u8], tag: Option<u8>) {
    assert!(rt; is_there == (frame.len() > 6));
    assert!(rt; is_there == tag.is_some());
    expect(rt, &frame.get(5).copied(), &tag);
}

// The oldest reply of a connection has this tag, and is dropped; none where there is none.
fn check_taken(
    rt: &impl Abort,
    alloc: Global,
    mailboxes: &mut Mailboxes,
    conn: u64,
    tag: Option<u8>,
) -> Result<(), NoMemory> {
    let mut frame = Bytes::new(alloc);
    let is_there = put_front(mailboxes, conn, &mut frame)?;
    mailboxes.pop(conn);
    check_frame(rt, is_there, frame.as_slice(), tag);
    Ok(())
}

// The oldest reply of connection 1 is this one.
fn check_front(
    rt: &impl Abort,
    alloc: Global,
    mailboxes: &Mailboxes,
    wanted: &[u8],
) -> Result<(), NoMemory> {
    let mut frame = Bytes::new(alloc);
    put_front(mailboxes, 1, &mut frame)?;
    expect(rt, &frame.as_slice(), &wanted);
    Ok(())
}

fn see(rt: &impl Abort, mailboxes: &Mailboxes, sight: Sight) {
    match sight {
        Sight::Tag(conn, tag, wanted) => assert!(rt; mailboxes.has_tag(conn, tag) == wanted),
        Sight::Fid(conn, fid, wanted) => assert!(rt; mailboxes.has_fid(conn, fid) == wanted),
        Sight::Reader(conn, fid, wanted) => expect(rt, &mailboxes.reader(conn, fid), &wanted),
        Sight::Waits(conn, wanted) => expect(rt, &mailboxes.count_waits(conn), &wanted),
    }
}

// Steps that take no memory.
fn leave(mailboxes: &mut Mailboxes, leaving: Leaving) {
    match leaving {
        Leaving::Flush(conn, tag) => mailboxes.flush(conn, tag),
        Leaving::GiveUp(conn, fid) => mailboxes.give_up(conn, fid),
        Leaving::Waits(conn) => mailboxes.drop_waits(conn),
        Leaving::All(conn) => mailboxes.leave(conn),
    }
}

fn follow(
    rt: &impl Abort,
    alloc: Global,
    mailboxes: &mut Mailboxes,
    step: Step,
) -> Result<(), Fail> {
    match step {
        Step::Wait(conn, read) => wait(alloc, mailboxes, conn, read)?,
        Step::Settle(tag) => settle(alloc, mailboxes, tag)?,
        Step::Answer => answer(alloc, mailboxes)?,
        Step::Refuse => refuse(alloc, mailboxes)?,
        Step::Sweep => mailboxes.sweep(),
        Step::Leaves(leaving) => leave(mailboxes, leaving),
        Step::Taken(conn, tag) => check_taken(rt, alloc, mailboxes, conn, tag)?,
        Step::Front(wanted) => check_front(rt, alloc, mailboxes, wanted)?,
        Step::Settled(wanted) => expect(rt, &mailboxes.take_settled(), &wanted),
        Step::Sees(sight) => see(rt, mailboxes, sight),
    }
    Ok(())
}

fn follow_all(
    rt: &impl Abort,
    alloc: Global,
    mailboxes: &mut Mailboxes,
    steps: &[Step],
) -> Result<(), Fail> {
    for step in steps {
        follow(rt, alloc, mailboxes, *step)?;
    }
    Ok(())
}

// Mailboxes that keep nothing yet go through these steps.
fn check(rt: &impl Abort, alloc: Global, steps: &[Step]) -> Result<(), Fail> {
    let mut mailboxes = Mailboxes::new(alloc);
    follow_all(rt, alloc, &mut mailboxes, steps)
}

#[test]
fn replies_to_reads_stand_in_the_order_in_which_the_reads_came(
    rt: HostRuntime,
) -> Result<(), Fail> {
    check(&rt, rt.alloc(), &IN_ORDER)
}

#[test]
fn reads_are_given_up(rt: HostRuntime) -> Result<(), Fail> {
    check(&rt, rt.alloc(), &GIVEN_UP)
}

#[test]
fn the_reader_of_a_fid_is_the_first_read_that_is_not_settled(rt: HostRuntime) -> Result<(), Fail> {
    check(&rt, rt.alloc(), &READERS)
}

#[test]
fn it_is_told_whose_reads_were_settled(rt: HostRuntime) -> Result<(), Fail> {
    check(&rt, rt.alloc(), &SETTLED)
}

#[test]
fn an_answer_is_printed_when_it_is_taken(rt: HostRuntime) -> Result<(), Fail> {
    check(&rt, rt.alloc(), &PRINTED)
}
