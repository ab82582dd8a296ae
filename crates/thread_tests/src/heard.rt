// One answer heard from a source.
use crate::expect::expect_at;
use sockets::read_answer;
use std::alloc::Global;
use std::io::{self, Read};
use std::process::Abort;
use std::test::Fail;
use wire_base::Shape;
use wire_streams::{Got, MOST_ANSWER, MemSource, ReadSource, Source};

// It gives a byte at a time.
#[derive(Drop)]
struct Narrow<'a> {
    left: &'a [u8],
}

impl Read for Narrow<'_> {
    fn read(&mut self, buf: &mut [u8]) -> io::Result<usize> {
        if let ([first, rest @ ..], [place, ..]) = (self.left, buf) {
            *place = *first;
            self.left = rest;
            return Ok(1);
        }
        Ok(0)
    }
}

// So many bytes of what a source gives are the answer.
fn expect_front<S: Source>(
    rt: &impl Abort,
    source: &mut S,
    shape: Shape,
    content: &[u8],
    want: usize,
) {
    let mut room = [0; MOST_ANSWER];
    let heard = read_answer(source, shape, &mut room);
    expect_at(rt, &heard, &Some(want), &content);
    assert!(rt; room.get(..want) == content.get(..want));
}

// What stands behind the answer is left, and bytes that come one by one make the same.
fn expect_answer(
    rt: &impl Abort,
    alloc: Global,
    shape: Shape,
    content: &[u8],
    want: usize,
) -> Result<(), Fail> {
    let mut source = MemSource::new(content.to_vec(alloc)?, [9].to_vec(alloc)?);
    expect_front(rt, &mut source, shape, content, want);
    let left = match source.read(&mut [0; 200]) {
        Got::Bytes(count) => count,
        _ => 0,
    };
    expect_at(rt, &left, &content.len().saturating_sub(want), &content);
    let mut narrow = ReadSource::new(Narrow { left: content });
    expect_front(rt, &mut narrow, shape, content, want);
    Ok(())
}

const CHALLENGE: &[u8] = b"\x0918   <0123456789@a.dom>ABCDEF";

#[test]
fn reads_a_challenge_and_no_more(rt: HostRuntime) -> Result<(), Fail> {
    let alloc = rt.alloc();
    expect_answer(&rt, alloc, Shape::Challenge, CHALLENGE, 24)?;
    let front = CHALLENGE.get(..23).ok_or("too short")?;
    expect_answer(&rt, alloc, Shape::Challenge, front, 23)?;
    expect_answer(&rt, alloc, Shape::Challenge, b"\x09129  <01", 6)?;
    expect_answer(&rt, alloc, Shape::Tickets, CHALLENGE, 1)
}

#[test]
fn reads_tickets_and_no_more(rt: HostRuntime) -> Result<(), Fail> {
    let alloc = rt.alloc();
    let mut grant = [b't'; 150];
    grant[0] = 4;
    expect_answer(&rt, alloc, Shape::Tickets, grant.as_slice(), 145)?;
    expect_answer(&rt, alloc, Shape::Tickets, &grant[..144], 144)?;
    expect_answer(&rt, alloc, Shape::Vouch, grant.as_slice(), 86)?;
    expect_answer(&rt, alloc, Shape::Vouch, &grant[..85], 85)?;
    let mut refusal = [b'r'; 70];
    refusal[0] = 5;
    expect_answer(&rt, alloc, Shape::Vouch, refusal.as_slice(), 65)?;
    expect_answer(&rt, alloc, Shape::Vouch, b"", 0)
}

fn expect_failed(
    rt: &impl Abort,
    alloc: Global,
    fails: u64,
    want: Option<usize>,
) -> Result<(), Fail> {
    let content = b"\x092    <>".to_vec(alloc)?;
    let mut source = MemSource::new(content, [fails].to_vec(alloc)?);
    let heard = read_answer(&mut source, Shape::Challenge, &mut [0; MOST_ANSWER]);
    expect_at(rt, &heard, &want, &fails);
    Ok(())
}

// Each of the three reads of a challenge fails in turn.
#[test]
fn read_that_fails_gives_no_answer(rt: HostRuntime) -> Result<(), Fail> {
    expect_failed(&rt, rt.alloc(), 1, None)?;
    expect_failed(&rt, rt.alloc(), 2, None)?;
    expect_failed(&rt, rt.alloc(), 3, None)?;
    expect_failed(&rt, rt.alloc(), 4, Some(8))
}
