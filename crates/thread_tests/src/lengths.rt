// Where an answer of the authentication server ends.
use crate::expect::expect_at;
use sockets::answer_length;
use std::alloc::Global;
use std::process::Abort;
use std::test::Fail;
use wire_base::{Bytes, Shape};

// What is asked for, what was heard so far, and how many bytes the answer has by that. By authsrv(6): an error's text
// has 64 bytes, a ticket 72, an authenticator 13, a challenge's length 5.
static LENGTHS: [(Shape, &[u8], usize); 17] = [
    (Shape::Tickets, b"", 1),
    (Shape::Tickets, b"\x04", 145),
    (Shape::Tickets, b"\x05", 65),
    (Shape::Tickets, b"\x0938   ", 1),
    (Shape::Tickets, b"\x01", 1),
    (Shape::Vouch, b"", 1),
    (Shape::Vouch, b"\x04", 86),
    (Shape::Vouch, b"\x04@", 86),
    (Shape::Vouch, b"\x05bad", 65),
    (Shape::Vouch, b"\x0938   ", 1),
    (Shape::Vouch, b"\x00", 1),
    (Shape::Challenge, b"", 1),
    (Shape::Challenge, b"\x04", 1),
    (Shape::Challenge, b"\x05", 65),
    (Shape::Challenge, b"\xff", 1),
    (Shape::Challenge, b"\x09", 6),
    (Shape::Challenge, b"\x0938  ", 6),
];

fn expect_lengths(rt: &impl Abort, cases: &[(Shape, &[u8], usize)]) {
    for (shape, heard, want) in cases {
        expect_at(rt, &answer_length(*shape, heard), want, heard);
    }
}

#[test]
fn answers_end_where_they_tell(rt: HostRuntime) {
    expect_lengths(&rt, &LENGTHS);
}

static FIELDS: [(&str, usize); 17] = [
    ("38   ", 38),
    ("   38", 38),
    (" 38  ", 38),
    ("00038", 38),
    ("0    ", 0),
    ("1    ", 1),
    ("128  ", 128),
    ("129  ", 0),
    ("00129", 0),
    ("99999", 0),
    ("12x45", 0),
    ("1 2  ", 0),
    ("     ", 0),
    ("+38  ", 0),
    ("-1   ", 0),
    ("\t38  ", 0),
    ("38\0\0\0", 0),
];

// A challenge whose length is spelled so: a byte before it, and behind it as many bytes as it spells.
fn expect_fields(rt: &impl Abort, alloc: Global, cases: &[(&str, usize)]) -> Result<(), Fail> {
    for (field, want) in cases {
        let mut heard = Bytes::from_slice(alloc, b"\x09")?;
        heard.append(field.as_bytes())?;
        let length = answer_length(Shape::Challenge, heard.as_slice());
        expect_at(rt, &length, &want.saturating_add(6), field);
    }
    Ok(())
}

#[test]
fn challenges_have_the_length_that_is_spelled(rt: HostRuntime) -> Result<(), Fail> {
    expect_fields(&rt, rt.alloc(), &FIELDS)
}
