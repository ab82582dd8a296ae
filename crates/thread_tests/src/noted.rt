// What is noted of a client as it is served, in lines.
use crate::expect::expect;
use auth_program::print_notice;
use auth_server::{AuthCore, AuthEnd, FixedTables, Log, Notice, Outcome, serve_auth_noting};
use auth_tables::{parse_keys, parse_speaks};
use sealing::{AUTH_APOP, AUTH_TREQ, TicketReq, apop_answer, write_req};
use std::alloc::Global;
use std::test::Fail;
use wire_base::{Bytes, Name, Text};
use wire_streams::{MemSink, MemSource, MemWords};

/// A log in memory: the lines of a client.
#[derive(Drop)]
struct Lines {
    address: Name<48>,
    text: Bytes,
}

impl Log for Lines {
    ghost use Rattle.std.specs.Prelude.{None};

    ghost noted = { λ _. None };

    fn note(&mut self, notice: &Notice) {
        let _ = print_notice(&self.address, notice, &mut self.text);
    }
}

fn name<const N: usize>(text: &[u8]) -> Result<Name<N>, Fail> {
    match Name::from_text(text) {
        Some(name) => Ok(name),
        None => Err("name".into()),
    }
}

fn asked(kind: u8, host: &[u8], user: &[u8]) -> Result<TicketReq, Fail> {
    Ok(TicketReq {
        kind,
        authid: name(b"ann")?,
        authdom: name(b"x")?,
        chal: [1; 8],
        hostid: name(host)?,
        uid: name(user)?,
    })
}

fn core(alloc: Global) -> Result<AuthCore, Fail> {
    let Some(dom) = Text::from_slice(alloc, b"x")? else {
        return Err("dom".into());
    };
    let keys = parse_keys(alloc, b"user=ann !password=a\n").map_err(|_| "keys")?;
    let speaks = parse_speaks(alloc, b"").map_err(|_| "speaks")?;
    Ok(AuthCore::new(dom, keys, speaks))
}

// Two ticket requests, and then one for a challenge, a wrong answer to it and a right one.
fn session(alloc: Global) -> Result<MemSource, Fail> {
    let mut bytes = Bytes::new(alloc);
    bytes.append(&write_req(&asked(AUTH_TREQ, b"ann", b"ann")?))?;
    bytes.append(&write_req(&asked(AUTH_TREQ, b"bob", b"ann")?))?;
    let mail = write_req(&asked(AUTH_APOP, b"ann", b"ann")?);
    bytes.append(&mail)?;
    for password in [b"b", b"a"] {
        bytes.append(&mail)?;
        bytes.append(&apop_answer(b"<0707070707070707@x>", password))?;
    }
    Ok(MemSource::new(bytes.into_vec(), Vec::new(alloc)))
}

#[test]
fn each_request_is_a_line(rt: HostRuntime) -> Result<(), Fail> {
    let alloc = rt.alloc();
    let drawn = [[7u8; 8]; 15].to_vec(alloc)?;
    let mut words = MemWords::new(drawn, Vec::new(alloc));
    let mut sink = MemSink::new(Vec::new(alloc), Vec::new(alloc));
    let mut lines = Lines {
        address: name(b"192.0.2.7")?,
        text: Bytes::new(alloc),
    };
    let end = serve_auth_noting(
        alloc,
        &mut FixedTables::new(&core(alloc)?),
        &mut session(alloc)?,
        &mut sink,
        &mut words,
        &mut lines,
    );
    expect(&rt, &end, &AuthEnd::End);
    let wanted = b"authd: 192.0.2.7 ticket host=ann user=ann granted
authd: 192.0.2.7 ticket host=bob user=ann refused
authd: 192.0.2.7 APOP host=ann user=ann challenged
authd: 192.0.2.7 APOP host=ann user=ann wrong
authd: 192.0.2.7 APOP host=ann user=ann vouched
";
    expect(&rt, &lines.text.as_slice(), &wanted.as_slice());
    Ok(())
}

// The line of a notice.
fn line(alloc: Global, notice: &Notice) -> Result<Bytes, Fail> {
    let mut text = Bytes::new(alloc);
    print_notice(&name(b"unix")?, notice, &mut text)?;
    Ok(text)
}

#[test]
fn a_name_ends_no_word(rt: HostRuntime) -> Result<(), Fail> {
    let alloc = rt.alloc();
    let asked = asked(AUTH_TREQ, b"a\nauthd: ~", b"\x1b[2J\xc3\xbc\x7f")?;
    let outcome = Outcome::Refused;
    let found = line(alloc, &Notice::Judged { asked, outcome })?;
    let wanted = b"authd: unix ticket host=a?authd:?~ user=?[2J??? refused\n";
    expect(&rt, &found.as_slice(), &wanted.as_slice());
    let found = line(alloc, &Notice::Bad { kind: AUTH_APOP })?;
    let wanted = b"authd: unix APOP bad request\n";
    expect(&rt, &found.as_slice(), &wanted.as_slice());
    Ok(())
}

#[test]
fn the_longest_line_is_short(rt: HostRuntime) -> Result<(), Fail> {
    let alloc = rt.alloc();
    let asked = asked(AUTH_TREQ, &[b'h'; 27], &[b'u'; 27])?;
    let notice = Notice::Judged {
        asked,
        outcome: Outcome::Challenged,
    };
    let mut text = Bytes::new(alloc);
    print_notice(&name(&[b'a'; 47])?, &notice, &mut text)?;
    expect(&rt, &text.len(), &139);
    Ok(())
}
