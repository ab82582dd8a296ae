// The authentication server asked over sockets.
use crate::expect::expect_at;
use sockets::{
    AddressFault, Failures, Line, OwnLines, Servers, SharedFailures, SharedLines, TcpDialer,
    check_addresses,
};
use std::io::{self, ErrorKind, Read, Write};
use std::net::{TcpListener, TcpStream};
use std::os::unix::net::{UnixListener, UnixStream};
use std::test::Fail;
use std::time::{Duration, Instant};
use std::{env, fs, process, thread};
use wire_base::{Bytes, Shape};
use wire_streams::{Dial, Dialer};

const CHALLENGE: &[u8] = b"\x0918   <0123456789@a.dom>";

// The longest and the shortest time that an exchange may take here.
fn long() -> Duration {
    Duration::from_secs(10)
}

fn short() -> Duration {
    Duration::from_millis(200)
}

// A connection of a server: each request has three bytes, and is given the next of these answers.
fn serve<S: Read + Write>(stream: &mut S, answers: &[&[u8]]) -> io::Result<()> {
    for answer in answers {
        stream.read_exact(&mut [0; 3])?;
        stream.write_all(answer)?;
    }
    Ok(())
}

// A challenge and a vouch over one connection, tickets over one of their own, one that ends early, and one that
// ends with nothing.
fn serve_tcp(listener: &TcpListener) -> io::Result<()> {
    let mut vouch = [b'v'; 86];
    vouch[0] = 4;
    let mut tickets = [b't'; 145];
    tickets[0] = 4;
    serve(&mut listener.accept()?.0, &[CHALLENGE, vouch.as_slice()])?;
    serve(&mut listener.accept()?.0, &[tickets.as_slice()])?;
    serve(&mut listener.accept()?.0, &[b"\x05no"])?;
    serve(&mut listener.accept()?.0, &[b""])
}

fn listen(rt: &HostRuntime) -> Result<(TcpListener, String), Fail> {
    let listener = TcpListener::bind(rt, "127.0.0.1:0")?;
    let address = format!(in rt.alloc(); "{}", listener.local_addr()?)?;
    Ok((listener, address))
}

// The servers that a text names.
fn servers(rt: &HostRuntime, addresses: &str) -> Result<Servers, Fail> {
    Ok(Servers::parse(rt.alloc(), addresses.as_bytes())?.map_err(|_| "addresses")?)
}

// A dialer of the servers that a text names.
fn dialer(
    rt: &HostRuntime,
    addresses: &str,
    limit: Duration,
) -> Result<TcpDialer<HostRuntime, OwnLines<Line<TcpStream>>, Failures>, Fail> {
    let servers = servers(rt, addresses)?;
    let lines = OwnLines::new(rt.alloc());
    Ok(TcpDialer::new(*rt, rt.alloc(), servers, limit, lines, Failures::new()))
}

#[test]
fn asks_a_server(rt: HostRuntime) -> Result<(), Fail> {
    let (listener, address) = listen(&rt)?;
    let server = thread::spawn(&rt, move || serve_tcp(&listener))?;
    let mut dialer = dialer(&rt, &address, long())?;
    let mut out = Bytes::new(rt.alloc());
    for (conv, shape, want, length) in [
        (7, Shape::Vouch, Dial::Failed, 0),
        (7, Shape::Challenge, Dial::Heard, 24),
        (8, Shape::Vouch, Dial::Failed, 24),
        (7, Shape::Vouch, Dial::Heard, 86),
        (7, Shape::Vouch, Dial::Failed, 86),
        (7, Shape::Tickets, Dial::Heard, 145),
        (7, Shape::Tickets, Dial::Heard, 3),
        (7, Shape::Challenge, Dial::Failed, 3),
    ] {
        let dial = dialer.exchange(conv, b"who", shape, &mut out);
        expect_at(&rt, &dial, &want, &shape);
        expect_at(&rt, &out.len(), &length, &shape);
    }
    dialer.close(7);
    dialer.close(7);
    let dial = dialer.exchange(7, b"who", Shape::Vouch, &mut out);
    expect_at(&rt, &dial, &Dial::Failed, &"nothing is kept");
    server.join(&rt)?;
    Ok(())
}

#[test]
fn fails_where_nobody_answers(rt: HostRuntime) -> Result<(), Fail> {
    let (gone, nobody) = listen(&rt)?;
    drop(gone);
    let (_silent, never) = listen(&rt)?;
    let mut out = Bytes::from_slice(rt.alloc(), b"-")?;
    for address in [nobody.as_str(), never.as_str(), "/no/such/socket"] {
        let mut dialer = dialer(&rt, address, Duration::from_millis(50))?;
        for shape in [Shape::Tickets, Shape::Challenge, Shape::Vouch] {
            let dial = dialer.exchange(1, b"who", shape, &mut out);
            expect_at(&rt, &dial, &Dial::Failed, &address);
            expect_at(&rt, &out.as_slice(), &b"-".as_slice(), &address);
        }
    }
    Ok(())
}

// A refusal that comes a byte at a time, and would take over a second in all.
fn serve_slowly(rt: &HostRuntime, listener: &TcpListener) -> io::Result<()> {
    let (mut stream, _) = listener.accept()?;
    for _ in 0..65 {
        stream.write_all(b"\x05")?;
        thread::sleep(rt, Duration::from_millis(20));
    }
    Ok(())
}

#[test]
fn fails_where_the_whole_answer_is_too_late(rt: HostRuntime) -> Result<(), Fail> {
    let (listener, address) = listen(&rt)?;
    let server = thread::spawn(&rt, move || serve_slowly(&rt, &listener).is_err())?;
    let mut dialer = dialer(&rt, &address, short())?;
    let mut out = Bytes::from_slice(rt.alloc(), b"-")?;
    let dial = dialer.exchange(1, b"who", Shape::Tickets, &mut out);
    expect_at(&rt, &dial, &Dial::Failed, &"too late");
    expect_at(&rt, &out.as_slice(), &b"-".as_slice(), &"too late");
    assert!(rt; server.join(&rt));
    Ok(())
}

#[test]
fn asks_over_a_unix_socket(rt: HostRuntime) -> Result<(), Fail> {
    let name = format!(in rt.alloc(); "socket-dialer-{}", process::id(rt.process()))?;
    let path = env::temp_dir(&rt)?.join(rt.alloc(), name.as_str())?;
    let address = path.to_str().ok_or("path")?;
    let listener = UnixListener::bind(&rt, address)?;
    let server = thread::spawn(&rt, move || serve(&mut listener.accept()?.0, &[CHALLENGE]))?;
    let mut dialer = dialer(&rt, address, long())?;
    let mut out = Bytes::new(rt.alloc());
    let dial = dialer.exchange(3, b"who", Shape::Challenge, &mut out);
    fs::remove_file(&rt, address)?;
    expect_at(&rt, &dial, &Dial::Heard, &"a challenge");
    expect_at(&rt, &out.as_slice(), &CHALLENGE, &"a challenge");
    server.join(&rt)?;
    Ok(())
}

// A vouch is asked over the connection that another dialer kept. What was given up while the challenge was asked isn't kept.
#[test]
fn finds_what_another_dialer_kept(rt: HostRuntime) -> Result<(), Fail> {
    let (listener, address) = listen(&rt)?;
    let server = thread::spawn(&rt, move || serve_tcp(&listener))?;
    let lines = SharedLines::new(rt.alloc()).ok_or("memory")?;
    let failures = SharedFailures::new(rt.alloc()).ok_or("memory")?;
    let (theirs, found) = (
        lines.share().ok_or("memory")?,
        failures.share().ok_or("memory")?,
    );
    let named = servers(&rt, &address)?;
    let mut one = TcpDialer::new(
        rt,
        rt.alloc(),
        named,
        short(),
        lines.of(rt),
        failures.of(rt),
    );
    let named = servers(&rt, &address)?;
    let mut two = TcpDialer::new(rt, rt.alloc(), named, short(), theirs.of(rt), found.of(rt));
    let mut out = Bytes::new(rt.alloc());
    let dial = one.exchange(7, b"who", Shape::Challenge, &mut out);
    expect_at(&rt, &dial, &Dial::Heard, &"a challenge");
    let dial = two.exchange(8, b"who", Shape::Vouch, &mut out);
    expect_at(&rt, &dial, &Dial::Failed, &"another conversation");
    let dial = two.exchange(7, b"who", Shape::Vouch, &mut out);
    expect_at(&rt, &dial, &Dial::Heard, &"a vouch");
    let dial = one.exchange(7, b"who", Shape::Vouch, &mut out);
    expect_at(&rt, &dial, &Dial::Failed, &"nothing is kept");
    for _ in 0..3 {
        one.exchange(9, b"who", Shape::Tickets, &mut out);
    }
    server.join(&rt)?;
    Ok(())
}

// A Unix socket whose queue is full, which nobody accepts from.
#[test]
fn fails_where_a_queue_stays_full(rt: HostRuntime) -> Result<(), Fail> {
    let name = format!(in rt.alloc(); "socket-full-{}", process::id(rt.process()))?;
    let path = env::temp_dir(&rt)?.join(rt.alloc(), name.as_str())?;
    let address = path.to_str().ok_or("path")?;
    let _listener = UnixListener::bind(&rt, address)?;
    let mut waiting: Vec<UnixStream> = Vec::new(rt.alloc());
    for _ in 0..10000 {
        match mio::net::UnixStream::connect(&rt, address) {
            Ok(stream) => waiting.push(UnixStream::from(stream))?,
            Err(error) => {
                expect_at(&rt, &error.kind(), &ErrorKind::WouldBlock, &"full");
                break;
            }
        }
    }
    let mut dialer = dialer(&rt, address, short())?;
    let mut out = Bytes::from_slice(rt.alloc(), b"-")?;
    let begun = Instant::now(&rt)?;
    let dial = dialer.exchange(1, b"who", Shape::Tickets, &mut out);
    let took = Instant::now(&rt)?.duration_since(begun);
    fs::remove_file(&rt, address)?;
    expect_at(&rt, &dial, &Dial::Failed, &"full");
    assert!(rt; took >= short() && took < long(), "{took:?}");
    Ok(())
}

// A server that gives part of an answer, and then nothing until it is hung up.
fn serve_half(listener: &TcpListener) -> io::Result<()> {
    let (mut stream, _) = listener.accept()?;
    stream.read_exact(&mut [0; 3])?;
    stream.write_all(&[4; 40])?;
    stream.read(&mut [0])?;
    Ok(())
}

// Two servers, the first of which stops in the middle of its answer: nothing of that is heard, the second one is asked, and by
// another dialer too, which waits for nothing.
#[test]
fn passes_over_a_server_that_stops(rt: HostRuntime) -> Result<(), Fail> {
    let (first, one) = listen(&rt)?;
    let (second, two) = listen(&rt)?;
    let addresses = format!(in rt.alloc(); "{one},{two}")?;
    let half = thread::spawn(&rt, move || serve_half(&first))?;
    let whole = thread::spawn(&rt, move || serve_twice(&second))?;
    let lines = SharedLines::new(rt.alloc()).ok_or("memory")?;
    let failures = SharedFailures::new(rt.alloc()).ok_or("memory")?;
    let (theirs, found) = (
        lines.share().ok_or("memory")?,
        failures.share().ok_or("memory")?,
    );
    let named = servers(&rt, &addresses)?;
    let mut dialer = TcpDialer::new(
        rt,
        rt.alloc(),
        named,
        short(),
        lines.of(rt),
        failures.of(rt),
    );
    let named = servers(&rt, &addresses)?;
    let mut other = TcpDialer::new(rt, rt.alloc(), named, short(), theirs.of(rt), found.of(rt));
    let mut out = Bytes::new(rt.alloc());
    let dial = dialer.exchange(1, b"who", Shape::Tickets, &mut out);
    expect_at(&rt, &dial, &Dial::Heard, &"the second one");
    expect_at(&rt, &out.as_slice(), &[5; 65].as_slice(), &"the second one");
    half.join(&rt)?;
    let begun = Instant::now(&rt)?;
    let dial = other.exchange(2, b"who", Shape::Tickets, &mut out);
    let took = Instant::now(&rt)?.duration_since(begun);
    expect_at(&rt, &dial, &Dial::Heard, &"the second one at once");
    assert!(rt; took < short(), "{took:?}");
    whole.join(&rt)?;
    Ok(())
}

// Two refusals, each on a connection of its own.
fn serve_twice(listener: &TcpListener) -> io::Result<()> {
    for _ in 0..2 {
        serve(&mut listener.accept()?.0, &[[5; 65].as_slice()])?;
    }
    Ok(())
}

// What is no list of addresses, and why.
static FAULTS: [(&[u8], AddressFault); 12] = [
    (b"", AddressFault::Empty),
    (b",a:567", AddressFault::Empty),
    (b"a:567,", AddressFault::Empty),
    (b"a:567,,/run/c", AddressFault::Empty),
    (b"127.0.0.1", AddressFault::NoPort),
    (b"a:", AddressFault::NoPort),
    (b":567", AddressFault::NoPort),
    (b"a:0", AddressFault::NoPort),
    (b"a:65536", AddressFault::NoPort),
    (b"a:567,b:5x", AddressFault::NoPort),
    (
        b"a:1,a:1,a:1,a:1,a:1,a:1,a:1,a:1,a:1,a:1,a:1,a:1,a:1,a:1,a:1,a:1,a:1",
        AddressFault::TooMany,
    ),
    (&[b'/'; 108], AddressFault::LongPath),
];

// What is one.
static ADDRESSES: [&[u8]; 5] = [
    b"a:567,b:567,/run/c",
    b"[::1]:65535",
    b"/",
    b"a:1,a:1,a:1,a:1,a:1,a:1,a:1,a:1,a:1,a:1,a:1,a:1,a:1,a:1,a:1,a:1",
    &[b'/'; 107],
];

#[test]
fn names_what_is_wrong_with_addresses(rt: HostRuntime) -> Result<(), Fail> {
    for (text, fault) in &FAULTS {
        expect_at(&rt, &check_addresses(text), &Err(*fault), text);
    }
    for text in &ADDRESSES {
        expect_at(&rt, &check_addresses(text), &Ok(()), text);
    }
    Ok(())
}

// How many bytes the second question of a mail login has.
const LONG: usize = 173;

// A server that takes a whole long question and gives it back.
fn give_back(listener: &TcpListener) -> io::Result<()> {
    let (mut stream, _) = listener.accept()?;
    let mut question = [0; LONG];
    stream.read_exact(&mut question)?;
    stream.write_all(&[5])?;
    stream.write_all(&question[LONG - 64..])
}

#[test]
fn sends_a_whole_long_question(rt: HostRuntime) -> Result<(), Fail> {
    let (listener, address) = listen(&rt)?;
    let server = thread::spawn(&rt, move || give_back(&listener))?;
    let mut dialer = dialer(&rt, &address, long())?;
    let mut question = [b'a'; LONG];
    question[LONG - 1] = b'z';
    let mut out = Bytes::new(rt.alloc());
    let dial = dialer.exchange(1, &question, Shape::Tickets, &mut out);
    expect_at(&rt, &dial, &Dial::Heard, &"all of it");
    expect_at(&rt, &out.len(), &65, &"its end");
    expect_at(&rt, &out.as_slice().last(), &Some(&b'z'), &"its last byte");
    server.join(&rt)?;
    Ok(())
}
