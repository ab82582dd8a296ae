// Connections that come over sockets.
use crate::expect::expect;
use sockets::{OpenFault, SocketListener};
use std::alloc::Global;
use std::fs::Files;
use std::io::{Read, Write};
use std::net::{Net, TcpListener, TcpStream};
use std::os::unix::fs::MetadataExt;
use std::os::unix::net::UnixStream;
use std::test::Fail;
use std::time::Clock;
use std::{env, fs, process};
use wire_base::Text;
use wire_streams::{Got, Listener, Put, Sink, Source};

fn text(alloc: Global, bytes: &[u8]) -> Result<Text, Fail> {
    Text::from_slice(alloc, bytes)?.ok_or_else(|| "text".into())
}

// What the peer sends is read, and what is written comes to it.
fn speaks<R: Net<Stream = TcpStream> + Files + Clock + Drop, S: Read + Write>(
    listener: &mut SocketListener<R>,
    peer: &mut S,
) -> Result<bool, Fail> {
    let Ok((mut source, mut sink)) = listener.accept() else {
        return Ok(false);
    };
    peer.write_all(b"who")?;
    let mut heard = [b'-'; 3];
    let got = source.read(&mut heard);
    let put = sink.write(b"me!");
    let mut said = [b'-'; 3];
    peer.read_exact(&mut said)?;
    Ok(got == Got::Bytes(3) && put == Put::Took(3) && heard == *b"who" && said == *b"me!")
}

// An address of this machine whose port nobody has.
fn free_address(rt: &HostRuntime) -> Result<Text, Fail> {
    let listener = TcpListener::bind(rt, "127.0.0.1:0")?;
    let address = format!(in rt.alloc(); "{}", listener.local_addr()?)?;
    text(rt.alloc(), address.as_bytes())
}

#[test]
fn accepts_over_tcp(rt: HostRuntime) -> Result<(), Fail> {
    let address = free_address(&rt)?;
    let place = std::str::from_utf8(address.as_slice()).map_err(|_| "address")?;
    let mut listener = SocketListener::open(rt, rt.alloc(), &address, None).map_err(
        |_| "it doesn't listen",
    )?;
    let mut peer = TcpStream::connect(&rt, place)?;
    assert!(rt; speaks(&mut listener, &mut peer)?);
    for bad in [b"127.0.0.1".as_slice(), b"127.0.0.1:x", b""] {
        let opened = SocketListener::open(rt, rt.alloc(), &text(rt.alloc(), bad)?, None);
        assert!(rt; matches!(opened, Err(OpenFault::BadAddress)));
    }
    Ok(())
}

#[test]
fn accepts_over_a_unix_socket(rt: HostRuntime) -> Result<(), Fail> {
    let alloc = rt.alloc();
    let name = format!(in alloc; "socket-listener-{}", process::id(rt.process()))?;
    let path = env::temp_dir(&rt)?.join(alloc, name.as_str())?;
    let place = path.to_str().ok_or("path")?;
    let address = text(alloc, place.as_bytes())?;
    for _ in 0..2 {
        // The second round finds the file of a listener that is gone.
        let mut listener = SocketListener::open(rt, alloc, &address, None).map_err(
            |_| "it doesn't listen",
        )?;
        let mut peer = UnixStream::connect(&rt, place)?;
        assert!(rt; speaks(&mut listener, &mut peer)?);
        let mode = fs::metadata(&rt, place)?.mode();
        expect(&rt, &(mode % 0o1000), &0o600);
        let second = SocketListener::open(rt, alloc, &address, None);
        assert!(rt; matches!(second, Err(OpenFault::InUse)));
    }
    fs::remove_file(&rt, place)?;
    fs::write(&rt, place, "not a socket")?;
    let opened = SocketListener::open(rt, alloc, &address, None);
    assert!(rt; matches!(opened, Err(OpenFault::NoSocket)));
    fs::remove_file(&rt, place)?;
    Ok(())
}
