// The listener over sockets.
ghost use Rattle.std.specs.Prelude.{◌≡◌, ◌≤◌, ◌⊎◌, IfErr, IfOk, Err, true, false};
ghost use Rattle.sockets.specs.Addresses.{is_path, is_unix};

use crate::connection::{SocketSink, SocketSource, ends_of};
use crate::listening_socket::Socket;
use crate::unix::{OpenFault, fault_of, listen_at};
use client_doors::Address;
use std::alloc::Global;
use std::fs::{File, Files};
use std::io::{self, ErrorKind};
use std::net::{Net, OpenListener, SocketAddr, TcpListener, TcpStream};
use std::os::unix::net::UnixListener;
use std::thread;
use std::time::{Clock, Duration};
use wire_base::{NoMemory, Text};
use wire_streams::{ListenFault, Listener};

/// How many milliseconds accepting rests after a failure that isn't the peer's, before it is tried again.
const REST: u64 = 50;

/// Where connections are accepted.
#[derive(Drop)]
pub(crate) enum Opened<L> {
    Tcp(L),
    Unix(UnixListener),
}

/// A listener over TCP or a Unix socket. It tells no content. What a client spoils, or what passes, as a want of file
/// descriptors or memory, isn't the end of accepting. Each failure that lasts is counted, up to the last value of the counter.
#[derive(Drop)]
pub struct SocketListener<R: Net> {
    rt: R,
    alloc: Global,
    opened: Opened<R::Listener>,
    patience: Option<Duration>,
    idle: Option<Duration>,
    faults: u64,
}

/// What a failure to accept means for the next try.
#[derive(Clone, Copy, Debug, PartialEq, Eq)]
enum Failure {
    /// It was this one connection's.
    Passing,
    /// The machine lacks something, for a while.
    Crowded,
    /// The listener itself is of no use.
    Lasting,
}

// The same address as text of std.
fn as_str(address: &Text) -> Result<&str, OpenFault>
    ensures { IfErr result (λ fault. fault ≡ OpenFault.BadAddress) }
{
    std::str::from_utf8(address.as_slice()).map_err(|_| OpenFault::BadAddress)
}

// Whether an address is a path.
fn is_path(address: &[u8]) -> bool
    ensures { result ≡ is_path address.now }
{
    match address {
        [first, ..] => *first == b'/',
        [] => false,
    }
}

// Listens at a host and a port.
fn open_tcp<R: Net>(rt: &R, address: &str) -> Result<R::Listener, OpenFault>
    ensures { result ≡ Err OpenFault.NoSocket → ⊥ }
{
    match TcpListener::bind(rt, address) {
        Ok(listener) => Ok(listener),
        Err(error) => Err(fault_of(error.kind())),
    }
}

impl<R: Net<Stream = TcpStream> + Files<File = File> + Clock + Drop> SocketListener<R> {
    /// Listens at an address: the path of a Unix socket where it begins with `/`, else a host, `:` and a port. Such a socket
    /// can be opened by its user alone. One that is there already, and on which nobody answers, is replaced; of two that begin
    /// there at once one alone listens. What is offered to a connection's peer is given up for now where there is no room for
    /// it within `patience`; where that is None it waits.
    pub fn open(
        rt: R,
        alloc: Global,
        address: &Text,
        patience: Option<Duration>,
    ) -> Result<SocketListener<R>, OpenFault>
        ensures form { IfOk result (λ listener. is_unix listener.opened ≡ is_path address.now) }
        ensures faults { IfOk result (λ listener. listener.faults ≡ 0) }
        ensures no_socket { result ≡ Err OpenFault.NoSocket → is_path address.now ≡ true }
    {
        let place = as_str(address)?;
        let opened = if is_path(address.as_slice()) {
            Opened::Unix(listen_at(&rt, alloc, place)?)
        } else {
            Opened::Tcp(open_tcp(&rt, place)?)
        };
        Ok(SocketListener {
            rt,
            alloc,
            opened,
            patience,
            idle: None,
            faults: 0,
        })
    }
}

impl<R: Net<Stream = TcpStream> + Files + Clock + Drop> SocketListener<R> {
    /// The host's address and the port at which it listens. None at a Unix socket, and where the system doesn't tell it.
    pub fn local_addr(&self) -> Option<SocketAddr> {
        match &self.opened {
            Opened::Tcp(listener) => listener.local_addr().ok(),
            Opened::Unix(_) => None,
        }
    }

    /// Has each connection from now on fail on which nothing is sent to us, or taken of us, for so long while that is awaited.
    /// It takes the place of `patience`.
    pub fn with_idle(self, idle: Duration) -> SocketListener<R>
        ensures form { is_unix result.opened ≡ is_unix self.opened }
        ensures faults { result.faults ≡ self.faults }
    {
        SocketListener {
            idle: Some(idle),
            ..self
        }
    }

    // Waits for the next connection, and says whose it is.
    fn accept_socket(&self) -> io::Result<(Socket, Option<Address>)> {
        match &self.opened {
            Opened::Tcp(listener) => {
                let (stream, from) = listener.accept()?;
                Ok((Socket::Tcp(stream), Some(Address::new(from.ip()))))
            }
            Opened::Unix(listener) => Ok((Socket::Unix(listener.accept()?.0), None)),
        }
    }

    // Sets how long is waited on a connection.
    fn set_limits(&self, socket: &Socket) -> io::Result<()> {
        match self.idle {
            Some(_) => socket.set_idle(self.idle),
            None => socket.set_patience(self.patience),
        }
    }

    // Waits for the next connection, and makes its two ends.
    fn accept_once(&self) -> io::Result<(SocketSource, SocketSink)> {
        let (socket, address) = self.accept_socket()?;
        self.set_limits(&socket)?;
        match ends_of(self.alloc, socket, address, self.idle.is_some()) {
            Ok(ends) => Ok(ends),
            Err(NoMemory) => Err(ErrorKind::OutOfMemory.into()),
        }
    }

    // Waits for the next connection, whatever spoils others meanwhile. None where accepting has no use any more.
    fn accept_next(&self) -> Option<(SocketSource, SocketSink)> {
        for _ in 0..u64::MAX {
            match self.accept_once() {
                Ok(pair) => return Some(pair),
                Err(error) => match failure_of(error.kind()) {
                    Failure::Passing => {}
                    Failure::Crowded => thread::sleep(&self.rt, Duration::from_millis(REST)),
                    Failure::Lasting => return None,
                },
            }
        }
        None
    }
}

// What a failure to accept means.
fn failure_of(kind: ErrorKind) -> Failure
    ensures { result ≡ Failure.Lasting
        → (kind ≡ ErrorKind.InvalidInput) ⊎ (kind ≡ ErrorKind.Unsupported) }
{
    match kind {
        ErrorKind::ConnectionAborted | ErrorKind::ConnectionReset | ErrorKind::Interrupted => {
            Failure::Passing
        }
        ErrorKind::InvalidInput | ErrorKind::Unsupported => Failure::Lasting,
        _ => Failure::Crowded,
    }
}

impl<R: Net<Stream = TcpStream> + Files + Clock + Drop> Listener for SocketListener<R> {
    ghost use Rattle.std.specs.Prelude.{None};
    ghost use Rattle.std.specs.Result.{is_err};
    ghost use Rattle.wire_streams.specs.Listening.{Accepts};
    ghost use Rattle.wire_streams.specs.Causes.{CountsOutcome};

    type In = SocketSource;

    type Out = SocketSink;

    ghost to_come = { λ _. None };

    ghost faults = { λ listener. listener.faults };

    fn accept(&mut self) -> Result<(SocketSource, SocketSink), ListenFault>
        ensures accepted { Accepts None None result }
        ensures counted { self.old.faults ≤ self.new.faults }
        ensures exact { CountsOutcome self.old.faults self.new.faults (is_err result) }
        ensures form { is_unix self.new.opened ≡ is_unix self.old.opened }
    {
        match self.accept_next() {
            Some(ends) => Ok(ends),
            None => {
                self.faults = self.faults.saturating_add(1);
                Err(ListenFault)
            }
        }
    }
}
