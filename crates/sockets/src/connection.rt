// The two ends of a connection, over one socket.
ghost use Rattle.std.specs.Prelude.{◌≡◌, ◌<◌, ◌≤◌, IfOk, length};

use crate::listening_socket::Socket;
use client_doors::{Address, HasAddress};
use std::alloc::Global;
use std::io::{self, ErrorKind, Read, Write};
use std::os::fd::RawFd;
use std::sync::Arc;
use wire_base::NoMemory;
use wire_streams::{Got, Offer, Offers, Put, ReadSource, Sink, Source, Watched};

/// One of the two that hold a connection.
#[derive(Drop)]
struct Shared(Arc<Socket, Global>);

impl Read for Shared {
    fn read(&mut self, buf: &mut [u8]) -> io::Result<usize> {
        match &*self.0 {
            Socket::Tcp(stream) => {
                let mut stream = stream;
                stream.read(buf)
            }
            Socket::Unix(stream) => {
                let mut stream = stream;
                stream.read(buf)
            }
        }
    }
}

impl Write for Shared {
    fn write(&mut self, buf: &[u8]) -> io::Result<usize> {
        match &*self.0 {
            Socket::Tcp(stream) => {
                let mut stream = stream;
                stream.write(buf)
            }
            Socket::Unix(stream) => {
                let mut stream = stream;
                stream.write(buf)
            }
        }
    }

    fn flush(&mut self) -> io::Result<()> {
        Ok(())
    }
}

/// What the peer of a connection sends. It tells no content. Each read that fails is counted, up to the last value of the
/// counter.
#[derive(Drop)]
pub struct SocketSource {
    inner: ReadSource<Shared>,
    descriptor: RawFd,
    address: Option<Address>,
}

/// What is sent to the peer of a connection. It tells no content. Each write that fails, or takes nothing, is counted, up to
/// the last value of the counter.
#[derive(Drop)]
pub struct SocketSink {
    socket: Shared,
    gives_up: bool,
    faults: u64,
}

/// The two ends of a connection, which share its one descriptor. A write that finds no room in time fails where it gives up, and
/// is made again elsewhere.
pub(crate) fn ends_of(
    alloc: Global,
    socket: Socket,
    address: Option<Address>,
    gives_up: bool,
) -> Result<(SocketSource, SocketSink), NoMemory> {
    let descriptor = socket.descriptor();
    let Ok(socket) = Arc::new(alloc, socket) else {
        return Err(NoMemory);
    };
    let Ok(other) = Arc::try_clone(&socket) else {
        return Err(NoMemory);
    };
    let source = SocketSource {
        inner: ReadSource::new(Shared(socket)),
        descriptor,
        address,
    };
    let sink = SocketSink {
        socket: Shared(other),
        gives_up,
        faults: 0,
    };
    Ok((source, sink))
}

impl Source for SocketSource {
    ghost use Rattle.std.specs.Prelude.{None};
    ghost use Rattle.wire_streams.specs.Adapters.{read_faults};

    ghost left = { λ _. None };

    ghost faults = { λ source. read_faults source.inner };

    fn read(&mut self, out: &mut [u8]) -> Got {
        self.inner.read(out)
    }
}

impl Watched for SocketSource {
    fn descriptor(&self) -> Option<RawFd> {
        Some(self.descriptor)
    }
}

impl HasAddress for SocketSource {
    ghost address_of = { λ source. source.address };

    fn address(&self) -> Option<Address> {
        self.address
    }
}

/// Why a write took nothing.
#[derive(Clone, Copy, Debug, PartialEq, Eq)]
enum Stop {
    /// A signal came.
    Interrupted,
    /// There was no room in time.
    Full,
    /// It failed.
    Failed,
}

impl SocketSink {
    // One write, and how much it took.
    fn write_once(&mut self, piece: &[u8]) -> Result<usize, Stop>
        requires { 0 < length piece.now }
        ensures took { IfOk result (λ count. (0 < count) × (count ≤ length piece.now)) }
        ensures faults { self.new.faults ≡ self.old.faults }
    {
        match self.socket.write(piece) {
            Ok(0) => Err(Stop::Failed),
            Ok(count) => Ok(count),
            Err(error) => match error.kind() {
                ErrorKind::WouldBlock | ErrorKind::TimedOut => Err(Stop::Full),
                ErrorKind::Interrupted => Err(Stop::Interrupted),
                _ => Err(Stop::Failed),
            },
        }
    }

    // Whether a write that was stopped so is made again.
    fn goes_on(&self, stop: Stop) -> bool {
        match stop {
            Stop::Interrupted => true,
            Stop::Full => !self.gives_up,
            Stop::Failed => false,
        }
    }
}

impl Sink for SocketSink {
    ghost use Rattle.std.specs.Prelude.{None};

    ghost holds = { λ _. None };

    ghost faults = { λ sink. sink.faults };

    // It waits for room as long as it takes, unless it gives up.
    fn write(&mut self, piece: &[u8]) -> Put {
        for _ in 0..u64::MAX {
            match self.write_once(piece) {
                Ok(count) => return Put::Took(count),
                Err(stop) => {
                    if !self.goes_on(stop) {
                        self.faults = self.faults.saturating_add(1);
                        return Put::Failed;
                    }
                }
            }
        }
        self.faults = self.faults.saturating_add(1);
        Put::Failed
    }
}

impl Offers for SocketSink {
    fn offer(&mut self, piece: &[u8]) -> Offer {
        match self.write_once(piece) {
            Ok(count) => Offer::Took(count),
            Err(Stop::Interrupted | Stop::Full) => Offer::Full,
            Err(Stop::Failed) => {
                self.faults = self.faults.saturating_add(1);
                Offer::Failed
            }
        }
    }
}
