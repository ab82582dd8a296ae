// A connection to the server: the edge to the outside.
ghost use Rattle.std.specs.Prelude.{◌≡◌, IfSome, length};
ghost use Rattle.sockets.specs.Hearing.{HoldsAnswer};

use crate::hearing::read_answer;
use crate::sending::send_request;
use std::io::{self, ErrorKind, Read, Write};
use std::net::{IpAddr, Ipv4Addr, Net, OpenStream, SocketAddr, TcpStream, ToSocketAddrs};
use std::os::unix::net::UnixStream;
use std::thread;
use std::time::{Clock, Duration, Instant};
use wire_base::Shape;
use wire_streams::{MOST_ANSWER, ReadSource, WriteSink};

/// A connection over TCP, or over a Unix socket.
#[derive(Drop)]
pub enum Line<S> {
    Tcp(S),
    Unix(UnixStream),
}

/// A connection up to a moment, behind which each call fails.
#[derive(Drop)]
pub(crate) struct Timed<'a, C, S> {
    clock: &'a C,
    line: &'a mut Line<S>,
    until: Instant,
}

impl<C: Clock, S: Read + Write + OpenStream> Read for Timed<'_, C, S> {
    fn read(&mut self, buf: &mut [u8]) -> io::Result<usize> {
        let left = time_left(self.clock, self.until)?;
        match &mut *self.line {
            Line::Tcp(stream) => {
                stream.set_read_timeout(Some(left))?;
                stream.read(buf)
            }
            Line::Unix(stream) => {
                stream.set_read_timeout(Some(left))?;
                stream.read(buf)
            }
        }
    }
}

impl<C: Clock, S: Read + Write + OpenStream> Write for Timed<'_, C, S> {
    fn write(&mut self, buf: &[u8]) -> io::Result<usize> {
        let left = time_left(self.clock, self.until)?;
        match &mut *self.line {
            Line::Tcp(stream) => {
                stream.set_write_timeout(Some(left))?;
                stream.write(buf)
            }
            Line::Unix(stream) => {
                stream.set_write_timeout(Some(left))?;
                stream.write(buf)
            }
        }
    }

    fn flush(&mut self) -> io::Result<()> {
        Ok(())
    }
}

/// How long it is to a moment; none at all is an error.
pub(crate) fn time_left<C: Clock>(clock: &C, until: Instant) -> io::Result<Duration> {
    let left = until.duration_since(Instant::now(clock)?);
    if left.is_zero() {
        return Err(ErrorKind::TimedOut.into());
    }
    Ok(left)
}

/// The moment that is so far from now. None where there is no such moment.
pub(crate) fn deadline<C: Clock>(clock: &C, limit: Duration) -> Option<Instant> {
    Instant::now(clock).ok()?.checked_add(limit)
}

/// How many milliseconds pass until a Unix socket whose queue is full is tried again.
const REST: u64 = 5;

// Connects to a Unix socket. One whose queue is full is tried again up to a moment.
fn open_unix<N: Net + Clock>(net: &N, path: &str, until: Instant) -> io::Result<UnixStream> {
    for _ in 0..u64::MAX {
        match mio::net::UnixStream::connect(net, path) {
            Ok(stream) => {
                let stream = UnixStream::from(stream);
                stream.set_nonblocking(false)?;
                return Ok(stream);
            }
            Err(error) if error.kind() == ErrorKind::WouldBlock => {
                let left = time_left(net, until)?;
                thread::sleep(net, left.min(Duration::from_millis(REST)));
            }
            Err(error) => return Err(error),
        }
    }
    Err(ErrorKind::TimedOut.into())
}

/// Connects to a Unix socket. None where nobody takes the connection up to a moment.
pub(crate) fn open_path<N: Net + Clock>(
    net: &N,
    path: &[u8],
    until: Instant,
) -> Option<Line<N::Stream>> {
    let path = std::str::from_utf8(path).ok()?;
    Some(Line::Unix(open_unix(net, path, until).ok()?))
}

/// Connects over TCP. None where nobody takes the connection up to a moment.
pub(crate) fn open_place<N: Net + Clock>(
    net: &N,
    place: SocketAddr,
    until: Instant,
) -> Option<Line<N::Stream>> {
    let left = time_left(net, until).ok()?;
    let stream = TcpStream::connect_timeout(net, &place, left).ok()?;
    Some(Line::Tcp(stream))
}

/// How many addresses of one name are tried.
const MOST_PLACES: usize = 32;

/// The addresses of a host and its port.
#[derive(Clone, Copy)]
pub(crate) struct Places {
    found: [SocketAddr; MOST_PLACES],
    count: usize,
}

impl Places {
    /// Those of a host, `:` and a port. None where the name isn't known. How long a name is looked up isn't bounded.
    pub(crate) fn find<N: Net>(net: &N, host: &[u8]) -> Option<Places> {
        let host = std::str::from_utf8(host).ok()?;
        let nowhere = SocketAddr::new(IpAddr::V4(Ipv4Addr::UNSPECIFIED), 0);
        let mut found = [nowhere; MOST_PLACES];
        let mut count = 0;
        for place in host.to_socket_addrs(net).ok()? {
            if count < MOST_PLACES {
                found[count] = place;
                count += 1;
            }
        }
        Some(Places { found, count })
    }

    pub(crate) fn as_mut_slice(&mut self) -> &mut [SocketAddr] {
        let count = self.count.min(MOST_PLACES);
        &mut self.found[..count]
    }
}

/// Sends a request over a connection and reads the answer into the front of `room`, up to a moment. None where a call
/// failed, or nothing came.
pub(crate) fn ask<C: Clock, S: Read + Write + OpenStream>(
    clock: &C,
    line: &mut Line<S>,
    until: Instant,
    request: &[u8],
    shape: Shape,
    room: &mut [u8],
) -> Option<usize>
    requires { length room.old ≡ MOST_ANSWER }
    ensures room { length room.new ≡ length room.old }
    ensures heard { IfSome result (HoldsAnswer shape room.new) }
{
    let mut timed = Timed { clock, line, until };
    if send_request(request, &mut WriteSink::new(&mut timed)).is_err() {
        return None;
    }
    match read_answer(&mut ReadSource::new(&mut timed), shape, room) {
        None | Some(0) => None,
        Some(count) => Some(count),
    }
}
