// A connection that is accepted.
use std::io;
use std::net::TcpStream;
use std::os::fd::{AsRawFd, RawFd};
use std::os::unix::net::UnixStream;
use std::time::Duration;

/// A connection over TCP, or over a Unix socket.
#[derive(Drop)]
pub(crate) enum Socket {
    Tcp(TcpStream),
    Unix(UnixStream),
}

impl Socket {
    /// Has a write that finds no room wait for so long, and without an end where none is given.
    pub(crate) fn set_patience(&self, patience: Option<Duration>) -> io::Result<()> {
        match self {
            Socket::Tcp(stream) => stream.set_write_timeout(patience),
            Socket::Unix(stream) => stream.set_write_timeout(patience),
        }
    }

    /// Has a read or a write fail with which nothing is done for so long; without an end where none is given.
    pub(crate) fn set_idle(&self, idle: Option<Duration>) -> io::Result<()> {
        match self {
            Socket::Tcp(stream) => {
                stream.set_read_timeout(idle)?;
                stream.set_write_timeout(idle)
            }
            Socket::Unix(stream) => {
                stream.set_read_timeout(idle)?;
                stream.set_write_timeout(idle)
            }
        }
    }

    /// The number of its descriptor.
    pub(crate) fn descriptor(&self) -> RawFd {
        match self {
            Socket::Tcp(stream) => stream.as_raw_fd(),
            Socket::Unix(stream) => stream.as_raw_fd(),
        }
    }
}
