// What a connection at a socket waits by.
use agent_hub::Hub;
use mio::unix::SourceFd;
use mio::{Events, Interest, Poll, Token, Waker};
use std::alloc::Global;
use std::net::Net;
use std::os::fd::RawFd;
use std::sync::Wait;
use std::time::{Clock, Duration};
use std::{io, thread};
use wire_streams::{Awaits, Ready, Wants};

/// How many milliseconds a wait rests that the system has no descriptors for.
const REST: u64 = 5;

/// What the system tells of the connection.
const SOCKET: Token = Token(0);

/// What the hub tells of its replies.
const REPLIES: Token = Token(1);

/// How many things are told at a time.
const MOST_EVENTS: usize = 2;

/// What the system is asked by, while it is.
#[derive(Drop)]
struct Watch {
    poll: Poll,
    events: Events,
    // Whether the hub told of replies, and nobody has been told yet.
    woken: bool,
}

/// What waits until something may be done on a connection: bytes be read, others be written, or replies be taken, of which
/// its hub tells. While bytes alone are awaited it doesn't wait, since the read does, and has no descriptor of its own; else
/// it has two. Where the connection has no descriptor, or the system gives none, it rests for some milliseconds and has the
/// replies looked for.
pub struct LineWaits<'a, R: Wait> {
    rt: &'a R,
    alloc: Global,
    hub: &'a Hub,
    conn: u64,
    descriptor: Option<RawFd>,
    watch: Option<Watch>,
}

impl<'a, R: Wait> LineWaits<'a, R> {
    /// What waits on the connection of this number, which has this descriptor, if it has one.
    pub fn new(
        rt: &'a R,
        alloc: Global,
        hub: &'a Hub,
        conn: u64,
        descriptor: Option<RawFd>,
    ) -> LineWaits<'a, R> {
        LineWaits {
            rt,
            alloc,
            hub,
            conn,
            descriptor,
            watch: None,
        }
    }

    // Gives up what the system is asked by.
    fn rest(&mut self) {
        if self.watch.is_some() {
            self.hub.wake_no_more(self.rt, self.conn);
            self.watch = None;
        }
    }
}

impl<'a, R: Wait + Net> LineWaits<'a, R> {
    // What the system is asked by from now on, of which the hub is told.
    fn watch(&self, mut socket: SourceFd<'_>) -> io::Result<Watch> {
        let poll = Poll::new(self.rt)?;
        let events = Events::with_capacity(self.alloc, MOST_EVENTS)?;
        let waker = Waker::new(poll.registry(), REPLIES)?;
        poll.registry()
            .register(&mut socket, SOCKET, Interest::PRIORITY)?;
        match self.hub.wake_by(self.rt, self.conn, waker) {
            Ok(()) => Ok(Watch {
                poll,
                events,
                woken: true,
            }),
            Err(_) => Err(io::ErrorKind::OutOfMemory.into()),
        }
    }

    // Waits for what is wanted of the connection of this descriptor, where that isn't bytes alone.
    fn wait(&mut self, descriptor: RawFd, wants: Wants) -> io::Result<Ready> {
        if self.watch.is_none() {
            self.watch = Some(self.watch(SourceFd(&descriptor))?);
        }
        let Some(watch) = &mut self.watch else {
            return Ok(Ready::Replies);
        };
        if watch.take_word(wants) {
            return Ok(Ready::Replies);
        }
        let mut socket = SourceFd(&descriptor);
        watch
            .poll
            .registry()
            .reregister(&mut socket, SOCKET, interest_in(wants))?;
        for _ in self.rt.forever() {
            watch.poll.poll(&mut watch.events, None)?;
            if let Some(ready) = watch.look(wants) {
                return Ok(ready);
            }
        }
        unreachable!()
    }
}

impl<'a, R: Wait + Net + Clock> Awaits for LineWaits<'a, R> {
    fn await_one(&mut self, wants: Wants) -> Ready {
        if !wants.room && !wants.replies {
            self.rest();
            return Ready::Bytes;
        }
        if let Some(descriptor) = self.descriptor
            && let Ok(ready) = self.wait(descriptor, wants)
        {
            return ready;
        }
        self.rest();
        thread::sleep(self.rt, Duration::from_millis(REST));
        if wants.replies {
            Ready::Replies
        } else {
            Ready::Room
        }
    }
}

impl<'a, R: Wait> Drop for LineWaits<'a, R> {
    fn drop(self) {
        let LineWaits {
            rt,
            alloc: _,
            hub,
            conn,
            descriptor: _,
            watch,
        } = self;
        if watch.is_some() {
            hub.wake_no_more(rt, conn);
        }
    }
}

impl Watch {
    // Whether the hub told of replies, which are wanted.
    fn take_word(&mut self, wants: Wants) -> bool {
        let told = wants.replies && self.woken;
        if told {
            self.woken = false;
        }
        told
    }

    // What may be done of what is wanted, by what the system told.
    fn look(&mut self, wants: Wants) -> Option<Ready> {
        let mut bytes = false;
        let mut room = false;
        for event in self.events.iter() {
            if event.token() == REPLIES {
                self.woken = true;
            } else {
                let ended = event.is_error() || event.is_write_closed();
                bytes = bytes || ended || event.is_readable() || event.is_read_closed();
                room = room || ended || event.is_writable();
            }
        }
        if self.take_word(wants) {
            return Some(Ready::Replies);
        }
        if wants.bytes && bytes {
            return Some(Ready::Bytes);
        }
        if wants.room && room {
            return Some(Ready::Room);
        }
        None
    }
}

// What the system is to tell of the connection.
fn interest_in(wants: Wants) -> Interest {
    match (wants.bytes, wants.room) {
        (true, true) => Interest::READABLE | Interest::WRITABLE,
        (true, false) => Interest::READABLE,
        (false, true) => Interest::WRITABLE,
        (false, false) => Interest::PRIORITY,
    }
}
