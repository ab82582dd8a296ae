// What wakes the loops that wait. Bells and wakers carry no claim: a loop looks at the agent for itself once it is awake.
use crate::wakers::Wakers;
use agent_core::{News, SettledFor};
use agent_history::Event;
use std::alloc::Global;
use std::sync::Wait;
use turn_lock::{Bell, Bells};
use wire_base::NoMemory;

/// How many bells there are besides the first for the replies of connections.
const MORE_BELLS: u32 = 255;

/// The bells of a hub, and the wakers of jobs that wait for bytes as well.
#[derive(Drop)]
pub(crate) struct HubBells {
    // Each is rung when there may be new replies on a connection of its number, or the end of one.
    replies: Bells,
    // Each is woken when the bell of its connection is rung.
    pub(crate) wakers: Wakers,
    /// It is rung when there may be something new to ask the authentication server, or to give up there.
    pub(crate) questions: Bell,
}

impl HubBells {
    pub(crate) fn new(alloc: Global) -> Result<HubBells, NoMemory> {
        let Some(replies) = Bells::new(alloc, MORE_BELLS) else {
            return Err(NoMemory);
        };
        Ok(HubBells {
            replies,
            wakers: Wakers::new(alloc),
            questions: Bell::new(),
        })
    }

    /// The bell of a connection.
    pub(crate) fn of(&self, conn: u64) -> &Bell {
        self.replies.of(conn)
    }

    /// Rings for an event that was submitted, and for what is new behind it: on the connection whose event it was, on those
    /// whose reads were settled, on all where the agent stopped, and for what is due to be asked.
    pub(crate) fn ring_for<R: Wait>(&self, rt: &R, event: &Event, news: News) {
        match event {
            Event::Request { conn, .. } => self.ring(rt, *conn),
            Event::Hang { conn } => self.ring(rt, *conn),
            _ => {}
        }
        match news.settled {
            SettledFor::One(conn) => self.ring(rt, conn),
            SettledFor::Nobody | SettledFor::Several => {}
        }
        self.ring_all_for(rt, news);
    }

    /// Rings for what is new behind the events of a connection that takes its own replies: on the other connection
    /// whose reads were settled, on all where these are several or the agent stopped, and for what is due to be asked.
    pub(crate) fn ring_others<R: Wait>(&self, rt: &R, own: u64, news: News) {
        match news.settled {
            SettledFor::One(conn) if conn != own => self.ring(rt, conn),
            SettledFor::Nobody | SettledFor::One(_) | SettledFor::Several => {}
        }
        self.ring_all_for(rt, news);
    }

    // Rings on a connection, and wakes its job.
    fn ring<R: Wait>(&self, rt: &R, conn: u64) {
        self.of(conn).ring();
        self.wakers.wake(rt, conn);
    }

    // Rings on all connections where reads of several were settled, or the agent stopped; and for what is due to be
    // asked.
    fn ring_all_for<R: Wait>(&self, rt: &R, news: News) {
        if news.settled == SettledFor::Several {
            self.replies.ring_all();
            self.wakers.wake_all(rt);
        }
        if news.asks {
            self.questions.ring();
        }
    }
}
