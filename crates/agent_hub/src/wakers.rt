// What wakes a connection's job where it waits for bytes as well, which a bell can't. It carries no claim: who is woken looks
// at the agent for himself.
use mio::Waker;
use std::alloc::Global;
use std::collections::BTreeMap;
use std::sync::atomic::{AtomicU64, Ordering};
use std::sync::{Mutex, Wait};
use wire_base::NoMemory;

/// The wakers of some connections, by their numbers.
#[derive(Drop)]
pub(crate) struct Wakers {
    held: Mutex<BTreeMap<u64, Waker>>,
    // How many are held. Who finds none has nobody to wake: a job looks at the agent once its waker is held.
    count: AtomicU64,
}

impl Wakers {
    /// None yet.
    pub(crate) fn new(alloc: Global) -> Wakers {
        Wakers {
            held: Mutex::new(BTreeMap::new(alloc)),
            count: AtomicU64::new(0),
        }
    }

    /// Holds the waker of a connection, in the place of an earlier one.
    pub(crate) fn hold<R: Wait>(&self, rt: &R, conn: u64, waker: Waker) -> Result<(), NoMemory> {
        let mut held = self.held.lock(rt);
        (*held).insert(conn, waker)?;
        self.count.store((*held).len() as u64, Ordering::SeqCst);
        Ok(())
    }

    /// Gives up the waker of a connection.
    pub(crate) fn give_up<R: Wait>(&self, rt: &R, conn: u64) {
        let mut held = self.held.lock(rt);
        (*held).remove(&conn);
        self.count.store((*held).len() as u64, Ordering::SeqCst);
    }

    /// Wakes the job of a connection, if it has a waker here.
    pub(crate) fn wake<R: Wait>(&self, rt: &R, conn: u64) {
        if self.count.load(Ordering::SeqCst) == 0 {
            return;
        }
        let held = self.held.lock(rt);
        if let Some(waker) = (*held).get(&conn) {
            let _ = waker.wake();
        }
    }

    /// Wakes all jobs that have a waker here.
    pub(crate) fn wake_all<R: Wait>(&self, rt: &R) {
        if self.count.load(Ordering::SeqCst) == 0 {
            return;
        }
        let held = self.held.lock(rt);
        for waker in (*held).values() {
            let _ = waker.wake();
        }
    }
}
