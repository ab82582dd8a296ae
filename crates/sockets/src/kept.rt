// The connections that dialers keep, by the numbers of conversations.
ghost use Rattle.std.specs.Prelude.{◌≡◌, OnErr, OnOk, Option, is_some, ℕ};
ghost use Rattle.sockets.specs.Kept.{Moves, Standing, is_held, settled, standing_in};
ghost use Rattle.sockets.specs.Kept.Standing.{Asked, Free};

use std::alloc::Global;
use std::collections::BTreeMap;
use std::sync::{Arc, Mutex, Wait};
use wire_base::NoMemory;

/// A connection under a conversation's number, or none yet where its first question is being asked.
type Places<L> = BTreeMap<u64, Option<L>>;

/// Where connections are kept between two questions of a conversation.
pub trait Keeps<L> {
    /// What stands under each number, where that is told.
    ghost standings: { Self → Option (ℕ → Standing) };

    /// Sets a place aside under a number, for the connection of a question that is asked now. What stood there is given up.
    fn reserve(&mut self, conv: u64) -> Result<(), NoMemory>
        ensures ok { OnOk result
            (Moves (λ _. Asked) conv (standings self.old) (standings self.new)) }
        ensures err { OnErr result
            (Moves (λ before. before) conv (standings self.old) (standings self.new)) };

    /// Keeps a connection in the place that was set aside. Where that was given up meanwhile, so is the connection.
    fn keep(&mut self, conv: u64, line: L)
        ensures { Moves settled conv (standings self.old) (standings self.new) };

    /// Gives up what stands under a number, and hands out the connection where there is one.
    fn take(&mut self, conv: u64) -> Option<L>
        ensures moved { Moves (λ _. Free) conv (standings self.old) (standings self.new) }
        ensures held { (told : ℕ → Standing) → standings self.old ≡ Some told
            → is_some result ≡ is_held (told conv) };
}

/// The connections of one dialer.
#[derive(Drop)]
pub struct OwnLines<L> {
    places: Places<L>,
}

impl<L> OwnLines<L> {
    /// None yet.
    pub fn new(alloc: Global) -> OwnLines<L>
        ensures { (conv : ℕ) → standing_in result.places conv ≡ Free }
    {
        OwnLines {
            places: BTreeMap::new(alloc),
        }
    }
}

impl<L: Drop> Keeps<L> for OwnLines<L> {
    ghost use Rattle.std.specs.Prelude.{Some};

    ghost standings = { λ own. Some (standing_in own.places) };

    fn reserve(&mut self, conv: u64) -> Result<(), NoMemory> {
        self.places.insert(conv, None)?;
        Ok(())
    }

    fn keep(&mut self, conv: u64, line: L) {
        if let Some(place) = self.places.get_mut(&conv) {
            *place = Some(line);
        }
    }

    fn take(&mut self, conv: u64) -> Option<L> {
        self.places.remove(&conv)?
    }
}

/// The connections of several dialers, which find each the ones that another kept. They tell no content.
#[derive(Drop)]
pub struct SharedLines<L> {
    places: Arc<Mutex<Places<L>>, Global>,
}

impl<L> SharedLines<L> {
    /// None yet; None where there is no memory for that.
    pub fn new(alloc: Global) -> Option<SharedLines<L>>
    where
        L: Drop,
    {
        let places = Mutex::new(BTreeMap::new(alloc));
        match Arc::new(alloc, places) {
            Ok(places) => Some(SharedLines { places }),
            Err(_) => None,
        }
    }

    /// The same ones, for another dialer.
    pub fn share(&self) -> Option<SharedLines<L>> {
        match Arc::try_clone(&self.places) {
            Ok(places) => Some(SharedLines { places }),
            Err(_) => None,
        }
    }

    /// Has a dialer keep its connections here. It may wait for the others, each of which is there for no longer than it
    /// looks.
    pub fn of<R>(self, rt: R) -> LinesOf<R, L> {
        let SharedLines { places } = self;
        LinesOf { rt, places }
    }
}

/// Shared connections as one dialer sees them.
#[derive(Drop)]
pub struct LinesOf<R, L> {
    rt: R,
    places: Arc<Mutex<Places<L>>, Global>,
}

impl<R: Wait, L: Drop> Keeps<L> for LinesOf<R, L> {
    ghost use Rattle.std.specs.Prelude.{None};

    ghost standings = { λ _. None };

    fn reserve(&mut self, conv: u64) -> Result<(), NoMemory> {
        let mut places = self.places.lock(&self.rt);
        (*places).insert(conv, None)?;
        Ok(())
    }

    fn keep(&mut self, conv: u64, line: L) {
        let mut places = self.places.lock(&self.rt);
        if let Some(place) = (*places).get_mut(&conv) {
            *place = Some(line);
        }
    }

    fn take(&mut self, conv: u64) -> Option<L> {
        let mut places = self.places.lock(&self.rt);
        (*places).remove(&conv)?
    }
}
