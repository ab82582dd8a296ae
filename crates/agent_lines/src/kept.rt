// The replies of a connection that were taken and not yet written.
ghost use Rattle.std.specs.Prelude.{◌≡◌, ◌≤◌, ◌<◌, ◌++◌, [], length, drop, OnErr, true};
ghost use Rattle.wire_streams.specs.Causes.{Rose};
ghost use Rattle.agent_hub.specs.Submits.{IsSeatOf};
ghost use Rattle.agent_hub.specs.Requesting.{frames_in};
ghost use Rattle.agent_hub.specs.Exchanging.{IsCollected, IsExchanged};
ghost use Rattle.agent_lines.specs.Turns.{Sends, has_room};

use agent_hub::{Exchanged, Hub, HubSeat, TakesEnd};
use std::alloc::Global;
use std::marker::Model;
use std::mem;
use std::sync::Wait;
use wire_base::Bytes;
use wire_streams::{Offer, Offers, WriteFault};

/// How many bytes of replies are kept at most, for a client that doesn't read them: 1 MiB.
const MOST_KEPT: usize = 1 << 20;

/// How many bytes a batch of frames and the reads of a connection that wait may give: 32 and 64 replies of 8216 bytes.
const MOST_GIVEN: usize = (32 + 64) * 8216;

/// With how many bytes at most one batch more still fits.
const MOST_LEFT: usize = MOST_KEPT - MOST_GIVEN;

/// From how many bytes on that were written, what stands behind them is moved to the front.
const LONG_GAP: usize = 65536;

/// From how many bytes on that were written, the block is let go where nothing is kept. A shorter one takes the next replies.
const SHORT_GAP: usize = 4096;

/// Bytes to be written, and how many requests have no reply yet, which carries no claim.
#[derive(Drop)]
pub(crate) struct Kept {
    alloc: Global,
    bytes: Bytes,
    from: usize,
    owed: u64,
    more: bool,
}

impl Model for Kept {
    ghost use Rattle.std.specs.Prelude.{◌≤◌, ℕ, List, length, drop};

    ghost Value = { List ℕ };

    ghost view = { λ k. drop k.from k.bytes };

    ghost invariant = { λ k. k.from ≤ length k.bytes };
}

impl Kept {
    /// None.
    pub(crate) fn new(alloc: Global) -> Kept
        ensures { result ≡ [] }
    {
        Kept {
            alloc,
            bytes: Bytes::new(alloc),
            from: 0,
            owed: 0,
            more: false,
        }
    }

    pub(crate) fn len(&self) -> usize
        ensures { result ≡ length self.now }
    {
        self.bytes.len() - self.from
    }

    /// Whether one batch more and all that waits would still fit.
    pub(crate) fn has_room(&self) -> bool
        ensures { result ≡ has_room self.now }
    {
        self.len() <= MOST_LEFT
    }

    /// Whether a request has no reply yet.
    pub(crate) fn is_owed(&self) -> bool {
        self.owed > 0
    }

    /// Whether replies may be left that needn't wait, since there was no memory for them.
    pub(crate) fn has_more(&self) -> bool {
        self.more
    }

    // Counts what has a reply now, and what has none.
    fn count(&mut self, entered: u64, taken: u64, end: TakesEnd)
        ensures { self.new ≡ self.old }
    {
        self.owed = self.owed.saturating_add(entered).saturating_sub(taken);
        self.more = end == TakesEnd::Left;
    }

    /// A batch of frames in one turn of the hub, whose replies are kept.
    pub(crate) fn exchange<R: Wait>(
        &mut self,
        rt: &R,
        hub: &Hub,
        seat: HubSeat,
        conn: u64,
        frames: &[u8],
        words: &[[u8; 8]],
    ) -> (HubSeat, Exchanged)
        requires { IsSeatOf hub.now seat }
        ensures seat { IsSeatOf hub.now result.0 }
        ensures exchanged { IsExchanged conn (frames_in frames.now) words.now result.1
            self.old self.new seat result.0 }
    {
        let alloc = self.alloc;
        let (seat, came) = hub.exchange(rt, alloc, seat, conn, frames, words, &mut self.bytes);
        self.count(came.entered as u64, came.taken, came.end);
        (seat, came)
    }

    /// Takes replies in one turn of the hub, until there are so many bytes, and keeps them.
    pub(crate) fn collect<R: Wait>(
        &mut self,
        rt: &R,
        hub: &Hub,
        seat: HubSeat,
        conn: u64,
    ) -> (HubSeat, TakesEnd)
        requires { IsSeatOf hub.now seat }
        ensures seat { IsSeatOf hub.now result.0 }
        ensures collected { IsCollected conn result.1 self.old self.new seat result.0 }
    {
        let most = self.from.saturating_add(MOST_KEPT);
        let (seat, taken, end) = hub.collect(rt, seat, conn, most, &mut self.bytes);
        self.count(0, taken, end);
        (seat, end)
    }

    /// Offers what is kept to a sink, once.
    pub(crate) fn offer<W: Offers>(&mut self, sink: &mut W) -> Result<(), WriteFault>
        ensures sends { Sends (W.holds sink.old) (W.holds sink.new) self.old self.new }
        ensures left { OnErr result (0 < length self.new) }
        ensures cause { OnErr result (Rose (W.faults sink.old) (W.faults sink.new)) }
        ensures counted { W.faults sink.old ≤ W.faults sink.new }
    {
        if self.len() == 0 {
            return Ok(());
        }
        match sink.offer(self.bytes.as_slice().split_at(self.from).1) {
            Offer::Took(count) => {
                self.pass(count);
                Ok(())
            }
            Offer::Full => Ok(()),
            Offer::Failed => Err(WriteFault),
        }
    }

    // Passes so many bytes that were written.
    fn pass(&mut self, count: usize)
        requires { count ≤ length self.old }
        ensures { self.new ≡ drop count self.old }
    {
        let whole = self.bytes.len();
        self.from += count;
        let most = if self.from == whole {
            SHORT_GAP
        } else {
            LONG_GAP
        };
        if self.from >= most {
            self.close_gap();
        }
    }

    // Lets go of what was written, and of the memory where nothing is kept.
    fn close_gap(&mut self)
        ensures { self.new ≡ self.old }
    {
        let mut list = mem::replace(&mut self.bytes, Bytes::new(self.alloc)).into_vec();
        let_go(self.alloc, &mut list, self.from);
        self.bytes = Bytes::from_vec(list);
        self.from = 0;
    }
}

// Lets go of so many bytes, and of the memory where no others stand behind them.
fn let_go(alloc: Global, bytes: &mut Vec<u8>, front: usize)
    requires { front ≤ length bytes.old.items }
    ensures { bytes.new.items ≡ drop front bytes.old.items }
{
    let held = bytes.len() - front;
    if held == 0 {
        *bytes = Vec::new(alloc);
    } else if front > 0 {
        bytes.copy_within(front.., 0);
        bytes.truncate(held);
    }
}
