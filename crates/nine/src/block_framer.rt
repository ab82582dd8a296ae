// A framer that reads its stream. What was read and wasn't handed out stands between two places of a block:
//
//     bytes:  handed out .. held .. room
//                          ^ front  ^ end
//
// Before more is read what is held is moved to the front of the block. A frame is shown where it stands, and never copied.
ghost use Rattle.std.specs.Prelude.{◌≡◌, ◌≤◌, ◌<◌, ◌+◌, ◌-◌, ◌^◌, ℕ, List, [], ◌∷◌, ◌++◌, length, drop, take, IfOk, OnOk, OnErr};
ghost use Rattle.wire_streams.specs.Causes.{CountsOutcome};
ghost use Rattle.wire_streams.specs.Streams.{read_failed};
ghost use Rattle.nine.specs.Streams.{front, IsShort, IsWhole};
ghost use Rattle.nine.specs.Framed.{passed, with_more};
ghost use Rattle.nine.specs.Framing.{HasHandedOut, HasWhole, FillsAtMost, FillsSo, Shows, ShowsNext};
ghost use Rattle.nine.specs.AtFronts.{shown};
ghost use Rattle.nine.specs.Batches.{AreFrames, FollowsSo};

use crate::batch::{Batch, Behind, batch_in};
use crate::block::{filled_to, move_up, read_into};
use crate::framer::Framer;
use crate::front::{AtFront, at_front};
use std::alloc::Global;
use std::marker::Model;
use wire_base::NoMemory;
use wire_streams::{Got, Source};

/// What a framer shows of the next frame.
#[derive(Clone, Copy)]
pub enum Peek<'a> {
    /// The first frame that wasn't handed out.
    Whole(&'a [u8]),
    /// The bytes held are no whole frame, and show no bad size.
    NotYet,
    /// The next four bytes give a size under 7 or over the limit; `at` is their offset in the stream.
    BadSize { at: u64, size: u32 },
}

/// Cuts a stream that it reads into its frames, each handed out once and in order. `Framer::with_block` makes it, with all the
/// memory that it takes.
#[derive(Drop)]
pub struct BlockFramer {
    limit: u32,
    room: usize,
    before: u64,
    bytes: Vec<u8>,
    front: usize,
    end: usize,
}

impl Model for BlockFramer {
    ghost use Rattle.std.specs.Prelude.{◌≤◌, ◌<◌, ◌+◌, ◌-◌, ◌^◌, length, drop, take};
    ghost use Rattle.nine.specs.Framed.{Framing};

    ghost Value = { Framing };

    ghost view = { λ f. record {
      limit = f.limit;
      before = f.before;
      held = drop f.front (take f.end f.bytes.items);
    } };

    // The block has room for any frame.
    ghost invariant = { λ f. (f.front ≤ f.end) × (f.end ≤ length f.bytes.items)
        × (f.before + (f.end - f.front) < 2 ^ 63) × (7 ≤ f.limit) × (f.limit ≤ f.room)
        × (f.room ≤ length f.bytes.items) × (f.room < 2 ^ 32) };
}

impl Framer {
    /// A framer that read nothing, with a block of so many bytes to read into.
    pub fn with_room(alloc: Global, limit: u32, room: u32) -> Result<BlockFramer, NoMemory>
        requires least { 7 ≤ limit }
        requires enough { limit ≤ room }
        ensures value { IfOk result (λ framer.
            framer ≡ record { limit = limit; before = 0; held = [] }) }
        ensures fresh { IfOk result (λ framer. HasHandedOut framer [] []) }
    {
        let mut bytes = Vec::new(alloc);
        bytes.resize(room as usize, 0)?;
        Ok(BlockFramer {
            limit,
            room: room as usize,
            before: 0,
            bytes,
            front: 0,
            end: 0,
        })
    }

    /// A framer that read nothing, whose block has room for one frame.
    pub fn with_block(alloc: Global, limit: u32) -> Result<BlockFramer, NoMemory>
        requires { 7 ≤ limit }
        ensures value { IfOk result (λ framer.
            framer ≡ record { limit = limit; before = 0; held = [] }) }
        ensures fresh { IfOk result (λ framer. HasHandedOut framer [] []) }
    {
        Framer::with_room(alloc, limit, limit)
    }
}

impl BlockFramer {
    /// How many bytes were read and not handed out.
    pub fn held(&self) -> usize
        ensures { result ≡ length self.now.held }
    {
        self.end - self.front
    }

    /// These bytes.
    pub fn rest(&self) -> &[u8]
        ensures { result.now ≡ self.now.held }
    {
        self.bytes.split_at(self.end).0.split_at(self.front).1
    }

    /// Where the next frame begins in the stream: how many bytes were handed out.
    pub fn place(&self) -> u64
        ensures { result ≡ self.now.before }
    {
        self.before
    }

    /// How many bytes the stream has so far.
    pub fn taken(&self) -> u64
        ensures { result ≡ self.now.before + length self.now.held }
    {
        self.before + (self.end - self.front) as u64
    }

    /// Reads a piece of the stream into the free room of the block. It takes no memory.
    pub fn fill<R: Source>(&mut self, source: &mut R) -> Got
        requires short { front self.old.limit self.old.held ≡ IsShort }
        requires few { self.old.before + length self.old.held < 2 ^ 62 }
        ensures bytes { FillsSo
            (R.left source.old) (R.left source.new) result self.old self.new }
        ensures stream { (stream piece : List ℕ) (handed : List (List ℕ))
            → HasHandedOut self.old stream handed → self.new ≡ with_more self.old piece
            → HasHandedOut self.new (stream ++ piece) handed }
        ensures counted { R.faults source.old ≤ R.faults source.new }
        ensures exact { CountsOutcome (R.faults source.old) (R.faults source.new)
            (read_failed result) }
    {
        self.fill_within(self.room, source)
    }

    /// The same, of at most so many bytes.
    pub fn fill_within<R: Source>(&mut self, most: usize, source: &mut R) -> Got
        requires short { front self.old.limit self.old.held ≡ IsShort }
        requires few { self.old.before + length self.old.held < 2 ^ 62 }
        requires some { 0 < most }
        ensures bytes { FillsAtMost most
            (R.left source.old) (R.left source.new) result self.old self.new }
        ensures stream { (stream piece : List ℕ) (handed : List (List ℕ))
            → HasHandedOut self.old stream handed → self.new ≡ with_more self.old piece
            → HasHandedOut self.new (stream ++ piece) handed }
        ensures counted { R.faults source.old ≤ R.faults source.new }
        ensures exact { CountsOutcome (R.faults source.old) (R.faults source.new)
            (read_failed result) }
    {
        let held = self.end - self.front;
        move_up(self.bytes.as_mut_slice(), self.front, self.end);
        self.front = 0;
        let to = held + most.min(self.room - held);
        let got = read_into(self.bytes.as_mut_slice(), held, to, source);
        self.end = filled_to(held, got);
        got
    }

    // What stands at the front of what is held.
    fn at_front(&self) -> AtFront
        ensures { shown result ≡ front self.now.limit self.now.held }
    {
        at_front(self.limit, self.rest())
    }

    /// Shows the next frame of the stream, where it is whole.
    pub fn peek(&self) -> Peek<'_>
        ensures answer { Shows self.now result }
        ensures stream { (stream : List ℕ) (handed : List (List ℕ))
            → HasHandedOut self.now stream handed → ShowsNext self.now result stream handed }
    {
        match self.at_front() {
            AtFront::Frame(size) => Peek::Whole(self.rest().split_at(size).0),
            AtFront::Bad(size) => Peek::BadSize {
                at: self.before,
                size,
            },
            AtFront::Part => Peek::NotYet,
        }
    }

    /// Hands out the next frame, which is whole. It takes no memory.
    pub fn drop_frame(&mut self)
        requires { HasWhole self.old }
        ensures dropped { (size : ℕ) → front self.old.limit self.old.held ≡ IsWhole size
            → self.new ≡ passed self.old size }
        ensures stream { (size : ℕ) (stream : List ℕ) (handed : List (List ℕ))
            → front self.old.limit self.old.held ≡ IsWhole size
            → HasHandedOut self.old stream handed
            → HasHandedOut self.new stream (handed ++ take size self.old.held ∷ []) }
    {
        if let AtFront::Frame(size) = self.at_front() {
            self.pass(size);
        }
    }

    /// The whole frames at the front, at most so many, and what stands behind them; only as many as that have perhaps one
    /// more behind them.
    pub fn batch(&self, most: usize) -> Batch
        ensures few { result.count ≤ most }
        ensures frames { AreFrames self.now.limit self.now.held result.count result.size }
        ensures behind { FollowsSo result.behind self.now.limit (drop result.size self.now.held) }
        ensures more { result.behind ≡ Behind.More → result.count ≡ most }
    {
        batch_in(self.limit, self.rest(), most)
    }

    /// Passes so many bytes of the front.
    pub fn pass(&mut self, size: usize)
        requires { size ≤ length self.old.held }
        ensures { self.new ≡ passed self.old size }
    {
        self.front += size;
        self.before += size as u64;
    }
}
