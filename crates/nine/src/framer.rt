// Cutting a stream that comes in pieces into its frames. What came and wasn't handed out stands behind the front:
//
//     bytes:  handed out .. held ..
//                          ^ front
//
// When a piece comes, the bytes before the front are let go where they are at least half of all.
ghost use Rattle.std.specs.Prelude.{◌≡◌, ◌≤◌, ◌<◌, ◌+◌, ◌-◌, ◌^◌, ℕ, List, [], ◌++◌, length, drop, IfOk, OnOk, OnErr};
ghost use Rattle.nine.specs.Framing.{HasHandedOut, Answers, Continues};

use crate::front::{AtFront, at_front};
use std::alloc::Global;
use std::marker::Model;
use wire_base::{Bytes, NoMemory};

/// What a framer answers when it is asked for the next frame.
#[derive(Debug, Drop)]
pub enum Next {
    /// The first frame that wasn't handed out.
    Whole(Bytes),
    /// The bytes held are no whole frame, and show no bad size.
    NotYet,
    /// The next four bytes give a size under 7 or over the limit; `at` is their offset in the stream.
    BadSize { at: u64, size: u32 },
}

// Lets go of what was handed out where it is at least half of what is kept, so that it is less than half from then on.
fn let_go(bytes: &mut Vec<u8>, front: &mut usize)
    requires { front.old ≤ length bytes.old.items }
    ensures held { drop front.new bytes.new.items ≡ drop front.old bytes.old.items }
    ensures within { front.new ≤ length bytes.new.items }
    ensures few { front.new ≤ length bytes.new.items - front.new }
{
    let held = bytes.len() - *front;
    if *front >= held {
        bytes.copy_within(*front.., 0);
        bytes.truncate(held);
        *front = 0;
    }
}

/// Cuts a stream into its frames, each handed out once and in order.
#[derive(Drop)]
pub struct Framer {
    alloc: Global,
    limit: u32,
    before: u64,
    bytes: Vec<u8>,
    front: usize,
}

impl Model for Framer {
    ghost use Rattle.std.specs.Prelude.{◌≤◌, ◌<◌, ◌+◌, ◌-◌, ◌^◌, length, drop};
    ghost use Rattle.nine.specs.Framed.{Framing};

    ghost Value = { Framing };

    ghost view = { λ f. record {
      limit = f.limit;
      before = f.before;
      held = drop f.front f.bytes.items;
    } };

    ghost invariant = { λ f. (f.front ≤ length f.bytes.items)
        × (f.before + (length f.bytes.items - f.front) < 2 ^ 63) };
}

impl Framer {
    /// A framer that was fed nothing, for frames of at most so many bytes. It takes no memory.
    pub fn new(alloc: Global, limit: u32) -> Framer
        ensures value { result ≡ record { limit = limit; before = 0; held = [] } }
        ensures fresh { HasHandedOut result [] [] }
    {
        Framer {
            alloc,
            limit,
            before: 0,
            bytes: Vec::new(alloc),
            front: 0,
        }
    }

    /// How many bytes were fed and not handed out.
    pub fn held(&self) -> usize
        ensures { result ≡ length self.now.held }
    {
        self.bytes.len() - self.front
    }

    /// Where the next frame begins in the stream: how many bytes were handed out.
    pub fn place(&self) -> u64
        ensures { result ≡ self.now.before }
    {
        self.before
    }

    /// Takes the next piece of the stream, which stays under 2^63 bytes.
    pub fn feed(&mut self, piece: &[u8]) -> Result<(), NoMemory>
        requires { self.old.before + length self.old.held + length piece.now < 2 ^ 63 }
        ensures ok { OnOk result (self.new
            ≡ record {
              limit = self.old.limit;
              before = self.old.before;
              held = self.old.held
                  ++ piece.now;
            }) }
        ensures stream { OnOk result ((stream : List ℕ) (handed : List (List ℕ))
            → HasHandedOut self.old stream handed
            → HasHandedOut self.new (stream ++ piece.now) handed) }
        ensures err { OnErr result (self.new ≡ self.old) }
    {
        let_go(&mut self.bytes, &mut self.front);
        self.bytes.extend_from_slice(piece)?;
        Ok(())
    }

    // Takes the next frame off the front, where it is whole.
    fn take_front(&mut self) -> Result<Next, NoMemory>
        ensures answer { IfOk result (λ next. Answers self.old self.new next) }
        ensures err { OnErr result (self.new ≡ self.old) }
    {
        let (_, held) = self.bytes.split_at(self.front);
        match at_front(self.limit, held) {
            AtFront::Frame(length) => {
                let frame = Bytes::from_slice(self.alloc, held.split_at(length).0)?;
                self.front += length;
                self.before += length as u64;
                Ok(Next::Whole(frame))
            }
            AtFront::Bad(size) => {
                let at = self.before;
                Ok(Next::BadSize { at, size })
            }
            AtFront::Part => Ok(Next::NotYet),
        }
    }

    /// The next frame of the stream, where it is whole.
    pub fn next(&mut self) -> Result<Next, NoMemory>
        ensures answer { IfOk result (λ next. Answers self.old self.new next) }
        ensures stream { IfOk result (λ next. (stream : List ℕ) (handed : List (List ℕ))
            → HasHandedOut self.old stream handed
            → Continues self.old self.new next stream handed) }
        ensures err { OnErr result (self.new ≡ self.old) }
    {
        self.take_front()
    }
}
