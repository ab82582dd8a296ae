// The conversations that keep a connection, and the connections that are to be given up.
ghost use Rattle.std.specs.Prelude.{◌≡◌, ◌+◌, ◌≤◌, true};
ghost use Rattle.std.specs.Vec.{vec_len, vec_capacity};
ghost use Rattle.agent_talks.specs.Calls.{is_kept, others};

use crate::speaker::{Leaving, Speaker, leaves};
use std::alloc::Global;
use std::collections::VecDeque;
use std::marker::Model;
use wire_base::NoMemory;

/// A connection that is to be given up: its conversation, and how many questions had been raised by then.
#[derive(Clone, Copy, Debug)]
pub struct GivenUp {
    pub conv: u64,
    pub behind: u64,
}

/// The conversations that keep a connection, and the connections that are to be given up, the oldest first. There is always
/// room for those that are kept among those that are to be given up, so that giving them up takes no memory.
#[derive(Drop)]
pub struct KeptCalls {
    kept: Vec<u64>,
    drops: VecDeque<GivenUp>,
}

impl Model for KeptCalls {
    ghost use Rattle.std.specs.Prelude.{◌+◌, ◌≤◌, map};
    ghost use Rattle.std.specs.Vec.{vec_len};
    ghost use Rattle.std.specs.VecDeque.{deque_len, deque_capacity};
    ghost use Rattle.agent_talks.specs.Calls.{Calls, drop_of};

    ghost Value = { Calls };

    ghost view = { λ k. record { kept = k.kept.items; drops = map drop_of k.drops.items } };

    ghost invariant = { λ k. deque_len k.drops + vec_len k.kept ≤ deque_capacity k.drops };
}

impl KeptCalls {
    ghost use Rattle.std.specs.Prelude.{◌≡◌, OnOk, OnErr, option_map, drop};
    ghost use Rattle.agent_talks.specs.Calls.{begun, drop_of, ended, first_of, handed, is_kept, left, none_kept, taken};

    /// No connections. It takes no memory.
    pub fn new(alloc: Global) -> KeptCalls
        ensures { result ≡ none_kept }
    {
        KeptCalls {
            kept: Vec::new(alloc),
            drops: VecDeque::new(alloc),
        }
    }

    /// Whether a conversation keeps one. It takes no memory.
    fn is_kept(&self, conv: u64) -> bool
        ensures { result ≡ is_kept self.now.kept conv }
    {
        self.kept.iter().any(|kept| *kept == conv)
    }

    /// The question of a conversation is handed out: it keeps the connection over which it asks from then on, or none.
    pub fn hand(&mut self, conv: u64, keeps: bool) -> Result<(), NoMemory>
        ensures handed { OnOk result (self.new ≡ handed keeps conv self.old) }
        ensures same { OnErr result (self.new ≡ self.old) }
    {
        if keeps {
            return self.begin(conv);
        }
        drop_conv(&mut self.kept, conv);
        Ok(())
    }

    fn begin(&mut self, conv: u64) -> Result<(), NoMemory>
        ensures begun { OnOk result (self.new ≡ begun conv self.old) }
        ensures same { OnErr result (self.new ≡ self.old) }
    {
        if self.is_kept(conv) {
            return Ok(());
        }
        self.drops.reserve(self.kept.len() + 1)?;
        self.kept.push(conv)?;
        Ok(())
    }

    /// A conversation gives up the connection that it keeps, where it keeps one, behind so many questions. It takes no
    /// memory.
    pub fn end(&mut self, conv: u64, behind: u64)
        ensures { self.new ≡ ended conv behind self.old }
    {
        if self.is_kept(conv) {
            drop_conv(&mut self.kept, conv);
            self.drops.push_back(GivenUp { conv, behind }).unwrap();
        }
    }

    /// The conversations of those who leave give up the connections that they keep, in the order in which they stand. It
    /// takes no memory.
    pub fn leave(&mut self, speakers: &[Speaker], leaving: Leaving, behind: u64)
        ensures { self.new ≡ left leaving behind speakers.now self.old }
    {
        for speaker in speakers {
            if leaves(leaving, speaker) {
                self.end(speaker.conv, behind);
            }
        }
    }

    /// The oldest connection that is to be given up. It takes no memory.
    pub fn front(&self) -> Option<GivenUp>
        ensures { option_map drop_of result ≡ first_of self.now.drops }
    {
        self.drops.front().copied()
    }

    /// It was given up. It takes no memory.
    pub fn pop(&mut self)
        ensures { self.new ≡ taken self.old }
    {
        self.drops.pop_front();
    }
}

fn drop_conv(kept: &mut Vec<u64>, conv: u64)
    ensures others { kept.new.items ≡ others conv kept.old.items }
    ensures no_more { vec_len kept.new ≤ vec_len kept.old }
    ensures fewer { is_kept kept.old.items conv ≡ true → vec_len kept.new + 1 ≤ vec_len kept.old }
{
    kept.retain(|kept| *kept != conv);
}
