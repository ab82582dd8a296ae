//! The outside, by what it gives and takes and by a count of its faults: sources and sinks of bytes, forms of them
//! in memory, adapters over std's readers and writers, reading and writing whole; how jobs are started and how
//! connections come, and forms of both in memory.
//!
//! A connection that is waited for: what would be done next and what may be done, a sink that may have no room now, and a
//! source that may have a descriptor to be watched.
//!
//! A source that is read ahead of what is asked of it, so that many small reads are one of the source below. What it has
//! handed out is overwritten, and what it hasn't at its end, as befits random bytes of which secrets are made.
#![tactic(auto)]

mod adapters;
#[cfg(test)]
mod ahead_tests;
mod awaits;
mod dialer;
mod held_ahead;
mod listener;
mod mem_dialer;
mod mem_listener;
mod mem_spawner;
mod memory;
mod offers;
mod read_ahead;
mod sink;
mod source;
mod spawner;
mod steady;
mod watched;
mod whole;
mod words;

pub use adapters::{ReadSource, WriteSink};
pub use awaits::{AtOnce, Awaits, Ready, Wants};
pub use dialer::{Dial, Dialer, MOST_ANSWER, Made, Outcome};
pub use listener::{ListenFault, Listener};
pub use mem_dialer::MemDialer;
pub use mem_listener::MemListener;
pub use mem_spawner::MemSpawner;
pub use memory::{FaultPlan, MemSink, MemSource};
pub use offers::{Offer, Offers};
pub use read_ahead::ReadAhead;
pub use sink::{Put, Sink};
pub use source::{Got, Source};
pub use spawner::{NoStart, Spawner};
pub use steady::{SteadySink, SteadySource};
pub use watched::Watched;
pub use whole::{WholeFault, WriteFault, read_whole, write_all};
pub use words::{MemWords, ReadWords, WordFault, Words};
