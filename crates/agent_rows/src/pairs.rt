// The two agents of a session.
use agent_core::Agent;
use std::alloc::Global;
use wire_base::NoMemory;

/// Two agents, numbered 0 and 1.
#[derive(Drop)]
pub(crate) struct Pair {
    first: Agent,
    second: Agent,
}

impl Pair {
    /// Two agents that know nothing.
    pub(crate) fn new(alloc: Global) -> Result<Pair, NoMemory> {
        Ok(Pair {
            first: Agent::new(alloc)?,
            second: Agent::new(alloc)?,
        })
    }

    /// The agent of a number, 0 or any other.
    pub(crate) fn agent(&mut self, number: u64) -> &mut Agent {
        if number == 0 {
            &mut self.first
        } else {
            &mut self.second
        }
    }
}
