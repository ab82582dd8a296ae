// The agent behind the lock.
use agent_core::Agent;
use agent_history::Event;
use turn_lock::Logged;

/// The agent, which stands for the events of all callers. It is moved out of the lock's slot and back in each turn, and so
/// it stands in a box.
#[derive(Drop)]
pub struct Held {
    pub(crate) agent: Box<Agent>,
}

impl Logged for Held {
    type Event = Event;

    ghost use Rattle.agent_core.specs.Agents.{StandsFor};

    ghost stands = { λ history held. StandsFor history held.agent.value };
}
