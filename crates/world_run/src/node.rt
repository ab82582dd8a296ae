// One node.
use crate::fids::{Open, least_fid};
use agent_turns::{Agent, Turn, Turned, open_rpc, take_turn};
use std::alloc::Global;
use wire_base::{Bytes, NoMemory};

/// A node: its agent, and the conversations that it has open, the oldest first.
#[derive(Drop)]
pub struct Node {
    pub(crate) agent: Agent,
    pub(crate) held: Vec<Open>,
}

impl Node {
    ghost use Rattle.std.specs.Prelude.{◌≡◌, [], filter, not, IfOk};
    ghost use Rattle.std.specs.Str.{bytes_eq};
    ghost use Rattle.agent_history.specs.Histories.{History};
    ghost use Rattle.agent_turns.specs.Agents.{StandsFor};
    ghost use Rattle.agent_turns.specs.Turning.{IsTurn, Turns, said_turn};
    ghost use Rattle.world_run.specs.Opening.{OpensOne};

    /// A node without conversations.
    pub(crate) fn new(alloc: Global, agent: Agent) -> Node
        ensures agent { result.agent ≡ agent }
        ensures held { result.held.items ≡ [] }
    {
        Node {
            agent,
            held: Vec::new(alloc),
        }
    }

    /// Another agent takes the place of its own; no conversation is open any more.
    pub(crate) fn restart(&mut self, agent: Agent)
        ensures agent { self.new.agent ≡ agent }
        ensures held { self.new.held.items ≡ [] }
    {
        self.agent = agent;
        self.held.clear();
    }

    /// Something is done to its agent, from a message on.
    pub(crate) fn turn(
        &mut self,
        alloc: Global,
        number: u32,
        turn: Turn<'_>,
    ) -> Result<Turned, NoMemory>
        requires { IsTurn turn }
        ensures turned { IfOk result (λ turned. (H : History) → StandsFor H self.old.agent
            → Turns number (said_turn turn.entry) H self.new.agent turned) }
        ensures held { self.new.held ≡ self.old.held }
    {
        take_turn(alloc, &mut self.agent, number, turn)
    }

    /// It opens a conversation by its least fid that isn't held; None where its agent refuses that.
    pub(crate) fn open(&mut self, alloc: Global, conv: &[u8]) -> Result<Option<u32>, NoMemory>
        ensures { IfOk result (λ fid. (H : History) → StandsFor H self.old.agent
            → OpensOne conv.now H self.old fid self.new) }
    {
        let fid = least_fid(self.held.as_slice())?;
        if !open_rpc(alloc, &mut self.agent, fid)? {
            return Ok(None);
        }
        let conv = Bytes::from_slice(alloc, conv)?;
        self.held.push(Open { conv, fid })?;
        Ok(Some(fid))
    }

    /// A conversation is open no more.
    pub(crate) fn close(&mut self, conv: &[u8])
        ensures agent { self.new.agent ≡ self.old.agent }
        ensures held { self.new.held.items
            ≡ filter (λ one. not (bytes_eq one.conv conv.now)) self.old.held.items }
    {
        self.held.retain(|one| one.conv.as_slice() != conv);
    }
}
