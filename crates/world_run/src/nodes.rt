// Nodes by their names.
use crate::node::Node;
use agent_turns::{Agent, Turn, Turned, note_key};
use std::alloc::Global;
use std::collections::BTreeMap;
use wire_base::NoMemory;
use wire_histories::Setting;

/// The nodes of a network.
#[derive(Drop)]
pub struct Nodes {
    pub(crate) alloc: Global,
    pub(crate) table: BTreeMap<Vec<u8>, Node>,
}

impl Nodes {
    ghost use Rattle.std.specs.Prelude.{◌≡◌, true, false, option_copied, IfOk, OnOk};
    ghost use Rattle.agent_history.specs.Conversations.{chosen_at};
    ghost use Rattle.agent_history.specs.Histories.{deeds};
    ghost use Rattle.agent_turns.specs.Agents.{StandsFor};
    ghost use Rattle.agent_turns.specs.Turning.{IsTurn, said_turn};
    ghost use Rattle.world_history.specs.Driving.{new_node};
    ghost use Rattle.world_history.specs.NotingFronts.{NotesKey};
    ghost use Rattle.world_run.specs.Nodes.{NodesAre, OpensSo, TurnsSo, View, closed, made, node_at, nobody, restarted};

    /// No nodes.
    pub fn new(alloc: Global) -> Nodes
        ensures { NodesAre nobody result }
    {
        Nodes {
            alloc,
            table: BTreeMap::new(alloc),
        }
    }

    // What stands under a name.
    fn look(&self, name: &[u8]) -> Option<&Node>
        ensures { option_copied result ≡ node_at self.now name.now }
    {
        self.table.get(name)
    }

    /// Whether a node of this name was made.
    pub fn has(&self, name: &[u8]) -> bool
        ensures { (v : View) → NodesAre v self.now → result ≡ v.is name.now }
    {
        self.look(name).is_some()
    }

    /// One more node, with its agent.
    pub fn make(&mut self, name: &[u8], agent: Agent) -> Result<(), NoMemory>
        ensures { OnOk result ((v : View) → NodesAre v self.old → v.is name.now ≡ false
            → StandsFor new_node agent → NodesAre (made name.now v) self.new) }
    {
        let node = Node::new(self.alloc, agent);
        self.table.insert(Vec::from_slice(self.alloc, name)?, node)?;
        Ok(())
    }

    /// Another agent takes the place of a node's.
    pub fn restart(&mut self, name: &[u8], agent: Agent)
        ensures { (v : View) → NodesAre v self.old → v.is name.now ≡ true
            → StandsFor new_node agent → NodesAre (restarted name.now v) self.new }
    {
        let Some(node) = self.table.get_mut(name) else {
            return;
        };
        node.restart(agent);
    }

    /// Something is done to the agent of a node, from a message on; None where there is no such node. Where memory runs out,
    /// nothing is promised of that agent any more.
    pub fn turn(
        &mut self,
        name: &[u8],
        number: u32,
        turn: Turn<'_>,
    ) -> Result<Option<Turned>, NoMemory>
        requires { IsTurn turn }
        ensures { IfOk result (λ turned. (v : View) → NodesAre v self.old → v.is name.now ≡ true
            → TurnsSo number name.now (said_turn turn.entry) v turned self.new) }
    {
        let Some(node) = self.table.get_mut(name) else {
            return Ok(None);
        };
        Ok(Some(node.turn(self.alloc, number, turn)?))
    }

    /// A node opens a conversation by its least fid that isn't held; None where its agent refuses that, and where there is
    /// no such node.
    pub fn open(&mut self, name: &[u8], conv: &[u8]) -> Result<Option<u32>, NoMemory>
        ensures { IfOk result (λ fid. (v : View) → NodesAre v self.old → v.is name.now ≡ true
            → OpensSo name.now conv.now v fid self.new) }
    {
        let Some(node) = self.table.get_mut(name) else {
            return Ok(None);
        };
        node.open(self.alloc, conv)
    }

    /// A conversation of a node is open no more.
    pub fn close(&mut self, name: &[u8], conv: &[u8])
        ensures { (v : View) → NodesAre v self.old → NodesAre (closed name.now conv.now v) self.new }
    {
        let Some(node) = self.table.get_mut(name) else {
            return;
        };
        node.close(conv);
    }

    /// It is noted of a conversation, which a fid of a node has open, which key it has chosen, or that it has none; nothing
    /// is where there is no such node.
    pub fn note_key(
        &self,
        name: &[u8],
        conv: &[u8],
        fid: u32,
        setting: &mut Setting,
    ) -> Result<(), NoMemory>
        ensures { OnOk result ((v : View) → NodesAre v self.now → v.is name.now ≡ true
            → NotesKey conv.now (chosen_at (deeds (v.history name.now)) 0 fid)
            setting.old setting.new) }
    {
        let Some(node) = self.look(name) else {
            return Ok(());
        };
        note_key(&node.agent, conv, fid, setting)?;
        Ok(())
    }
}
