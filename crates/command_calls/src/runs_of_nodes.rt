// The public calls of `world_run`.
ghost use Rattle.std.specs.Prelude.{◌≡◌, true};
ghost use Rattle.agent_turns.specs.Agents.{StandsFor};
ghost use Rattle.world_history.specs.Driving.{new_node};
ghost use Rattle.world_run.specs.Nodes.{NodesAre, View, restarted};

use agent_turns::Agent;
use world_run::Nodes;

/// As `Nodes::has`.
pub fn nodes_has(nodes: &Nodes, name: &[u8]) -> bool
    ensures { (v : View) → NodesAre v nodes.now → result ≡ v.is name.now }
{
    nodes.has(name)
}

/// As `Nodes::restart`.
pub fn nodes_restart(nodes: &mut Nodes, name: &[u8], agent: Agent)
    ensures { (v : View) → NodesAre v nodes.old → v.is name.now ≡ true → StandsFor new_node agent
        → NodesAre (restarted name.now v) nodes.new }
{
    nodes.restart(name, agent)
}
