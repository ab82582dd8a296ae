// New nodes, and what they meet.
ghost use Rattle.std.specs.Prelude.{◌≡◌, [], not, true, IfOk, OnOk};
ghost use Rattle.agent_history.specs.Histories.{History};
ghost use Rattle.agent_core.specs.Agents.{StandsFor};
ghost use Rattle.agent_core.specs.Events.{IsEvent};
ghost use Rattle.agent_turns.specs.Drives.{Meets};
ghost use Rattle.world_history.specs.Driving.{new_node, opened, refuses_open};

use crate::driven_replies::is_refused;
use crate::events::{File, agrees, attaches, opens, walks};
use crate::takes::drive;
use agent_core::Agent;
use agent_history::Event;
use std::alloc::Global;
use wire_base::NoMemory;

/// The fid by which a node's ctl is open.
pub const CTL: u32 = 1;

// An event happens. Whether the agent lets it.
fn meets(alloc: Global, agent: &mut Agent, event: Event) -> Result<bool, NoMemory>
    requires { IsEvent event }
    ensures { IfOk result (λ lets. (H : History) → StandsFor H agent.old
        → Meets event H lets agent.new) }
{
    let driven = drive(alloc, agent, &event)?;
    Ok(!is_refused(driven.replies.as_slice()))
}

// What a new agent meets until it has its ctl open.
fn begin(alloc: Global, agent: &mut Agent) -> Result<(), NoMemory>
    ensures { OnOk result (StandsFor [] agent.old → StandsFor new_node agent.new) }
{
    meets(alloc, agent, agrees(alloc)?)?;
    meets(alloc, agent, attaches(alloc)?)?;
    meets(alloc, agent, walks(alloc, CTL, File::Ctl)?)?;
    meets(alloc, agent, opens(alloc, CTL)?)?;
    Ok(())
}

/// A new agent, which has its ctl open.
pub fn new_node(alloc: Global) -> Result<Agent, NoMemory>
    ensures { IfOk result (λ agent. StandsFor new_node agent) }
{
    let mut agent = Agent::new(alloc)?;
    begin(alloc, &mut agent)?;
    Ok(agent)
}

/// A fid opens rpc. Whether the agent lets it; where it doesn't, nothing else is promised of the agent.
pub fn open_rpc(alloc: Global, agent: &mut Agent, fid: u32) -> Result<bool, NoMemory>
    ensures opens { IfOk result (λ lets. (H : History) → StandsFor H agent.old
        → lets ≡ not (refuses_open fid H)) }
    ensures stands { IfOk result (λ lets. lets ≡ true → (H : History) → StandsFor H agent.old
        → StandsFor (opened fid H) agent.new) }
{
    let walked = meets(alloc, agent, walks(alloc, fid, File::Rpc)?)?;
    if !walked {
        return Ok(false);
    }
    meets(alloc, agent, opens(alloc, fid)?)
}
