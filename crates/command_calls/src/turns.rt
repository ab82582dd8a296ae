// The public calls of `agent_turns`.
ghost use Rattle.std.specs.Prelude.{◌≡◌, ◌<◌, option_map, List, IfOk, not, true};
ghost use Rattle.agent_core.specs.Agents.{StandsFor};
ghost use Rattle.agent_core.specs.Events.{IsEvent};
ghost use Rattle.agent_history.specs.Histories.{History};
ghost use Rattle.agent_turns.specs.Drives.{frames_of};
ghost use Rattle.agent_turns.specs.Texts.{error_of, text_at, content_of};
ghost use Rattle.agent_turns.specs.Turning.{Turns, IsTurn, said_turn};
ghost use Rattle.nine.specs.Messages.{r_frame};
ghost use Rattle.nine.specs.declared.message.RMsg.{RMsg};
ghost use Rattle.world_history.specs.Driving.{is_refused, opened, refuses_open};
ghost use Rattle.world_history.specs.Driving as driving;

use agent_core::Agent;
use agent_history::Event;
use agent_turns::{Turn, Turned};
use std::alloc::Global;
use wire_base::{Bytes, NoMemory};

/// As `error_in`.
pub fn error_in(frame: &[u8]) -> Option<&[u8]>
    ensures stands { option_map (λ text. text.now) result ≡ text_at 107 9 frame.now }
    ensures told { (m : RMsg) → frame.now ≡ r_frame m
        → option_map (λ text. text.now) result ≡ error_of m.body }
{
    agent_turns::error_in(frame)
}

/// As `content_in`.
pub fn content_in(frame: &[u8]) -> Option<&[u8]>
    ensures stands { option_map (λ text. text.now) result ≡ text_at 117 11 frame.now }
    ensures told { (m : RMsg) → frame.now ≡ r_frame m
        → option_map (λ text. text.now) result ≡ content_of m.body }
{
    agent_turns::content_in(frame)
}

/// As `is_refused`.
pub fn is_refused(replies: &[Bytes]) -> bool
    ensures { (ms : List RMsg) → replies.now ≡ frames_of ms → result ≡ is_refused ms }
{
    agent_turns::is_refused(replies)
}

/// As `reads`.
pub fn reads(alloc: Global, fid: u32, word: [u8; 8]) -> Result<Event, NoMemory>
    ensures is { IfOk result (λ event. event ≡ driving.reads fid word) }
    ensures event { IfOk result (λ event. IsEvent event) }
{
    agent_turns::reads(alloc, fid, word)
}

/// As `clunks`.
pub fn clunks(alloc: Global, fid: u32) -> Result<Event, NoMemory>
    ensures is { IfOk result (λ event. event ≡ driving.clunks fid) }
    ensures event { IfOk result (λ event. IsEvent event) }
{
    agent_turns::clunks(alloc, fid)
}

/// As `opens`.
pub fn opens(alloc: Global, fid: u32) -> Result<Event, NoMemory>
    ensures is { IfOk result (λ event. event ≡ driving.opens fid) }
    ensures event { IfOk result (λ event. IsEvent event) }
{
    agent_turns::opens(alloc, fid)
}

/// As `open_rpc`.
pub fn open_rpc(alloc: Global, agent: &mut Agent, fid: u32) -> Result<bool, NoMemory>
    ensures opens { IfOk result (λ lets. (H : History) → StandsFor H agent.old
        → lets ≡ not (refuses_open fid H)) }
    ensures stands { IfOk result (λ lets. lets ≡ true → (H : History) → StandsFor H agent.old
        → StandsFor (opened fid H) agent.new) }
{
    agent_turns::open_rpc(alloc, agent, fid)
}

/// As `take_turn`.
pub fn take_turn(
    alloc: Global,
    agent: &mut Agent,
    number: u32,
    turn: Turn<'_>,
) -> Result<Turned, NoMemory>
    requires { IsTurn turn }
    ensures { IfOk result (λ turned. (H : History) → StandsFor H agent.old
        → Turns number (said_turn turn.entry) H agent.new turned) }
{
    agent_turns::take_turn(alloc, agent, number, turn)
}
