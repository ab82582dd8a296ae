// The public calls of `agent_core`.
ghost use Rattle.std.specs.Prelude.{◌≡◌, true, ◌∷◌, IfOk, IsOk, OnOk, OnErr, ◌<◌, option_copied};
ghost use Rattle.agent_core.specs.Agents.{StandsFor, SameAgent, TakesOne, TakesNone, AsksFewerIn, GivesUpIn, gives_in};
ghost use Rattle.agent_core.specs.Events.{Answers, IsEvent};
ghost use Rattle.agent_core.specs.Serves.{TookSo};
ghost use Rattle.nine.specs.Decoding.{IsFrame};
ghost use Rattle.agent_history.specs.Conversations.{outcome_at, chosen_at};
ghost use Rattle.agent_history.specs.Histories.{is_reply, History, answer, deeds};
ghost use Rattle.agent_history.specs.declared.event.Event.TheVariants as events;

use agent_core::{Agent, Served};
use agent_history::{Event, StepAnswer};
use key_ring::Key;
use roles::Outcome;
use wire_base::{Bytes, NoMemory};

/// As `Agent::step`.
pub fn agent_step(agent: &mut Agent, event: &Event, out: &mut Bytes) -> Result<StepAnswer, NoMemory>
    requires { IsEvent event.now }

    ensures answer { IfOk result (λ a. (H : History) → StandsFor H agent.old
        → Answers H event.now a out.old out.new) }
    ensures stands { OnOk result ((H : History) → StandsFor H agent.old
        → StandsFor (event.now ∷ H) agent.new) }

    ensures err { OnErr result (SameAgent agent.old agent.new) }
    ensures err_stands { OnErr result ((H : History) → StandsFor H agent.old
        → StandsFor H agent.new) }
    ensures err_out { OnErr result (out.new ≡ out.old) }

    ensures gives { IfOk result (λ a. is_reply a ≡ gives_in event.now agent.old.state) }
    ensures takes_none { TakesNone event.now agent.old → IsOk result }
    ensures fewer { IfOk result (λ a. is_reply a ≡ true
        → TakesOne event.now agent.old agent.new) }

    ensures asks { IfOk result (λ a.
        AsksFewerIn event.now a agent.old.state agent.new.state) }

    ensures gives_up { OnOk result (GivesUpIn event.now agent.old.state agent.new.state) }
{
    agent.step(event, out)
}

/// As `Agent::serve`.
pub fn agent_serve(
    agent: &mut Agent,
    conn: u64,
    frame: &[u8],
    word: [u8; 8],
    out: &mut Bytes,
) -> Result<Served, NoMemory>
    requires { IsFrame frame.now }

    ensures served { IfOk result (λ served. (H : History) → StandsFor H agent.old
        → TookSo (events.Request conn frame.now word ∷ H) conn served out.old out.new agent.new) }

    ensures err { OnErr result (SameAgent agent.old agent.new) }
    ensures err_stands { OnErr result ((H : History) → StandsFor H agent.old
        → StandsFor H agent.new) }
    ensures err_out { OnErr result (out.new ≡ out.old) }
{
    agent.serve(conn, frame, word, out)
}

/// As `Agent::take_all`.
pub fn agent_take_all(agent: &mut Agent, conn: u64, out: &mut Bytes) -> Served
    ensures { (H : History) → StandsFor H agent.old
        → TookSo H conn result out.old out.new agent.new }
{
    agent.take_all(conn, out)
}

/// As `Agent::has_reply`.
pub fn agent_has_reply(agent: &Agent, conn: u64) -> bool
    ensures gives { result ≡ gives_in (events.Take conn) agent.now.state }
    ensures told { (H : History) → StandsFor H agent.now
        → result ≡ is_reply (answer H (events.Take conn)).0 }
{
    agent.has_reply(conn)
}

/// As `Agent::outcome`.
pub fn agent_outcome(agent: &Agent, conn: u64, fid: u32) -> Option<Outcome>
    ensures { (H : History) → StandsFor H agent.now
        → result ≡ outcome_at (deeds H) conn fid }
{
    agent.outcome(conn, fid)
}

/// As `Agent::chosen`.
pub fn agent_chosen<'x>(agent: &'x Agent, conn: u64, fid: u32) -> Option<&'x Key>
    ensures { (H : History) → StandsFor H agent.now
        → option_copied result ≡ chosen_at (deeds H) conn fid }
{
    agent.chosen(conn, fid)
}
