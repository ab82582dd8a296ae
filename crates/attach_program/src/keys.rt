// The keys file, and the agent to which its keys are given: an agent of its own, on connection 0.
ghost use Rattle.std.specs.Prelude.{◌≡◌, ◌<◌, ◌+◌, ◌≤◌, ◌^◌, None, IfErr, IfOk, OnOk, Err, length, true};
ghost use Rattle.wire_streams.specs.Causes.{Rose};
ghost use Rattle.agent_history.specs.Histories.{History};
ghost use Rattle.agent_core.specs.Agents.{StandsFor};
ghost use Rattle.attr_tuples.specs.Cutting.{text_lines};
ghost use Rattle.door_ports.specs.Exchanges.{is_done};
ghost use Rattle.attach_program.specs.Keys.{KeysEnd, agent_of, bad_line, first_bad, is_key_line, is_taken, new_agent, with_line, with_lines};
ghost use Rattle.attach_program.specs.Steps.{IsFileEnd, Knows, Refuses, end_of_file};

use crate::status::AttachStatus;
use agent_core::Agent;
use attr_tuples::cut_line;
use auth_program::{Status, read_file};
use door_ports::{Reply, prepare, write};
use std::alloc::Global;
use wire_base::NoMemory;
use wire_streams::Source;

/// The connection on which keys are given.
const CONNECTION: u64 = 0;

/// The fid by which ctl is open there.
const CTL: u32 = 1;

/// How many bytes a line may have.
const MOST_LINE: usize = 4096;

// An agent of which ctl is open.
fn new_agent(alloc: Global) -> Result<Agent, NoMemory>
    ensures { IfOk result (StandsFor new_agent) }
{
    let mut agent = Agent::new(alloc)?;
    prepare(alloc, &mut agent, CONNECTION)?;
    Ok(agent)
}

// Whether a line can be a key's: what it begins with, and its length.
fn is_key_line(line: &[u8]) -> bool
    ensures { result ≡ is_key_line line.now }
{
    line.starts_with(b"key ") && line.len() <= MOST_LINE
}

// A request was done.
fn is_done(reply: &Reply) -> bool
    ensures { result ≡ is_done reply.now }
{
    matches!(reply, Reply::Done)
}

// Gives a line to the agent, where it isn't empty. Whether it is a key's, and the agent takes it.
fn give_line(alloc: Global, agent: &mut Agent, line: &[u8]) -> Result<bool, NoMemory>
    ensures taken { IfOk result (λ taken. (H : History) → StandsFor H agent.old
        → taken ≡ is_taken line.now H) }
    ensures stands { IfOk result (λ taken. taken ≡ true → (H : History) → StandsFor H agent.old
        → StandsFor (with_line line.now H) agent.new) }
{
    if line.is_empty() {
        return Ok(true);
    }
    if !is_key_line(line) {
        return Ok(false);
    }
    let reply = write(alloc, agent, CONNECTION, CTL, line)?;
    Ok(is_done(&reply))
}

// Gives the lines of a keys file to an agent, in order.
fn give_lines(alloc: Global, agent: &mut Agent, file: &[u8]) -> Result<(), AttachStatus>
    requires few { length file.now + 2 < 2 ^ 32 }
    ensures ok { OnOk result ((H : History) → StandsFor H agent.old
        → StandsFor (with_lines H (text_lines file.now)) agent.new) }
    ensures good { OnOk result ((H : History) → StandsFor H agent.old
        → first_bad 1 H (text_lines file.now) ≡ None) }
    ensures err { IfErr result (λ status. (H : History) → StandsFor H agent.old
        → Refuses status (first_bad 1 H (text_lines file.now))) }
{
    let mut number = 1;
    let mut left = Some(file);
    while let Some(text) = left {
        let (line, rest) = cut_line(text);
        let is_taken = give_line(alloc, agent, line)?;
        if !is_taken {
            return Err(AttachStatus::BadKeys { line: number });
        }
        number += 1;
        left = rest;
    }
    Ok(())
}

// The status of a file that wasn't read to its end.
fn file_end(status: Status) -> AttachStatus
    requires { IsFileEnd status }
    ensures { result ≡ end_of_file status }
{
    match status {
        Status::ReadFault => AttachStatus::ReadFault,
        Status::NoMemory => AttachStatus::NoMemory,
        Status::Flood { limit } => AttachStatus::Flood { limit },
        _ => unreachable!(),
    }
}

// An agent with the keys of a file.
fn agent_with(alloc: Global, file: &[u8]) -> Result<Agent, AttachStatus>
    requires few { length file.now + 2 < 2 ^ 32 }
    ensures ok { IfOk result (StandsFor (agent_of file.now)) }
    ensures good { OnOk result (bad_line file.now ≡ None) }
    ensures err { IfErr result (λ status. Refuses status (bad_line file.now)) }
{
    let mut agent = new_agent(alloc)?;
    give_lines(alloc, &mut agent, file)?;
    Ok(agent)
}

/// Reads a keys file to its end, and then gives its keys to a new agent.
pub(crate) fn read_keys<K: Source>(alloc: Global, keys: &mut K) -> Result<Agent, AttachStatus>
    ensures ok { IfOk result (λ agent. Knows (K.left keys.old) (K.left keys.new) agent) }
    ensures err { IfErr result (λ status. KeysEnd status (K.left keys.old) (K.left keys.new)) }
    ensures cause { result ≡ Err AttachStatus.ReadFault
        → Rose (K.faults keys.old) (K.faults keys.new) }
    ensures which { IfErr result (λ status. (status ≡ AttachStatus.WriteFault → ⊥)
        × (status ≡ AttachStatus.WordFault → ⊥)) }
    ensures counted { K.faults keys.old ≤ K.faults keys.new }
{
    match read_file(alloc, keys) {
        Ok(file) => agent_with(alloc, file.as_slice()),
        Err(status) => Err(file_end(status)),
    }
}
