// The program: its words, the keys file, and one connection.
ghost use Rattle.std.specs.Prelude.{◌≡◌, ◌⊎◌, ◌≤◌, None, IfErr, OnOk};
ghost use Rattle.wire_streams.specs.Causes.{Rose};
ghost use Rattle.agent_history.specs.Histories.{History};
ghost use Rattle.agent_core.specs.Agents.{StandsFor};
ghost use Rattle.attach_program.specs.Runs.{sight};
ghost use Rattle.attach_program.specs.Serving.{AnswersAll, ConnectionEnds, IsCaused, RunsSo, Serves, outside};

use crate::input::answer_input;
use crate::keys::read_keys;
use crate::log::{Log, NoLog};
use crate::session::Session;
use crate::status::AttachStatus;
use agent_core::Agent;
use auth_program::read_keys_words;
use door_ports::CorePort;
use doors::Door;
use nine::Framer;
use std::alloc::Global;
use wire_base::{Bytes, Text};
use wire_streams::{Sink, Source, Words};

/// The greatest size of a frame.
const MOST_FRAME: u32 = 8216;

/// The connection of the port to the agent.
const CONNECTION: u64 = 1;

// Serves the input by an agent that has its keys.
fn answer<R: Source, W: Sink, G: Words, L: Log>(
    alloc: Global,
    agent: Agent,
    input: &mut R,
    output: &mut W,
    rand: &mut G,
    log: &mut L,
) -> Result<(), AttachStatus>
    ensures ok { OnOk result ((keys : History) → StandsFor keys agent
        → AnswersAll keys (R.left input.old) (R.left input.new)
        (sight (G.to_come rand.old) (W.holds output.old) (L.noted log.old))
        (sight (G.to_come rand.new) (W.holds output.new) (L.noted log.new))) }
    ensures err { IfErr result (λ status. (keys : History) → StandsFor keys agent
        → ConnectionEnds keys status (R.left input.old) (R.left input.new)
        (sight (G.to_come rand.old) (W.holds output.old) (L.noted log.old))
        (sight (G.to_come rand.new) (W.holds output.new) (L.noted log.new))) }
    ensures read_fault { IfErr result (λ status. status ≡ AttachStatus.ReadFault
        → Rose (R.faults input.old) (R.faults input.new)) }
    ensures write_fault { IfErr result (λ status. status ≡ AttachStatus.WriteFault
        → Rose (W.faults output.old) (W.faults output.new)) }
    ensures word_fault { IfErr result (λ status. status ≡ AttachStatus.WordFault
        → Rose (G.faults rand.old) (G.faults rand.new)) }
    ensures counted_reads { R.faults input.old ≤ R.faults input.new }
    ensures counted_writes { W.faults output.old ≤ W.faults output.new }
    ensures counted_words { G.faults rand.old ≤ G.faults rand.new }
{
    let mut framer = Framer::with_block(alloc, MOST_FRAME)?;
    let mut session = Session {
        door: Door::new(alloc),
        port: CorePort::new(alloc, agent, CONNECTION),
        reply: Bytes::new(alloc),
    };
    answer_input(&mut session, &mut framer, input, output, rand, log)
}

// The same, by the status that it ends with.
fn serve<R: Source, W: Sink, G: Words, L: Log>(
    alloc: Global,
    agent: Agent,
    input: &mut R,
    output: &mut W,
    rand: &mut G,
    log: &mut L,
) -> AttachStatus
    ensures ends { (keys : History) → StandsFor keys agent
        → ConnectionEnds keys result (R.left input.old) (R.left input.new)
        (sight (G.to_come rand.old) (W.holds output.old) (L.noted log.old))
        (sight (G.to_come rand.new) (W.holds output.new) (L.noted log.new)) }
    ensures cause { IsCaused result
        (Rose (R.faults input.old) (R.faults input.new))
        (Rose (W.faults output.old) (W.faults output.new))
        (Rose (G.faults rand.old) (G.faults rand.new)) }
    ensures counted_reads { R.faults input.old ≤ R.faults input.new }
    ensures counted_writes { W.faults output.old ≤ W.faults output.new }
    ensures counted_words { G.faults rand.old ≤ G.faults rand.new }
{
    match answer(alloc, agent, input, output, rand, log) {
        Ok(()) => AttachStatus::Fine,
        Err(status) => status,
    }
}

/// Serves one connection of 9P to files that only those may attach whom a server of p9any accepts. The words are `--keys` and a
/// path, which is the caller's: it opens the file. Its lines, at most 4096 bytes each and 2^22 in all, are read to their end
/// and given to an agent before the input is looked at. Of the input at most 2^40 bytes are taken; a word is drawn for each
/// frame, and its reply is written before the next is answered.
///
/// What was read, drawn and written by then is told for every status.
pub fn run_attach<R: Source, K: Source, W: Sink, G: Words>(
    alloc: Global,
    words: &[Text],
    input: &mut R,
    keys: &mut K,
    output: &mut W,
    rand: &mut G,
) -> AttachStatus
    ensures ends { RunsSo words.now result
        (outside (K.left keys.old) (R.left input.old) (G.to_come rand.old) (W.holds output.old) None)
        (outside (K.left keys.new) (R.left input.new) (G.to_come rand.new) (W.holds output.new)
        None) }

    // A fault comes only where the count of one of its objects rose, and no count falls.
    ensures cause { IsCaused result
        (Rose (R.faults input.old) (R.faults input.new)
        ⊎ Rose (K.faults keys.old) (K.faults keys.new))
        (Rose (W.faults output.old) (W.faults output.new))
        (Rose (G.faults rand.old) (G.faults rand.new)) }
    ensures counted_reads { R.faults input.old ≤ R.faults input.new }
    ensures counted_keys { K.faults keys.old ≤ K.faults keys.new }
    ensures counted_writes { W.faults output.old ≤ W.faults output.new }
    ensures counted_words { G.faults rand.old ≤ G.faults rand.new }
{
    run_attach_noting(alloc, words, input, keys, output, rand, &mut NoLog)
}

/// The same, and what becomes of attaches is noted.
pub fn run_attach_noting<R: Source, K: Source, W: Sink, G: Words, L: Log>(
    alloc: Global,
    words: &[Text],
    input: &mut R,
    keys: &mut K,
    output: &mut W,
    rand: &mut G,
    log: &mut L,
) -> AttachStatus
    ensures ends { RunsSo words.now result
        (outside (K.left keys.old) (R.left input.old) (G.to_come rand.old) (W.holds output.old)
        (L.noted log.old))
        (outside (K.left keys.new) (R.left input.new) (G.to_come rand.new) (W.holds output.new)
        (L.noted log.new)) }

    // A fault comes only where the count of one of its objects rose, and no count falls.
    ensures cause { IsCaused result
        (Rose (R.faults input.old) (R.faults input.new)
        ⊎ Rose (K.faults keys.old) (K.faults keys.new))
        (Rose (W.faults output.old) (W.faults output.new))
        (Rose (G.faults rand.old) (G.faults rand.new)) }
    ensures counted_reads { R.faults input.old ≤ R.faults input.new }
    ensures counted_keys { K.faults keys.old ≤ K.faults keys.new }
    ensures counted_writes { W.faults output.old ≤ W.faults output.new }
    ensures counted_words { G.faults rand.old ≤ G.faults rand.new }
{
    if read_keys_words(words).is_none() {
        return AttachStatus::Usage;
    }
    match read_keys(alloc, keys) {
        Ok(agent) => serve(alloc, agent, input, output, rand, log),
        Err(end) => end,
    }
}
