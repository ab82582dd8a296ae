// The frames of one connection, each answered before the next: a word is drawn for it, it goes to the agent as a request,
// what the agent asks is asked, and then takes until there is no reply. The replies are gathered, and written when there is
// no whole frame more, so that none waits for input that isn't there.
ghost use Rattle.std.specs.Prelude.{◌≡◌, ◌∷◌, ◌+◌, ◌<◌, ◌≤◌, [], List, ℕ, Option, true, length, IfOk, IfErr, OnOk, OnErr};
ghost use Rattle.wire_streams.specs.Causes.{Rose};
ghost use Rattle.wire_streams.specs.Streams.{Gains};
ghost use Rattle.nine.specs.Decoding.{IsFrame};
ghost use Rattle.nine.specs.Streams.{front, IsShort};
ghost use Rattle.agent_history.specs.declared.event.Event.TheVariants.{Take};
ghost use Rattle.agent_history.specs.Replies.{untaken};
ghost use Rattle.agent_history.specs.Histories.{History, deeds};
ghost use Rattle.agent_core.specs.Agents.{SameAgent, StandsFor, TakesOne, gives_in, kept_replies};
ghost use Rattle.factotum_program.specs.Commands.{GainsPart};
ghost use Rattle.auth_server.specs.Sessions.{DrawsAll};
ghost use Rattle.factotum_program.specs.Pipe.{Turn, take_while, text_of};
ghost use Rattle.factotum_program.specs.Sights.{Sight, sight};
ghost use Rattle.factotum_program.specs.Asks.{Turns, TurnsPart};
ghost use Rattle.factotum_program.specs.Gathers.{Gathers, GathersPart};
ghost use Rattle.factotum_program.specs.declared.frames.TheConstants.{MOST_GATHERED};
ghost use Rattle.factotum_program.specs.Sessions.{Handed, AllHanded, StopsAt, IsCut};

use crate::asks::ask_all;
use agent_core::Agent;
use agent_history::Event;
use auth_program::Status;
use nine::{BlockFramer, Peek};
use std::alloc::Global;
use wire_base::{Bytes, NoMemory};
use wire_streams::{Dialer, Sink, Words, write_all};

/// The number of the one connection.
pub(crate) const CONNECTION: u64 = 0;

/// Where so many bytes of replies are gathered, they are written before more are taken.
const MOST_GATHERED: usize = 65536;

// Writes what is gathered; after a write fault a front of it was written. Nothing is gathered then.
fn write_gathered<W: Sink>(replies: &mut Bytes, output: &mut W) -> Result<(), Status>
    ensures none { replies.new ≡ [] }
    ensures ok { OnOk result (Gains (W.holds output.old) (W.holds output.new) replies.old) }
    ensures part { IfErr result (λ status.
        GainsPart status (W.holds output.old) (W.holds output.new) replies.old) }
    ensures which { IfErr result (λ status. status ≡ Status.WriteFault) }
    ensures cause { IfErr result (λ status. Rose (W.faults output.old) (W.faults output.new)) }
    ensures counted { W.faults output.old ≤ W.faults output.new }
{
    let written = write_all(replies.as_slice(), output);
    replies.clear();
    match written {
        Ok(()) => Ok(()),
        Err(_) => Err(Status::WriteFault),
    }
}

// Writes what is gathered where it is much.
fn make_room<W: Sink>(replies: &mut Bytes, output: &mut W) -> Result<(), Status>
    ensures ok { OnOk result ((origin : Option (List ℕ)) (text : List ℕ)
        → Gathers origin (W.holds output.old) replies.old text
        → Gathers origin (W.holds output.new) replies.new text) }
    ensures part { IfErr result (λ status. (origin : Option (List ℕ)) (text : List ℕ)
        → Gathers origin (W.holds output.old) replies.old text
        → GathersPart status origin (W.holds output.new) replies.new text) }
    ensures room { OnOk result (length replies.new < MOST_GATHERED) }
    ensures which { IfErr result (λ status. status ≡ Status.WriteFault) }
    ensures cause { IfErr result (λ status. Rose (W.faults output.old) (W.faults output.new)) }
    ensures counted { W.faults output.old ≤ W.faults output.new }
{
    if replies.len() < MOST_GATHERED {
        return Ok(());
    }
    write_gathered(replies, output)
}

// One take, whose reply is gathered.
fn take_one(agent: &mut Agent, replies: &mut Bytes) -> Result<(), NoMemory>
    ensures stands { OnOk result ((H : History) → StandsFor H agent.old
        → StandsFor (Take 0 ∷ H) agent.new) }
    ensures told { OnOk result ((origin held : Option (List ℕ)) (H : History)
        → StandsFor H agent.old → Gathers origin held replies.old (text_of H)
        → Gathers origin held replies.new (text_of (Take 0 ∷ H))) }
    ensures fewer { OnOk result (gives_in (Take 0) agent.old.state ≡ true
        → kept_replies agent.new 0 < kept_replies agent.old 0) }
    ensures err { OnErr result (SameAgent agent.old agent.new) }
    ensures err_stands { OnErr result ((H : History) → StandsFor H agent.old
        → StandsFor H agent.new) }
    ensures err_replies { OnErr result (replies.new ≡ replies.old) }
{
    agent.step(&Event::Take { conn: CONNECTION }, replies)?;
    Ok(())
}

// One take more, once what is gathered is written.
fn take_again<W: Sink>(agent: &mut Agent, replies: &mut Bytes, output: &mut W) -> Result<(), Status>
    ensures stands { OnOk result ((H : History) → StandsFor H agent.old
        → StandsFor (Take 0 ∷ H) agent.new) }
    ensures told { OnOk result ((origin : Option (List ℕ)) (H : History) → StandsFor H agent.old
        → Gathers origin (W.holds output.old) replies.old (text_of H)
        → Gathers origin (W.holds output.new) replies.new (text_of (Take 0 ∷ H))) }
    ensures fewer { OnOk result (gives_in (Take 0) agent.old.state ≡ true
        → kept_replies agent.new 0 < kept_replies agent.old 0) }
    ensures part { IfErr result (λ status. (origin : Option (List ℕ)) (H : History)
        → StandsFor H agent.old → Gathers origin (W.holds output.old) replies.old (text_of H)
        → GathersPart status origin (W.holds output.new) replies.new (text_of (Take 0 ∷ H))) }
    ensures cut { IfErr result IsCut }
    ensures cause { IfErr result (λ status. status ≡ Status.WriteFault
        → Rose (W.faults output.old) (W.faults output.new)) }
    ensures counted { W.faults output.old ≤ W.faults output.new }
{
    write_gathered(replies, output)?;
    take_one(agent, replies)?;
    Ok(())
}

// One take, whose reply is gathered. Where there is no memory for it beside what is gathered, that is written first.
fn take_next<W: Sink>(agent: &mut Agent, replies: &mut Bytes, output: &mut W) -> Result<(), Status>
    ensures stands { OnOk result ((H : History) → StandsFor H agent.old
        → StandsFor (Take 0 ∷ H) agent.new) }
    ensures told { OnOk result ((origin : Option (List ℕ)) (H : History) → StandsFor H agent.old
        → Gathers origin (W.holds output.old) replies.old (text_of H)
        → Gathers origin (W.holds output.new) replies.new (text_of (Take 0 ∷ H))) }
    ensures fewer { OnOk result (gives_in (Take 0) agent.old.state ≡ true
        → kept_replies agent.new 0 < kept_replies agent.old 0) }
    ensures part { IfErr result (λ status. (origin : Option (List ℕ)) (H : History)
        → StandsFor H agent.old → Gathers origin (W.holds output.old) replies.old (text_of H)
        → GathersPart status origin (W.holds output.new) replies.new (text_of (Take 0 ∷ H))) }
    ensures cut { IfErr result IsCut }
    ensures cause { IfErr result (λ status. status ≡ Status.WriteFault
        → Rose (W.faults output.old) (W.faults output.new)) }
    ensures counted { W.faults output.old ≤ W.faults output.new }
{
    make_room(replies, output)?;
    match take_one(agent, replies) {
        Ok(()) => Ok(()),
        Err(NoMemory) => take_again(agent, replies, output),
    }
}

// Takes until there is no reply.
fn take_all<W: Sink>(agent: &mut Agent, replies: &mut Bytes, output: &mut W) -> Result<(), Status>
    ensures ok { OnOk result ((origin : Option (List ℕ)) (H : History) (n : ℕ)
        → StandsFor H agent.old → length (untaken (deeds H) 0) ≤ n
        → Gathers origin (W.holds output.old) replies.old (text_of H)
        → StandsFor (take_while n H) agent.new
        × Gathers origin (W.holds output.new) replies.new (text_of (take_while n H))) }
    ensures part { IfErr result (λ status. (origin : Option (List ℕ)) (H : History) (n : ℕ)
        → StandsFor H agent.old → length (untaken (deeds H) 0) ≤ n
        → Gathers origin (W.holds output.old) replies.old (text_of H)
        → GathersPart status origin (W.holds output.new) replies.new
        (text_of (take_while n H))) }
    ensures cut { IfErr result IsCut }
    ensures cause { IfErr result (λ status. status ≡ Status.WriteFault
        → Rose (W.faults output.old) (W.faults output.new)) }
    ensures counted { W.faults output.old ≤ W.faults output.new }
{
    while agent.has_reply(CONNECTION) {
        take_next(agent, replies, output)?;
    }
    Ok(())
}

// Hands one frame to the agent, asks what that raises, and gathers the replies.
fn answer_frame<W: Sink, D: Dialer>(
    alloc: Global,
    agent: &mut Agent,
    frame: &[u8],
    word: [u8; 8],
    replies: &mut Bytes,
    output: &mut W,
    dial: &mut D,
) -> Result<(), Status>
    requires whole { IsFrame frame.now }
    ensures ok { OnOk result ((origin : Option (List ℕ)) (H : History) → StandsFor H agent.old
        → Gathers origin (W.holds output.old) replies.old (text_of H)
        → Turns H frame.now word (D.told dial.old) (D.told dial.new)
        origin (W.holds output.new) replies.new agent.new) }
    ensures part { IfErr result (λ status. (origin : Option (List ℕ)) (H : History)
        → StandsFor H agent.old → Gathers origin (W.holds output.old) replies.old (text_of H)
        → TurnsPart status H frame.now word (D.told dial.old) (D.told dial.new)
        origin (W.holds output.new) replies.new) }
    ensures cut { IfErr result IsCut }
    ensures cause { IfErr result (λ status. status ≡ Status.WriteFault
        → Rose (W.faults output.old) (W.faults output.new)) }
    ensures counted { W.faults output.old ≤ W.faults output.new }
    ensures counted_dials { D.faults dial.old ≤ D.faults dial.new }
{
    agent.request(CONNECTION, frame, word)?;
    ask_all(alloc, agent, dial)?;
    take_all(agent, replies, output)
}

// Draws a word for a frame.
fn draw<G: Words>(rand: &mut G) -> Result<[u8; 8], Status>
    ensures ok { IfOk result (λ word. DrawsAll (G.to_come rand.old) (G.to_come rand.new)
        (word ∷ [])) }
    ensures none { OnErr result (DrawsAll (G.to_come rand.old) (G.to_come rand.new) []) }
    ensures err { IfErr result (λ status. status ≡ Status.WordFault) }
    ensures cause { OnErr result (Rose (G.faults rand.old) (G.faults rand.new)) }
    ensures counted { G.faults rand.old ≤ G.faults rand.new }
{
    match rand.word8() {
        Ok(word) => Ok(word),
        Err(_) => Err(Status::WordFault),
    }
}

// Answers the frames that are whole, each with a word of its own. What is gathered of their replies is still to be written.
fn gather_frames<W: Sink, D: Dialer, G: Words>(
    alloc: Global,
    agent: &mut Agent,
    framer: &mut BlockFramer,
    replies: &mut Bytes,
    output: &mut W,
    dial: &mut D,
    rand: &mut G,
) -> Result<(), Status>
    ensures ok { OnOk result ((origin : Sight) (stream : List ℕ) (turns : List Turn)
        → Handed origin (sight (G.to_come rand.old) (D.told dial.old) (W.holds output.old))
        replies.old stream turns framer.old agent.old
        → AllHanded origin (sight (G.to_come rand.new) (D.told dial.new) (W.holds output.new))
        replies.new stream framer.new agent.new) }
    ensures err { IfErr result (λ status. (origin : Sight) (stream : List ℕ) (turns : List Turn)
        → Handed origin (sight (G.to_come rand.old) (D.told dial.old) (W.holds output.old))
        replies.old stream turns framer.old agent.old
        → StopsAt origin (sight (G.to_come rand.new) (D.told dial.new) (W.holds output.new))
        replies.new stream status) }
    ensures fed { OnOk result (framer.new.before + length framer.new.held
        ≡ framer.old.before + length framer.old.held) }
    ensures short { OnOk result (front framer.new.limit framer.new.held ≡ IsShort) }
    ensures which { IfErr result (λ status. status ≡ Status.ReadFault → ⊥) }
    ensures cause { IfErr result (λ status. status ≡ Status.WriteFault
        → Rose (W.faults output.old) (W.faults output.new)) }
    ensures word_cause { IfErr result (λ status. status ≡ Status.WordFault
        → Rose (G.faults rand.old) (G.faults rand.new)) }
    ensures counted { W.faults output.old ≤ W.faults output.new }
    ensures counted_dials { D.faults dial.old ≤ D.faults dial.new }
    ensures counted_words { G.faults rand.old ≤ G.faults rand.new }
{
    loop {
        let frame = match framer.peek() {
            Peek::Whole(frame) => frame,
            Peek::NotYet => return Ok(()),
            Peek::BadSize { at, size } => return Err(Status::BadFrame { at, size }),
        };
        let word = draw(rand)?;
        answer_frame(alloc, agent, frame, word, replies, output, dial)?;
        framer.drop_frame();
    }
}

/// Answers the frames that are whole, and writes what was gathered of their replies, whatever stopped the answers. Where
/// the write fails that is told, since the replies come before what stopped.
pub(crate) fn answer_frames<W: Sink, D: Dialer, G: Words>(
    alloc: Global,
    agent: &mut Agent,
    framer: &mut BlockFramer,
    replies: &mut Bytes,
    output: &mut W,
    dial: &mut D,
    rand: &mut G,
) -> Result<(), Status>
    ensures ok { OnOk result ((origin : Sight) (stream : List ℕ) (turns : List Turn)
        → Handed origin (sight (G.to_come rand.old) (D.told dial.old) (W.holds output.old))
        [] stream turns framer.old agent.old
        → AllHanded origin (sight (G.to_come rand.new) (D.told dial.new) (W.holds output.new))
        [] stream framer.new agent.new) }
    ensures err { IfErr result (λ status. (origin : Sight) (stream : List ℕ) (turns : List Turn)
        → Handed origin (sight (G.to_come rand.old) (D.told dial.old) (W.holds output.old))
        [] stream turns framer.old agent.old
        → StopsAt origin (sight (G.to_come rand.new) (D.told dial.new) (W.holds output.new))
        [] stream status) }
    ensures fed { OnOk result (framer.new.before + length framer.new.held
        ≡ framer.old.before + length framer.old.held) }
    ensures short { OnOk result (front framer.new.limit framer.new.held ≡ IsShort) }
    ensures which { IfErr result (λ status. status ≡ Status.ReadFault → ⊥) }
    ensures cause { IfErr result (λ status. status ≡ Status.WriteFault
        → Rose (W.faults output.old) (W.faults output.new)) }
    ensures word_cause { IfErr result (λ status. status ≡ Status.WordFault
        → Rose (G.faults rand.old) (G.faults rand.new)) }
    ensures counted { W.faults output.old ≤ W.faults output.new }
    ensures counted_dials { D.faults dial.old ≤ D.faults dial.new }
    ensures counted_words { G.faults rand.old ≤ G.faults rand.new }
{
    replies.clear();
    let answered = gather_frames(alloc, agent, framer, replies, output, dial, rand);
    write_gathered(replies, output)?;
    answered
}
