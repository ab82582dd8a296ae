// One connection: each frame is answered by the door, which asks the agent through its port, and the reply is written.
ghost use Rattle.std.specs.Prelude.{◌≡◌, ◌∷◌, ◌≤◌, [], IfErr, IfOk, OnErr, OnOk};
ghost use Rattle.wire_streams.specs.Causes.{Rose};
ghost use Rattle.wire_streams.specs.Spawning.{Gains as Notes};
ghost use Rattle.wire_streams.specs.Streams.{Gains};
ghost use Rattle.wire_streams.specs.Whole.{GainsFront};
ghost use Rattle.auth_server.specs.Sessions.{DrawsAll};
ghost use Rattle.nine.specs.Decoding.{IsFrame};
ghost use Rattle.agent_history.specs.Histories.{History};
ghost use Rattle.attach_program.specs.Notes.{note_of};
ghost use Rattle.attach_program.specs.Runs.{Run, Sight, sight};
ghost use Rattle.attach_program.specs.Steps.{Served, ServedMore, StandsAt, TurnEnds, Turned};

use crate::log::Log;
use crate::message::{attacher, refusal_in};
use crate::status::AttachStatus;
use door_ports::CorePort;
use doors::Door;
use wire_base::{Bytes, NoMemory};
use wire_streams::{Sink, Words, write_all};

/// The door, the port through which it asks the agent, and a place for replies.
#[derive(Drop)]
pub(crate) struct Session {
    pub door: Door,
    pub port: CorePort,
    pub reply: Bytes,
}

// Answers a frame with a word of its own.
fn turn(session: &mut Session, frame: &[u8], word: [u8; 8]) -> Result<(), NoMemory>
    requires { IsFrame frame.now }
    ensures { OnOk result ((keys : History) (run : Run) → StandsAt keys run session.old
        → Turned keys run frame.now word session.new) }
{
    session.port.set_word(word);
    session.reply.clear();
    session
        .door
        .step(frame, &mut session.port, &mut session.reply)
}

// Notes what became of an attach, where the frame asks for one.
fn note<L: Log>(frame: &[u8], reply: &[u8], log: &mut L)
    ensures { Notes (L.noted log.old) (L.noted log.new) (note_of frame.now reply.now) }
{
    if let Some(uname) = attacher(frame) {
        log.note(uname, refusal_in(reply));
    }
}

// Draws a word for a frame.
fn draw<G: Words>(rand: &mut G) -> Result<[u8; 8], AttachStatus>
    ensures ok { IfOk result (λ word. DrawsAll (G.to_come rand.old) (G.to_come rand.new)
        (word ∷ [])) }
    ensures none { OnErr result (DrawsAll (G.to_come rand.old) (G.to_come rand.new) []) }
    ensures err { IfErr result (λ status. status ≡ AttachStatus.WordFault) }
    ensures cause { OnErr result (Rose (G.faults rand.old) (G.faults rand.new)) }
    ensures counted { G.faults rand.old ≤ G.faults rand.new }
{
    match rand.word8() {
        Ok(word) => Ok(word),
        Err(_) => Err(AttachStatus::WordFault),
    }
}

// Answers a frame. Memory may run out.
fn reply_to(session: &mut Session, frame: &[u8], word: [u8; 8]) -> Result<(), AttachStatus>
    requires { IsFrame frame.now }
    ensures ok { OnOk result ((keys : History) (run : Run) → StandsAt keys run session.old
        → Turned keys run frame.now word session.new) }
    ensures err { IfErr result (λ status. status ≡ AttachStatus.NoMemory) }
{
    match turn(session, frame, word) {
        Ok(()) => Ok(()),
        Err(NoMemory) => Err(AttachStatus::NoMemory),
    }
}

// Writes a reply.
fn write<W: Sink>(reply: &[u8], output: &mut W) -> Result<(), AttachStatus>
    ensures ok { OnOk result (Gains (W.holds output.old) (W.holds output.new) reply.now) }
    ensures err { IfErr result (λ status. (status ≡ AttachStatus.WriteFault)
        × GainsFront (W.holds output.old) (W.holds output.new) reply.now) }
    ensures cause { OnErr result (Rose (W.faults output.old) (W.faults output.new)) }
    ensures counted { W.faults output.old ≤ W.faults output.new }
{
    match write_all(reply, output) {
        Ok(()) => Ok(()),
        Err(_) => Err(AttachStatus::WriteFault),
    }
}

/// Draws a word for a frame, answers it, notes what became of an attach, and writes the reply.
pub(crate) fn answer_frame<W: Sink, G: Words, L: Log>(
    session: &mut Session,
    frame: &[u8],
    output: &mut W,
    rand: &mut G,
    log: &mut L,
) -> Result<(), AttachStatus>
    requires { IsFrame frame.now }
    ensures ok { OnOk result ((keys : History) (origin : Sight) (run : Run)
        → Served keys origin (sight (G.to_come rand.old) (W.holds output.old) (L.noted log.old))
        run session.old
        → ServedMore keys origin
        (sight (G.to_come rand.new) (W.holds output.new) (L.noted log.new))
        run frame.now session.new) }
    ensures err { IfErr result (λ status. (keys : History) (origin : Sight) (run : Run)
        → Served keys origin (sight (G.to_come rand.old) (W.holds output.old) (L.noted log.old))
        run session.old
        → TurnEnds status keys origin
        (sight (G.to_come rand.new) (W.holds output.new) (L.noted log.new))
        run frame.now) }
    ensures write_fault { IfErr result (λ status. status ≡ AttachStatus.WriteFault
        → Rose (W.faults output.old) (W.faults output.new)) }
    ensures word_fault { IfErr result (λ status. status ≡ AttachStatus.WordFault
        → Rose (G.faults rand.old) (G.faults rand.new)) }
    ensures which { IfErr result (λ status. status ≡ AttachStatus.ReadFault → ⊥) }
    ensures counted_writes { W.faults output.old ≤ W.faults output.new }
    ensures counted_words { G.faults rand.old ≤ G.faults rand.new }
{
    let word = draw(rand)?;
    reply_to(session, frame, word)?;
    note(frame, session.reply.as_slice(), log);
    write(session.reply.as_slice(), output)
}
