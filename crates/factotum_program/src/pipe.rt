// One connection of 9P on an input and an output, beside a source of words and a dialer: a piece of the input is read into
// a block, the frames that are whole with it are answered where they stand, their replies are written, and then the next
// piece is read.
ghost use Rattle.std.specs.Prelude.{◌≡◌, ◌<◌, ◌≤◌, List, ℕ, Option, true, false, IfOk, IfErr, OnOk};
ghost use Rattle.std.specs.Io.KnownBytes.{IsAtEnd};
ghost use Rattle.wire_streams.specs.Causes.{Rose};
ghost use Rattle.factotum_program.specs.Commands.{most_input, Answers, EndsSo};
ghost use Rattle.factotum_program.specs.Sights.{Sight, sight};
ghost use Rattle.factotum_program.specs.Sessions.{IsReady, Piped, taken_by};

use crate::frames::{CONNECTION, answer_frames};
use agent_core::Agent;
use agent_history::Event;
use auth_program::Status;
use nine::{BlockFramer, Framer};
use std::alloc::Global;
use wire_base::{Bytes, NoMemory};
use wire_streams::{Dialer, Got, Sink, Source, Words};

/// The greatest size of a frame.
const MOST_FRAME: u32 = 8216;

/// How many bytes of input a pipe takes.
const MOST_INPUT: u64 = 1 << 40;

/// How many bytes the block has that the input is read into.
const ROOM: u32 = 65536;

/// The agent, the bytes that aren't answered yet, and a place for replies.
#[derive(Drop)]
pub(crate) struct Session {
    agent: Agent,
    framer: BlockFramer,
    replies: Bytes,
}

// Looks whether more comes than a pipe takes.
fn read_over<R: Source>(session: &Session, input: &mut R) -> Result<bool, Status>
    requires full { taken_by session.now ≡ most_input }
    ensures ok { OnOk result ((first : Option (List ℕ)) (origin now : Sight)
        → Piped first (R.left input.old) origin now session.now
        → Piped first (R.left input.new) origin now session.now) }
    ensures at_end { IfOk result (λ more. (more ≡ false) × IsAtEnd (R.left input.new)) }
    ensures err { IfErr result (λ status. (first : Option (List ℕ)) (origin now : Sight)
        → Piped first (R.left input.old) origin now session.now
        → EndsSo status first (R.left input.new) origin now) }
    ensures read_fault { IfErr result (λ status. status ≡ Status.ReadFault
        → Rose (R.faults input.old) (R.faults input.new)) }
    ensures which { IfErr result (λ status. (status ≡ Status.WriteFault → ⊥)
        × (status ≡ Status.WordFault → ⊥)) }
    ensures counted { R.faults input.old ≤ R.faults input.new }
{
    let mut one = [0u8; 1];
    match input.read(&mut one) {
        Got::Bytes(_) => Err(Status::Flood { limit: MOST_INPUT }),
        Got::End => Ok(false),
        Got::Failed => Err(Status::ReadFault),
    }
}

// Reads a piece of the input, and answers the frames that are whole with it. Whether the input may go on.
fn answer_piece<R: Source, W: Sink, D: Dialer, G: Words>(
    alloc: Global,
    session: &mut Session,
    input: &mut R,
    output: &mut W,
    dial: &mut D,
    rand: &mut G,
) -> Result<bool, Status>
    requires ready { IsReady session.old }
    ensures ok { OnOk result ((first : Option (List ℕ)) (origin : Sight)
        → Piped first (R.left input.old) origin
        (sight (G.to_come rand.old) (D.told dial.old) (W.holds output.old)) session.old
        → Piped first (R.left input.new) origin
        (sight (G.to_come rand.new) (D.told dial.new) (W.holds output.new)) session.new) }
    ensures at_end { IfOk result (λ more. more ≡ false → IsAtEnd (R.left input.new)) }
    ensures err { IfErr result (λ status. (first : Option (List ℕ)) (origin : Sight)
        → Piped first (R.left input.old) origin
        (sight (G.to_come rand.old) (D.told dial.old) (W.holds output.old)) session.old
        → EndsSo status first (R.left input.new) origin
        (sight (G.to_come rand.new) (D.told dial.new) (W.holds output.new))) }
    ensures ready { OnOk result (IsReady session.new) }
    ensures more { IfOk result (λ more. more ≡ true → taken_by session.old < taken_by session.new) }
    ensures read_fault { IfErr result (λ status. status ≡ Status.ReadFault
        → Rose (R.faults input.old) (R.faults input.new)) }
    ensures write_fault { IfErr result (λ status. status ≡ Status.WriteFault
        → Rose (W.faults output.old) (W.faults output.new)) }
    ensures counted_reads { R.faults input.old ≤ R.faults input.new }
    ensures word_fault { IfErr result (λ status. status ≡ Status.WordFault
        → Rose (G.faults rand.old) (G.faults rand.new)) }
    ensures counted_writes { W.faults output.old ≤ W.faults output.new }
    ensures counted_dials { D.faults dial.old ≤ D.faults dial.new }
    ensures counted_words { G.faults rand.old ≤ G.faults rand.new }
{
    let left = MOST_INPUT - session.framer.taken();
    if left == 0 {
        return read_over(session, input);
    }
    match session.framer.fill_within(left as usize, input) {
        Got::Bytes(_) => {}
        Got::End => return Ok(false),
        Got::Failed => return Err(Status::ReadFault),
    }
    answer_frames(
        alloc,
        &mut session.agent,
        &mut session.framer,
        &mut session.replies,
        output,
        dial,
        rand,
    )?;
    Ok(true)
}

// The end of the input: the connection is hung up, where the input doesn't end inside a frame.
fn end(session: &mut Session) -> Result<(), Status>
    ensures ok { OnOk result ((first next : Option (List ℕ)) (origin now : Sight)
        → Piped first next origin now session.old → IsAtEnd next → Answers first next origin now) }
    ensures err { IfErr result (λ status. (first next : Option (List ℕ)) (origin now : Sight)
        → Piped first next origin now session.old → IsAtEnd next
        → EndsSo status first next origin now) }
    ensures which { IfErr result
        (λ status. (status ≡ Status.ReadFault → ⊥) × (status ≡ Status.WriteFault → ⊥)
        × (status ≡ Status.WordFault → ⊥)) }
{
    if session.framer.held() > 0 {
        let at = session.framer.place();
        return Err(Status::Torn { at });
    }
    session
        .agent
        .step(&Event::Hang { conn: CONNECTION }, &mut session.replies)?;
    Ok(())
}

// Before the first read.
fn begin(alloc: Global) -> Result<Session, NoMemory>
    ensures begun { IfOk result (λ session. (first : Option (List ℕ)) (origin : Sight)
        → Piped first first origin origin session) }
    ensures ready { IfOk result IsReady }
{
    Ok(Session {
        agent: Agent::new(alloc)?,
        framer: Framer::with_room(alloc, MOST_FRAME, ROOM)?,
        replies: Bytes::new(alloc),
    })
}

// Reads the input to its end, and answers its frames.
fn answer_pieces<R: Source, W: Sink, D: Dialer, G: Words>(
    alloc: Global,
    session: &mut Session,
    input: &mut R,
    output: &mut W,
    dial: &mut D,
    rand: &mut G,
) -> Result<(), Status>
    requires ready { IsReady session.old }
    ensures ok { OnOk result ((first : Option (List ℕ)) (origin : Sight)
        → Piped first (R.left input.old) origin
        (sight (G.to_come rand.old) (D.told dial.old) (W.holds output.old)) session.old
        → Piped first (R.left input.new) origin
        (sight (G.to_come rand.new) (D.told dial.new) (W.holds output.new)) session.new) }
    ensures at_end { OnOk result (IsAtEnd (R.left input.new)) }
    ensures err { IfErr result (λ status. (first : Option (List ℕ)) (origin : Sight)
        → Piped first (R.left input.old) origin
        (sight (G.to_come rand.old) (D.told dial.old) (W.holds output.old)) session.old
        → EndsSo status first (R.left input.new) origin
        (sight (G.to_come rand.new) (D.told dial.new) (W.holds output.new))) }
    ensures read_fault { IfErr result (λ status. status ≡ Status.ReadFault
        → Rose (R.faults input.old) (R.faults input.new)) }
    ensures write_fault { IfErr result (λ status. status ≡ Status.WriteFault
        → Rose (W.faults output.old) (W.faults output.new)) }
    ensures counted_reads { R.faults input.old ≤ R.faults input.new }
    ensures word_fault { IfErr result (λ status. status ≡ Status.WordFault
        → Rose (G.faults rand.old) (G.faults rand.new)) }
    ensures counted_writes { W.faults output.old ≤ W.faults output.new }
    ensures counted_dials { D.faults dial.old ≤ D.faults dial.new }
    ensures counted_words { G.faults rand.old ≤ G.faults rand.new }
{
    while answer_piece(alloc, session, input, output, dial, rand)? {}
    Ok(())
}

/// Answers the frames of the input to its end.
pub(crate) fn answer_input<R: Source, W: Sink, D: Dialer, G: Words>(
    alloc: Global,
    input: &mut R,
    output: &mut W,
    dial: &mut D,
    rand: &mut G,
) -> Result<(), Status>
    ensures ok { OnOk result
        (Answers (R.left input.old) (R.left input.new)
        (sight (G.to_come rand.old) (D.told dial.old) (W.holds output.old))
        (sight (G.to_come rand.new) (D.told dial.new) (W.holds output.new))) }
    ensures err { IfErr result
        (λ status. EndsSo status (R.left input.old) (R.left input.new)
        (sight (G.to_come rand.old) (D.told dial.old) (W.holds output.old))
        (sight (G.to_come rand.new) (D.told dial.new) (W.holds output.new))) }
    ensures read_fault { IfErr result (λ status. status ≡ Status.ReadFault
        → Rose (R.faults input.old) (R.faults input.new)) }
    ensures write_fault { IfErr result (λ status. status ≡ Status.WriteFault
        → Rose (W.faults output.old) (W.faults output.new)) }
    ensures counted_reads { R.faults input.old ≤ R.faults input.new }
    ensures word_fault { IfErr result (λ status. status ≡ Status.WordFault
        → Rose (G.faults rand.old) (G.faults rand.new)) }
    ensures counted_writes { W.faults output.old ≤ W.faults output.new }
    ensures counted_dials { D.faults dial.old ≤ D.faults dial.new }
    ensures counted_words { G.faults rand.old ≤ G.faults rand.new }
{
    let mut session = begin(alloc)?;
    answer_pieces(alloc, &mut session, input, output, dial, rand)?;
    end(&mut session)
}
