// The input of a connection: a piece of it is read into a block, the frames that are whole with it are answered where they
// stand, and then the next piece is read.
ghost use Rattle.std.specs.Prelude.{◌≡◌, ◌<◌, ◌≤◌, List, ℕ, Option, true, false, IfOk, IfErr, OnOk};
ghost use Rattle.std.specs.Io.KnownBytes.{IsAtEnd};
ghost use Rattle.wire_streams.specs.Causes.{Rose};
ghost use Rattle.nine.specs.Streams.{front, IsShort};
ghost use Rattle.agent_history.specs.Histories.{History};
ghost use Rattle.attach_program.specs.Runs.{Run, Sight, sight};
ghost use Rattle.attach_program.specs.Serving.{AnswersAll, ConnectionEnds, most_input};
ghost use Rattle.attach_program.specs.Steps.{AllHanded, Handed, IsReady, Piped, StopsAt, taken_by};
ghost use Rattle.attach_program.specs.declared.session.Session.{Session as Whole};

use crate::log::Log;
use crate::session::{Session, answer_frame};
use crate::status::AttachStatus;
use nine::{BlockFramer, Peek};
use wire_streams::{Got, Sink, Source, Words};

/// How many bytes of input are taken.
const MOST_INPUT: u64 = 1 << 40;

// Answers the frames that are whole.
fn answer_frames<W: Sink, G: Words, L: Log>(
    session: &mut Session,
    framer: &mut BlockFramer,
    output: &mut W,
    rand: &mut G,
    log: &mut L,
) -> Result<(), AttachStatus>
    ensures ok { OnOk result ((keys : History) (origin : Sight) (stream : List ℕ) (run : Run)
        → Handed keys origin (sight (G.to_come rand.old) (W.holds output.old) (L.noted log.old))
        stream run framer.old session.old
        → AllHanded keys origin
        (sight (G.to_come rand.new) (W.holds output.new) (L.noted log.new))
        stream framer.new session.new) }
    ensures err { IfErr result (λ status. (keys : History) (origin : Sight) (stream : List ℕ)
        (run : Run)
        → Handed keys origin (sight (G.to_come rand.old) (W.holds output.old) (L.noted log.old))
        stream run framer.old session.old
        → StopsAt status keys origin
        (sight (G.to_come rand.new) (W.holds output.new) (L.noted log.new)) stream) }
    ensures fed { OnOk result (taken_by framer.new ≡ taken_by framer.old) }
    ensures short { OnOk result (front framer.new.limit framer.new.held ≡ IsShort) }
    ensures write_fault { IfErr result (λ status. status ≡ AttachStatus.WriteFault
        → Rose (W.faults output.old) (W.faults output.new)) }
    ensures word_fault { IfErr result (λ status. status ≡ AttachStatus.WordFault
        → Rose (G.faults rand.old) (G.faults rand.new)) }
    ensures which { IfErr result (λ status. status ≡ AttachStatus.ReadFault → ⊥) }
    ensures counted_writes { W.faults output.old ≤ W.faults output.new }
    ensures counted_words { G.faults rand.old ≤ G.faults rand.new }
{
    loop {
        let frame = match framer.peek() {
            Peek::Whole(frame) => frame,
            Peek::NotYet => return Ok(()),
            Peek::BadSize { at, size } => return Err(AttachStatus::BadFrame { at, size }),
        };
        answer_frame(session, frame, output, rand, log)?;
        framer.drop_frame();
    }
}

// Looks whether more comes than is taken.
fn read_over<R: Source>(framer: &BlockFramer, input: &mut R) -> Result<bool, AttachStatus>
    requires full { taken_by framer.now ≡ most_input }
    ensures ok { OnOk result ((keys : History) (first : Option (List ℕ)) (origin now : Sight)
        (session : Whole)
        → Piped keys first (R.left input.old) origin now framer.now session
        → Piped keys first (R.left input.new) origin now framer.now session) }
    ensures at_end { IfOk result (λ more. (more ≡ false) × IsAtEnd (R.left input.new)) }
    ensures err { IfErr result (λ status. (keys : History) (first : Option (List ℕ))
        (origin now : Sight) (session : Whole)
        → Piped keys first (R.left input.old) origin now framer.now session
        → ConnectionEnds keys status first (R.left input.new) origin now) }
    ensures read_fault { IfErr result (λ status. status ≡ AttachStatus.ReadFault
        → Rose (R.faults input.old) (R.faults input.new)) }
    ensures which { IfErr result (λ status. (status ≡ AttachStatus.WriteFault → ⊥)
        × (status ≡ AttachStatus.WordFault → ⊥)) }
    ensures counted { R.faults input.old ≤ R.faults input.new }
{
    let mut one = [0u8; 1];
    match input.read(&mut one) {
        Got::Bytes(_) => Err(AttachStatus::Flood { limit: MOST_INPUT }),
        Got::End => Ok(false),
        Got::Failed => Err(AttachStatus::ReadFault),
    }
}

// Reads a piece of the input, and answers the frames that are whole with it. Whether the input may go on.
fn answer_piece<R: Source, W: Sink, G: Words, L: Log>(
    session: &mut Session,
    framer: &mut BlockFramer,
    input: &mut R,
    output: &mut W,
    rand: &mut G,
    log: &mut L,
) -> Result<bool, AttachStatus>
    requires ready { IsReady framer.old }
    ensures ok { OnOk result ((keys : History) (first : Option (List ℕ)) (origin : Sight)
        → Piped keys first (R.left input.old) origin
        (sight (G.to_come rand.old) (W.holds output.old) (L.noted log.old)) framer.old session.old
        → Piped keys first (R.left input.new) origin
        (sight (G.to_come rand.new) (W.holds output.new) (L.noted log.new))
        framer.new session.new) }
    ensures at_end { IfOk result (λ more. more ≡ false → IsAtEnd (R.left input.new)) }
    ensures err { IfErr result (λ status. (keys : History) (first : Option (List ℕ)) (origin : Sight)
        → Piped keys first (R.left input.old) origin
        (sight (G.to_come rand.old) (W.holds output.old) (L.noted log.old)) framer.old session.old
        → ConnectionEnds keys status first (R.left input.new) origin
        (sight (G.to_come rand.new) (W.holds output.new) (L.noted log.new))) }
    ensures ready { OnOk result (IsReady framer.new) }
    ensures more { IfOk result (λ more. more ≡ true → taken_by framer.old < taken_by framer.new) }
    ensures read_fault { IfErr result (λ status. status ≡ AttachStatus.ReadFault
        → Rose (R.faults input.old) (R.faults input.new)) }
    ensures write_fault { IfErr result (λ status. status ≡ AttachStatus.WriteFault
        → Rose (W.faults output.old) (W.faults output.new)) }
    ensures word_fault { IfErr result (λ status. status ≡ AttachStatus.WordFault
        → Rose (G.faults rand.old) (G.faults rand.new)) }
    ensures counted_reads { R.faults input.old ≤ R.faults input.new }
    ensures counted_writes { W.faults output.old ≤ W.faults output.new }
    ensures counted_words { G.faults rand.old ≤ G.faults rand.new }
{
    let left = MOST_INPUT - framer.taken();
    if left == 0 {
        return read_over(framer, input);
    }
    match framer.fill_within(left as usize, input) {
        Got::Bytes(_) => {}
        Got::End => return Ok(false),
        Got::Failed => return Err(AttachStatus::ReadFault),
    }
    answer_frames(session, framer, output, rand, log)?;
    Ok(true)
}

// The end of the input, which isn't inside a frame.
fn end(framer: &BlockFramer) -> Result<(), AttachStatus>
    ensures ok { OnOk result ((keys : History) (first next : Option (List ℕ)) (origin now : Sight)
        (session : Whole)
        → Piped keys first next origin now framer.now session → IsAtEnd next
        → AnswersAll keys first next origin now) }
    ensures err { IfErr result (λ status. (keys : History) (first next : Option (List ℕ))
        (origin now : Sight) (session : Whole)
        → Piped keys first next origin now framer.now session → IsAtEnd next
        → ConnectionEnds keys status first next origin now) }
    ensures which { IfErr result (λ status. (status ≡ AttachStatus.ReadFault → ⊥)
        × (status ≡ AttachStatus.WriteFault → ⊥) × (status ≡ AttachStatus.WordFault → ⊥)) }
{
    if framer.held() > 0 {
        let at = framer.place();
        return Err(AttachStatus::Torn { at });
    }
    Ok(())
}

// Reads the input to its end, and answers its whole frames.
fn answer_pieces<R: Source, W: Sink, G: Words, L: Log>(
    session: &mut Session,
    framer: &mut BlockFramer,
    input: &mut R,
    output: &mut W,
    rand: &mut G,
    log: &mut L,
) -> Result<(), AttachStatus>
    requires ready { IsReady framer.old }
    ensures ok { OnOk result ((keys : History) (first : Option (List ℕ)) (origin : Sight)
        → Piped keys first (R.left input.old) origin
        (sight (G.to_come rand.old) (W.holds output.old) (L.noted log.old)) framer.old session.old
        → Piped keys first (R.left input.new) origin
        (sight (G.to_come rand.new) (W.holds output.new) (L.noted log.new))
        framer.new session.new) }
    ensures at_end { OnOk result (IsAtEnd (R.left input.new)) }
    ensures err { IfErr result (λ status. (keys : History) (first : Option (List ℕ)) (origin : Sight)
        → Piped keys first (R.left input.old) origin
        (sight (G.to_come rand.old) (W.holds output.old) (L.noted log.old)) framer.old session.old
        → ConnectionEnds keys status first (R.left input.new) origin
        (sight (G.to_come rand.new) (W.holds output.new) (L.noted log.new))) }
    ensures read_fault { IfErr result (λ status. status ≡ AttachStatus.ReadFault
        → Rose (R.faults input.old) (R.faults input.new)) }
    ensures write_fault { IfErr result (λ status. status ≡ AttachStatus.WriteFault
        → Rose (W.faults output.old) (W.faults output.new)) }
    ensures word_fault { IfErr result (λ status. status ≡ AttachStatus.WordFault
        → Rose (G.faults rand.old) (G.faults rand.new)) }
    ensures counted_reads { R.faults input.old ≤ R.faults input.new }
    ensures counted_writes { W.faults output.old ≤ W.faults output.new }
    ensures counted_words { G.faults rand.old ≤ G.faults rand.new }
{
    while answer_piece(session, framer, input, output, rand, log)? {}
    Ok(())
}

/// Reads the input to its end, and answers its frames.
pub(crate) fn answer_input<R: Source, W: Sink, G: Words, L: Log>(
    session: &mut Session,
    framer: &mut BlockFramer,
    input: &mut R,
    output: &mut W,
    rand: &mut G,
    log: &mut L,
) -> Result<(), AttachStatus>
    requires ready { IsReady framer.old }
    ensures ok { OnOk result ((keys : History) (first : Option (List ℕ)) (origin : Sight)
        → Piped keys first (R.left input.old) origin
        (sight (G.to_come rand.old) (W.holds output.old) (L.noted log.old)) framer.old session.old
        → AnswersAll keys first (R.left input.new) origin
        (sight (G.to_come rand.new) (W.holds output.new) (L.noted log.new))) }
    ensures err { IfErr result (λ status. (keys : History) (first : Option (List ℕ)) (origin : Sight)
        → Piped keys first (R.left input.old) origin
        (sight (G.to_come rand.old) (W.holds output.old) (L.noted log.old)) framer.old session.old
        → ConnectionEnds keys status first (R.left input.new) origin
        (sight (G.to_come rand.new) (W.holds output.new) (L.noted log.new))) }
    ensures read_fault { IfErr result (λ status. status ≡ AttachStatus.ReadFault
        → Rose (R.faults input.old) (R.faults input.new)) }
    ensures write_fault { IfErr result (λ status. status ≡ AttachStatus.WriteFault
        → Rose (W.faults output.old) (W.faults output.new)) }
    ensures word_fault { IfErr result (λ status. status ≡ AttachStatus.WordFault
        → Rose (G.faults rand.old) (G.faults rand.new)) }
    ensures counted_reads { R.faults input.old ≤ R.faults input.new }
    ensures counted_writes { W.faults output.old ≤ W.faults output.new }
    ensures counted_words { G.faults rand.old ≤ G.faults rand.new }
{
    answer_pieces(session, framer, input, output, rand, log)?;
    end(framer)
}
