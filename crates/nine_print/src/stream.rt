// A stream of frames of both directions, shown line by line: a piece of the input is read, the lines of the frames that
// are whole with it are written, and then the next piece is read.
ghost use Rattle.std.specs.Prelude.{◌≡◌, ◌++◌, ◌+◌, ◌<◌, ◌≤◌, [], Bool, List, ℕ, Option, Some, true, false, length, ◌⊎◌, OnOk, OnErr, IfOk, IfErr};
ghost use Rattle.std.specs.Io.KnownBytes.{IsAtEnd};
ghost use Rattle.wire_streams.specs.Causes.{Rose};
ghost use Rattle.wire_streams.specs.Streams.{Gains};
ghost use Rattle.wire_streams.specs.Whole.{GainsFront};
ghost use Rattle.nine.specs.Streams.{IsFrames};
ghost use Rattle.nine.specs.Encoded.{Extends};
ghost use Rattle.nine_print.specs.Lines.{bad_size_line, torn_line};
ghost use Rattle.nine_print.specs.declared.stream.ShowEnd.TheVariants.{NoMemory};
ghost use Rattle.nine_print.specs.Shown.{end_number, most_frame, most_input, Shows};
ghost use Rattle.nine_print.specs.Showing.{Handed, AllHanded, StopsAt, CutsAt, Told, Shown, taken_by};

use crate::line::put_line;
use crate::value::put_number;
use nine::{Framer, Next};
use std::alloc::Global;
use wire_base::{Bytes, NoMemory};
use wire_streams::{Got, Sink, Source, write_all};

/// The greatest size of a frame.
const MOST_FRAME: u32 = 1 << 24;

/// How many bytes of input are shown.
const MOST_INPUT: usize = 1 << 60;

/// How many bytes one read asks for.
const PIECE: usize = 8192;

/// How a stream that was shown ended.
#[derive(Clone, Copy, Debug, PartialEq, Eq)]
pub enum ShowEnd {
    /// Behind a whole frame.
    Fine,
    /// A read of the input failed.
    ReadFault,
    /// A write of the output failed.
    WriteFault,
    /// A size in a frame's place that no frame has: under 7, or over 2^24.
    BadSize,
    /// Inside a frame.
    Torn,
    /// Memory ran out.
    NoMemory,
    /// The input has over 2^60 bytes.
    Flood,
}

impl From<NoMemory> for ShowEnd {
    ghost from_gives = { λ _ end. end ≡ NoMemory };

    fn from(_: NoMemory) -> Self {
        ShowEnd::NoMemory
    }
}

impl ShowEnd {
    /// The number that the process ends with.
    pub fn number(self) -> u8
        ensures { result ≡ end_number self }
    {
        match self {
            ShowEnd::Fine => 0,
            ShowEnd::ReadFault => 2,
            ShowEnd::WriteFault => 3,
            ShowEnd::BadSize => 5,
            ShowEnd::Torn => 6,
            ShowEnd::NoMemory => 10,
            ShowEnd::Flood => 11,
        }
    }
}

#[tactic(auto, unfolding(crate::specs::Lines::bad_size_line))]
fn append_bad_size(alloc: Global, at: u64, size: u32, out: &mut Bytes) -> Result<(), NoMemory>
    ensures ok { OnOk result (out.new ≡ out.old ++ bad_size_line at size) }
    ensures err { OnErr result (Extends out.old out.new) }
{
    put_number(alloc, b"bad size ", size as u64, out)?;
    put_number(alloc, b" at ", at, out)?;
    out.push(b'\n')
}

// Appends the line of a bad size, or nothing.
fn put_bad_size(alloc: Global, at: u64, size: u32, out: &mut Bytes) -> Result<(), NoMemory>
    ensures ok { OnOk result (out.new ≡ out.old ++ bad_size_line at size) }
    ensures err { OnErr result (out.new ≡ out.old) }
{
    let before = out.len();
    let done = append_bad_size(alloc, at, size, out);
    out.undo_on_err(before, done)
}

#[tactic(auto, unfolding(crate::specs::Lines::torn_line))]
fn put_torn(alloc: Global, at: u64, held: usize, out: &mut Bytes) -> Result<(), NoMemory>
    ensures ok { OnOk result (out.new ≡ out.old ++ torn_line at held) }
    ensures err { OnErr result (Extends out.old out.new) }
{
    put_number(alloc, b"torn frame of ", held as u64, out)?;
    put_number(alloc, b" bytes at ", at, out)?;
    out.push(b'\n')
}

// The bytes that aren't shown yet, and the lines that aren't written yet.
#[derive(Drop)]
struct Showing {
    alloc: Global,
    framer: Framer,
    lines: Bytes,
}

// How many bytes of the input were taken.
fn taken_by(showing: &Showing) -> usize
    requires { taken_by showing.now ≤ most_input }
    ensures { result ≡ taken_by showing.now }
{
    showing.framer.place() as usize + showing.framer.held()
}

// Appends the line of the next frame, where it is whole. Whether it is.
fn show_frame(secrets: bool, showing: &mut Showing) -> Result<bool, ShowEnd>
    ensures more { OnOk result ((so_far stream : List ℕ) (handed : List (List ℕ))
        → Handed secrets so_far stream handed showing.old.framer showing.old.lines
        → (all : List (List ℕ)) × Handed secrets so_far stream all showing.new.framer showing.new.lines) }
    ensures all { IfOk result (λ more. more ≡ false
        → (so_far stream : List ℕ) (handed : List (List ℕ))
        → Handed secrets so_far stream handed showing.old.framer showing.old.lines
        → AllHanded secrets so_far stream showing.new.framer showing.new.lines) }
    ensures err { IfErr result (λ end. (so_far stream : List ℕ) (handed : List (List ℕ))
        → Handed secrets so_far stream handed showing.old.framer showing.old.lines
        → StopsAt secrets end stream (so_far ++ showing.new.lines)) }
    ensures which { IfErr result
        (λ end. (end ≡ ShowEnd.ReadFault → ⊥) × (end ≡ ShowEnd.WriteFault → ⊥)) }
    ensures fed { OnOk result (taken_by showing.new ≡ taken_by showing.old) }
    ensures fewer { IfOk result (λ more. more ≡ true
        → length showing.new.framer.held < length showing.old.framer.held) }
{
    let at = showing.framer.place();
    match showing.framer.next()? {
        Next::Whole(frame) => {
            put_line(
                showing.alloc,
                secrets,
                at,
                frame.as_slice(),
                &mut showing.lines,
            )?;
            Ok(true)
        }
        Next::NotYet => Ok(false),
        Next::BadSize { at, size } => {
            put_bad_size(showing.alloc, at, size, &mut showing.lines)?;
            Err(ShowEnd::BadSize)
        }
    }
}

// Appends the lines of all frames that are whole.
fn show_frames(secrets: bool, showing: &mut Showing) -> Result<(), ShowEnd>
    ensures ok { OnOk result ((so_far stream : List ℕ) (handed : List (List ℕ))
        → Handed secrets so_far stream handed showing.old.framer showing.old.lines
        → AllHanded secrets so_far stream showing.new.framer showing.new.lines) }
    ensures err { IfErr result (λ end. (so_far stream : List ℕ) (handed : List (List ℕ))
        → Handed secrets so_far stream handed showing.old.framer showing.old.lines
        → StopsAt secrets end stream (so_far ++ showing.new.lines)) }
    ensures which { IfErr result
        (λ end. (end ≡ ShowEnd.ReadFault → ⊥) × (end ≡ ShowEnd.WriteFault → ⊥)) }
    ensures fed { OnOk result (taken_by showing.new ≡ taken_by showing.old) }
{
    while show_frame(secrets, showing)? {}
    Ok(())
}

// Appends the lines of the frames that are whole with the next piece of the input.
fn show_piece(secrets: bool, showing: &mut Showing, piece: &[u8]) -> Result<(), ShowEnd>
    requires room { taken_by showing.old + length piece.now ≤ most_input }
    ensures ok { OnOk result ((so_far stream : List ℕ)
        → AllHanded secrets so_far stream showing.old.framer showing.old.lines
        → AllHanded secrets so_far (stream ++ piece.now) showing.new.framer showing.new.lines) }
    ensures err { IfErr result (λ end. (so_far stream : List ℕ)
        → AllHanded secrets so_far stream showing.old.framer showing.old.lines
        → StopsAt secrets end (stream ++ piece.now) (so_far ++ showing.new.lines)) }
    ensures which { IfErr result
        (λ end. (end ≡ ShowEnd.ReadFault → ⊥) × (end ≡ ShowEnd.WriteFault → ⊥)) }
    ensures fed { OnOk result (taken_by showing.new ≡ taken_by showing.old + length piece.now) }
{
    showing.framer.feed(piece)?;
    show_frames(secrets, showing)
}

// Writes the lines, and keeps their memory for the next.
fn write_lines<W: Sink>(lines: &mut Bytes, output: &mut W) -> Result<(), ShowEnd>
    ensures ok { OnOk result (Gains (W.holds output.old) (W.holds output.new) lines.old) }
    ensures err { IfErr result
        (λ end. (end ≡ ShowEnd.WriteFault)
        × GainsFront (W.holds output.old) (W.holds output.new) lines.old) }
    ensures none { lines.new ≡ [] }
    ensures cause { IfErr result (λ end. Rose (W.faults output.old) (W.faults output.new)) }
    ensures counted { W.faults output.old ≤ W.faults output.new }
{
    let done = write_all(lines.as_slice(), output);
    lines.clear();
    match done {
        Ok(()) => Ok(()),
        Err(_) => Err(ShowEnd::WriteFault),
    }
}

// Writes the lines of the frames that are whole with the next piece of the input, also where memory or a bad size ends
// the stream.
fn write_piece<W: Sink>(
    secrets: bool,
    showing: &mut Showing,
    piece: &[u8],
    output: &mut W,
) -> Result<(), ShowEnd>
    requires room { taken_by showing.old + length piece.now ≤ most_input }
    ensures ok { OnOk result ((origin : Option (List ℕ)) (stream : List ℕ)
        → Told secrets origin (W.holds output.old) stream showing.old.framer showing.old.lines
        → Told secrets origin (W.holds output.new)
        (stream ++ piece.now) showing.new.framer showing.new.lines) }
    ensures err { IfErr result (λ end. (left origin : Option (List ℕ)) (stream : List ℕ)
        → Told secrets origin (W.holds output.old) stream showing.old.framer showing.old.lines
        → CutsAt secrets end left origin (W.holds output.new) (stream ++ piece.now)) }
    ensures fed { OnOk result (taken_by showing.new ≡ taken_by showing.old + length piece.now) }
    ensures cause { IfErr result (λ end. end ≡ ShowEnd.WriteFault
        → Rose (W.faults output.old) (W.faults output.new)) }
    ensures which { IfErr result (λ end. end ≡ ShowEnd.ReadFault → ⊥) }
    ensures counted { W.faults output.old ≤ W.faults output.new }
{
    let shown = show_piece(secrets, showing, piece);
    write_lines(&mut showing.lines, output)?;
    shown
}

// Reads a piece of the input, and writes the lines of the frames that are whole with it. Whether the input may go on.
fn show_next<R: Source, W: Sink>(
    secrets: bool,
    showing: &mut Showing,
    piece: &mut [u8],
    input: &mut R,
    output: &mut W,
) -> Result<bool, ShowEnd>
    requires room { 0 < length piece.old }
    requires few { taken_by showing.old ≤ most_input }
    ensures ok { OnOk result ((first origin : Option (List ℕ))
        → Shown secrets first (R.left input.old) origin (W.holds output.old) showing.old
        → Shown secrets first (R.left input.new) origin (W.holds output.new) showing.new) }
    ensures at_end { IfOk result (λ more. more ≡ false → IsAtEnd (R.left input.new)) }
    ensures err { IfErr result (λ end. (first origin : Option (List ℕ))
        → Shown secrets first (R.left input.old) origin (W.holds output.old) showing.old
        → Shows secrets end first (R.left input.new) origin (W.holds output.new)) }
    ensures few { OnOk result (taken_by showing.new ≤ most_input) }
    ensures more { IfOk result (λ more. more ≡ true → taken_by showing.old < taken_by showing.new) }
    ensures read_fault { IfErr result (λ end. end ≡ ShowEnd.ReadFault
        → Rose (R.faults input.old) (R.faults input.new)) }
    ensures write_fault { IfErr result (λ end. end ≡ ShowEnd.WriteFault
        → Rose (W.faults output.old) (W.faults output.new)) }
    ensures counted_reads { R.faults input.old ≤ R.faults input.new }
    ensures counted_writes { W.faults output.old ≤ W.faults output.new }
{
    let count = match input.read(piece) {
        Got::Bytes(count) => count,
        Got::End => return Ok(false),
        Got::Failed => return Err(ShowEnd::ReadFault),
    };
    if count > MOST_INPUT - taken_by(showing) {
        return Err(ShowEnd::Flood);
    }
    write_piece(secrets, showing, &piece[..count], output)?;
    Ok(true)
}

// The end of the input: where it is inside a frame, the line that tells so is written.
fn end<W: Sink>(secrets: bool, showing: &mut Showing, output: &mut W) -> Result<(), ShowEnd>
    ensures ok { OnOk result ((first now origin : Option (List ℕ))
        → Shown secrets first now origin (W.holds output.old) showing.old → IsAtEnd now
        → Shows secrets ShowEnd.Fine first now origin (W.holds output.new)) }
    ensures err { IfErr result (λ end. (first now origin : Option (List ℕ))
        → Shown secrets first now origin (W.holds output.old) showing.old → IsAtEnd now
        → Shows secrets end first now origin (W.holds output.new)) }
    ensures cause { IfErr result (λ end. end ≡ ShowEnd.WriteFault
        → Rose (W.faults output.old) (W.faults output.new)) }
    ensures which { IfErr result (λ end. end ≡ ShowEnd.ReadFault → ⊥) }
    ensures counted { W.faults output.old ≤ W.faults output.new }
{
    let held = showing.framer.held();
    if held == 0 {
        return Ok(());
    }
    put_torn(
        showing.alloc,
        showing.framer.place(),
        held,
        &mut showing.lines,
    )?;
    write_lines(&mut showing.lines, output)?;
    Err(ShowEnd::Torn)
}

// Before the first read.
fn begin(alloc: Global) -> Showing
    ensures begun { (secrets : Bool) (first origin : Option (List ℕ)) → Shown secrets first first origin origin result }
    ensures none { taken_by result ≡ 0 }
{
    Showing {
        alloc,
        framer: Framer::new(alloc, MOST_FRAME),
        lines: Bytes::new(alloc),
    }
}

// Shows the input to its end.
fn show_input<R: Source, W: Sink>(
    alloc: Global,
    secrets: bool,
    input: &mut R,
    output: &mut W,
) -> Result<(), ShowEnd>
    ensures ok { OnOk result
        (Shows secrets ShowEnd.Fine (R.left input.old) (R.left input.new) (W.holds output.old)
        (W.holds output.new)) }
    ensures err { IfErr result
        (λ end. Shows secrets end (R.left input.old) (R.left input.new) (W.holds output.old)
        (W.holds output.new)) }
    ensures read_fault { IfErr result (λ end. end ≡ ShowEnd.ReadFault
        → Rose (R.faults input.old) (R.faults input.new)) }
    ensures write_fault { IfErr result (λ end. end ≡ ShowEnd.WriteFault
        → Rose (W.faults output.old) (W.faults output.new)) }
    ensures counted_reads { R.faults input.old ≤ R.faults input.new }
    ensures counted_writes { W.faults output.old ≤ W.faults output.new }
{
    let mut showing = begin(alloc);
    let mut piece = [0u8; PIECE];
    while show_next(secrets, &mut showing, &mut piece, input, output)? {}
    end(secrets, &mut showing, output)
}

/// Reads a stream of frames to its end or to the first bad size, and writes the line of each, with secrets or without.
///
/// Lines are written as soon as the piece that was read is shown.
pub fn show<R: Source, W: Sink>(
    alloc: Global,
    secrets: bool,
    input: &mut R,
    output: &mut W,
) -> ShowEnd
    // The input that was read, and the lines of it that were written.
    ensures ends { Shows secrets result (R.left input.old) (R.left input.new) (W.holds output.old)
        (W.holds output.new) }

    // A fault is told only where one was counted.
    ensures read_fault { result ≡ ShowEnd.ReadFault
        → Rose (R.faults input.old) (R.faults input.new) }
    ensures write_fault { result ≡ ShowEnd.WriteFault
        → Rose (W.faults output.old) (W.faults output.new) }
    ensures counted_reads { R.faults input.old ≤ R.faults input.new }
    ensures counted_writes { W.faults output.old ≤ W.faults output.new }

    // What is told, valid and without faults is shown to its end, unless memory runs out.
    ensures complete { (content : List ℕ) → R.left input.old ≡ Some content
        → IsFrames most_frame content → length content ≤ most_input
        → (Rose (R.faults input.old) (R.faults input.new) → ⊥)
        → (Rose (W.faults output.old) (W.faults output.new) → ⊥)
        → (result ≡ ShowEnd.Fine) ⊎ (result ≡ ShowEnd.NoMemory) }
{
    match show_input(alloc, secrets, input, output) {
        Ok(()) => ShowEnd::Fine,
        Err(end) => end,
    }
}
