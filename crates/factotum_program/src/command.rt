// The command words, and what each command does.
ghost use Rattle.std.specs.Prelude.{◌≡◌, ◌≤◌, ◌⊎◌, List, ℕ, length, None, Some, true, false, codes};
ghost use Rattle.wire_streams.specs.Causes.{Rose};
ghost use Rattle.nine.specs.Streams.{IsFrames};
ghost use Rattle.factotum_program.specs.Pipe.{most_frame};
ghost use Rattle.factotum_program.specs.Commands.{EndsSo, most_input};
ghost use Rattle.factotum_program.specs.Sights.{sight};
ghost use Rattle.auth_program.specs.Serving.{IsServableAll, ServesSo, outside};
ghost use Rattle.auth_program.specs.Statuses.{is_printable};
ghost use Rattle.auth_program.specs.Words.{authsrv_value, is_authsrv};
ghost use Rattle.world_program.specs.declared.words.GenWords.{GenWords};
ghost use Rattle.world_program.specs.Playing.{IsPlayable, WorldSo};
ghost use Rattle.world_program.specs.Summing.{GenSo};
ghost use Rattle.world_program.specs.Words.{gen_given, is_world};
ghost use Rattle.factotum_program.specs.Words.{IsUnread, draws_words, is_command, is_pipe, reads_input};

use crate::pipe::answer_input;
use crate::words::{Task, read_words};
use auth_program::{Status, serve};
use std::alloc::Global;
use wire_base::Text;
use wire_streams::{Dialer, Sink, Source, Words};
use world_program::{play_gen, play_world};

// One connection of 9P.
fn run_pipe<R: Source, W: Sink, D: Dialer, G: Words>(
    alloc: Global,
    input: &mut R,
    output: &mut W,
    dial: &mut D,
    rand: &mut G,
) -> Status
    ensures ends { EndsSo result (R.left input.old) (R.left input.new)
        (sight (G.to_come rand.old) (D.told dial.old) (W.holds output.old))
        (sight (G.to_come rand.new) (D.told dial.new) (W.holds output.new)) }
    ensures read_fault { result ≡ Status.ReadFault
        → Rose (R.faults input.old) (R.faults input.new) }
    ensures write_fault { result ≡ Status.WriteFault
        → Rose (W.faults output.old) (W.faults output.new) }
    ensures word_fault { result ≡ Status.WordFault → Rose (G.faults rand.old) (G.faults rand.new) }
    ensures counted_reads { R.faults input.old ≤ R.faults input.new }
    ensures counted_writes { W.faults output.old ≤ W.faults output.new }
    ensures counted_dials { D.faults dial.old ≤ D.faults dial.new }
    ensures counted_words { G.faults rand.old ≤ G.faults rand.new }
{
    match answer_input(alloc, input, output, dial, rand) {
        Ok(()) => Status::Fine,
        Err(status) => status,
    }
}

// The command; that it is complete follows from these clauses.
fn run<R: Source, F: Source, W: Sink, D: Dialer, G: Words>(
    alloc: Global,
    words: &[Text],
    input: &mut R,
    keys: &mut F,
    speaks: &mut F,
    output: &mut W,
    dial: &mut D,
    rand: &mut G,
) -> Status
    ensures usage { result ≡ Status.Usage → is_command words.now ≡ false }
    ensures no_command { is_command words.now ≡ false → IsUnread words.now result }
    ensures source { reads_input words.now ≡ false → input.new ≡ input.old }
    ensures sink { is_command words.now ≡ false → output.new ≡ output.old }
    ensures draws { draws_words words.now ≡ false → rand.new ≡ rand.old }
    ensures tables { is_authsrv words.now ≡ false
        → (keys.new ≡ keys.old) × (speaks.new ≡ speaks.old) }
    ensures dialer { is_pipe words.now ≡ false → dial.new ≡ dial.old }
    ensures piped { is_pipe words.now ≡ true → EndsSo result (R.left input.old) (R.left input.new)
        (sight (G.to_come rand.old) (D.told dial.old) (W.holds output.old))
        (sight (G.to_come rand.new) (D.told dial.new) (W.holds output.new)) }
    ensures served { is_authsrv words.now ≡ true
        → ServesSo (authsrv_value (codes "--dom") words.now) result
        (outside (F.left keys.old) (F.left speaks.old)
        (R.left input.old) (G.to_come rand.old) (W.holds output.old))
        (outside (F.left keys.new) (F.left speaks.new)
        (R.left input.new) (G.to_come rand.new) (W.holds output.new)) }
    ensures played { is_world words.now ≡ true
        → WorldSo result (R.left input.old) (R.left input.new)
        (W.holds output.old) (W.holds output.new) }
    ensures summed { (given : GenWords) → gen_given words.now ≡ Some given
        → GenSo result given.number given.rounds (W.holds output.old) (W.holds output.new) }
    ensures read_fault { result ≡ Status.ReadFault → Rose (R.faults input.old) (R.faults input.new)
        ⊎ (Rose (F.faults keys.old) (F.faults keys.new)
        ⊎ Rose (F.faults speaks.old) (F.faults speaks.new)) }
    ensures pipe_fault { is_pipe words.now ≡ true → result ≡ Status.ReadFault
        → Rose (R.faults input.old) (R.faults input.new) }
    ensures world_fault { is_world words.now ≡ true → result ≡ Status.ReadFault
        → Rose (R.faults input.old) (R.faults input.new) }
    ensures write_fault { result ≡ Status.WriteFault
        → Rose (W.faults output.old) (W.faults output.new) }
    ensures word_fault { result ≡ Status.WordFault → Rose (G.faults rand.old) (G.faults rand.new) }
    ensures counted_reads { R.faults input.old ≤ R.faults input.new }
    ensures counted_keys { F.faults keys.old ≤ F.faults keys.new }
    ensures counted_speaks { F.faults speaks.old ≤ F.faults speaks.new }
    ensures counted_writes { W.faults output.old ≤ W.faults output.new }
    ensures counted_words { G.faults rand.old ≤ G.faults rand.new }
    ensures counted_dials { D.faults dial.old ≤ D.faults dial.new }
{
    match read_words(alloc, words) {
        Ok(Task::Pipe { .. }) => run_pipe(alloc, input, output, dial, rand),
        Ok(Task::Authsrv(given)) => serve(alloc, given.dom, input, keys, speaks, output, rand),
        Ok(Task::World) => play_world(alloc, input, output),
        Ok(Task::Gen(given)) => play_gen(alloc, given, output),
        Err(status) => status,
    }
}

/// Carries out the command that the words name, the words behind the program's name.
///
/// `pipe` is one connection of 9P, with or without `--auth ADDR`: each frame of the input, at most 2^40 bytes, is answered
/// before more is read. A word is drawn for it, what it makes the agent ask is asked by the dialer, and its replies are
/// written. The address is the caller's: it has the dialer.
///
/// `authsrv --dom D --keys PATH --speaks PATH` is the authentication server of domain D for one client. The keys and who
/// speaks for whom, at most 2^22 bytes each, are read whole and then parsed, each in this order; then the client's
/// requests, at most 2^40 bytes, are answered, each before more is read, with three words drawn for each. The paths are
/// the caller's: it opens both files.
///
/// `world` runs a script of at most 2^22 bytes, which is read whole, and writes the line of each step of its record.
///
/// `gen --number N --rounds K` runs the script of a number below 2^64, of 1 to 1000 rounds, and writes how many of its
/// steps are acceptances and failures and how many messages it has.
///
/// What was read, drawn, asked and written by then is told for every status.
pub fn run_command<R: Source, F: Source, W: Sink, D: Dialer, G: Words>(
    alloc: Global,
    words: &[Text],
    input: &mut R,
    keys: &mut F,
    speaks: &mut F,
    output: &mut W,
    dial: &mut D,
    rand: &mut G,
) -> Status
    // The words, and which commands leave each object as it was: words of no command leave all; `gen` leaves the input;
    // `world` and `gen` draw no words; no command but `authsrv` touches the tables, and none but `pipe` the dialer.
    ensures usage { result ≡ Status.Usage → is_command words.now ≡ false }
    ensures no_command { is_command words.now ≡ false → IsUnread words.now result }
    ensures source { reads_input words.now ≡ false → input.new ≡ input.old }
    ensures sink { is_command words.now ≡ false → output.new ≡ output.old }
    ensures draws { draws_words words.now ≡ false → rand.new ≡ rand.old }
    ensures tables { is_authsrv words.now ≡ false
        → (keys.new ≡ keys.old) × (speaks.new ≡ speaks.old) }
    ensures dialer { is_pipe words.now ≡ false → dial.new ≡ dial.old }

    // Each status of a command has its cause in what was read, and what was drawn, asked and written by then is told.
    ensures piped { is_pipe words.now ≡ true → EndsSo result (R.left input.old) (R.left input.new)
        (sight (G.to_come rand.old) (D.told dial.old) (W.holds output.old))
        (sight (G.to_come rand.new) (D.told dial.new) (W.holds output.new)) }
    ensures served { is_authsrv words.now ≡ true
        → ServesSo (authsrv_value (codes "--dom") words.now) result
        (outside (F.left keys.old) (F.left speaks.old)
        (R.left input.old) (G.to_come rand.old) (W.holds output.old))
        (outside (F.left keys.new) (F.left speaks.new)
        (R.left input.new) (G.to_come rand.new) (W.holds output.new)) }
    ensures played { is_world words.now ≡ true
        → WorldSo result (R.left input.old) (R.left input.new)
        (W.holds output.old) (W.holds output.new) }
    ensures summed { (given : GenWords) → gen_given words.now ≡ Some given
        → GenSo result given.number given.rounds (W.holds output.old) (W.holds output.new) }

    // A fault comes only where the count of one of its objects rose, and no count falls.
    ensures read_fault { result ≡ Status.ReadFault → Rose (R.faults input.old) (R.faults input.new)
        ⊎ (Rose (F.faults keys.old) (F.faults keys.new)
        ⊎ Rose (F.faults speaks.old) (F.faults speaks.new)) }
    ensures pipe_fault { is_pipe words.now ≡ true → result ≡ Status.ReadFault
        → Rose (R.faults input.old) (R.faults input.new) }
    ensures world_fault { is_world words.now ≡ true → result ≡ Status.ReadFault
        → Rose (R.faults input.old) (R.faults input.new) }
    ensures write_fault { result ≡ Status.WriteFault
        → Rose (W.faults output.old) (W.faults output.new) }
    ensures word_fault { result ≡ Status.WordFault → Rose (G.faults rand.old) (G.faults rand.new) }
    ensures counted_reads { R.faults input.old ≤ R.faults input.new }
    ensures counted_keys { F.faults keys.old ≤ F.faults keys.new }
    ensures counted_speaks { F.faults speaks.old ≤ F.faults speaks.new }
    ensures counted_writes { W.faults output.old ≤ W.faults output.new }
    ensures counted_words { G.faults rand.old ≤ G.faults rand.new }
    ensures counted_dials { D.faults dial.old ≤ D.faults dial.new }

    // Each status has a line.
    ensures printable { is_printable result ≡ true }

    // What is told, valid and without faults is answered, unless memory runs out.
    ensures pipe_complete { (content : List ℕ) → is_pipe words.now ≡ true
        → R.left input.old ≡ Some content
        → IsFrames most_frame content → length content ≤ most_input
        → (Rose (R.faults input.old) (R.faults input.new) → ⊥)
        → (Rose (W.faults output.old) (W.faults output.new) → ⊥)
        → (Rose (G.faults rand.old) (G.faults rand.new) → ⊥)
        → (result ≡ Status.Fine) ⊎ (result ≡ Status.NoMemory) }
    ensures authsrv_complete { is_authsrv words.now ≡ true
        → IsServableAll (authsrv_value (codes "--dom") words.now)
        (outside (F.left keys.old) (F.left speaks.old)
        (R.left input.old) (G.to_come rand.old) (W.holds output.old))
        → (Rose (R.faults input.old) (R.faults input.new) → ⊥)
        → (Rose (F.faults keys.old) (F.faults keys.new) → ⊥)
        → (Rose (F.faults speaks.old) (F.faults speaks.new) → ⊥)
        → (Rose (W.faults output.old) (W.faults output.new) → ⊥)
        → (Rose (G.faults rand.old) (G.faults rand.new) → ⊥)
        → (result ≡ Status.Fine) ⊎ (result ≡ Status.NoMemory) }
    ensures world_complete { is_world words.now ≡ true → IsPlayable (R.left input.old)
        → (Rose (R.faults input.old) (R.faults input.new) → ⊥)
        → (Rose (W.faults output.old) (W.faults output.new) → ⊥)
        → (result ≡ Status.Fine) ⊎ (result ≡ Status.NoMemory) }
    ensures gen_complete { (given : GenWords) → gen_given words.now ≡ Some given
        → (Rose (W.faults output.old) (W.faults output.new) → ⊥)
        → (result ≡ Status.Fine) ⊎ (result ≡ Status.NoMemory) }
{
    run(alloc, words, input, keys, speaks, output, dial, rand)
}
