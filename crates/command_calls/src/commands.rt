// The public calls of `factotum_program`.
ghost use Rattle.std.specs.Prelude.{◌≡◌, ◌≤◌, ◌⊎◌, List, ℕ, length, None, Some, true, false, codes, IfErr, IfOk};
ghost use Rattle.auth_program.specs.Serving.{IsServableAll, ServesSo, outside};
ghost use Rattle.auth_program.specs.Statuses.{is_printable};
ghost use Rattle.auth_program.specs.Words.{authsrv_value, is_authsrv};
ghost use Rattle.factotum_program.specs.Commands.{EndsSo, most_input};
ghost use Rattle.factotum_program.specs.Pipe.{most_frame};
ghost use Rattle.factotum_program.specs.Sights.{sight};
ghost use Rattle.factotum_program.specs.Words.{IsUnread, draws_words, is_command, is_pipe, reads_input, IsTask};
ghost use Rattle.nine.specs.Streams.{IsFrames};
ghost use Rattle.wire_streams.specs.Causes.{Rose};
ghost use Rattle.world_program.specs.Playing.{IsPlayable, WorldSo};
ghost use Rattle.world_program.specs.Summing.{GenSo};
ghost use Rattle.world_program.specs.Words.{gen_given, is_world};
ghost use Rattle.world_program.specs.declared.words.GenWords.{GenWords};

use auth_program::Status;
use factotum_program::Task;
use std::alloc::Global;
use wire_base::{NoMemory, Text};
use wire_streams::{Dialer, Sink, Source, Words};
use world_program::{GenWords, is_world};

/// As `run_command`.
pub fn run_command<R: Source, F: Source, W: Sink, D: Dialer, G: Words>(
    alloc: Global,
    words: &[Text],
    input: &mut R,
    keys: &mut F,
    speaks: &mut F,
    output: &mut W,
    dial: &mut D,
    rand: &mut G,
) -> Status
    ensures usage { result ≡ Status.Usage → is_command words.now ≡ false }
    ensures no_command { is_command words.now ≡ false → IsUnread words.now result }
    ensures source { reads_input words.now ≡ false → input.new ≡ input.old }
    ensures sink { is_command words.now ≡ false → output.new ≡ output.old }
    ensures draws { draws_words words.now ≡ false → rand.new ≡ rand.old }
    ensures tables { is_authsrv words.now ≡ false
        → (keys.new ≡ keys.old) × (speaks.new ≡ speaks.old) }
    ensures dialer { is_pipe words.now ≡ false → dial.new ≡ dial.old }

    ensures piped { is_pipe words.now ≡ true → EndsSo result (R.left input.old) (R.left input.new)
        (sight (G.to_come rand.old) (D.told dial.old) (W.holds output.old))
        (sight (G.to_come rand.new) (D.told dial.new) (W.holds output.new)) }
    ensures served { is_authsrv words.now ≡ true
        → ServesSo (authsrv_value (codes "--dom") words.now) result
        (outside (F.left keys.old) (F.left speaks.old)
        (R.left input.old) (G.to_come rand.old) (W.holds output.old))
        (outside (F.left keys.new) (F.left speaks.new)
        (R.left input.new) (G.to_come rand.new) (W.holds output.new)) }
    ensures played { is_world words.now ≡ true
        → WorldSo result (R.left input.old) (R.left input.new)
        (W.holds output.old) (W.holds output.new) }
    ensures summed { (given : GenWords) → gen_given words.now ≡ Some given
        → GenSo result given.number given.rounds (W.holds output.old) (W.holds output.new) }

    ensures read_fault { result ≡ Status.ReadFault → Rose (R.faults input.old) (R.faults input.new)
        ⊎ (Rose (F.faults keys.old) (F.faults keys.new)
        ⊎ Rose (F.faults speaks.old) (F.faults speaks.new)) }
    ensures pipe_fault { is_pipe words.now ≡ true → result ≡ Status.ReadFault
        → Rose (R.faults input.old) (R.faults input.new) }
    ensures world_fault { is_world words.now ≡ true → result ≡ Status.ReadFault
        → Rose (R.faults input.old) (R.faults input.new) }
    ensures write_fault { result ≡ Status.WriteFault
        → Rose (W.faults output.old) (W.faults output.new) }
    ensures word_fault { result ≡ Status.WordFault → Rose (G.faults rand.old) (G.faults rand.new) }
    ensures counted_reads { R.faults input.old ≤ R.faults input.new }
    ensures counted_keys { F.faults keys.old ≤ F.faults keys.new }
    ensures counted_speaks { F.faults speaks.old ≤ F.faults speaks.new }
    ensures counted_writes { W.faults output.old ≤ W.faults output.new }
    ensures counted_words { G.faults rand.old ≤ G.faults rand.new }
    ensures counted_dials { D.faults dial.old ≤ D.faults dial.new }

    ensures printable { is_printable result ≡ true }

    ensures pipe_complete { (content : List ℕ) → is_pipe words.now ≡ true
        → R.left input.old ≡ Some content
        → IsFrames most_frame content → length content ≤ most_input
        → (Rose (R.faults input.old) (R.faults input.new) → ⊥)
        → (Rose (W.faults output.old) (W.faults output.new) → ⊥)
        → (Rose (G.faults rand.old) (G.faults rand.new) → ⊥)
        → (result ≡ Status.Fine) ⊎ (result ≡ Status.NoMemory) }
    ensures authsrv_complete { is_authsrv words.now ≡ true
        → IsServableAll (authsrv_value (codes "--dom") words.now)
        (outside (F.left keys.old) (F.left speaks.old)
        (R.left input.old) (G.to_come rand.old) (W.holds output.old))
        → (Rose (R.faults input.old) (R.faults input.new) → ⊥)
        → (Rose (F.faults keys.old) (F.faults keys.new) → ⊥)
        → (Rose (F.faults speaks.old) (F.faults speaks.new) → ⊥)
        → (Rose (W.faults output.old) (W.faults output.new) → ⊥)
        → (Rose (G.faults rand.old) (G.faults rand.new) → ⊥)
        → (result ≡ Status.Fine) ⊎ (result ≡ Status.NoMemory) }
    ensures world_complete { is_world words.now ≡ true → IsPlayable (R.left input.old)
        → (Rose (R.faults input.old) (R.faults input.new) → ⊥)
        → (Rose (W.faults output.old) (W.faults output.new) → ⊥)
        → (result ≡ Status.Fine) ⊎ (result ≡ Status.NoMemory) }
    ensures gen_complete { (given : GenWords) → gen_given words.now ≡ Some given
        → (Rose (W.faults output.old) (W.faults output.new) → ⊥)
        → (result ≡ Status.Fine) ⊎ (result ≡ Status.NoMemory) }
{
    factotum_program::run_command(alloc, words, input, keys, speaks, output, dial, rand)
}

/// As `read_words`.
pub fn read_words(alloc: Global, words: &[Text]) -> Result<Task, Status>
    ensures ok { IfOk result (λ task. IsTask words.now task) }
    ensures err { IfErr result (IsUnread words.now) }
{
    factotum_program::read_words(alloc, words)
}
