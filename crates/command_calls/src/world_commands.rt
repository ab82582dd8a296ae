// The public calls of `world_program`.
ghost use Rattle.std.specs.Prelude.{◌≡◌, ◌≤◌, IfErr, IfOk, Some};
ghost use Rattle.wire_streams.specs.Causes.{Rose};
ghost use Rattle.world_program.specs.Playing.{WorldSo};
ghost use Rattle.world_program.specs.Summing.{GenSo};
ghost use Rattle.world_program.specs.Words.{is_world, has_gen_form, IsUnreadGen, gen_given};

use auth_program::Status;
use std::alloc::Global;
use wire_base::Text;
use wire_streams::{Sink, Source, WriteFault};
use world_program::GenWords;

/// As `play_gen`.
pub fn play_gen<W: Sink>(alloc: Global, given: GenWords, output: &mut W) -> Status
    requires { given.rounds ≤ 1000 }
    ensures ends { GenSo result given.number given.rounds
        (W.holds output.old) (W.holds output.new) }
    ensures write_fault { result ≡ Status.WriteFault
        → Rose (W.faults output.old) (W.faults output.new) }
    ensures counted_writes { W.faults output.old ≤ W.faults output.new }
{
    world_program::play_gen(alloc, given, output)
}

/// As `play_world`.
pub fn play_world<R: Source, W: Sink>(alloc: Global, input: &mut R, output: &mut W) -> Status
    ensures ends { WorldSo result (R.left input.old) (R.left input.new)
        (W.holds output.old) (W.holds output.new) }
    ensures read_fault { result ≡ Status.ReadFault
        → Rose (R.faults input.old) (R.faults input.new) }
    ensures write_fault { result ≡ Status.WriteFault
        → Rose (W.faults output.old) (W.faults output.new) }
    ensures counted_reads { R.faults input.old ≤ R.faults input.new }
    ensures counted_writes { W.faults output.old ≤ W.faults output.new }
{
    world_program::play_world(alloc, input, output)
}

/// As `is_world`.
pub fn is_world(words: &[Text]) -> bool
    ensures { result ≡ is_world words.now }
{
    world_program::is_world(words)
}

/// As `has_gen_form`.
pub fn has_gen_form(words: &[Text]) -> bool
    ensures { result ≡ has_gen_form words.now }
{
    world_program::has_gen_form(words)
}

/// As `read_gen_words`.
pub fn read_gen_words(alloc: Global, words: &[Text]) -> Result<GenWords, Status>
    ensures ok { IfOk result (λ given. gen_given words.now ≡ Some given) }
    ensures err { IfErr result (IsUnreadGen words.now) }
{
    world_program::read_gen_words(alloc, words)
}
