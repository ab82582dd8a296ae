// The public calls of `world_scripts`.
ghost use Rattle.std.specs.Prelude.{◌≡◌, ◌≤◌, ◌^◌, IfNone, IfOk, IfSome};
ghost use Rattle.world_scripts.specs.Draws.{draws, generator_of, word_faults, words_left};
ghost use Rattle.world_scripts.specs.Generated.{gen_text};
ghost use Rattle.world_scripts.specs.Lines.{IsWritten};
ghost use Rattle.world_scripts.specs.Pieces as p;
ghost use Rattle.world_scripts.specs.Reading.{line_of};
ghost use Rattle.world_scripts.specs.Said.{read_as, said_line};

use std::alloc::Global;
use wire_base::{Bytes, NoMemory};
use world_scripts::{BadForm, ChaChaWords, Line};

/// As `ChaChaWords::new`.
pub fn cha_cha_words_new(number: u64, count: u64) -> ChaChaWords
    ensures words { words_left result ≡ draws count (generator_of number) }
    ensures faults { word_faults result ≡ 0 }
{
    ChaChaWords::new(number, count)
}

/// As `parse_line`.
pub fn parse_line(text: &[u8]) -> Result<Line<'_>, BadForm>
    ensures read { read_as result ≡ line_of text.now }
    ensures written { IfOk result (λ line. IsWritten text.now (said_line line)) }
{
    world_scripts::parse_line(text)
}

/// As `number_in`.
pub fn number_in(digits: &[u8]) -> Option<u64>
    ensures number { IfSome result (λ number. number ≡ p.number_in digits.now) }
    ensures over { IfNone result (2 ^ 64 ≤ p.number_in digits.now) }
{
    world_scripts::number_in(digits)
}

/// As `gen_script`.
pub fn gen_script(alloc: Global, number: u64, rounds: u32) -> Result<Bytes, NoMemory>
    ensures { IfOk result (λ script. script ≡ gen_text number rounds) }
{
    world_scripts::gen_script(alloc, number, rounds)
}
