// Words of ChaCha20.
ghost use Rattle.std.specs.Prelude.{◌≡◌};
ghost use Rattle.world_scripts.specs.Draws.{draw, draws, generator_of, word_faults, words_left};

use rand_chacha::ChaCha20Rng;
use rand_core::SeedableRng;
use rand_core::utils::NextWord;
use wire_streams::{WordFault, Words};

/// The first so many words that a number makes: each is two draws of 32 bits, the lowest byte of each first. At their
/// end each draw fails. It takes no memory.
#[derive(Drop)]
pub struct ChaChaWords {
    rng: ChaCha20Rng,
    left: u64,
    faults: u64,
}

impl ChaChaWords {
    /// The first `count` words of `number`.
    pub fn new(number: u64, count: u64) -> ChaChaWords
        ensures words { words_left result ≡ draws count (generator_of number) }
        ensures faults { word_faults result ≡ 0 }
    {
        ChaChaWords {
            rng: ChaCha20Rng::seed_from_u64(number),
            left: count,
            faults: 0,
        }
    }
}

impl Words for ChaChaWords {
    ghost use Rattle.std.specs.Prelude.{◌≡◌, ◌≤◌, ◌==◌, Some, length};
    ghost use Rattle.std.specs.Result.{is_err};
    ghost use Rattle.wire_streams.specs.Causes.{CountsOutcome};
    ghost use Rattle.wire_streams.specs.Words.{Draws};
    ghost use Rattle.world_scripts.specs.Draws.{word_faults, words_left};

    ghost to_come = { λ words. Some (words_left words) };

    ghost faults = { λ words. word_faults words };

    fn word8(&mut self) -> Result<[u8; 8], WordFault>
        ensures words { Draws (Some (words_left self.old)) (Some (words_left self.new)) result }
        ensures counted { word_faults self.old ≤ word_faults self.new }
        ensures exact { CountsOutcome (word_faults self.old) (word_faults self.new)
            (is_err result) }

        // A draw fails exactly where no word is left.
        ensures ends { is_err result ≡ (length (words_left self.old) == 0) }
    {
        if self.left == 0 {
            self.faults = self.faults.saturating_add(1);
            return Err(WordFault);
        }
        self.left -= 1;
        Ok(draw(&mut self.rng))
    }
}

// Two draws of 32 bits, each with its lowest byte first.
fn draw(rng: &mut ChaCha20Rng) -> [u8; 8]
    ensures { (result, rng.new) ≡ draw rng.old }
{
    let [a, b, c, d] = rng.next_word().to_le_bytes();
    let [e, f, g, h] = rng.next_word().to_le_bytes();
    [a, b, c, d, e, f, g, h]
}
