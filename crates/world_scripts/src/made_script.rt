// A whole script.
ghost use Rattle.std.specs.Prelude.{◌≡◌, ◌≤◌, ◌∷◌, length, IfOk};
ghost use Rattle.world_scripts.specs.Draws.{words_left};
ghost use Rattle.world_scripts.specs.Generated.{gen_text, lines_text, opening};

use crate::chacha::ChaChaWords;
use crate::round::{Drawn, kind_of, put_round, recorded};
use std::alloc::Global;
use wire_base::{Bytes, NoMemory};
use wire_streams::Words;

// The users and the nodes.
#[tactic(auto, unfolding(crate::specs::Generated::line))]
fn open_script(alloc: Global) -> Result<Bytes, NoMemory>
    ensures { IfOk result (λ script. script ≡ lines_text opening) }
{
    Bytes::from_slice(
        alloc,
        b"askey user=ann !password=annpass\n\
        askey user=srv !password=srvpass\n\
        node a\n\
        node b\n\
        ctl a key proto=p9sk1 dom=x user=ann !password=annpass\n\
        ctl b key proto=p9sk1 dom=x user=srv !password=srvpass\n"
            .as_slice(),
    )
}

// The next word, of which there is one.
fn draw(words: &mut ChaChaWords) -> [u8; 8]
    requires { 1 ≤ length (words_left words.old) }
    ensures { words_left words.old ≡ result ∷ words_left words.new }
{
    match words.word8() {
        Ok(word) => word,
        Err(_) => unreachable!(),
    }
}

// The words of a round.
fn draw_round(words: &mut ChaChaWords) -> Drawn
    requires { 5 ≤ length (words_left words.old) }
    ensures { words_left words.old ≡ result.client ∷ result.server ∷ result.first
        ∷ result.second ∷ result.third ∷ words_left words.new }
{
    let client = draw(words);
    let server = draw(words);
    let first = draw(words);
    let second = draw(words);
    let third = draw(words);
    Drawn {
        client,
        server,
        first,
        second,
        third,
    }
}

/// The script of a number, of so many rounds: two nodes with their keys, and in each round a login by p9sk1 of one at the
/// other, which is undisturbed in every fourth.
pub fn gen_script(alloc: Global, number: u64, rounds: u32) -> Result<Bytes, NoMemory>
    ensures { IfOk result (λ script. script ≡ gen_text number rounds) }
{
    let mut words = ChaChaWords::new(number, 5 * u64::from(rounds));
    let mut script = open_script(alloc)?;
    let mut before = 0;
    let mut first = 0;
    for round in 0..rounds {
        let drawn = draw_round(&mut words);
        put_round(alloc, &mut script, round, before, first, &drawn)?;
        before = first;
        first += recorded(kind_of(round));
    }
    Ok(script)
}
