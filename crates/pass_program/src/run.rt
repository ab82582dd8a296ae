// The program: its words, the table, and one client.
ghost use Rattle.std.specs.Prelude.{◌≡◌, ◌⊎◌, ◌≤◌, None};
ghost use Rattle.wire_streams.specs.Causes.{Rose};
ghost use Rattle.pass_program.specs.Changing.{IsCaused, outside};
ghost use Rattle.pass_program.specs.Words.{RunsSo};

use crate::log::{Log, NoLog};
use crate::session::change_password;
use crate::status::PassStatus;
use crate::table::read_table;
use auth_program::read_keys_words;
use std::alloc::Global;
use wire_base::Text;
use wire_streams::{Sink, Source, Words};

/// Changes one password.
pub fn run_pass<R: Source, F: Source, W: Sink, T: Sink, G: Words>(
    alloc: Global,
    words: &[Text],
    input: &mut R,
    keys: &mut F,
    output: &mut W,
    table: &mut T,
    rand: &mut G,
) -> PassStatus
    ensures ends { RunsSo words.now result
        (outside (F.left keys.old) (R.left input.old) (G.to_come rand.old) (W.holds output.old)
        (T.holds table.old) None)
        (outside (F.left keys.new) (R.left input.new) (G.to_come rand.new) (W.holds output.new)
        (T.holds table.new) None) }

    // A fault comes only where the count of one of its objects rose, and no count falls.
    ensures cause { IsCaused result
        (Rose (R.faults input.old) (R.faults input.new)
        ⊎ Rose (F.faults keys.old) (F.faults keys.new))
        (Rose (W.faults output.old) (W.faults output.new)
        ⊎ Rose (T.faults table.old) (T.faults table.new))
        (Rose (G.faults rand.old) (G.faults rand.new)) }
    ensures counted_reads { R.faults input.old ≤ R.faults input.new }
    ensures counted_keys { F.faults keys.old ≤ F.faults keys.new }
    ensures counted_writes { W.faults output.old ≤ W.faults output.new }
    ensures counted_table { T.faults table.old ≤ T.faults table.new }
    ensures counted_words { G.faults rand.old ≤ G.faults rand.new }
{
    run_pass_noting(alloc, words, input, keys, output, table, rand, &mut NoLog)
}

/// The same, and what becomes of its user is noted.
pub fn run_pass_noting<R: Source, F: Source, W: Sink, T: Sink, G: Words, L: Log>(
    alloc: Global,
    words: &[Text],
    input: &mut R,
    keys: &mut F,
    output: &mut W,
    table: &mut T,
    rand: &mut G,
    log: &mut L,
) -> PassStatus
    ensures ends { RunsSo words.now result
        (outside (F.left keys.old) (R.left input.old) (G.to_come rand.old) (W.holds output.old)
        (T.holds table.old) (L.noted log.old))
        (outside (F.left keys.new) (R.left input.new) (G.to_come rand.new) (W.holds output.new)
        (T.holds table.new) (L.noted log.new)) }

    // A fault comes only where the count of one of its objects rose, and no count falls.
    ensures cause { IsCaused result
        (Rose (R.faults input.old) (R.faults input.new)
        ⊎ Rose (F.faults keys.old) (F.faults keys.new))
        (Rose (W.faults output.old) (W.faults output.new)
        ⊎ Rose (T.faults table.old) (T.faults table.new))
        (Rose (G.faults rand.old) (G.faults rand.new)) }
    ensures counted_reads { R.faults input.old ≤ R.faults input.new }
    ensures counted_keys { F.faults keys.old ≤ F.faults keys.new }
    ensures counted_writes { W.faults output.old ≤ W.faults output.new }
    ensures counted_table { T.faults table.old ≤ T.faults table.new }
    ensures counted_words { G.faults rand.old ≤ G.faults rand.new }
{
    if read_keys_words(words).is_none() {
        return PassStatus::Usage;
    }
    match read_table(alloc, keys) {
        Ok(mut known) => change_password(alloc, &mut known, input, output, table, rand, log),
        Err(status) => status,
    }
}
