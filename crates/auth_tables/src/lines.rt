// A table read line by line, whatever its kind.
ghost use Rattle.std.specs.Prelude.{◌≡◌, ℕ, ◌+◌, ◌-◌, ◌<◌, ◌^◌, List, [], ◌∷◌, ◌++◌, None, Some, true, false, length, IfOk, IfErr, OnOk};
ghost use Rattle.attr_tuples.specs.Cutting.{text_lines};
ghost use Rattle.auth_tables.specs.Lines.{counts, counted, first_bad, is_bad, tuple_in};
ghost use Rattle.auth_tables.specs.Steps.{IsBehind};
ghost use Rattle.auth_tables.specs.declared.lines.TableFault.TheVariants.{Line};

use attr_tuples::{Tuple, TupleFault, cut_line, parse_tuple};
use std::alloc::Global;
use wire_base as base;

/// How many lines of a table may count.
const MOST_LINES: u32 = 4096;

/// Why a text is no table.
#[derive(Clone, Copy, Debug, PartialEq, Eq)]
pub enum TableFault {
    /// This line, counted from 1, is the first bad one.
    Line { line: u32 },
    NoMemory,
}

impl From<base::NoMemory> for TableFault {
    ghost use Rattle.std.specs.Prelude.{◌≡◌};
    ghost use Rattle.auth_tables.specs.declared.lines.TableFault.TheVariants.{NoMemory};

    ghost from_gives = { λ _ e. e ≡ NoMemory };

    fn from(_: base::NoMemory) -> Self {
        TableFault::NoMemory
    }
}

/// A table that is filled line by line.
pub(crate) trait Table {
    ghost use Rattle.std.specs.Prelude.{◌≡◌, ℕ, List, [], ◌∷◌, ◌++◌, Bool, true, IfOk};

    // Whether a line fits behind others, all of which count.
    ghost fits: { List (List ℕ) → List ℕ → Bool };

    // The table tells what lines say, all of which count.
    ghost tells: { List (List ℕ) → Self → Type 0 };

    // Takes a line that counts. Whether it fits; one that doesn't isn't taken.
    fn take(&mut self, alloc: Global, line: &[u8]) -> Result<bool, base::NoMemory>
        ensures fit { IfOk result (λ taken. (before : List (List ℕ)) → tells before self.old
            → taken ≡ fits before line.now) }
        ensures told { IfOk result (λ taken. taken ≡ true → (before : List (List ℕ))
            → tells before self.old → tells (before ++ line.now ∷ []) self.new) };
}

// How many lines were read, and how many of them count.
#[derive(Drop)]
struct Place {
    number: u32,
    count: u32,
}

// Whether a line counts: it isn't empty and doesn't begin with `#`.
fn counts(line: &[u8]) -> bool
    ensures { result ≡ counts line.now }
{
    match line {
        [] => false,
        [first, ..] => *first != b'#',
    }
}

// The next line, which is taken if it counts and isn't bad.
fn take_line<T: Table>(
    alloc: Global,
    line: &[u8],
    place: &mut Place,
    table: &mut T,
) -> Result<(), TableFault>
    requires room { place.old.number + 1 < 2 ^ 32 }
    ensures good { OnOk result ((before : List (List ℕ))
        → IsBehind before place.old.number place.old.count → T.tells (counted before) table.old
        → is_bad T.fits before line.now ≡ false) }
    ensures behind { OnOk result ((before : List (List ℕ))
        → IsBehind before place.old.number place.old.count
        → IsBehind (before ++ line.now ∷ []) place.new.number place.new.count) }
    ensures told { OnOk result ((before : List (List ℕ))
        → IsBehind before place.old.number place.old.count → T.tells (counted before) table.old
        → T.tells (counted (before ++ line.now ∷ [])) table.new) }
    ensures number { OnOk result (place.new.number ≡ place.old.number + 1) }
    ensures bad { IfErr result (λ fault. (n : ℕ) → fault ≡ Line n → (before : List (List ℕ))
        → IsBehind before place.old.number place.old.count → T.tells (counted before) table.old
        → (is_bad T.fits before line.now ≡ true) × (n ≡ length before + 1)) }
{
    let number = place.number + 1;
    if counts(line) {
        if place.count >= MOST_LINES || !table.take(alloc, line)? {
            return Err(TableFault::Line { line: number });
        }
        place.count += 1;
    }
    place.number = number;
    Ok(())
}

/// Reads a text into a table that tells nothing yet.
pub(crate) fn read_table<T: Table + Drop>(
    alloc: Global,
    file: &[u8],
    mut table: T,
) -> Result<T, TableFault>
    requires short { length file.now + 1 < 2 ^ 32 }
    requires new { T.tells [] table }
    ensures told { IfOk result (λ table. T.tells (counted (text_lines file.now)) table) }
    ensures good { OnOk result (first_bad T.fits (text_lines file.now) ≡ None) }
    ensures bad { IfErr result (λ fault. (n : ℕ) → fault ≡ Line n
        → first_bad T.fits (text_lines file.now) ≡ Some n) }
{
    let mut place = Place {
        number: 0,
        count: 0,
    };
    let mut left = Some(file);
    while let Some(text) = left {
        let (line, rest) = cut_line(text);
        take_line(alloc, line, &mut place, &mut table)?;
        left = rest;
    }
    Ok(table)
}

/// The tuple that a line is, if it is one.
#[tactic(auto, unfolding(crate::specs::Lines::tuple_in))]
pub(crate) fn read_tuple(alloc: Global, line: &[u8]) -> Result<Option<Tuple>, base::NoMemory>
    ensures { IfOk result (λ tuple. tuple ≡ tuple_in line.now) }
{
    match parse_tuple(alloc, line) {
        Ok(tuple) => Ok(Some(tuple)),
        Err(TupleFault::NotText { .. }) => Ok(None),
        Err(TupleFault::Quote { .. }) => Ok(None),
        Err(TupleFault::Name { .. }) => Ok(None),
        Err(TupleFault::TooMany) => Ok(None),
        Err(TupleFault::NoMemory) => Err(base::NoMemory),
    }
}
