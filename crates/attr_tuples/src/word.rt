// Words of a line, taken one by one.
ghost use Rattle.std.specs.Prelude.{◌≡◌, ◌+◌, ◌≤◌, ◌++◌, length, drop, not, position, IfOk};
ghost use Rattle.attr_tuples.specs.Words.{is_gap, stops, kept, place_after, first_word, gap_len};
ghost use Rattle.attr_tuples.specs.Taking.{Takes};

use wire_base::{self as base, Bytes};

/// Why a word could not be taken.
#[derive(Clone, Copy, Debug, PartialEq, Eq)]
pub enum WordFault {
    /// The `'` at this offset isn't closed.
    Quote { at: u64 },
    NoMemory,
}

impl From<base::NoMemory> for WordFault {
    ghost use Rattle.std.specs.Prelude.{◌≡◌};
    ghost use Rattle.attr_tuples.specs.declared.word.WordFault.TheVariants.{NoMemory};

    ghost from_gives = { λ _ e. e ≡ NoMemory };

    fn from(_: base::NoMemory) -> Self {
        WordFault::NoMemory
    }
}

/// Where a byte of a word stands.
#[derive(Clone, Copy)]
enum Place {
    /// Outside quotes.
    Outside,
    /// Inside the quotes that were opened there.
    Inside { opened: usize },
    /// Behind a `'` in such quotes, which closes them unless another follows.
    Behind { opened: usize },
}

fn check_gap(byte: u8) -> bool
    ensures { result ≡ is_gap byte }
{
    byte == b' ' || byte == b'\t'
}

/// The place of the first byte that is no blank and no tab, from a place on. It takes no memory.
pub fn gap_end(text: &[u8], at: usize) -> usize
    requires { at ≤ length text.now }
    ensures value { result ≡ at + gap_len (drop at text.now) }
    ensures within { result ≤ length text.now }
{
    match find_word(text.split_at(at).1) {
        Some(gap) => at + gap,
        None => text.len(),
    }
}

fn find_word(text: &[u8]) -> Option<usize>
    ensures { result ≡ position (λ b. not (is_gap b)) text.now }
{
    text.iter().position(|byte| !check_gap(*byte))
}

/// Takes the word that begins at a place: its bytes without quotes are all that is left in `word`, and the place
/// behind it is answered. After a fault `word` holds any bytes.
pub fn take_word(text: &[u8], at: usize, word: &mut Bytes) -> Result<usize, WordFault>
    requires { at ≤ length text.now }
    ensures value { Takes result word.new text.now (first_word at (drop at text.now)) }
    ensures within { IfOk result (λ end. (at ≤ end) × (end ≤ length text.now)) }
{
    word.clear();
    let mut place = Place::Outside;
    let mut next = at;
    while next < text.len() {
        let byte = text[next];
        if check_stops(place, byte) {
            return Ok(next);
        }
        keep_byte(place, byte, word)?;
        place = move_on(place, next, byte);
        next += 1;
    }
    match place {
        Place::Inside { opened } => Err(WordFault::Quote { at: opened as u64 }),
        Place::Outside | Place::Behind { .. } => Ok(next),
    }
}

fn check_stops(place: Place, byte: u8) -> bool
    ensures { result ≡ stops place byte }
{
    match place {
        Place::Outside | Place::Behind { .. } => check_gap(byte),
        Place::Inside { .. } => false,
    }
}

fn keep_byte(place: Place, byte: u8, word: &mut Bytes) -> Result<(), base::NoMemory>
    ensures { IfOk result (λ _. word.new ≡ word.old ++ kept place byte) }
{
    match place {
        Place::Outside | Place::Inside { .. } if byte == b'\'' => Ok(()),
        Place::Outside | Place::Inside { .. } | Place::Behind { .. } => word.push(byte),
    }
}

fn move_on(place: Place, at: usize, byte: u8) -> Place
    ensures { result ≡ place_after place at byte }
{
    match place {
        Place::Outside if byte == b'\'' => Place::Inside { opened: at },
        Place::Inside { opened } if byte == b'\'' => Place::Behind { opened },
        Place::Behind { opened } if byte == b'\'' => Place::Inside { opened },
        Place::Inside { opened } => Place::Inside { opened },
        Place::Outside | Place::Behind { .. } => Place::Outside,
    }
}
