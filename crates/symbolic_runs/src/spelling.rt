// Why a term has no bytes.
use std::fmt;

/// Why a term isn't spelled.
#[derive(Clone, Copy, Debug, PartialEq, Eq)]
pub enum SpellFault {
    /// An atom has no bytes under the reading.
    NoAtom,
    /// A seal's key isn't seven bytes, or its body is shorter than eight.
    BadSeal,
    /// Memory ran out.
    NoMemory,
}

impl fmt::Display for SpellFault {
    fn fmt<W: fmt::Write>(&self, f: &mut fmt::Formatter<W>) -> fmt::Result {
        f.write_str(match self {
            SpellFault::NoAtom => "an atom has no bytes",
            SpellFault::BadSeal => "a key or a body that can't be sealed",
            SpellFault::NoMemory => "out of memory",
        })
    }
}

impl std::error::Error for SpellFault {}
