// The parts of terms, borrowed. Where a definition has an empty text for a part that isn't there, the code has none.
ghost use Rattle.std.specs.Prelude.{◌≡◌, map, option_map, slice_get};
ghost use Rattle.symbolic_runs.specs.Gifts.{body, bytes, opened, part, shown};
ghost use Rattle.symbolic_runs.specs.Views.{tree};
ghost use Rattle.trace_runs.specs.Parts.{found_tree, pieces_in};

use symbolic_runs::Term;

/// The pieces of a joined term.
pub fn pieces(term: &Term) -> Option<&[Term]>
    ensures { option_map (λ list. map tree list.now) result ≡ pieces_in (tree term.now) }
{
    match term {
        Term::Cat(pieces) => Some(pieces.as_slice()),
        Term::Pub(_)
        | Term::Nonce(_)
        | Term::AsChal(_)
        | Term::LKey(_)
        | Term::SKey(_)
        | Term::Junk(_)
        | Term::Pw(_)
        | Term::Seal(_, _)
        | Term::Mac(_, _, _) => None,
    }
}

/// The piece at a place, counted from 0; none of a term that isn't joined.
pub fn part(term: &Term, index: usize) -> Option<&Term>
    ensures { found_tree result ≡ part (tree term.now) index }
{
    let list = pieces(term)?;
    piece_at(list, index)
}

fn piece_at(list: &[Term], index: usize) -> Option<&Term>
    ensures { option_map (λ found. tree found.now) result ≡ slice_get (map tree list.now) index }
{
    list.get(index)
}

/// What is sealed; none of a term that isn't a seal.
pub fn body(term: &Term) -> Option<&Term>
    ensures { found_tree result ≡ body (tree term.now) }
{
    match term {
        Term::Seal(_, body) => Some(body),
        Term::Pub(_)
        | Term::Nonce(_)
        | Term::AsChal(_)
        | Term::LKey(_)
        | Term::SKey(_)
        | Term::Junk(_)
        | Term::Pw(_)
        | Term::Cat(_)
        | Term::Mac(_, _, _) => None,
    }
}

/// Bytes that anybody may know; none of another term.
pub fn bytes(term: &Term) -> &[u8]
    ensures { result.now ≡ bytes (tree term.now) }
{
    match term {
        Term::Pub(bytes) => bytes.as_slice(),
        Term::Nonce(_)
        | Term::AsChal(_)
        | Term::LKey(_)
        | Term::SKey(_)
        | Term::Junk(_)
        | Term::Pw(_)
        | Term::Cat(_)
        | Term::Seal(_, _)
        | Term::Mac(_, _, _) => &[],
    }
}

/// The bytes of the piece at a place.
pub fn bytes_at(term: &Term, index: usize) -> &[u8]
    ensures { result.now ≡ bytes (part (tree term.now) index) }
{
    match part(term, index) {
        Some(piece) => bytes(piece),
        None => &[],
    }
}

/// What is sealed in the second piece: what a client opens of an answer.
pub fn opened(answer: &Term) -> Option<&Term>
    ensures { found_tree result ≡ opened (tree answer.now) }
{
    body(part(answer, 1)?)
}

/// What is sealed in the first piece: the ticket that a client hands on to a server.
pub fn shown(message: &Term) -> Option<&Term>
    ensures { found_tree result ≡ shown (tree message.now) }
{
    body(part(message, 0)?)
}

/// The piece at a place of a part that was looked for.
pub fn inner_part(found: Option<&Term>, index: usize) -> Option<&Term>
    ensures { found_tree result ≡ part (found_tree found.entry) index }
{
    part(found?, index)
}

/// The bytes of the piece at a place of a part that was looked for.
pub fn inner_bytes(found: Option<&Term>, index: usize) -> &[u8]
    ensures { result.now ≡ bytes (part (found_tree found.entry) index) }
{
    match found {
        Some(term) => bytes_at(term, index),
        None => &[],
    }
}
