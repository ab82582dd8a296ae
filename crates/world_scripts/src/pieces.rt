// Bytes as a script writes them: pieces joined by `+`.
ghost use Rattle.std.specs.Prelude.{◌≡◌, ◌==◌, ◌∷◌, ◌≤◌, Some, true, length, position, is_some, option_map};
ghost use Rattle.std.specs.List.{list_all, slice_split};
ghost use Rattle.attr_tuples.specs.Cutting.{turns_left};
ghost use Rattle.world_scripts.specs.Pieces.{is_digit};
ghost use Rattle.world_scripts.specs.Reading.{message_of, pairs_of, part_of, piece_of, pieces_of};
ghost use Rattle.world_scripts.specs.Given.{said_piece};
ghost use Rattle.world_scripts.specs.Parts.{texts_left};

use crate::number::read_number;
use crate::words::cut_at;
use std::marker::Model;

/// A piece of bytes.
#[derive(Clone, Copy, Debug, PartialEq, Eq)]
pub enum Piece<'a> {
    /// The bytes that hexadecimal digits spell, which are in pairs and of either case.
    Spelled {
        digits: &'a [u8],
    },
    /// The message of a number, whole. Numbers are decimal digits, which `number_in` reads.
    Whole {
        message: &'a [u8],
    },
    /// So many bytes of the message of a number, from a place on.
    Part {
        message: &'a [u8],
        start: &'a [u8],
        len: &'a [u8],
    },
}

/// Goes over the pieces of a text that is known to be some.
#[derive(Debug, Drop)]
pub struct Pieces<'a> {
    left: Option<&'a [u8]>,
}

impl<'a> Model for Pieces<'a> {
    ghost use Rattle.std.specs.Prelude.{List, [], IsSome, unwrap_or};
    ghost use Rattle.world_scripts.specs.Pieces.{Piece};
    ghost use Rattle.world_scripts.specs.Parts.{pieces_left};

    ghost Value = { List Piece };

    ghost view = { λ p. unwrap_or (pieces_left p.left) [] };

    ghost invariant = { λ p. IsSome (pieces_left p.left) };
}

impl<'a> Pieces<'a> {
    /// The pieces that a text is, if it is some.
    pub(crate) fn read(text: &'a [u8]) -> Option<Pieces<'a>>
        ensures { result ≡ pieces_of text.now }
    {
        if check_pieces(text) {
            Some(Pieces { left: Some(text) })
        } else {
            None
        }
    }
}

impl<'a> Iterator for Pieces<'a> {
    type Item = Piece<'a>;

    ghost use Rattle.std.specs.Iterator.{YieldsFirstBy, item_count};
    ghost use Rattle.world_scripts.specs.Given.{said_piece};

    ghost next_gives = { YieldsFirstBy said_piece (λ pieces. pieces) };

    ghost remaining = { item_count (λ pieces. pieces) };

    fn next(&mut self) -> Option<Piece<'a>> {
        let text = self.left?;
        let (front, rest) = cut_piece(text);
        self.left = rest;
        Some(known_piece(front))
    }
}

fn check_pieces(text: &[u8]) -> bool
    ensures { result ≡ is_some (pieces_of text.now) }
{
    let mut left = Some(text);
    while let Some(text) = left {
        let (front, rest) = cut_piece(text);
        if read_piece(front).is_none() {
            return false;
        }
        left = rest;
    }
    true
}

fn find_plus(text: &[u8]) -> Option<usize>
    ensures { result ≡ position (λ b. b == 43) text.now }
{
    text.iter().position(|b| *b == b'+')
}

// The first piece's text, and what stands behind the `+` behind it if there is one.
fn cut_piece(text: &[u8]) -> (&[u8], Option<&[u8]>)
    ensures parts { slice_split (λ b. b == 43) text.now ≡ result.0.now ∷ texts_left result.1 }
    ensures shorter { turns_left result.1 ≤ length text.now }
{
    match find_plus(text) {
        Some(at) => {
            let (front, rest) = text.split_at(at);
            (front, Some(rest.split_at(1).1))
        }
        None => (text, None),
    }
}

fn read_piece(text: &[u8]) -> Option<Piece<'_>>
    ensures { option_map said_piece result ≡ piece_of text.now }
{
    match text {
        [b'x', digits @ ..] => read_pairs(digits),
        [b'm', numbers @ ..] => read_message(numbers),
        _ => None,
    }
}

// The piece that a text is known to be: its digits aren't looked at again.
fn known_piece(text: &[u8]) -> Piece<'_>
    requires { is_some (piece_of text.now) ≡ true }
    ensures { piece_of text.now ≡ Some (said_piece result) }
{
    match text {
        [b'x', digits @ ..] => Piece::Spelled { digits },
        [b'm', numbers @ ..] => match read_message(numbers) {
            Some(piece) => piece,
            None => unreachable!(),
        },
        _ => unreachable!(),
    }
}

fn read_pairs(digits: &[u8]) -> Option<Piece<'_>>
    ensures { option_map said_piece result ≡ pairs_of digits.now }
{
    if digits.len() % 2 == 0 && all_digits(digits) {
        Some(Piece::Spelled { digits })
    } else {
        None
    }
}

fn all_digits(text: &[u8]) -> bool
    ensures { result ≡ list_all is_digit text.now }
{
    text.iter().all(|b| {
        *b >= b'0' && *b <= b'9' || (*b >= b'A' && *b <= b'F' || *b >= b'a' && *b <= b'f')
    })
}

fn read_message(text: &[u8]) -> Option<Piece<'_>>
    ensures { option_map said_piece result ≡ message_of text.now }
{
    match cut_at(b':', text) {
        None => Some(Piece::Whole {
            message: read_number(text)?,
        }),
        Some((front, rest)) => read_part(front, rest),
    }
}

fn read_part<'a>(front: &'a [u8], rest: &'a [u8]) -> Option<Piece<'a>>
    ensures { option_map said_piece result ≡ part_of front.now rest.now }
{
    let message = read_number(front)?;
    let (start, len) = cut_at(b':', rest)?;
    let start = read_number(start)?;
    let len = read_number(len)?;
    Some(Piece::Part {
        message,
        start,
        len,
    })
}
