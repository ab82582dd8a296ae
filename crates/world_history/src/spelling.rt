// The bytes that a line of a script gives, spelled out.
ghost use Rattle.std.specs.Prelude.{◌≡◌, [], option_map, IfOk};
ghost use Rattle.std.specs.Result.{result_unwrap_or};
ghost use Rattle.hex.specs.Hex.{decode_of};
ghost use Rattle.world_scripts.specs.Given.{said_piece};
ghost use Rattle.world_scripts.specs.Pieces as p;
ghost use Rattle.world_history.specs.Scripts.{part_in, piece_in};
ghost use Rattle.world_history.specs.Worlds.{messages_in};

use crate::record::Record;
use hex::FromHexError;
use std::alloc::Global;
use wire_base::{Bytes, NoMemory};
use world_scripts::{Piece, Pieces, number_in};

// The bytes of digits; none where they spell none.
fn read_digits(alloc: Global, digits: &[u8]) -> Result<Bytes, NoMemory>
    ensures { IfOk result (λ bytes. bytes ≡ result_unwrap_or (decode_of digits.now) []) }
{
    match hex::decode(alloc, digits) {
        Ok(bytes) => Ok(Bytes::from_vec(bytes)),
        Err(FromHexError::OutOfMemory) => Err(NoMemory),
        Err(FromHexError::OddLength) => Ok(Bytes::new(alloc)),
        Err(FromHexError::InvalidStringLength) => Ok(Bytes::new(alloc)),
        Err(FromHexError::InvalidHexCharacter { .. }) => Ok(Bytes::new(alloc)),
    }
}

// So many bytes of a message from a place on, if it is that long.
fn part_of<'a>(message: Option<&'a [u8]>, start: &[u8], len: &[u8]) -> Option<&'a [u8]>
    ensures { option_map (λ bytes. bytes.now) result
        ≡ part_in (p.number_in start.now) (p.number_in len.now) (option_map (λ bytes. bytes.now) message.entry) }
{
    let whole = message?;
    let held = whole.len() as u64;
    let start = number_in(start)?;
    let len = number_in(len)?;
    if start > held || len > held - start {
        return None;
    }
    Some(&whole[start as usize..start as usize + len as usize])
}

fn copy(alloc: Global, bytes: Option<&[u8]>) -> Result<Option<Bytes>, NoMemory>
    ensures { IfOk result (λ found. found
        ≡ option_map (λ bytes. bytes.now) bytes.entry) }
{
    match bytes {
        None => Ok(None),
        Some(bytes) => Ok(Some(Bytes::from_slice(alloc, bytes)?)),
    }
}

impl Record {
    ghost use Rattle.std.specs.Prelude.{◌≡◌, slice_get, option_map, IfOk};
    ghost use Rattle.world_scripts.specs.Pieces as p;
    ghost use Rattle.world_scripts.specs.Given.{said_piece};
    ghost use Rattle.world_history.specs.Scripts.{piece_in, spelled};
    ghost use Rattle.world_history.specs.Worlds.{messages_in};

    // The message of the number that digits are.
    fn message_of(&self, digits: &[u8]) -> Option<&[u8]>
        ensures { option_map (λ bytes. bytes.now) result
            ≡ slice_get (messages_in self.now) (p.number_in digits.now) }
    {
        // There are fewer messages than 2^64.
        let _held = self.messages.len();
        let number = number_in(digits)?;
        self.message(number)
    }

    // The bytes of a piece, if its message is recorded and is long enough.
    fn spell_piece(&self, piece: Piece<'_>) -> Result<Option<Bytes>, NoMemory>
        ensures { IfOk result (λ bytes. bytes
            ≡ piece_in (messages_in self.now) (said_piece piece.entry)) }
    {
        match piece {
            Piece::Spelled { digits } => Ok(Some(read_digits(self.alloc, digits)?)),
            Piece::Whole { message } => copy(self.alloc, self.message_of(message)),
            Piece::Part {
                message,
                start,
                len,
            } => copy(self.alloc, part_of(self.message_of(message), start, len)),
        }
    }

    /// The bytes of pieces, if all of their messages are recorded and are long enough.
    pub fn spell(&self, pieces: Pieces<'_>) -> Result<Option<Bytes>, NoMemory>
        ensures { IfOk result (λ bytes. bytes
            ≡ spelled (messages_in self.now) pieces.entry) }
    {
        let mut all = Bytes::new(self.alloc);
        for piece in pieces {
            let Some(bytes) = self.spell_piece(piece)? else {
                return Ok(None);
            };
            all.append(bytes.as_slice())?;
        }
        Ok(Some(all))
    }
}
