// Readers of fields. Each is given the whole bytes and the place of its field, and answers the value and the
// place behind it, or the place of the fault.
ghost use Rattle.std.specs.Prelude.{◌≡◌, drop};
ghost use Rattle.std.specs.Int.{w8, w16, w32, w64};
ghost use Rattle.wire_base.specs.Readers.{Finds, Gives, number, block, string, no_more};
ghost use Rattle.wire_base.specs.declared.reader.CodecFault.TheVariants.{Bad, NoMemory};

use crate::bytes;
use crate::text::{Text, check_text};
use std::alloc::{AllocError, AllocFailed, Global};

/// The field that begins at this offset isn't whole or isn't valid, or bytes are left over there.
#[derive(Clone, Copy, Debug, PartialEq, Eq)]
pub struct BadField {
    pub at: usize,
}

/// Why bytes could not be read as a record.
#[derive(Clone, Copy, Debug, PartialEq, Eq)]
pub enum CodecFault {
    /// The first field that isn't whole or isn't valid, or the first byte left over.
    Bad(BadField),
    /// Memory ran out.
    NoMemory,
}

impl From<BadField> for CodecFault {
    ghost from_gives = { λ bad e. e ≡ Bad bad };

    fn from(bad: BadField) -> Self {
        CodecFault::Bad(bad)
    }
}

impl From<bytes::NoMemory> for CodecFault {
    ghost from_gives = { λ _ e. e ≡ NoMemory };

    fn from(_: bytes::NoMemory) -> Self {
        CodecFault::NoMemory
    }
}

impl From<AllocError> for CodecFault {
    ghost from_gives = { λ _ e. e ≡ NoMemory };

    fn from(_: AllocError) -> Self {
        CodecFault::NoMemory
    }
}

impl<T: Drop> From<AllocFailed<T>> for CodecFault {
    ghost from_gives = { λ _ e. e ≡ NoMemory };

    fn from(_: AllocFailed<T>) -> Self {
        CodecFault::NoMemory
    }
}

// What stands from a place on; nothing behind the end.
pub(crate) fn rest_from(bytes: &[u8], at: usize) -> &[u8]
    ensures { result.now ≡ drop at bytes.now }
{
    if at <= bytes.len() {
        bytes.split_at(at).1
    } else {
        &[]
    }
}

/// One byte.
pub fn u8_at(bytes: &[u8], at: usize) -> Result<(u8, usize), BadField>
    ensures { Finds (λ x. x) result (number w8 bytes.now at) }
{
    match rest_from(bytes, at) {
        [byte, ..] => Ok((*byte, at + 1)),
        [] => Err(BadField { at }),
    }
}

/// Two bytes, the lowest first.
pub fn u16_at(bytes: &[u8], at: usize) -> Result<(u16, usize), BadField>
    ensures { Finds (λ x. x) result (number w16 bytes.now at) }
{
    let rest = rest_from(bytes, at);
    if rest.len() < 2 {
        return Err(BadField { at });
    }
    let (front, _) = rest.split_at(2);
    Ok((u16::from_le_bytes([front[0], front[1]]), at + 2))
}

/// Four bytes, the lowest first.
pub fn u32_at(bytes: &[u8], at: usize) -> Result<(u32, usize), BadField>
    ensures { Finds (λ x. x) result (number w32 bytes.now at) }
{
    let rest = rest_from(bytes, at);
    if rest.len() < 4 {
        return Err(BadField { at });
    }
    let (front, _) = rest.split_at(4);
    let value = u32::from_le_bytes([front[0], front[1], front[2], front[3]]);
    Ok((value, at + 4))
}

/// Eight bytes, the lowest first.
pub fn u64_at(bytes: &[u8], at: usize) -> Result<(u64, usize), BadField>
    ensures { Finds (λ x. x) result (number w64 bytes.now at) }
{
    let rest = rest_from(bytes, at);
    if rest.len() < 8 {
        return Err(BadField { at });
    }
    let (front, _) = rest.split_at(8);
    let value = u64::from_le_bytes([
        front[0], front[1], front[2], front[3], front[4], front[5], front[6], front[7],
    ]);
    Ok((value, at + 8))
}

/// A length of four bytes, and then that many bytes.
#[tactic(auto, unfolding(crate::specs::Readers::block))]
pub fn block_at(bytes: &[u8], at: usize) -> Result<(&[u8], usize), BadField>
    ensures { Finds (λ x. (x.0.now, x.1)) result (block w32 bytes.now at) }
{
    let (length, next) = u32_at(bytes, at)?;
    let length = length as usize;
    let rest = rest_from(bytes, next);
    if rest.len() < length {
        return Err(BadField { at });
    }
    Ok((rest.split_at(length).0, next + length))
}

/// A length of two bytes, and then that many bytes.
#[tactic(auto, unfolding(crate::specs::Readers::block))]
pub fn short_block_at(bytes: &[u8], at: usize) -> Result<(&[u8], usize), BadField>
    ensures { Finds (λ x. (x.0.now, x.1)) result (block w16 bytes.now at) }
{
    let (length, next) = u16_at(bytes, at)?;
    let length = length as usize;
    let rest = rest_from(bytes, next);
    if rest.len() < length {
        return Err(BadField { at });
    }
    Ok((rest.split_at(length).0, next + length))
}

/// A length of two bytes, and then that many bytes of text.
#[tactic(auto, unfolding(crate::specs::Readers::string))]
pub fn string_at(bytes: &[u8], at: usize) -> Result<(&[u8], usize), BadField>
    ensures { Finds (λ x. (x.0.now, x.1)) result (string bytes.now at) }
{
    let (text, next) = short_block_at(bytes, at)?;
    if !check_text(text) {
        return Err(BadField { at });
    }
    Ok((text, next))
}

/// The same, copied.
#[tactic(auto, unfolding(crate::specs::Readers::string))]
pub fn text_at(alloc: Global, bytes: &[u8], at: usize) -> Result<(Text, usize), CodecFault>
    ensures { Gives (λ x. x) result (string bytes.now at) }
{
    let (text, next) = short_block_at(bytes, at)?;
    match Text::from_slice(alloc, text)? {
        Some(text) => Ok((text, next)),
        None => Err(CodecFault::Bad(BadField { at })),
    }
}

/// The end of the bytes.
pub fn end_at(bytes: &[u8], at: usize) -> Result<(), BadField>
    ensures { Finds (λ x. x) result (no_more tt bytes.now at) }
{
    if at < bytes.len() {
        return Err(BadField { at });
    }
    Ok(())
}
