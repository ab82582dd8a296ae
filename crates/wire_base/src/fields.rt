// Little-endian numbers and counted strings, at a place of a record and behind what a record holds so far.
ghost use Rattle.std.specs.Prelude.{◌≡◌, ◌≤◌, ◌++◌, length, option_map, OnOk, OnErr};
ghost use Rattle.std.specs.Int.{w16, w32, w64, to_le_bytes};
ghost use Rattle.wire_base.specs.Readers.{number, string, value_of, spelled};

use crate::bytes::{Bytes, NoMemory};
use crate::reader::{string_at, u16_at, u32_at, u64_at};

/// The number of two bytes at a place, the lowest byte first. None exactly where the bytes are too few.
pub fn get_u16(input: &[u8], at: usize) -> Option<u16>
    ensures { result ≡ value_of (number w16 input.now at) }
{
    match u16_at(input, at) {
        Ok((value, _)) => Some(value),
        Err(_) => None,
    }
}

/// The number of four bytes at a place, the lowest byte first. None exactly where the bytes are too few.
pub fn get_u32(input: &[u8], at: usize) -> Option<u32>
    ensures { result ≡ value_of (number w32 input.now at) }
{
    match u32_at(input, at) {
        Ok((value, _)) => Some(value),
        Err(_) => None,
    }
}

/// The number of eight bytes at a place, the lowest byte first. None exactly where the bytes are too few.
pub fn get_u64(input: &[u8], at: usize) -> Option<u64>
    ensures { result ≡ value_of (number w64 input.now at) }
{
    match u64_at(input, at) {
        Ok((value, _)) => Some(value),
        Err(_) => None,
    }
}

/// The string at a place: a length of two bytes and that many bytes. None exactly where the bytes are too few,
/// aren't UTF-8 or hold a NUL.
pub fn get_str(input: &[u8], at: usize) -> Option<&[u8]>
    ensures { option_map (λ text. text.now) result ≡ value_of (string input.now at) }
{
    match string_at(input, at) {
        Ok((text, _)) => Some(text),
        Err(_) => None,
    }
}

/// Appends two bytes, the lowest first.
pub fn put_u16(value: u16, out: &mut Bytes) -> Result<(), NoMemory>
    ensures ok { OnOk result (out.new ≡ out.old ++ to_le_bytes w16 value) }
    ensures err { OnErr result (out.new ≡ out.old) }
{
    out.append(&value.to_le_bytes())
}

/// Appends four bytes, the lowest first.
pub fn put_u32(value: u32, out: &mut Bytes) -> Result<(), NoMemory>
    ensures ok { OnOk result (out.new ≡ out.old ++ to_le_bytes w32 value) }
    ensures err { OnErr result (out.new ≡ out.old) }
{
    out.append(&value.to_le_bytes())
}

/// Appends eight bytes, the lowest first.
pub fn put_u64(value: u64, out: &mut Bytes) -> Result<(), NoMemory>
    ensures ok { OnOk result (out.new ≡ out.old ++ to_le_bytes w64 value) }
    ensures err { OnErr result (out.new ≡ out.old) }
{
    out.append(&value.to_le_bytes())
}

/// Appends a length of two bytes and the text.
pub fn put_str(text: &[u8], out: &mut Bytes) -> Result<(), NoMemory>
    requires { length text.now ≤ 65535 }
    ensures ok { OnOk result (out.new ≡ out.old ++ spelled text.now) }
    ensures err { OnErr result (out.new ≡ out.old) }
{
    let before = out.len();
    put_u16(text.len() as u16, out)?;
    let done = out.append(text);
    out.undo_on_err(before, done)
}
