// The public calls of `wire_base`.
ghost use Rattle.std.specs.Int.{w16, w32, to_le_bytes};
ghost use Rattle.std.specs.Prelude.{◌≡◌, ◌++◌, OnOk, OnErr, take, ◌≤◌, length, ◌↔◌, ◌<◌, IsSome, IfSome, ◌-◌, ◌+◌, ◌||◌, ℕ, eqb, true, IfOk};
ghost use Rattle.wire_base.specs.Names.{IsName};
ghost use Rattle.wire_base.specs.Readers.{number, value_of, spelled, Finds, block, string, no_more};
ghost use Rattle.wire_base.specs.Spans.{has_number};
ghost use Rattle.wire_base.specs.Texts.{is_text};

use std::alloc::Global;
use wire_base::{BadField, Bytes, Name, NoMemory, Ranges, Text};

/// As `Bytes::append`.
pub fn bytes_append(bytes: &mut Bytes, piece: &[u8]) -> Result<(), NoMemory>
    ensures ok { OnOk result (bytes.new ≡ bytes.old ++ piece.now) }
    ensures err { OnErr result (bytes.new ≡ bytes.old) }
{
    bytes.append(piece)
}

/// As `Bytes::truncate`.
pub fn bytes_truncate(bytes: &mut Bytes, count: usize)
    ensures { bytes.new ≡ take count bytes.old }
{
    bytes.truncate(count)
}

/// As `Bytes::undo_on_err`.
pub fn bytes_undo_on_err<T, E>(bytes: &mut Bytes, before: usize, done: Result<T, E>) -> Result<T, E>
    ensures result { result ≡ done }
    ensures ok { OnOk result (bytes.new ≡ bytes.old) }
    ensures err { OnErr result (bytes.new ≡ take before bytes.old) }
{
    bytes.undo_on_err(before, done)
}

/// As `get_u16`.
pub fn get_u16(input: &[u8], at: usize) -> Option<u16>
    ensures { result ≡ value_of (number w16 input.now at) }
{
    wire_base::get_u16(input, at)
}

/// As `put_u32`.
pub fn put_u32(value: u32, out: &mut Bytes) -> Result<(), NoMemory>
    ensures ok { OnOk result (out.new ≡ out.old ++ to_le_bytes w32 value) }
    ensures err { OnErr result (out.new ≡ out.old) }
{
    wire_base::put_u32(value, out)
}

/// As `put_str`.
pub fn put_str(text: &[u8], out: &mut Bytes) -> Result<(), NoMemory>
    requires { length text.now ≤ 65535 }
    ensures ok { OnOk result (out.new ≡ out.old ++ spelled text.now) }
    ensures err { OnErr result (out.new ≡ out.old) }
{
    wire_base::put_str(text, out)
}

/// As `Name::from_text`.
pub fn name_from_text<const N: usize>(text: &[u8]) -> Option<Name<N>>
    ensures exactly { IsSome result ↔ IsName N text.now }
    ensures value { IfSome result (λ name. name ≡ text.now) }
{
    Name::from_text(text)
}

/// As `Ranges::has`.
pub fn ranges_has(ranges: &Ranges, number: u64) -> bool
    ensures { result ≡ has_number ranges.now.ranges number }
{
    ranges.has(number)
}

/// As `Ranges::add`.
pub fn ranges_add(ranges: &mut Ranges, number: u64)
    requires { 0 < ranges.old.room }
    ensures added { (q : ℕ) → has_number ranges.new.ranges q
        ≡ (eqb q number || has_number ranges.old.ranges q) }
    ensures grows { length ranges.new.ranges ≤ length ranges.old.ranges + 1 }
    ensures room { ranges.old.room ≤ ranges.new.room + 1 }
{
    ranges.add(number)
}

/// As `u32_at`.
pub fn u32_at(bytes: &[u8], at: usize) -> Result<(u32, usize), BadField>
    ensures { Finds (λ x. x) result (number w32 bytes.now at) }
{
    wire_base::u32_at(bytes, at)
}

/// As `block_at`.
pub fn block_at(bytes: &[u8], at: usize) -> Result<(&[u8], usize), BadField>
    ensures { Finds (λ x. (x.0.now, x.1)) result (block w32 bytes.now at) }
{
    wire_base::block_at(bytes, at)
}

/// As `string_at`.
pub fn string_at(bytes: &[u8], at: usize) -> Result<(&[u8], usize), BadField>
    ensures { Finds (λ x. (x.0.now, x.1)) result (string bytes.now at) }
{
    wire_base::string_at(bytes, at)
}

/// As `end_at`.
pub fn end_at(bytes: &[u8], at: usize) -> Result<(), BadField>
    ensures { Finds (λ x. x) result (no_more tt bytes.now at) }
{
    wire_base::end_at(bytes, at)
}

/// As `check_text`.
pub fn check_text(input: &[u8]) -> bool
    ensures { result ≡ is_text input.now }
{
    wire_base::check_text(input)
}

/// As `Text::from_slice`.
pub fn text_from_slice(alloc: Global, input: &[u8]) -> Result<Option<Text>, NoMemory>
    ensures exactly { IfOk result (λ text. IsSome text ↔ (is_text input.now ≡ true)) }
    ensures value { IfOk result (λ text. IfSome text (λ t. t ≡ input.now)) }
{
    Text::from_slice(alloc, input)
}
