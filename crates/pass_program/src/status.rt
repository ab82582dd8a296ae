// How a change of a password ended.
ghost use Rattle.std.specs.Prelude.{◌≡◌, ◌++◌, IfOk, OnErr, OnOk, string_bytes};
ghost use Rattle.pass_program.specs.Statuses.{bad_table_text, flood_text, status_number, status_text, torn_text};

use std::alloc::Global;
use wire_base::{Bytes, NoMemory};
use wire_streams::{WordFault, WriteFault};

/// How a change of a password ended. Offsets count the bytes of the client from 0.
#[derive(Clone, Copy, Debug, PartialEq, Eq)]
pub enum PassStatus {
    /// A password was changed; or the input ended before the first byte of a message.
    Fine { changed: bool },
    /// The words aren't `--keys` and a path.
    Usage,
    /// A read of the input, or of the table of keys, failed.
    ReadFault,
    /// A write of the output, or of the new table, failed.
    WriteFault,
    /// No word could be drawn.
    WordFault,
    /// The input ended inside the message that begins at this offset.
    Torn { at: u64 },
    /// The first bad line of the table of keys, counted from 1.
    BadTable { line: u32 },
    /// The request isn't one of this kind or has a bad field, or five messages were refused.
    Refused,
    /// Memory ran out.
    NoMemory,
    /// The table of keys has more bytes than the limit.
    Flood { limit: u64 },
}

impl From<NoMemory> for PassStatus {
    ghost use Rattle.std.specs.Prelude.{◌≡◌};
    ghost use Rattle.pass_program.specs.declared.status.PassStatus.TheVariants as statuses;

    ghost from_gives = { λ _ status. status ≡ statuses.NoMemory };

    fn from(_: NoMemory) -> Self {
        PassStatus::NoMemory
    }
}

impl From<WriteFault> for PassStatus {
    ghost use Rattle.std.specs.Prelude.{◌≡◌};
    ghost use Rattle.pass_program.specs.declared.status.PassStatus.TheVariants as statuses;

    ghost from_gives = { λ _ status. status ≡ statuses.WriteFault };

    fn from(_: WriteFault) -> Self {
        PassStatus::WriteFault
    }
}

impl From<WordFault> for PassStatus {
    ghost use Rattle.std.specs.Prelude.{◌≡◌};
    ghost use Rattle.pass_program.specs.declared.status.PassStatus.TheVariants as statuses;

    ghost from_gives = { λ _ status. status ≡ statuses.WordFault };

    fn from(_: WordFault) -> Self {
        PassStatus::WordFault
    }
}

impl PassStatus {
    /// The number that the process ends with.
    pub fn number(self) -> u8
        ensures { result ≡ status_number self }
    {
        match self {
            PassStatus::Fine { .. } => 0,
            PassStatus::Usage => 1,
            PassStatus::ReadFault => 2,
            PassStatus::WriteFault => 3,
            PassStatus::WordFault => 4,
            PassStatus::Torn { .. } => 6,
            PassStatus::BadTable { .. } => 8,
            PassStatus::Refused => 9,
            PassStatus::NoMemory => 10,
            PassStatus::Flood { .. } => 11,
        }
    }
}

fn torn_text(alloc: Global, at: u64) -> Result<String, NoMemory>
    ensures { IfOk result (λ text. string_bytes text ≡ torn_text at) }
{
    Ok(format!(in alloc; "pass_change: input ends inside the message at {at}\n")?)
}

fn bad_table_text(alloc: Global, line: u32) -> Result<String, NoMemory>
    ensures { IfOk result (λ text. string_bytes text ≡ bad_table_text line) }
{
    Ok(format!(in alloc; "pass_change: keys line {line}\n")?)
}

fn flood_text(alloc: Global, limit: u64) -> Result<String, NoMemory>
    ensures { IfOk result (λ text. string_bytes text ≡ flood_text limit) }
{
    Ok(format!(in alloc; "pass_change: keys over {limit} bytes\n")?)
}

/// Appends a status's line for standard error: nothing where it is fine.
pub fn print_status(alloc: Global, status: PassStatus, out: &mut Bytes) -> Result<(), NoMemory>
    ensures ok { OnOk result (out.new ≡ out.old ++ status_text status) }
    ensures err { OnErr result (out.new ≡ out.old) }
{
    match status {
        PassStatus::Fine { .. } => Ok(()),
        PassStatus::Usage => out.append(b"pass_change: usage\n"),
        PassStatus::ReadFault => out.append(b"pass_change: read fault\n"),
        PassStatus::WriteFault => out.append(b"pass_change: write fault\n"),
        PassStatus::WordFault => out.append(b"pass_change: word fault\n"),
        PassStatus::Torn { at } => {
            let text = torn_text(alloc, at)?;
            out.append(text.as_bytes())
        }
        PassStatus::BadTable { line } => {
            let text = bad_table_text(alloc, line)?;
            out.append(text.as_bytes())
        }
        PassStatus::Refused => out.append(b"pass_change: refused\n"),
        PassStatus::NoMemory => out.append(b"pass_change: out of memory\n"),
        PassStatus::Flood { limit } => {
            let text = flood_text(alloc, limit)?;
            out.append(text.as_bytes())
        }
    }
}
