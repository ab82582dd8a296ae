// How a file server that asks an agent ended.
ghost use Rattle.std.specs.Prelude.{◌≡◌, ◌++◌, IfOk, OnErr, OnOk, string_bytes};
ghost use Rattle.attach_program.specs.Statuses.{bad_frame_text, bad_keys_text, flood_text, status_number, status_text, torn_text};

use std::alloc::Global;
use wire_base::{Bytes, NoMemory};

/// How a file server that asks an agent ended. Offsets count the bytes of the client from 0, lines those of the keys file from
/// 1.
#[derive(Clone, Copy, Debug, PartialEq, Eq)]
pub enum AttachStatus {
    /// The input ended behind a whole frame, or was empty.
    Fine,
    /// The words aren't `--keys` and a path.
    Usage,
    /// A read of the input, or of the keys file, failed.
    ReadFault,
    /// A write of the output failed.
    WriteFault,
    /// No word could be drawn.
    WordFault,
    /// The frame that begins at this offset has a size that none may have.
    BadFrame { at: u64, size: u32 },
    /// The input ended inside the frame that begins at this offset.
    Torn { at: u64 },
    /// The first line of the keys file that is no key, or that the agent refuses.
    BadKeys { line: u32 },
    /// Memory ran out.
    NoMemory,
    /// The input, or the keys file, has more bytes than this.
    Flood { limit: u64 },
}

impl From<NoMemory> for AttachStatus {
    ghost use Rattle.std.specs.Prelude.{◌≡◌};
    ghost use Rattle.attach_program.specs.declared.status.AttachStatus.TheVariants as statuses;

    ghost from_gives = { λ _ status. status ≡ statuses.NoMemory };

    fn from(_: NoMemory) -> Self {
        AttachStatus::NoMemory
    }
}

impl AttachStatus {
    /// The number that the process ends with.
    pub fn number(self) -> u8
        ensures { result ≡ status_number self }
    {
        match self {
            AttachStatus::Fine => 0,
            AttachStatus::Usage => 1,
            AttachStatus::ReadFault => 2,
            AttachStatus::WriteFault => 3,
            AttachStatus::WordFault => 4,
            AttachStatus::BadFrame { .. } => 5,
            AttachStatus::Torn { .. } => 6,
            AttachStatus::BadKeys { .. } => 8,
            AttachStatus::NoMemory => 10,
            AttachStatus::Flood { .. } => 11,
        }
    }
}

fn bad_frame_text(alloc: Global, at: u64, size: u32) -> Result<String, NoMemory>
    ensures { IfOk result (λ text. string_bytes text ≡ bad_frame_text at size) }
{
    Ok(format!(in alloc; "auth_attach: bad frame size {size} at {at}\n")?)
}

fn torn_text(alloc: Global, at: u64) -> Result<String, NoMemory>
    ensures { IfOk result (λ text. string_bytes text ≡ torn_text at) }
{
    Ok(format!(in alloc; "auth_attach: input ends inside the message at {at}\n")?)
}

fn bad_keys_text(alloc: Global, line: u32) -> Result<String, NoMemory>
    ensures { IfOk result (λ text. string_bytes text ≡ bad_keys_text line) }
{
    Ok(format!(in alloc; "auth_attach: keys line {line}\n")?)
}

fn flood_text(alloc: Global, limit: u64) -> Result<String, NoMemory>
    ensures { IfOk result (λ text. string_bytes text ≡ flood_text limit) }
{
    Ok(format!(in alloc; "auth_attach: input over {limit} bytes\n")?)
}

/// Appends a status's line for standard error: nothing where it is fine.
pub fn print_status(alloc: Global, status: AttachStatus, out: &mut Bytes) -> Result<(), NoMemory>
    ensures ok { OnOk result (out.new ≡ out.old ++ status_text status) }
    ensures err { OnErr result (out.new ≡ out.old) }
{
    match status {
        AttachStatus::Fine => Ok(()),
        AttachStatus::Usage => out.append(b"auth_attach: usage\n"),
        AttachStatus::ReadFault => out.append(b"auth_attach: read fault\n"),
        AttachStatus::WriteFault => out.append(b"auth_attach: write fault\n"),
        AttachStatus::WordFault => out.append(b"auth_attach: word fault\n"),
        AttachStatus::BadFrame { at, size } => {
            let text = bad_frame_text(alloc, at, size)?;
            out.append(text.as_bytes())
        }
        AttachStatus::Torn { at } => {
            let text = torn_text(alloc, at)?;
            out.append(text.as_bytes())
        }
        AttachStatus::BadKeys { line } => {
            let text = bad_keys_text(alloc, line)?;
            out.append(text.as_bytes())
        }
        AttachStatus::NoMemory => out.append(b"auth_attach: out of memory\n"),
        AttachStatus::Flood { limit } => {
            let text = flood_text(alloc, limit)?;
            out.append(text.as_bytes())
        }
    }
}
