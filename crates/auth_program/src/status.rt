// The statuses of a command, their numbers and their texts.
ghost use Rattle.std.specs.Prelude.{◌≡◌, ◌++◌, IfOk, OnOk, OnErr, string_bytes, true};
ghost use Rattle.auth_program.specs.Statuses.{status_number, bad_frame_text, torn_text, flood_text, bad_script_text, bad_table_text, unknown_text, ended_text, is_printable, status_text};
ghost use Rattle.auth_program.specs.declared.status.Status.TheVariants.{AsEnded, NoMemory};

use crate::cause::ScriptCause;
use auth_server::AuthEnd;
use std::alloc::Global;
use wire_base::{Bytes, NoMemory};

/// How a command ended.
#[derive(Clone, Copy, Debug, PartialEq, Eq)]
pub enum Status {
    /// The input was read to its end, and answered.
    Fine,
    /// The words are no command's words.
    Usage,
    /// A read of the input, or of a table, failed.
    ReadFault,
    /// A write of the output failed.
    WriteFault,
    /// No word could be drawn.
    WordFault,
    /// At this offset of the input stands a size of a frame that is under 7 or over 8216.
    BadFrame { at: u64, size: u32 },
    /// The input ended inside the frame or request that begins at this offset.
    Torn { at: u64 },
    /// A script's first line that was refused, counted from 1, and why.
    BadScript { line: u32, cause: ScriptCause },
    /// A table's first bad line, counted from 1: of who speaks for whom, or of the keys.
    BadTables { speaks: bool, line: u32 },
    /// The authentication server ended its client so: by an unknown request or too many wrong answers.
    AsEnded(AuthEnd),
    /// Memory ran out.
    NoMemory,
    /// The input, or a table, has more bytes than the limit.
    Flood { limit: u64 },
}

impl From<NoMemory> for Status {
    ghost from_gives = { λ _ status. status ≡ NoMemory };

    fn from(_: NoMemory) -> Self {
        Status::NoMemory
    }
}

impl Status {
    /// The number that the process ends with.
    pub fn number(self) -> u8
        ensures { result ≡ status_number self }
    {
        match self {
            Status::Fine => 0,
            Status::Usage => 1,
            Status::ReadFault => 2,
            Status::WriteFault => 3,
            Status::WordFault => 4,
            Status::BadFrame { .. } => 5,
            Status::Torn { .. } => 6,
            Status::BadScript { .. } => 7,
            Status::BadTables { .. } => 8,
            Status::AsEnded(_) => 9,
            Status::NoMemory => 10,
            Status::Flood { .. } => 11,
        }
    }
}

fn bad_frame_text(alloc: Global, at: u64, size: u32) -> Result<String, NoMemory>
    ensures { IfOk result (λ text. string_bytes text ≡ bad_frame_text at size) }
{
    Ok(format!(in alloc; "factotum: bad frame size {size} at {at}\n")?)
}

fn torn_text(alloc: Global, at: u64) -> Result<String, NoMemory>
    ensures { IfOk result (λ text. string_bytes text ≡ torn_text at) }
{
    Ok(format!(in alloc; "factotum: input ends inside the message at {at}\n")?)
}

fn flood_text(alloc: Global, limit: u64) -> Result<String, NoMemory>
    ensures { IfOk result (λ text. string_bytes text ≡ flood_text limit) }
{
    Ok(format!(in alloc; "factotum: input over {limit} bytes\n")?)
}

fn bad_script_text(alloc: Global, line: u32, cause: ScriptCause) -> Result<String, NoMemory>
    ensures { IfOk result (λ text. string_bytes text ≡ bad_script_text line cause) }
{
    match cause {
        ScriptCause::BadLine => Ok(format!(in alloc; "factotum: script line {line}: bad line\n")?),
        ScriptCause::UnknownNode => {
            Ok(format!(in alloc; "factotum: script line {line}: unknown node\n")?)
        }
        ScriptCause::UnknownConv => {
            Ok(format!(in alloc; "factotum: script line {line}: unknown conversation\n")?)
        }
        ScriptCause::NoSuchMessage => {
            Ok(format!(in alloc; "factotum: script line {line}: no such message\n")?)
        }
    }
}

fn bad_table_text(alloc: Global, speaks: bool, line: u32) -> Result<String, NoMemory>
    ensures { IfOk result (λ text. string_bytes text ≡ bad_table_text speaks line) }
{
    if speaks {
        Ok(format!(in alloc; "factotum: speaks line {line}\n")?)
    } else {
        Ok(format!(in alloc; "factotum: keys line {line}\n")?)
    }
}

fn unknown_text(alloc: Global, at: u64, kind: u8) -> Result<String, NoMemory>
    ensures { IfOk result (λ text. string_bytes text ≡ unknown_text at kind) }
{
    Ok(format!(in alloc; "factotum: unknown request {kind} at {at}\n")?)
}

// Appends the line of a client's end.
fn print_end(alloc: Global, end: &AuthEnd, out: &mut Bytes) -> Result<(), NoMemory>
    requires { is_printable (AsEnded end.now) ≡ true }
    ensures ok { OnOk result (out.new ≡ out.old ++ ended_text end.now) }
    ensures err { OnErr result (out.new ≡ out.old) }
{
    match end {
        AuthEnd::UnknownType { at, kind } => {
            let text = unknown_text(alloc, *at, *kind)?;
            out.append(text.as_bytes())
        }
        AuthEnd::TooManyWrong => out.append(b"factotum: too many wrong answers\n"),
        _ => unreachable!(),
    }
}

/// Appends a status's line for standard error: nothing where it is fine.
pub fn print_status(alloc: Global, status: &Status, out: &mut Bytes) -> Result<(), NoMemory>
    requires { is_printable status.now ≡ true }
    ensures ok { OnOk result (out.new ≡ out.old ++ status_text status.now) }
    ensures err { OnErr result (out.new ≡ out.old) }
{
    match status {
        Status::Fine => Ok(()),
        Status::Usage => out.append(b"factotum: usage\n"),
        Status::ReadFault => out.append(b"factotum: read fault\n"),
        Status::WriteFault => out.append(b"factotum: write fault\n"),
        Status::WordFault => out.append(b"factotum: word fault\n"),
        Status::BadFrame { at, size } => {
            let text = bad_frame_text(alloc, *at, *size)?;
            out.append(text.as_bytes())
        }
        Status::Torn { at } => {
            let text = torn_text(alloc, *at)?;
            out.append(text.as_bytes())
        }
        Status::BadScript { line, cause } => {
            let text = bad_script_text(alloc, *line, *cause)?;
            out.append(text.as_bytes())
        }
        Status::BadTables { speaks, line } => {
            let text = bad_table_text(alloc, *speaks, *line)?;
            out.append(text.as_bytes())
        }
        Status::AsEnded(end) => print_end(alloc, end, out),
        Status::NoMemory => out.append(b"factotum: out of memory\n"),
        Status::Flood { limit } => {
            let text = flood_text(alloc, *limit)?;
            out.append(text.as_bytes())
        }
    }
}
