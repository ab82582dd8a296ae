// Rows of statuses and endings, each with its number and its line.
ghost use Rattle.std.specs.Prelude.{◌≡◌, IfOk, true};
ghost use Rattle.auth_program.specs.Endings.{is_told};
ghost use Rattle.auth_program.specs.Statuses.{is_printable};

use crate::came::Came;
use crate::memory::put_status;
use crate::texts::{argument, number_at};
use anyhow::bail;
use auth_program::{Ending, ScriptCause, Status};
use auth_server::{AuthEnd, ListenEnd};
use row_files::{Report, Row};
use std::alloc::Global;
use wire_base::Bytes;

fn cause_of(word: &[u8]) -> anyhow::Result<ScriptCause> {
    match word {
        b"bad_line" => Ok(ScriptCause::BadLine),
        b"unknown_node" => Ok(ScriptCause::UnknownNode),
        b"unknown_conv" => Ok(ScriptCause::UnknownConv),
        b"no_such_message" => Ok(ScriptCause::NoSuchMessage),
        _ => bail!("no such cause"),
    }
}

// A status with a line of a file.
fn status_of_line(row: &Row) -> anyhow::Result<Status>
    ensures { IfOk result (λ status. is_printable status ≡ true) }
{
    let line = u32::try_from(number_at(row, 2)?)?;
    match argument(row, 1)? {
        b"bad_script" => {
            let cause = cause_of(argument(row, 3)?)?;
            Ok(Status::BadScript { line, cause })
        }
        b"bad_keys" => Ok(Status::BadTables {
            speaks: false,
            line,
        }),
        b"bad_speaks" => Ok(Status::BadTables { speaks: true, line }),
        _ => bail!("no such status"),
    }
}

// A status with a place of the input.
fn status_of_place(row: &Row) -> anyhow::Result<Status>
    ensures { IfOk result (λ status. is_printable status ≡ true) }
{
    let at = number_at(row, 2)?;
    match argument(row, 1)? {
        b"torn" => Ok(Status::Torn { at }),
        b"flood" => Ok(Status::Flood { limit: at }),
        b"bad_frame" => {
            let size = u32::try_from(number_at(row, 3)?)?;
            Ok(Status::BadFrame { at, size })
        }
        b"unknown_request" => {
            let kind = u8::try_from(number_at(row, 3)?)?;
            Ok(Status::AsEnded(AuthEnd::UnknownType { at, kind }))
        }
        _ => status_of_line(row),
    }
}

fn status_of(row: &Row) -> anyhow::Result<Status>
    ensures { IfOk result (λ status. is_printable status ≡ true) }
{
    match argument(row, 1)? {
        b"fine" => Ok(Status::Fine),
        b"usage" => Ok(Status::Usage),
        b"read_fault" => Ok(Status::ReadFault),
        b"write_fault" => Ok(Status::WriteFault),
        b"word_fault" => Ok(Status::WordFault),
        b"no_memory" => Ok(Status::NoMemory),
        b"too_many_wrong" => Ok(Status::AsEnded(AuthEnd::TooManyWrong)),
        _ => status_of_place(row),
    }
}

fn put_ending(alloc: Global, ending: Ending, came: &mut Came) -> anyhow::Result<()>
    requires { is_told ending ≡ true }
{
    let mut line = Bytes::new(alloc);
    ending.print(alloc, &mut line)?;
    came.put_number(u64::from(ending.number()))?;
    Ok(came.put(line.as_slice())?)
}

fn play_ending(alloc: Global, word: &[u8], came: &mut Came) -> anyhow::Result<()> {
    match word {
        b"no_thread" => put_ending(alloc, Ending::from(ListenEnd::NoThread), came),
        b"listen_fault" => put_ending(alloc, Ending::from(ListenEnd::ListenFault), came),
        b"no_memory" => put_ending(alloc, Ending::from(ListenEnd::NoMemory), came),
        _ => bail!("no such ending"),
    }
}

fn play_row(alloc: Global, row: &Row, came: &mut Came) -> anyhow::Result<()> {
    match row.word() {
        b"status" => {
            let status = status_of(row)?;
            put_status(alloc, &status, came)
        }
        b"ending" => play_ending(alloc, argument(row, 1)?, came),
        _ => bail!("no such verb"),
    }
}

/// Plays rows `status KIND ..` and `ending KIND`.
pub(crate) fn play(
    alloc: Global,
    file: &str,
    rows: &[Row],
    report: &mut Report,
) -> anyhow::Result<()> {
    for row in rows {
        let mut came = Came::new(alloc);
        let played = play_row(alloc, row, &mut came);
        came.tell(file, row, played, report)?;
    }
    Ok(())
}
