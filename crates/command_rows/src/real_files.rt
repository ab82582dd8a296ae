// Commands on real files, and on the real standard output.
use crate::came::Came;
use crate::memory::{drawn_of, put_status, sink_of};
use crate::stage::{Stage, words_of};
use crate::texts::argument;
use factotum_program::run_command;
use row_files::Row;
use std::fs::File;
use wire_base::Text;
use wire_streams::{MemDialer, ReadSource, Sink, WriteSink};

// A file that a row's field names.
fn opened(rt: &HostRuntime, row: &Row, at: usize) -> anyhow::Result<ReadSource<File>> {
    let name = std::str::from_utf8(argument(row, at)?)?;
    Ok(ReadSource::new(File::open(rt, name)?))
}

// The words' command on the three files of a row.
fn run<W: Sink>(
    rt: &HostRuntime,
    stage: &Stage,
    row: &Row,
    words: &[Text],
    output: &mut W,
    came: &mut Came,
) -> anyhow::Result<()> {
    let alloc = rt.alloc();
    let mut dialer = MemDialer::new(alloc, Vec::new(alloc), Vec::new(alloc));
    let mut rand = drawn_of(alloc, stage.drawn.as_slice(), 0)?;
    let mut input = opened(rt, row, 2)?;
    let mut keys = opened(rt, row, 3)?;
    let mut speaks = opened(rt, row, 4)?;
    let status = run_command(
        alloc,
        words,
        &mut input,
        &mut keys,
        &mut speaks,
        output,
        &mut dialer,
        &mut rand,
    );
    put_status(alloc, &status, came)
}

/// Plays a row `show WORDS INPUT KEYS SPEAKS`: a command on three files, whose output is the program's.
pub(crate) fn show(
    rt: &HostRuntime,
    stage: &Stage,
    row: &Row,
    came: &mut Came,
) -> anyhow::Result<()> {
    let words = words_of(rt.alloc(), argument(row, 1)?)?;
    let mut output = WriteSink::new(rt.stdout());
    run(rt, stage, row, words.as_slice(), &mut output, came)
}

/// Plays a row `files WORDS INPUT KEYS SPEAKS`: the same, whose output is compared.
pub(crate) fn compare(
    rt: &HostRuntime,
    stage: &Stage,
    row: &Row,
    came: &mut Came,
) -> anyhow::Result<()> {
    let words = words_of(rt.alloc(), argument(row, 1)?)?;
    let mut output = sink_of(rt.alloc(), b"", 0)?;
    run(rt, stage, row, words.as_slice(), &mut output, came)?;
    stage.texts.put_came(rt, row, 2, output.content(), came)
}
