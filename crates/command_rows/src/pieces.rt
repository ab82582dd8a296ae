// Inputs that come in pieces: in two that are cut at each place in turn, or frame by frame.
use crate::came::Came;
use crate::commands::put_calls_made;
use crate::memory::{Around, sink_of};
use crate::stage::Stage;
use crate::texts::argument;
use row_files::{Report, Row};
use std::io::{self, ErrorKind, Read};
use wire_base::get_u32;
use wire_streams::ReadSource;

/// Two pieces, each handed out by reads of its own.
#[derive(Drop)]
struct Pieces<'a> {
    left: &'a [u8],
    right: &'a [u8],
}

impl Read for Pieces<'_> {
    fn read(&mut self, buf: &mut [u8]) -> io::Result<usize> {
        if self.left.is_empty() {
            return self.right.read(buf);
        }
        self.left.read(buf)
    }
}

// The command on an input that is cut at a place.
fn play_cut(
    rt: &HostRuntime,
    stage: &Stage,
    row: &Row,
    (left, right): (&[u8], &[u8]),
    came: &mut Came,
) -> anyhow::Result<()> {
    let faults = stage.faults_of(row, 3)?;
    let mut around = Around::new(rt.alloc(), stage, &faults)?;
    let mut output = sink_of(rt.alloc(), b"", faults.write)?;
    let mut input = ReadSource::new(Pieces { left, right });
    let line = argument(row, 1)?;
    around.carry_out(rt.alloc(), line, &mut input, &mut output, came)?;
    stage.texts.put_came(rt, row, 2, output.content(), came)
}

/// Plays a row `cuts WORDS INPUT`: a case for each place at which the input is cut.
pub(crate) fn play(
    rt: &HostRuntime,
    stage: &Stage,
    file: &str,
    row: &Row,
    report: &mut Report,
) -> anyhow::Result<()> {
    let input = stage.bytes_at(rt, row, 2)?;
    let input = input.as_slice();
    for cut in 0..input.len() {
        let mut came = Came::new(rt.alloc());
        let pieces = input.split_at(cut);
        let played = play_cut(rt, stage, row, pieces, &mut came);
        came.tell(file, row, played, report)?;
    }
    Ok(())
}

/// Frames, each handed out by reads of its own, of which that of a number fails.
#[derive(Drop)]
struct Frames<'a> {
    frame: &'a [u8],
    behind: &'a [u8],
    reads: u64,
    fault: u64,
}

// The frame with which bytes begin and what stands behind it, or all of them where they hold none.
fn split_frame(bytes: &[u8]) -> (&[u8], &[u8]) {
    let size = match get_u32(bytes, 0) {
        Some(size) => size as usize,
        None => bytes.len(),
    };
    bytes.split_at(size.min(bytes.len()))
}

impl Read for Frames<'_> {
    fn read(&mut self, buf: &mut [u8]) -> io::Result<usize> {
        self.reads = self.reads.saturating_add(1);
        if self.reads == self.fault {
            return Err(io::Error::from(ErrorKind::Other));
        }
        if self.frame.is_empty() {
            let (frame, behind) = split_frame(self.behind);
            self.frame = frame;
            self.behind = behind;
        }
        self.frame.read(buf)
    }
}

/// Plays a row `frames WORDS INPUT FAULT..`: a command each frame of whose input has reads of its own.
pub(crate) fn play_frames(
    rt: &HostRuntime,
    stage: &Stage,
    row: &Row,
    came: &mut Came,
) -> anyhow::Result<()> {
    let faults = stage.faults_of(row, 3)?;
    let bytes = stage.bytes_at(rt, row, 2)?;
    let mut around = Around::new(rt.alloc(), stage, &faults)?;
    let mut output = sink_of(rt.alloc(), b"", faults.write)?;
    let mut input = ReadSource::new(Frames {
        frame: b"",
        behind: bytes.as_slice(),
        reads: 0,
        fault: faults.read,
    });
    let line = argument(row, 1)?;
    around.carry_out(rt.alloc(), line, &mut input, &mut output, came)?;
    stage.texts.put_came(rt, row, 2, output.content(), came)?;
    put_calls_made(rt, stage, row, &mut around, came)
}
