// A command's objects in memory.
ghost use Rattle.std.specs.Prelude.{◌≡◌, true};
ghost use Rattle.auth_program.specs.Statuses.{is_printable};

use crate::came::Came;
use crate::stage::{Faults, Stage, words_of};
use anyhow::bail;
use auth_program::{Status, print_status};
use factotum_program::run_command;
use row_files::Row;
use std::alloc::Global;
use wire_base::{Bytes, Text};
use wire_streams::{Made, MemDialer, MemSink, MemSource, MemWords, Sink, Source, Words};

/// The numbers of the calls that fail: this one alone.
fn fails(alloc: Global, number: u64) -> anyhow::Result<Vec<u64>> {
    let mut fails = Vec::new(alloc);
    fails.push(number)?;
    Ok(fails)
}

/// Bytes of which the read of a number fails.
pub(crate) fn source_of(alloc: Global, bytes: &[u8], fault: u64) -> anyhow::Result<MemSource> {
    let fails = fails(alloc, fault)?;
    let content = Vec::from_slice(alloc, bytes)?;
    Ok(MemSource::new(content, fails))
}

/// A sink that holds bytes, of which the write of a number fails.
pub(crate) fn sink_of(alloc: Global, bytes: &[u8], fault: u64) -> anyhow::Result<MemSink> {
    let fails = fails(alloc, fault)?;
    let content = Vec::from_slice(alloc, bytes)?;
    Ok(MemSink::new(content, fails))
}

/// The words that stand in bytes, eight bytes each, of which the draw of a number fails.
pub(crate) fn drawn_of(alloc: Global, bytes: &[u8], fault: u64) -> anyhow::Result<MemWords> {
    let fails = fails(alloc, fault)?;
    let mut words = Vec::new(alloc);
    let (words_of, _) = bytes.as_chunks::<8>();
    words.extend_from_slice(words_of)?;
    Ok(MemWords::new(words, fails))
}

/// A dialer of the two answers of a stage, or of none, of which the exchange of a number fails.
fn dialer_of(alloc: Global, stage: &Stage, fault: u64) -> anyhow::Result<MemDialer> {
    let fails = fails(alloc, fault)?;
    let (first, second) = (stage.first_heard.as_slice(), stage.second_heard.as_slice());
    if first.is_empty() {
        return Ok(MemDialer::new(alloc, Vec::new(alloc), fails));
    }
    if first.len() > 100 || second.len() > 100 {
        bail!("a long answer");
    }
    let mut answers = Vec::new(alloc);
    answers.push(Bytes::from_slice(alloc, first)?)?;
    answers.push(Bytes::from_slice(alloc, second)?)?;
    Ok(MemDialer::new(alloc, answers, fails))
}

/// A command's objects but for its input and output.
#[derive(Drop)]
pub(crate) struct Around {
    keys: MemSource,
    speaks: MemSource,
    dial: MemDialer,
    rand: MemWords,
}

/// Puts a status: its number and its line.
pub(crate) fn put_status(alloc: Global, status: &Status, came: &mut Came) -> anyhow::Result<()>
    requires { is_printable status.now ≡ true }
{
    let mut line = Bytes::new(alloc);
    print_status(alloc, status, &mut line)?;
    came.put_number(u64::from(status.number()))?;
    Ok(came.put(line.as_slice())?)
}

impl Around {
    /// The tables, the words and the answers of a stage.
    pub(crate) fn new(alloc: Global, stage: &Stage, faults: &Faults) -> anyhow::Result<Around> {
        Ok(Around {
            keys: source_of(alloc, stage.keys.as_slice(), faults.keys)?,
            speaks: source_of(alloc, stage.speaks.as_slice(), faults.speaks)?,
            dial: dialer_of(alloc, stage, faults.dial)?,
            rand: drawn_of(alloc, stage.drawn.as_slice(), faults.word)?,
        })
    }

    // Carries out a command; its status is put.
    fn run<R: Source, W: Sink>(
        &mut self,
        alloc: Global,
        words: &[Text],
        input: &mut R,
        output: &mut W,
        came: &mut Came,
    ) -> anyhow::Result<()> {
        let status = run_command(
            alloc,
            words,
            input,
            &mut self.keys,
            &mut self.speaks,
            output,
            &mut self.dial,
            &mut self.rand,
        );
        put_status(alloc, &status, came)
    }

    /// Carries out a command line; its status is put.
    pub(crate) fn carry_out<R: Source, W: Sink>(
        &mut self,
        alloc: Global,
        line: &[u8],
        input: &mut R,
        output: &mut W,
        came: &mut Came,
    ) -> anyhow::Result<()> {
        let words = words_of(alloc, line)?;
        self.run(alloc, words.as_slice(), input, output, came)
    }

    /// The calls of the dialer, where it tells them.
    pub(crate) fn calls(&self) -> Option<&[Made]> {
        self.dial.made()
    }

    /// The word that is drawn next, if one is.
    pub(crate) fn next_word(&mut self) -> Option<[u8; 8]> {
        self.rand.word8().ok()
    }
}

/// All objects of a command.
#[derive(Drop)]
pub(crate) struct Memory {
    pub(crate) input: MemSource,
    pub(crate) output: MemSink,
    pub(crate) around: Around,
}

impl Memory {
    /// What a row `VERB WORDS INPUT FAULT..` has its command run on.
    pub(crate) fn new(rt: &HostRuntime, stage: &Stage, row: &Row) -> anyhow::Result<Memory> {
        let alloc = rt.alloc();
        let faults = stage.faults_of(row, 3)?;
        let input = stage.bytes_at(rt, row, 2)?;
        Ok(Memory {
            input: source_of(alloc, input.as_slice(), faults.read)?,
            output: sink_of(alloc, stage.held.as_slice(), faults.write)?,
            around: Around::new(alloc, stage, &faults)?,
        })
    }

    /// Carries out a command line; its status is put.
    pub(crate) fn carry_out(
        &mut self,
        alloc: Global,
        line: &[u8],
        came: &mut Came,
    ) -> anyhow::Result<()> {
        let Memory {
            input,
            output,
            around,
        } = self;
        around.carry_out(alloc, line, input, output, came)
    }
}
