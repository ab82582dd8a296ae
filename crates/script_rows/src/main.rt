//! script_rows: cases of scripts of a network, of the nodes and records that they come to, of the terms of messages, of texts
//! of labels, of what conversations do by them, and of what is granted at requests, which stand in files of rows. It tells how
//! many cases each file has, and each that isn't as wanted, and ends with status 1 where there is one.
#![tactic(auto)]

use anyhow::{Context, bail};
use row_files::{Report, Row, read_rows};
use std::process::ExitCode;
use wire_streams::{WriteSink, write_all};

mod came;
mod driven;
mod grant_rows;
mod label_rows;
mod move_rows;
mod reading_rows;
mod records;
mod script_lines;
mod spelled_terms;
mod steps;
mod taken_turns;
mod term_rows;
mod texts;
mod told_tables;

/// What the rows of a file are about.
#[derive(Clone, Copy)]
enum Subject {
    ScriptLines,
    ToldTables,
    Records,
    Driven,
    TakenTurns,
    Terms,
    Labels,
    Readings,
    Moves,
    Grants,
}

/// A file of rows.
struct Listed {
    file: &'static str,
    subject: Subject,
}

static FILES: [Listed; 10] = [
    Listed {
        file: "lines.rows",
        subject: Subject::ScriptLines,
    },
    Listed {
        file: "told_tables.rows",
        subject: Subject::ToldTables,
    },
    Listed {
        file: "records.rows",
        subject: Subject::Records,
    },
    Listed {
        file: "driven.rows",
        subject: Subject::Driven,
    },
    Listed {
        file: "turns.rows",
        subject: Subject::TakenTurns,
    },
    Listed {
        file: "terms.rows",
        subject: Subject::Terms,
    },
    Listed {
        file: "labels.rows",
        subject: Subject::Labels,
    },
    Listed {
        file: "readings.rows",
        subject: Subject::Readings,
    },
    Listed {
        file: "moves.rows",
        subject: Subject::Moves,
    },
    Listed {
        file: "grants.rows",
        subject: Subject::Grants,
    },
];

// Writes to standard output.
fn put(rt: &HostRuntime, text: &[u8]) -> anyhow::Result<()> {
    match write_all(text, &mut WriteSink::new(rt.stdout())) {
        Ok(()) => Ok(()),
        Err(_) => bail!("standard output takes no more"),
    }
}

// Plays rows by what they are about.
fn play_rows(
    rt: &HostRuntime,
    listed: &Listed,
    rows: &[Row],
    report: &mut Report,
) -> anyhow::Result<()> {
    let file = listed.file;
    match listed.subject {
        Subject::ScriptLines => script_lines::play(rt, file, rows, report),
        Subject::ToldTables => told_tables::play(rt.alloc(), file, rows, report),
        Subject::Records => records::play(rt.alloc(), file, rows, report),
        Subject::Driven => driven::play(rt, file, rows, report),
        Subject::TakenTurns => taken_turns::play(rt, file, rows, report),
        Subject::Terms => term_rows::play(rt, file, rows, report),
        Subject::Labels => label_rows::play(rt.alloc(), file, rows, report),
        Subject::Readings => reading_rows::play(rt.alloc(), file, rows, report),
        Subject::Moves => move_rows::play(rt, file, rows, report),
        Subject::Grants => grant_rows::play(rt, file, rows, report),
    }
}

// Plays a file, and writes how many cases it has.
fn play_file(rt: &HostRuntime, listed: &Listed, report: &mut Report) -> anyhow::Result<()> {
    let text = texts::read_file(rt, listed.file.as_bytes())?;
    let rows = read_rows(rt.alloc(), text.as_slice()).context(listed.file)?;
    let before = report.cases();
    play_rows(rt, listed, &rows, report)?;
    let cases = report.cases().saturating_sub(before);
    let line = format!(in rt.alloc(); "{}: {cases} cases\n", listed.file)?;
    put(rt, line.as_bytes())
}

// Writes what isn't as wanted, and how many cases there were.
fn tell(rt: &HostRuntime, report: &Report) -> anyhow::Result<()> {
    put(rt, report.told())?;
    let (cases, unlike) = (report.cases(), report.unlike());
    let line = format!(in rt.alloc(); "{cases} cases, {unlike} not as wanted\n")?;
    put(rt, line.as_bytes())
}

fn main(rt: HostRuntime) -> anyhow::Result<ExitCode> {
    let mut report = Report::new(rt.alloc());
    for listed in &FILES {
        play_file(&rt, listed, &mut report)?;
    }
    tell(&rt, &report)?;
    if report.unlike() > 0 {
        return Ok(ExitCode::from(1));
    }
    Ok(ExitCode::SUCCESS)
}
