//! command_rows: cases of the commands, of their words and of the statuses that they end with, of changes of passwords and
//! of connections to a file server that asks an agent, which stand in files of rows. It tells how many cases each file has, and each that isn't as wanted, and ends with status 1 where there is one.
//! Before them it writes the log of a server whose tables change.
#![tactic(auto)]

use anyhow::{Context, bail};
use row_files::{Report, Row, read_rows};
use std::process::ExitCode;
use wire_streams::{WriteSink, write_all};

mod attaches;
mod came;
mod changes;
mod command_words;
mod commands;
mod hearing;
mod memory;
mod pieces;
mod real_files;
mod reloads;
mod rooms;
mod stage;
mod statuses;
mod texts;

/// What the rows of a file are about.
#[derive(Clone, Copy)]
enum Subject {
    Commands,
    CommandWords,
    Statuses,
    Changes,
    Attaches,
}

/// A file of rows.
struct Listed {
    file: &'static str,
    subject: Subject,
}

static FILES: [Listed; 10] = [
    Listed {
        file: "pipes.rows",
        subject: Subject::Commands,
    },
    Listed {
        file: "sessions.rows",
        subject: Subject::Commands,
    },
    Listed {
        file: "usages.rows",
        subject: Subject::Commands,
    },
    Listed {
        file: "worlds.rows",
        subject: Subject::Commands,
    },
    Listed {
        file: "served_clients.rows",
        subject: Subject::Commands,
    },
    Listed {
        file: "authsrv.rows",
        subject: Subject::Commands,
    },
    Listed {
        file: "words.rows",
        subject: Subject::CommandWords,
    },
    Listed {
        file: "statuses.rows",
        subject: Subject::Statuses,
    },
    Listed {
        file: "changes.rows",
        subject: Subject::Changes,
    },
    Listed {
        file: "attaches.rows",
        subject: Subject::Attaches,
    },
];

// Writes to standard output.
fn put(rt: &HostRuntime, text: &[u8]) -> anyhow::Result<()> {
    match write_all(text, &mut WriteSink::new(rt.stdout())) {
        Ok(()) => Ok(()),
        Err(_) => bail!("standard output takes no more"),
    }
}

// Plays rows by what they are about.
fn play_rows(
    rt: &HostRuntime,
    listed: &Listed,
    rows: &[Row],
    report: &mut Report,
) -> anyhow::Result<()> {
    let file = listed.file;
    match listed.subject {
        Subject::Commands => commands::play(rt, file, rows, report),
        Subject::CommandWords => command_words::play(rt.alloc(), file, rows, report),
        Subject::Statuses => statuses::play(rt.alloc(), file, rows, report),
        Subject::Changes => changes::play(rt, file, rows, report),
        Subject::Attaches => attaches::play(rt, file, rows, report),
    }
}

// Plays a file, and writes how many cases it has.
fn play_file(rt: &HostRuntime, listed: &Listed, report: &mut Report) -> anyhow::Result<()> {
    let text = texts::read_file(rt, listed.file.as_bytes())?;
    let rows = read_rows(rt.alloc(), text.as_slice()).context(listed.file)?;
    let before = report.cases();
    play_rows(rt, listed, &rows, report)?;
    let cases = report.cases().saturating_sub(before);
    let line = format!(in rt.alloc(); "{}: {cases} cases\n", listed.file)?;
    put(rt, line.as_bytes())
}

// Writes what isn't as wanted, and how many cases there were.
fn tell(rt: &HostRuntime, report: &Report) -> anyhow::Result<()> {
    put(rt, report.told())?;
    let (cases, unlike) = (report.cases(), report.unlike());
    let line = format!(in rt.alloc(); "{cases} cases, {unlike} not as wanted\n")?;
    put(rt, line.as_bytes())
}

fn main(rt: HostRuntime) -> anyhow::Result<ExitCode> {
    let mut report = Report::new(rt.alloc());
    put(&rt, reloads::lines(rt.alloc())?.as_slice())?;
    for listed in &FILES {
        play_file(&rt, listed, &mut report)?;
    }
    tell(&rt, &report)?;
    if report.unlike() > 0 {
        return Ok(ExitCode::from(1));
    }
    Ok(ExitCode::SUCCESS)
}
