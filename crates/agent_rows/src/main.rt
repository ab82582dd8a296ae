//! agent_rows: sessions with two agents, and with a file server that asks one, played from files of rows, which say what has to come of each. It writes the rows
//! that weren't as wanted, how many cases each file has, and how many there are in all; it ends with 1 where a row wasn't.
//! Its words name files that it plays in place of these. An event for which memory ran out is entered once more.
#![tactic(auto)]

mod asks;
mod carrying;
mod door_plays;
mod frames;
mod list_port;
mod looks;
mod moves;
mod named;
mod pairs;
mod plays;
mod requests;
mod served;
mod tree_files;
mod unlike;
mod verbs;

use door_plays::play_doors;
use plays::play;
use row_files::{Report, read_rows};
use std::env::{self, Args};
use std::fs;
use std::process::ExitCode;
use std::str::from_utf8;

/// The files, each of which is played by itself.
static FILES: [&str; 20] = [
    "events.rows",
    "fids.rows",
    "files.rows",
    "ctl.rows",
    "refusals.rows",
    "looked_for.rows",
    "logins.rows",
    "requests.rows",
    "moves.rows",
    "waits.rows",
    "houses.rows",
    "prompts.rows",
    "log.rows",
    "pauses.rows",
    "whole.rows",
    "p9any_clients.rows",
    "p9any_servers.rows",
    "apop.rows",
    "cram.rows",
    DOORS,
];

/// The file of rows about a file server that asks an agent.
const DOORS: &str = "doors.rows";

// Plays a file.
fn play_file(rt: &HostRuntime, file: &str) -> anyhow::Result<Report> {
    let alloc = rt.alloc();
    let text = fs::read(rt, file)?;
    let rows = read_rows(alloc, text.as_slice())?;
    let mut report = Report::new(alloc);
    if file == DOORS {
        play_doors(alloc, file, rows.as_slice(), &mut report)?;
    } else {
        play(alloc, file, rows.as_slice(), &mut report)?;
    }
    Ok(report)
}

// Writes the rows of a file that weren't as wanted, and how many cases it has.
fn tell(rt: &HostRuntime, file: &str, report: &Report) -> anyhow::Result<()> {
    let told = from_utf8(report.told())?;
    print!(rt; "{told}")?;
    println!(rt; "{file}: {} cases", report.cases())?;
    Ok(())
}

// What came of files that were played.
#[derive(Clone, Copy)]
struct Counts {
    cases: u64,
    unlike: u64,
}

impl Counts {
    // Plays one file more.
    fn play(self, rt: &HostRuntime, file: &str) -> anyhow::Result<Counts> {
        let report = play_file(rt, file)?;
        tell(rt, file, &report)?;
        Ok(Counts {
            cases: self.cases.saturating_add(report.cases()),
            unlike: self.unlike.saturating_add(report.unlike()),
        })
    }
}

// Plays these files, or all where none is named.
fn play_files(rt: &HostRuntime, named: Args) -> anyhow::Result<Counts> {
    let mut counts = Counts {
        cases: 0,
        unlike: 0,
    };
    let mut is_named = false;
    for file in named {
        counts = counts.play(rt, file.as_str())?;
        is_named = true;
    }
    if is_named {
        return Ok(counts);
    }
    for file in &FILES {
        counts = counts.play(rt, file)?;
    }
    Ok(counts)
}

fn main(rt: HostRuntime) -> anyhow::Result<ExitCode> {
    let mut words = env::args(&rt)?;
    let _program = words.next();
    let Counts { cases, unlike } = play_files(&rt, words)?;
    println!(rt; "in all: {cases} cases")?;
    Ok(ExitCode::from(u8::from(unlike != 0)))
}
