//! leaf_rows: the crates below the agent, by the cases that stand in files of rows. It plays each file, writes how many
//! cases it has, each case that isn't as wanted, and in the end how many they are in all; its status is 1 where one
//! isn't as wanted.
#![tactic(auto)]

mod basics;
mod ciphers;
mod counted_ring;
mod fids;
mod fields;
mod framing;
mod limits;
mod lines;
mod messages;
mod nodes;
mod prompts;
mod requests;
mod rings;
mod std_streams;
mod streams;
mod tickets;
mod told_lines;
mod trees;
mod tuples;

use anyhow::bail;
use row_files::{Report, Row, read_rows};
use std::alloc::Global;
use std::fs;
use std::process::ExitCode;

static FILES: [&str; 26] = [
    "basics.rows",
    "words.rows",
    "streams.rows",
    "limits.rows",
    "trees.rows",
    "tuples.rows",
    "requests.rows",
    "prompts.rows",
    "told_lines.rows",
    "rings.rows",
    "ring_keys.rows",
    "writes.rows",
    "nodes.rows",
    "records.rows",
    "walks.rows",
    "fids.rows",
    "des.rows",
    "passwords.rows",
    "ciphers.rows",
    "tickets.rows",
    "names.rows",
    "messages.rows",
    "frames.rows",
    "framing.rows",
    "lines.rows",
    "shown.rows",
];

// Plays the rows of a file.
fn play(alloc: Global, file: &str, rows: &[Row], report: &mut Report) -> anyhow::Result<()> {
    match file {
        "tuples.rows" => tuples::play(alloc, file, rows, report),
        "requests.rows" => requests::play(alloc, file, rows, report),
        "prompts.rows" => prompts::play(alloc, file, rows, report),
        "told_lines.rows" => told_lines::play(alloc, file, rows, report),
        "rings.rows" | "ring_keys.rows" | "writes.rows" => rings::play(alloc, file, rows, report),
        "nodes.rows" | "records.rows" => nodes::play(alloc, file, rows, report),
        "walks.rows" | "fids.rows" => fids::play(alloc, file, rows, report),
        "des.rows" | "passwords.rows" | "ciphers.rows" => {
            ciphers::play(alloc, file, rows, report)
        }
        "tickets.rows" | "names.rows" => tickets::play(alloc, file, rows, report),
        "messages.rows" | "frames.rows" => messages::play(alloc, file, rows, report),
        "framing.rows" => framing::play(alloc, file, rows, report),
        "lines.rows" | "shown.rows" => lines::play(alloc, file, rows, report),
        "basics.rows" | "words.rows" => basics::play(alloc, file, rows, report),
        "limits.rows" => limits::play(alloc, file, rows, report),
        "streams.rows" => streams::play(alloc, file, rows, report),
        "trees.rows" => trees::play(alloc, file, rows, report),
        _ => bail!("{file} has no player"),
    }
}

// Reads a file and plays it; tells how many cases it has.
fn play_file(rt: &HostRuntime, file: &str, report: &mut Report) -> anyhow::Result<()> {
    let before = report.cases();
    let text = fs::read_to_string(rt, file)?;
    let rows = read_rows(rt.alloc(), text.as_bytes())?;
    play(rt.alloc(), file, &rows, report)?;
    let cases = report.cases().saturating_sub(before);
    println!(rt; "{file}: {cases} cases")?;
    Ok(())
}

fn main(rt: HostRuntime) -> anyhow::Result<ExitCode> {
    let mut report = Report::new(rt.alloc());
    for file in FILES {
        play_file(&rt, file, &mut report)?;
    }
    let told = String::from_utf8_lossy(rt.alloc(), report.told())?;
    print!(rt; "{}", told.as_str())?;
    println!(rt;
        "{} cases, {} not as wanted",
        report.cases(),
        report.unlike()
    )?;
    Ok(ExitCode::from(if report.unlike() == 0 { 0 } else { 1 }))
}
