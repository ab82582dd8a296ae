//! role_rows: cases of conversations by moves, of starts, of the authentication server, and of what is noted of a record's
//! setting, which stand in files of rows.
//! It writes each case that isn't as wanted, with its file and line, and how many cases each file has; its status is 1
//! where one wasn't as wanted.
#![tactic(auto)]

mod calls;
mod came;
mod clients;
mod files;
mod messages;
mod moves;
mod play_fault;
mod probe;
mod settings;
mod shown;
mod tables;
mod templates;

use conv_challenge::ChConv;
use conv_p9any::AnyConv;
use conv_p9sk1::SkConv;
use files::read_file;
use probe::Probe;
use row_files::{Report, Row, read_rows};
use std::process::ExitCode;
use talks::Conv;
use wire_streams::{WriteSink, write_all};

/// The files, in the order in which they are played.
const FILES: [&str; 9] = [
    "choices.rows",
    "templates.rows",
    "p9sk1.rows",
    "challenges.rows",
    "logins.rows",
    "tables.rows",
    "tickets.rows",
    "mail_requests.rows",
    "settings.rows",
];

// Plays the rows of a file.
fn play(rt: &HostRuntime, file: &str, rows: &[Row], report: &mut Report) -> anyhow::Result<()> {
    match file {
        "templates.rows" => templates::play(rt.alloc(), file, rows, report),
        "tables.rows" => tables::play(rt.alloc(), file, rows, report),
        "settings.rows" => settings::play(rt.alloc(), file, rows, report),
        "tickets.rows" | "mail_requests.rows" => clients::play(rt, file, rows, report),
        "choices.rows" => moves::play::<AnyConv<Probe>>(rt, file, rows, report),
        "p9sk1.rows" => moves::play::<SkConv>(rt, file, rows, report),
        "challenges.rows" => moves::play::<ChConv>(rt, file, rows, report),
        _ => moves::play::<Conv>(rt, file, rows, report),
    }
}

// Reads a file, plays it and tells how many cases it has.
fn play_file(rt: &HostRuntime, file: &str, report: &mut Report) -> anyhow::Result<()> {
    let text = read_file(rt, Some(file.as_bytes()))?;
    let rows = read_rows(rt.alloc(), text.as_slice())?;
    let before = report.cases();
    play(rt, file, &rows, report)?;
    println!(rt; "{file}: {} cases", report.cases().saturating_sub(before))?;
    Ok(())
}

fn main(rt: HostRuntime) -> anyhow::Result<ExitCode> {
    let mut report = Report::new(rt.alloc());
    for file in &FILES {
        play_file(&rt, file, &mut report)?;
    }
    println!(rt;
        "{} cases, {} not as wanted",
        report.cases(),
        report.unlike()
    )?;
    if report.unlike() == 0 {
        return Ok(ExitCode::SUCCESS);
    }
    if write_all(report.told(), &mut WriteSink::new(rt.stdout())).is_err() {
        return Ok(ExitCode::from(2));
    }
    Ok(ExitCode::FAILURE)
}
