// How the rows of a file are played that are about a file server which asks an agent.
use crate::carrying::whole;
use crate::frames::frame_of;
use crate::list_port::{ListPort, PortAnswer};
use crate::named::Names;
use crate::plays::{Played, report_played};
use crate::unlike::Unlike;
use crate::verbs::{fields_from, number_at, wants_nothing};
use doors::Door;
use row_files::{Report, Row};
use std::alloc::Global;
use wire_base::{Bytes, NoMemory};

// What the rows are played with.
#[derive(Drop)]
struct Stage {
    door: Door,
    port: ListPort,
    names: Names,
}

impl Stage {
    fn new(alloc: Global) -> Stage {
        Stage {
            door: Door::new(alloc),
            port: ListPort::new(alloc),
            names: Names::new(alloc),
        }
    }

    // Plays a row.
    fn play(&mut self, alloc: Global, row: &Row) -> Result<Played, Unlike> {
        let word = row.word();
        if word == b"session".as_slice() {
            self.door = Door::new(alloc);
            self.port = ListPort::new(alloc);
        } else if word == b"name".as_slice() {
            let name = row.field(1).ok_or(Unlike::Field)?;
            self.names.define(alloc, name, fields_from(row, 2))?;
        } else if word == b"port".as_slice() {
            self.prepare(alloc, row)?;
        } else {
            return self.play_step(alloc, row);
        }
        Ok(Played::Prepared)
    }

    // One answer more that the port gives.
    fn prepare(&mut self, alloc: Global, row: &Row) -> Result<(), Unlike> {
        let kind = row.field(1).ok_or(Unlike::Field)?;
        let answer = if kind == b"open".as_slice() {
            PortAnswer::Open(number_at(row, 2)?)
        } else if kind == b"refused".as_slice() {
            PortAnswer::Refused
        } else if kind == b"said".as_slice() {
            PortAnswer::Said(self.names.text(alloc, fields_from(row, 2))?)
        } else if kind == b"gone".as_slice() {
            PortAnswer::Gone
        } else if kind == b"roomless".as_slice() {
            PortAnswer::Roomless
        } else {
            return Err(Unlike::Field);
        };
        Ok(self.port.prepare(answer)?)
    }

    // Plays a row that is a case.
    fn play_step(&mut self, alloc: Global, row: &Row) -> Result<Played, Unlike> {
        let wanted = self.wanted(alloc, row)?;
        let came = self.carry_out(alloc, row)?;
        if came.as_slice() == wanted.as_slice() {
            Ok(Played::AsWanted)
        } else {
            Ok(Played::Otherwise(came))
        }
    }

    // What has to come.
    fn wanted(&self, alloc: Global, row: &Row) -> Result<Bytes, Unlike> {
        if wants_nothing(row) {
            return Ok(Bytes::new(alloc));
        }
        if row.word() == b"ask".as_slice() {
            frame_of(alloc, &self.names, row.wanted.as_slice())
        } else {
            self.names.text(alloc, row.wanted.as_slice())
        }
    }

    // What comes.
    fn carry_out(&mut self, alloc: Global, row: &Row) -> Result<Bytes, Unlike> {
        let word = row.word();
        if word == b"asked".as_slice() {
            return Ok(self.port.take_asked()?);
        }
        let frame = whole(
            alloc,
            frame_of(alloc, &self.names, fields_from(row, 1))?.as_slice(),
        )?;
        let mut out = Bytes::new(alloc);
        let done = self.door.step(frame.as_slice(), &mut self.port, &mut out);
        if word == b"ask".as_slice() {
            goes_well(done)?;
        } else if word == b"fail".as_slice() {
            fails(done)?;
        } else {
            return Err(Unlike::Verb);
        }
        Ok(out)
    }
}

// Memory was enough. Where the port has no answer left it isn't.
fn goes_well(done: Result<(), NoMemory>) -> Result<(), Unlike> {
    done.map_err(|_| Unlike::Reply)
}

// Memory ran out.
fn fails(done: Result<(), NoMemory>) -> Result<(), Unlike> {
    match done {
        Ok(()) => Err(Unlike::Reply),
        Err(NoMemory) => Ok(()),
    }
}

// Plays rows, each on what those before it left.
fn play_rows(
    alloc: Global,
    stage: &mut Stage,
    file: &str,
    rows: &[Row],
    report: &mut Report,
) -> anyhow::Result<()> {
    for row in rows {
        let played = stage.play(alloc, row);
        report_played(alloc, file, row, played, report)?;
    }
    Ok(())
}

/// Plays the rows of a file, and reports each.
pub(crate) fn play_doors(
    alloc: Global,
    file: &str,
    rows: &[Row],
    report: &mut Report,
) -> anyhow::Result<()> {
    let mut stage = Stage::new(alloc);
    play_rows(alloc, &mut stage, file, rows, report)
}
