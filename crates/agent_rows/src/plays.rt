// How the rows of a file are played, one behind the other.
use crate::asks::{NO_WORD, play_request};
use crate::frames::frame_of;
use crate::moves::{ask_for, look_at_key, look_at_outcome, play_event, serve};
use crate::named::Names;
use crate::pairs::Pair;
use crate::requests::read_reply;
use crate::served::Server;
use crate::unlike::Unlike;
use crate::verbs::{Verb, agent_of, fid_of, fields_from, tag_of_wait, verb_of, wants_nothing};
use anyhow::bail;
use row_files::{Report, Row};
use std::alloc::Global;
use wire_base::{Bytes, get_u64};

/// What came of a row.
#[derive(Drop)]
pub(crate) enum Played {
    /// It leads to the rows behind it, and is no case.
    Prepared,
    AsWanted,
    Otherwise(Bytes),
}

// What the rows of a file are played with.
#[derive(Drop)]
struct Stage {
    pair: Pair,
    server: Server,
    names: Names,
    word: [u8; 8],
}

impl Stage {
    fn new(alloc: Global) -> anyhow::Result<Stage> {
        Ok(Stage {
            pair: Pair::new(alloc)?,
            server: Server::new(alloc)?,
            names: Names::new(alloc),
            word: NO_WORD,
        })
    }

    // Plays a row.
    fn play(&mut self, alloc: Global, row: &Row) -> Result<Played, Unlike> {
        let word = row.word();
        if word == b"session".as_slice() {
            self.pair = Pair::new(alloc)?;
        } else if word == b"name".as_slice() {
            self.define(alloc, row)?;
        } else if word == b"word".as_slice() {
            self.draw(alloc, row)?;
        } else {
            return self.play_step(alloc, row);
        }
        Ok(Played::Prepared)
    }

    // Gives bytes a name.
    fn define(&mut self, alloc: Global, row: &Row) -> Result<(), Unlike> {
        let name = row.field(1).ok_or(Unlike::Field)?;
        self.names.define(alloc, name, fields_from(row, 2))
    }

    // The word of the next row.
    fn draw(&mut self, alloc: Global, row: &Row) -> Result<(), Unlike> {
        let text = self.names.text(alloc, fields_from(row, 1))?;
        match get_u64(text.as_slice(), 0) {
            Some(word) if text.len() == 8 => self.word = word.to_le_bytes(),
            _ => return Err(Unlike::Field),
        }
        Ok(())
    }

    // Plays a row that is a case.
    fn play_step(&mut self, alloc: Global, row: &Row) -> Result<Played, Unlike> {
        let verb = verb_of(row)?;
        let wanted = self.wanted(alloc, verb, row)?;
        let came = self.carry_out(alloc, verb, row)?;
        if came.as_slice() == wanted.as_slice() {
            Ok(Played::AsWanted)
        } else {
            Ok(Played::Otherwise(came))
        }
    }

    // The reply to a read that the row wants.
    fn wanted_of_read(&self, alloc: Global, tag: u16, row: &Row) -> Result<Bytes, Unlike> {
        let text = self.names.text(alloc, row.wanted.as_slice())?;
        read_reply(alloc, tag, text.as_slice())
    }

    // What has to come.
    fn wanted(&self, alloc: Global, verb: Verb, row: &Row) -> Result<Bytes, Unlike> {
        match verb {
            Verb::Read | Verb::Rpc => self.wanted_of_read(alloc, 1, row),
            Verb::Told => self.wanted_of_read(alloc, tag_of_wait(fid_of(row)?)?, row),
            _ if wants_nothing(row) => Ok(Bytes::new(alloc)),
            Verb::Ask | Verb::Take => frame_of(alloc, &self.names, row.wanted.as_slice()),
            _ => self.names.text(alloc, row.wanted.as_slice()),
        }
    }

    // What comes.
    fn carry_out(&mut self, alloc: Global, verb: Verb, row: &Row) -> Result<Bytes, Unlike> {
        let word = std::mem::replace(&mut self.word, NO_WORD);
        let names = &self.names;
        let agent = self.pair.agent(agent_of(row)?);
        match verb {
            Verb::Question => ask_for(alloc, agent, row),
            Verb::Serve => serve(alloc, agent, &mut self.server, names, row),
            Verb::Outcome => look_at_outcome(alloc, agent, row),
            Verb::Chosen => look_at_key(alloc, agent, row),
            Verb::Answer
            | Verb::Unanswered
            | Verb::Roomless
            | Verb::Dropped
            | Verb::Hang
            | Verb::Gone
            | Verb::Stop
            | Verb::Stopped => {
                play_event(alloc, agent, names, verb, row)?;
                Ok(Bytes::new(alloc))
            }
            _ => play_request(alloc, agent, names, word, verb, row),
        }
    }
}

/// Reports what came of a row.
pub(crate) fn report_played(
    alloc: Global,
    file: &str,
    row: &Row,
    played: Result<Played, Unlike>,
    report: &mut Report,
) -> anyhow::Result<()> {
    match played {
        Ok(Played::Prepared) => {}
        Ok(Played::AsWanted) => report.compare(alloc, file, row, row.wanted.as_slice())?,
        Ok(Played::Otherwise(came)) => report.compare(alloc, file, row, &[came])?,
        Err(Unlike::NoMemory) => bail!("out of memory"),
        Err(unlike) => report.refuse(alloc, file, row, unlike.text())?,
    }
    Ok(())
}

// Plays rows, each on what those before it left.
fn play_rows(
    alloc: Global,
    stage: &mut Stage,
    file: &str,
    rows: &[Row],
    report: &mut Report,
) -> anyhow::Result<()> {
    for row in rows {
        let played = stage.play(alloc, row);
        report_played(alloc, file, row, played, report)?;
    }
    Ok(())
}

/// Plays the rows of a file, and reports each.
pub(crate) fn play(
    alloc: Global,
    file: &str,
    rows: &[Row],
    report: &mut Report,
) -> anyhow::Result<()> {
    let mut stage = Stage::new(alloc)?;
    play_rows(alloc, &mut stage, file, rows, report)
}
