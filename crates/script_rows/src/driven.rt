// Rows of a new node that is driven by events.
ghost use Rattle.std.specs.Prelude.{IfOk};
ghost use Rattle.agent_core.specs.Events.{IsEvent};

use crate::came::Came;
use crate::texts::{Texts, argument};
use agent_history::Event;
use agent_turns::{
    Agent, CTL, Driven, clunks, content_in, drive, error_in, is_refused, new_node, open_rpc, reads,
    writes,
};
use anyhow::bail;
use row_files::{Report, Row};
use std::alloc::Global;
use wire_base::Bytes;

/// The most bytes of a write.
const MOST_BYTES: usize = 8192;

/// The random word of a read.
const WORD: [u8; 8] = [7; 8];

// The fid that a field says: `ctl` for that of ctl, or a number.
fn fid_at(row: &Row, at: usize) -> anyhow::Result<u32> {
    if row.field(at) == Some(b"ctl".as_slice()) {
        return Ok(CTL);
    }
    match row.number(at) {
        Some(fid) => Ok(u32::try_from(fid)?),
        None => bail!("a fid is missing"),
    }
}

// A write of a text by a fid.
fn writing(alloc: Global, fid: u32, text: Bytes) -> anyhow::Result<Event>
    ensures { IfOk result (λ event. IsEvent event) }
{
    if text.len() > MOST_BYTES {
        bail!("a write is too long");
    }
    Ok(writes(alloc, fid, text)?)
}

fn first_reply(driven: &Driven) -> anyhow::Result<&[u8]> {
    match driven.replies.as_slice().first() {
        Some(reply) => Ok(reply.as_slice()),
        None => bail!("no reply"),
    }
}

// Puts how many replies and questions there were.
fn put_counts(driven: &Driven, came: &mut Came) -> anyhow::Result<()> {
    came.put_number(driven.replies.len() as u64)?;
    came.put_number(driven.questions.len() as u64)
}

// Puts whether it was refused, the counts, and the first reply.
fn put_frame(driven: &Driven, came: &mut Came) -> anyhow::Result<()> {
    came.put_yes(is_refused(driven.replies.as_slice()))?;
    put_counts(driven, came)?;
    Ok(came.put(first_reply(driven)?)?)
}

// Puts what the first reply tells: the content of a read, or the text of an error.
fn put_told(driven: &Driven, came: &mut Came) -> anyhow::Result<()> {
    let reply = first_reply(driven)?;
    match (content_in(reply), error_in(reply)) {
        (Some(content), None) => {
            came.put(b"content")?;
            Ok(came.put(content)?)
        }
        (None, Some(text)) => {
            came.put(b"error")?;
            Ok(came.put(text)?)
        }
        _ => bail!("neither a content nor an error"),
    }
}

// The bytes of the first question.
fn first_question(driven: &Driven) -> anyhow::Result<&[u8]> {
    match driven.questions.as_slice().first() {
        Some(question) => Ok(question.bytes.as_slice()),
        None => bail!("no question"),
    }
}

// Puts what a row's verb compares.
fn put_driven(
    row: &Row,
    driven: &Driven,
    texts: &Texts,
    rt: &HostRuntime,
    came: &mut Came,
) -> anyhow::Result<()> {
    match row.word() {
        b"do" => Ok(()),
        b"frame" => put_frame(driven, came),
        b"told" => put_told(driven, came),
        b"asked" => {
            put_counts(driven, came)?;
            texts.put_came(rt, row, 2, first_question(driven)?, came)
        }
        _ => bail!("no such verb"),
    }
}

/// A node, and the texts of its rows.
#[derive(Drop)]
struct Driving {
    agent: Agent,
    texts: Texts,
}

impl Driving {
    // The event that a row's fields from the second on say: `write FID BYTES`, `read FID` or `clunk FID`.
    fn event_of(&self, rt: &HostRuntime, row: &Row) -> anyhow::Result<Event>
        ensures { IfOk result (λ event. IsEvent event) }
    {
        let fid = fid_at(row, 2)?;
        match argument(row, 1)? {
            b"write" => {
                let text = self.texts.bytes_of(rt, argument(row, 3)?)?;
                writing(rt.alloc(), fid, text)
            }
            b"read" => Ok(reads(rt.alloc(), fid, WORD)?),
            b"clunk" => Ok(clunks(rt.alloc(), fid)?),
            _ => bail!("no such event"),
        }
    }

    // An event happens.
    fn drive(&mut self, rt: &HostRuntime, row: &Row, came: &mut Came) -> anyhow::Result<()> {
        let event = self.event_of(rt, row)?;
        let driven = drive(rt.alloc(), &mut self.agent, &event)?;
        put_driven(row, &driven, &self.texts, rt, came)
    }

    fn play(&mut self, rt: &HostRuntime, row: &Row, came: &mut Came) -> anyhow::Result<()> {
        match row.word() {
            b"text" => self.texts.keep(rt, row),
            b"node" => {
                self.agent = new_node(rt.alloc())?;
                Ok(())
            }
            b"open" => came.put_yes(open_rpc(rt.alloc(), &mut self.agent, fid_at(row, 1)?)?),
            _ => self.drive(rt, row, came),
        }
    }
}

/// Plays rows of a node.
pub(crate) fn play(
    rt: &HostRuntime,
    file: &str,
    rows: &[Row],
    report: &mut Report,
) -> anyhow::Result<()> {
    let mut driving = Driving {
        agent: new_node(rt.alloc())?,
        texts: Texts::new(rt.alloc()),
    };
    for row in rows {
        let mut came = Came::new(rt.alloc());
        let played = driving.play(rt, row, &mut came);
        came.tell(file, row, played, report)?;
    }
    Ok(())
}
