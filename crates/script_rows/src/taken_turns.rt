// Rows of what is done to one node, and the steps that are recorded of it.
ghost use Rattle.std.specs.Prelude.{◌<◌, ◌^◌, length};
ghost use Rattle.agent_turns.specs.Turning.{IsTurn, said_asks};
ghost use Rattle.world_history.specs.Talking.{request_text};

use crate::came::Came;
use crate::steps::word_at;
use crate::texts::{Texts, argument, number_at};
use agent_turns::{Agent, Asks, Turn, new_node, open_rpc, take_turn};
use anyhow::bail;
use row_files::{Report, Row};
use std::alloc::Global;
use wire_base::Bytes;
use wire_histories::{Step, print_step};

/// The fid of the conversation, and its name and the node's.
const FID: u32 = 2;

const CONV: &[u8] = b"c";

const NODE: &[u8] = b"a";

/// The most bytes of a line or a request, and of an answer of the authentication server.
const MOST_BYTES: usize = 8192;

const MOST_ANSWER: usize = 160;

/// A node, the texts of its rows, and the number of the last question.
#[derive(Drop)]
struct Played {
    agent: Agent,
    texts: Texts,
    call: Option<u64>,
}

// Puts the lines of steps.
fn put_lines(alloc: Global, steps: &[Step], out: &mut Bytes) -> anyhow::Result<()> {
    for step in steps {
        print_step(step, out)?;
    }
    Ok(())
}

impl Played {
    // Puts the lines of what is done, and whether there is a question, where that is wanted.
    fn turn(
        &mut self,
        rt: &HostRuntime,
        row: &Row,
        turn: Turn<'_>,
        came: &mut Came,
    ) -> anyhow::Result<()>
        requires { IsTurn turn }
    {
        let number = u32::try_from(number_at(row, 1)?)?;
        let turned = take_turn(rt.alloc(), &mut self.agent, number, turn)?;
        let mut lines = Bytes::new(rt.alloc());
        put_lines(rt.alloc(), &turned.steps, &mut lines)?;
        self.texts.put_came(rt, row, 0, lines.as_slice(), came)?;
        if row.wanted.len() > 1 {
            let field = if turned.call.is_some() {
                "question"
            } else {
                "none"
            };
            came.put(field.as_bytes())?;
        }
        self.call = turned.call;
        Ok(())
    }

    fn tell(
        &mut self,
        rt: &HostRuntime,
        row: &Row,
        line: &[u8],
        came: &mut Came,
    ) -> anyhow::Result<()> {
        if line.len() > MOST_BYTES {
            bail!("a line is too long");
        }
        self.turn(rt, row, Turn::Tell { node: NODE, line }, came)
    }

    fn ask(
        &mut self,
        rt: &HostRuntime,
        row: &Row,
        what: Asks<'_>,
        came: &mut Came,
    ) -> anyhow::Result<()>
        requires { length (request_text (said_asks what)) < 2 ^ 31 }
    {
        let turn = Turn::Ask {
            conv: CONV,
            fid: FID,
            what,
        };
        self.turn(rt, row, turn, came)
    }

    fn start(&mut self, rt: &HostRuntime, row: &Row, came: &mut Came) -> anyhow::Result<()> {
        let word = word_at(rt.alloc(), row, 2)?;
        let tuple = argument(row, 3)?;
        if tuple.len() > MOST_BYTES {
            bail!("a tuple is too long");
        }
        self.ask(rt, row, Asks::Start { word, tuple }, came)
    }

    fn give(
        &mut self,
        rt: &HostRuntime,
        row: &Row,
        bytes: &[u8],
        came: &mut Came,
    ) -> anyhow::Result<()> {
        if bytes.len() > MOST_BYTES {
            bail!("a message is too long");
        }
        self.ask(rt, row, Asks::Give { bytes }, came)
    }

    // The last question's number.
    fn last_call(&self) -> anyhow::Result<u64> {
        match self.call {
            Some(call) => Ok(call),
            None => bail!("no question"),
        }
    }

    fn hear(
        &mut self,
        rt: &HostRuntime,
        row: &Row,
        bytes: &[u8],
        came: &mut Came,
    ) -> anyhow::Result<()> {
        if bytes.len() > MOST_ANSWER {
            bail!("an answer is too long");
        }
        let call = self.last_call()?;
        let turn = Turn::Hear {
            conv: CONV,
            fid: FID,
            call,
            bytes,
        };
        self.turn(rt, row, turn, came)
    }

    fn miss(&mut self, rt: &HostRuntime, row: &Row, came: &mut Came) -> anyhow::Result<()> {
        let call = self.last_call()?;
        let turn = Turn::Miss {
            conv: CONV,
            fid: FID,
            call,
        };
        self.turn(rt, row, turn, came)
    }

    fn close(&mut self, rt: &HostRuntime, row: &Row, came: &mut Came) -> anyhow::Result<()> {
        let turn = Turn::Close {
            conv: CONV,
            fid: FID,
        };
        self.turn(rt, row, turn, came)
    }

    // Something that takes bytes, which a row's field stands for.
    fn take_bytes(&mut self, rt: &HostRuntime, row: &Row, came: &mut Came) -> anyhow::Result<()> {
        let bytes = self.texts.bytes_of(rt, argument(row, 2)?)?;
        match row.word() {
            b"tell" => self.tell(rt, row, bytes.as_slice(), came),
            b"give" => self.give(rt, row, bytes.as_slice(), came),
            b"hear" => self.hear(rt, row, bytes.as_slice(), came),
            _ => bail!("no such verb"),
        }
    }

    fn open(&mut self, rt: &HostRuntime, came: &mut Came) -> anyhow::Result<()> {
        came.put_yes(open_rpc(rt.alloc(), &mut self.agent, FID)?)
    }

    fn play(&mut self, rt: &HostRuntime, row: &Row, came: &mut Came) -> anyhow::Result<()> {
        match row.word() {
            b"hex" | b"text" | b"times" => self.texts.keep(rt, row),
            b"node" => {
                self.agent = new_node(rt.alloc())?;
                Ok(())
            }
            b"open" => self.open(rt, came),
            b"start" => self.start(rt, row, came),
            b"get" => self.ask(rt, row, Asks::Get, came),
            b"miss" => self.miss(rt, row, came),
            b"close" => self.close(rt, row, came),
            _ => self.take_bytes(rt, row, came),
        }
    }
}

/// Plays rows of what is done to a node.
pub(crate) fn play(
    rt: &HostRuntime,
    file: &str,
    rows: &[Row],
    report: &mut Report,
) -> anyhow::Result<()> {
    let mut played = Played {
        agent: new_node(rt.alloc())?,
        texts: Texts::new(rt.alloc()),
        call: None,
    };
    for row in rows {
        let mut came = Came::new(rt.alloc());
        let done = played.play(rt, row, &mut came);
        came.tell(file, row, done, report)?;
    }
    Ok(())
}
