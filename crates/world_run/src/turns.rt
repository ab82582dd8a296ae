// What the lines do that concern conversations.
use crate::found::{Found, either, find, spell, take};
use crate::run::Run;
use crate::stops::{BAD_LINE, Done};
use agent_turns::{Asks, Turn};
use world_scripts::Pieces;

/// The most bytes of a message in a request, and of an answer.
const MOST_GIVEN: usize = 4090;

const MOST_ANSWER: usize = 160;

impl Run {
    ghost use Rattle.std.specs.Prelude.{◌≡◌, ◌<◌, ◌^◌, length};
    ghost use Rattle.agent_turns.specs.Turning.{said_asks};
    ghost use Rattle.world_history.specs.Talking.{request_text};
    ghost use Rattle.world_scripts.specs.Lines as l;
    ghost use Rattle.world_run.specs.Standing.{Asked, AskedIt, Carries};

    // A conversation that was looked up is asked something.
    fn ask_it(&mut self, found: Found, conv: &[u8], what: Asks<'_>) -> Done
        requires { length (request_text (said_asks what)) < 2 ^ 31 }
        ensures carried { AskedIt found conv.now (said_asks what.entry) self.old result self.new }
        ensures recorded { self.new.recorded ≡ self.old.recorded }
    {
        let node = found.node.as_slice();
        let fid = found.fid;
        let turn = Turn::Ask { conv, fid, what };
        let turned = take(&mut self.nodes, &self.recorded, node, turn)?;
        self.talks.set_call(conv, either(turned.call, found.call));
        Ok(turned.steps)
    }

    // A conversation is asked something.
    fn ask(&mut self, conv: &[u8], what: Asks<'_>) -> Done
        requires { length (request_text (said_asks what)) < 2 ^ 31 }
        ensures carried { Asked conv.now (said_asks what.entry) self.old result self.new }
        ensures recorded { self.new.recorded ≡ self.old.recorded }
    {
        let found = find(&self.talks, conv)?;
        self.ask_it(found, conv, what)
    }

    /// It is asked to start.
    pub(crate) fn start(&mut self, conv: &[u8], word: [u8; 8], tuple: &[u8]) -> Done
        requires { length tuple.now < 2 ^ 30 }
        ensures carried { Carries (l.Start conv.now word tuple.now) self.old result self.new }
        ensures recorded { self.new.recorded ≡ self.old.recorded }
    {
        self.ask(conv, Asks::Start { word, tuple })
    }

    /// It is asked for a message.
    pub(crate) fn get(&mut self, conv: &[u8]) -> Done
        ensures carried { Carries (l.Read conv.now) self.old result self.new }
        ensures recorded { self.new.recorded ≡ self.old.recorded }
    {
        self.ask(conv, Asks::Get)
    }

    /// It is asked to take bytes.
    pub(crate) fn give(&mut self, conv: &[u8], pieces: Pieces<'_>) -> Done
        ensures carried { Carries (l.Write conv.now pieces.entry) self.old result self.new }
        ensures recorded { self.new.recorded ≡ self.old.recorded }
    {
        let found = find(&self.talks, conv)?;
        let given = spell(&self.recorded, pieces)?;
        if given.len() > MOST_GIVEN {
            return Err(BAD_LINE);
        }
        let bytes = given.as_slice();
        self.ask_it(found, conv, Asks::Give { bytes })
    }

    /// The authentication server's answer to its question.
    pub(crate) fn answer(&mut self, conv: &[u8], pieces: Pieces<'_>) -> Done
        ensures carried { Carries (l.Answer conv.now pieces.entry) self.old result self.new }
        ensures recorded { self.new.recorded ≡ self.old.recorded }
    {
        let found = find(&self.talks, conv)?;
        let given = spell(&self.recorded, pieces)?;
        let Some(call) = found.call else {
            return Err(BAD_LINE);
        };
        if given.len() > MOST_ANSWER {
            return Err(BAD_LINE);
        }
        let node = found.node.as_slice();
        let bytes = given.as_slice();
        let fid = found.fid;
        let turn = Turn::Hear {
            conv,
            fid,
            call,
            bytes,
        };
        let turned = take(&mut self.nodes, &self.recorded, node, turn)?;
        self.talks.set_call(conv, turned.call);
        Ok(turned.steps)
    }

    /// There is none.
    pub(crate) fn miss(&mut self, conv: &[u8]) -> Done
        ensures carried { Carries (l.NoAnswer conv.now) self.old result self.new }
        ensures recorded { self.new.recorded ≡ self.old.recorded }
    {
        let found = find(&self.talks, conv)?;
        let Some(call) = found.call else {
            return Err(BAD_LINE);
        };
        let node = found.node.as_slice();
        let fid = found.fid;
        let turn = Turn::Miss { conv, fid, call };
        let turned = take(&mut self.nodes, &self.recorded, node, turn)?;
        self.talks.set_call(conv, turned.call);
        Ok(turned.steps)
    }

    /// It is closed.
    pub(crate) fn close(&mut self, conv: &[u8]) -> Done
        ensures carried { Carries (l.Close conv.now) self.old result self.new }
        ensures recorded { self.new.recorded ≡ self.old.recorded }
    {
        let found = find(&self.talks, conv)?;
        let node = found.node.as_slice();
        let fid = found.fid;
        let turned = take(
            &mut self.nodes,
            &self.recorded,
            node,
            Turn::Close { conv, fid },
        )?;
        self.nodes.close(node, conv);
        self.talks.close(conv);
        Ok(turned.steps)
    }
}
