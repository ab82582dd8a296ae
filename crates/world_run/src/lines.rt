// What the lines do that concern nodes and the tables of the authentication server.
ghost use Rattle.std.specs.Prelude.{◌≡◌, ◌∷◌, [], IfOk};

use crate::found::take;
use crate::run::Run;
use crate::stops::{BAD_LINE, Done, Stop, UNKNOWN_NODE};
use agent_turns::{Turn, new_node};
use std::alloc::Global;
use std::vec::Vec;
use wire_base::{Bytes, NoMemory};
use wire_histories::Step;
use world_scripts::ScriptLines;

/// The most nodes.
const MOST_NODES: usize = 64;

// A list of one step.
fn one_step(alloc: Global, step: Step) -> Result<Vec<Step>, NoMemory>
    ensures { IfOk result (λ steps. steps.items ≡ step ∷ []) }
{
    let mut steps = Vec::new(alloc);
    steps.push(step)?;
    Ok(steps)
}

impl Run {
    ghost use Rattle.std.specs.Prelude.{◌≡◌, ◌<◌, ◌^◌, length};
    ghost use Rattle.world_scripts.specs.Lines as l;
    ghost use Rattle.world_run.specs.Standing.{Carries, CarriesBefore};

    /// The domain of the authentication server.
    pub(crate) fn tell_domain(&mut self, dom: &[u8]) -> Done
        ensures carried { Carries (l.Dom dom.now) self.old result self.new }
        ensures recorded { self.new.recorded ≡ self.old.recorded }
    {
        if self.asked {
            return Err(BAD_LINE);
        }
        Ok(Vec::new(self.alloc))
    }

    /// A line of its table of keys.
    pub(crate) fn tell_key(&mut self, tuple: &[u8]) -> Done
        ensures carried { Carries (l.AsKey tuple.now) self.old result self.new }
        ensures recorded { self.new.recorded ≡ self.old.recorded }
    {
        if self.used {
            return Err(BAD_LINE);
        }
        if self.tables.refuses_key(self.keys) {
            return Err(BAD_LINE);
        }
        match self.keys.checked_add(1) {
            Some(more) => self.keys = more,
            None => return Err(Stop::NoMemory),
        }
        Ok(Vec::new(self.alloc))
    }

    /// A line of its table of who speaks for whom.
    pub(crate) fn tell_speak(&mut self, tuple: &[u8]) -> Done
        ensures carried { Carries (l.AsSpeak tuple.now) self.old result self.new }
        ensures recorded { self.new.recorded ≡ self.old.recorded }
    {
        if self.used {
            return Err(BAD_LINE);
        }
        if self.tables.refuses_speak(self.speaks) {
            return Err(BAD_LINE);
        }
        match self.speaks.checked_add(1) {
            Some(more) => self.speaks = more,
            None => return Err(Stop::NoMemory),
        }
        Ok(Vec::new(self.alloc))
    }

    /// Its tables are read again, as the lines that are left tell of them.
    pub(crate) fn reload(&mut self, left: &ScriptLines<'_>) -> Done
        ensures carried { CarriesBefore left.now l.Reload self.old result self.new }
        ensures recorded { self.new.recorded ≡ self.old.recorded }
    {
        let steps = one_step(self.alloc, Step::Reload)?;
        self.tables.read_again(self.alloc, left)?;
        self.keys = 0;
        self.speaks = 0;
        self.used = false;
        Ok(steps)
    }

    /// A node is made.
    pub(crate) fn make(&mut self, node: &[u8]) -> Done
        ensures carried { Carries (l.Node node.now) self.old result self.new }
        ensures recorded { self.new.recorded ≡ self.old.recorded }
    {
        if self.nodes.has(node) {
            return Err(BAD_LINE);
        }
        if self.made >= MOST_NODES {
            return Err(BAD_LINE);
        }
        self.nodes.make(node, new_node(self.alloc)?)?;
        self.made += 1;
        Ok(Vec::new(self.alloc))
    }

    /// Its agent is made anew.
    pub(crate) fn restart(&mut self, node: &[u8]) -> Done
        ensures carried { Carries (l.Restart node.now) self.old result self.new }
        ensures recorded { self.new.recorded ≡ self.old.recorded }
    {
        if !self.nodes.has(node) {
            return Err(UNKNOWN_NODE);
        }
        let step = Step::Restart {
            node: Bytes::from_slice(self.alloc, node)?,
        };
        let steps = one_step(self.alloc, step)?;
        self.nodes.restart(node, new_node(self.alloc)?);
        self.talks.leave(node);
        Ok(steps)
    }

    /// A line is written to ctl.
    pub(crate) fn tell(&mut self, node: &[u8], line: &[u8]) -> Done
        requires { length line.now < 2 ^ 31 }
        ensures carried { Carries (l.Ctl node.now line.now) self.old result self.new }
        ensures recorded { self.new.recorded ≡ self.old.recorded }
    {
        if !self.nodes.has(node) {
            return Err(UNKNOWN_NODE);
        }
        let turn = Turn::Tell { node, line };
        let turned = take(&mut self.nodes, &self.recorded, node, turn)?;
        Ok(turned.steps)
    }

    /// rpc is opened.
    pub(crate) fn open(&mut self, node: &[u8], conv: &[u8]) -> Done
        ensures carried { Carries (l.Open node.now conv.now) self.old result self.new }
        ensures recorded { self.new.recorded ≡ self.old.recorded }
    {
        if !self.nodes.has(node) {
            return Err(UNKNOWN_NODE);
        }
        if self.talks.was_opened(conv) {
            return Err(BAD_LINE);
        }
        match self.nodes.open(node, conv)? {
            Some(fid) => {
                self.talks.open(conv, node, fid)?;
                Ok(Vec::new(self.alloc))
            }
            None => Err(BAD_LINE),
        }
    }
}
