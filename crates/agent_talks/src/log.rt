// The lines of the log that follow on what conversations meet: that they start, and that they come to their end.
ghost use Rattle.std.specs.Prelude.{◌≡◌, ◌≤◌, ◌+◌, ◌∷◌, List, ℕ, None, Some, false, true, length, IfOk, IfSome, IsOk, OnErr, OnOk};
ghost use Rattle.side_files.specs.Calls as side;
ghost use Rattle.side_files.specs.Questions.{asker_of};
ghost use Rattle.talks.specs.Calls as c;
ghost use Rattle.talks.specs.Lines.{is_end};
ghost use Rattle.talks.specs.Standings.{outcome_of};
ghost use Rattle.conversations.specs.Shown.{has_request};
ghost use Rattle.conversations.specs.Asking.{template_begun};
ghost use Rattle.agent_history.specs.Deeds.{Deed, OfLog, is_debug};
ghost use Rattle.agent_history.specs.Conversations.{asker, standing_of};
ghost use Rattle.agent_history.specs.SideFiles.{prompts_of};
ghost use Rattle.agent_history.specs.Requests.{said_by};
ghost use Rattle.agent_talks.specs.Kept.{is_asked, questions_in, unasked};
ghost use Rattle.agent_talks.specs.Speaks.{IsReady, stands};
ghost use Rattle.agent_talks.specs.Asking.{Tells};
ghost use Rattle.agent_talks.specs.Ahead.{ShowsOf, new_template, start_by};
ghost use Rattle.agent_talks.specs.Logging.{AskerTold, CanEnd, EndTold, IsTold, Logs, SameLogs, asking_of, keeping_of, line_at, talks_in};

use crate::ahead::{build_waiting, is_over_at, outcome_at, read_start};
use crate::end_line::{EndLine, build_start};
use crate::ends::{keep_line, take_line};
use crate::standing::Conversations;
use attr_tuples::Tuple;
use key_ring::KeyRing;
use roles::Outcome;
use side_files::PromptKind;
use std::alloc::Global;
use talks::Asking;
use wire_base::{Bytes, NoMemory};

impl Conversations {
    // The line of the end of a conversation that is to start is made, and so is the line of its start, where that is to be
    // told.
    pub(crate) fn prepare(&mut self, alloc: Global, conv: u64) -> Result<Option<Bytes>, NoMemory>
        ensures start { IfOk result (λ start. (done : List Deed) → stands done conv ≡ true
            → Tells done (asking_of self.old)
            → start ≡ start_by (is_debug done) conv (outcome_of (standing_of done conv))
            (new_template (standing_of done conv))) }
        ensures can { OnOk result ((done : List Deed) → stands done conv ≡ true
            → Logs done self.old → CanEnd done self.new conv) }
        ensures others { (other : ℕ) → (conv ≡ other → ⊥)
            → line_at self.new other ≡ line_at self.old other }
        ensures same { SameLogs self.old self.new }
        ensures asking { asking_of self.new ≡ asking_of self.old }
    {
        let Some(template) = read_start(alloc, &self.talks, conv)? else {
            return Ok(None);
        };
        let start = self.build_new(alloc, conv, &template)?;
        let line = EndLine::new(alloc, conv, &template)?;
        keep_line(&mut self.ends, conv, line)?;
        Ok(start)
    }

    // The line of a start by a template, where further lines are wanted.
    fn build_new(
        &self,
        alloc: Global,
        conv: u64,
        template: &Tuple,
    ) -> Result<Option<Bytes>, NoMemory>
        ensures { IfOk result (λ start. (done : List Deed) → Tells done (asking_of self.now)
            → start ≡ start_by (is_debug done) conv None (Some template.now)) }
    {
        if self.files.is_debug() {
            return Ok(Some(build_start(alloc, conv, template)?));
        }
        Ok(None)
    }

    // The line of the start of a conversation that was begun, where it is to be told once it has started.
    pub(crate) fn build_begun(&self, alloc: Global, conv: u64) -> Result<Option<Bytes>, NoMemory>
        ensures { IfOk result (λ start. (done : List Deed) → stands done conv ≡ true
            → Tells done (asking_of self.now)
            → start ≡ start_by (is_debug done) conv (outcome_of (standing_of done conv))
            (template_begun (standing_of done conv).begun)) }
    {
        if !self.files.is_debug() {
            return Ok(None);
        }
        build_waiting(alloc, &self.talks, conv)
    }

    // Whether the conversation that asks, where one is meant, has come to its end.
    pub(crate) fn is_asker_over(&self, asker: Option<u64>) -> bool
        ensures { IfSome asker (λ conv. ShowsOf (talks_in self.now) conv
            (λ s. is_end (outcome_of s)) result) }
    {
        match asker {
            Some(conv) => is_over_at(&self.talks, conv),
            None => false,
        }
    }

    pub(crate) fn log_asker(&mut self, asker: Option<u64>, over: bool)
        ensures told { AskerTold asker over self.old self.new }
        ensures talks { keeping_of self.new ≡ keeping_of self.old }
    {
        if let Some(conv) = asker {
            self.log_talk(conv, over, None);
        }
    }

    // What became of a conversation that stands is written into the log: that it has started, where the line for that was
    // made, and its end, where it wasn't over. It takes no memory.
    pub(crate) fn log_talk(&mut self, conv: u64, over: bool, start: Option<Bytes>)
        ensures told { IsTold conv over start self.old self.new }
        ensures talks { keeping_of self.new ≡ keeping_of self.old }
    {
        let Some(outcome) = outcome_at(&self.talks, conv) else {
            return;
        };
        if let Some(line) = start {
            self.write(line);
        }
        if !over {
            self.log_end(conv, &outcome);
        }
    }

    // The end of a conversation is written into the log, where this outcome is one.
    fn log_end(&mut self, conv: u64, outcome: &Outcome)
        ensures told { EndTold conv outcome.now self.old self.new }
        ensures talks { keeping_of self.new ≡ keeping_of self.old }
    {
        if let Some(line) = take_line(&mut self.ends, conv, outcome) {
            self.write(line);
        }
    }

    // A line is written into the log, which loses its oldest line where it is full.
    fn write(&mut self, line: Bytes)
        ensures written { (done : List Deed) → Tells done (asking_of self.old)
            → Tells (OfLog (side.Pushed line) ∷ done) (asking_of self.new) }
        ensures talks { keeping_of self.new ≡ keeping_of self.old }
        ensures ends { self.new.ends ≡ self.old.ends }
    {
        self.files.push(line);
    }
}
