// The questions to users, and the log.
ghost use Rattle.std.specs.Prelude.{◌≡◌, ◌∷◌, [], List, ℕ, Some, None, IfOk, IfErr};
ghost use Rattle.side_files.specs.Calls as side;
ghost use Rattle.side_files.specs.Lines.{Hands, found, if_handed};
ghost use Rattle.side_files.specs.Questions.{asked_by, asker_of, first_conv, next_line, standing};
ghost use Rattle.side_files.specs.declared.line.PromptKind.TheVariants as k;
ghost use Rattle.conversations.specs.Asking.{IsMade};
ghost use Rattle.agent_history.specs.Deeds.{Deed, OfKeys, OfLog, OfPrompts, Switched, is_debug};
ghost use Rattle.agent_history.specs.Conversations.{all_withdrawn};
ghost use Rattle.agent_history.specs.SideFiles.{line_read, lines_in, prompts_of};
ghost use Rattle.agent_talks.specs.Asking.{convs_leaving};
ghost use Rattle.agent_talks.specs.Files.{Files, asked_in};

use crate::speaker::{Leaving, Speaker, leaves};
use conversations::Asks;
use file_tree::Node;
use side_files::{LogRing, PromptKind, Prompts, TooSmall, UnknownTag};
use std::alloc::Global;
use wire_base::{Bytes, NoMemory};

/// The questions to users, by the files confirm and needkey, and the lines of the log; and whether further lines of the log
/// are wanted.
#[derive(Drop)]
pub struct LineFiles {
    pub asks: Asks,
    pub log: LogRing,
    pub debug: bool,
}

impl LineFiles {
    /// No questions, and no lines.
    pub fn new(alloc: Global) -> Result<LineFiles, NoMemory>
        ensures { IfOk result (λ files. Files [] files) }
    {
        Ok(LineFiles {
            asks: Asks::new(alloc),
            log: LogRing::new(alloc)?,
            debug: false,
        })
    }

    // ---- questions

    /// A conversation asks the question that was made, where one was. It takes no memory.
    pub fn ask(&mut self, kind: PromptKind, conv: u64)
        ensures { (done : List Deed) (about : List ℕ)
            → IsMade (asked_in kind self.old.asks) about → Files done self.old
            → Files (OfPrompts kind (side.Asked conv about) ∷ done) self.new }
    {
        match kind {
            PromptKind::Confirm => ask_ready(&mut self.asks.confirm, conv),
            PromptKind::Needkey => ask_ready(&mut self.asks.needkey, conv),
        }
    }

    /// The conversation that waits for the reply to the question of a tag, where one does. It takes no memory.
    pub fn asker(&self, kind: PromptKind, tag: u64) -> Option<u64>
        ensures { (done : List Deed) → Files done self.now
            → result ≡ asker_of tag (prompts_of done kind) }
    {
        match kind {
            PromptKind::Confirm => self.asks.confirm.asker(tag),
            PromptKind::Needkey => self.asks.needkey.asker(tag),
        }
    }

    /// The question of a tag is replied to, and forgotten. The answer is the conversation that asked it. It takes no memory.
    pub fn reply(&mut self, kind: PromptKind, tag: u64) -> Result<u64, UnknownTag>
        ensures known { IfOk result (λ conv. (done : List Deed) → Files done self.old
            → asker_of tag (prompts_of done kind) ≡ Some conv) }
        ensures unknown { IfErr result (λ _. (done : List Deed) → Files done self.old
            → asker_of tag (prompts_of done kind) ≡ None) }
        ensures replied { (done : List Deed) → Files done self.old
            → Files (OfPrompts kind (side.Replied tag) ∷ done) self.new }
    {
        match kind {
            PromptKind::Confirm => self.asks.confirm.reply(tag),
            PromptKind::Needkey => self.asks.needkey.reply(tag),
        }
    }

    /// The questions of a conversation by one of the files are withdrawn. It takes no memory.
    pub fn withdraw(&mut self, kind: PromptKind, conv: u64)
        ensures { (done : List Deed) → Files done self.old
            → Files (OfPrompts kind (side.Withdrawn conv) ∷ done) self.new }
    {
        match kind {
            PromptKind::Confirm => self.asks.confirm.withdraw(conv),
            PromptKind::Needkey => self.asks.needkey.withdraw(conv),
        }
    }

    /// The conversation whose question by one of the files is the oldest. It takes no memory.
    pub fn first_asker(&self, kind: PromptKind) -> Option<u64>
        ensures { (done : List Deed) → Files done self.now
            → result ≡ first_conv (standing (prompts_of done kind)) }
    {
        match kind {
            PromptKind::Confirm => self.asks.confirm.first_asker(),
            PromptKind::Needkey => self.asks.needkey.first_asker(),
        }
    }

    // ---- lines

    /// The first line of a file of lines is handed out, where it has at most so many bytes. None: there is none. It takes no
    /// memory.
    pub fn hand_out(&mut self, node: Node, count: u32) -> Result<Option<Bytes>, TooSmall>
        ensures answer { (done : List Deed) → Files done self.old
            → Hands (found count (lines_in done node)) result }
        ensures read { (done : List Deed) → Files done self.old
            → Files (if_handed result (line_read node done) done) self.new }
    {
        match node {
            Node::Confirm => self.asks.confirm.hand_out(count),
            Node::Needkey => self.asks.needkey.hand_out(count),
            Node::Log => self.log.hand_out(count),
            Node::Root | Node::Factotum | Node::Rpc | Node::Ctl | Node::Proto => Ok(None),
        }
    }

    /// A line with its newline is written into the log, which loses its oldest line where it is full. It takes no memory.
    pub fn push(&mut self, line: Bytes)
        ensures { (done : List Deed) → Files done self.old
            → Files (OfLog (side.Pushed line) ∷ done) self.new }
    {
        self.log.push(line);
    }

    /// Whether further lines of the log are wanted.
    pub fn is_debug(&self) -> bool
        ensures { (done : List Deed) → Files done self.now → result ≡ is_debug done }
    {
        self.debug
    }

    /// A line of ctl switches the further lines of the log on or off.
    pub fn switch(&mut self)
        ensures { (done : List Deed) (conn : ℕ) → Files done self.old
            → Files (OfKeys conn Switched ∷ done) self.new }
    {
        self.debug = !self.debug;
    }
}

fn ask_ready(prompts: &mut Prompts, conv: u64)
    ensures { (about : List ℕ) → IsMade prompts.old about
        → prompts.new ≡ asked_by conv (next_line prompts.old about) prompts.old }
{
    if prompts.is_ready() {
        prompts.ask_reserved(conv);
    }
}

/// The questions of those who leave are withdrawn. It takes no memory.
pub(crate) fn withdraw_all(files: &mut LineFiles, speakers: &[Speaker], leaving: Leaving)
    ensures { (done : List Deed) → Files done files.old
        → Files (all_withdrawn (convs_leaving leaving speakers.now) done) files.new }
{
    for speaker in speakers {
        if leaves(leaving, speaker) {
            files.withdraw(PromptKind::Confirm, speaker.conv);
            files.withdraw(PromptKind::Needkey, speaker.conv);
        }
    }
}
