// What conversations meet from their speakers and their users: requests, reads, and replies to questions.
ghost use Rattle.std.specs.Prelude.{◌≡◌, ◌∷◌, List, ℕ, Option, Some, true, IfSome, OnErr, OnOk};
ghost use Rattle.talks.specs.Requests.{meant};
ghost use Rattle.talks.specs.Calls as c;
ghost use Rattle.side_files.specs.Calls as side;
ghost use Rattle.side_files.specs.Lines.{Hands, found, if_handed};
ghost use Rattle.side_files.specs.Questions.{asker_of};
ghost use Rattle.conversations.specs.Asking.{SameAsks, asked_kind};
ghost use Rattle.agent_history.specs.Deeds.{Deed, OfKeys, OfPrompts, OfTalk, Switched};
ghost use Rattle.agent_history.specs.Conversations.{standing_of};
ghost use Rattle.agent_history.specs.Requests.{said_by};
ghost use Rattle.agent_history.specs.SideFiles.{line_read, lines_in, prompts_of};
ghost use Rattle.agent_talks.specs.Speaks.{IsReady, Readied, Speak, stands, talked};
ghost use Rattle.agent_talks.specs.Tells.{IsShort, TellsBy};
ghost use Rattle.agent_talks.specs.Asking.{AsksBy, is_asker};
ghost use Rattle.agent_talks.specs.Logging.{Logs, SameLogs, calls_in, carried_logged, keeping_of, logged_talk, talks_in};

use crate::Told;
use crate::ahead::is_over_at;
use crate::files::LineFiles;
use crate::held::Talks;
use crate::server::end_if_over;
use crate::standing::Conversations;
use conversations::Asks;
use file_tree::Node;
use key_ring::KeyRing;
use side_files::{PromptKind, TooSmall};
use std::alloc::Global;
use talks::{Asking, Request};
use wire_base::{Bytes, NoMemory};

// ---- requests

impl Conversations {
    /// A request is written on a conversation that stands, which a copy is kept of.
    pub fn store(&mut self, alloc: Global, conv: u64, request: Request<'_>) -> Result<(), NoMemory>
        ensures kept { OnOk result ((done : List Deed) → stands done conv ≡ true
            → Logs done self.old
            → Logs (OfTalk conv (c.Stored (meant request.entry)) ∷ done) self.new) }
        ensures same { OnErr result (SameLogs self.old self.new) }
    {
        self.talks.store(alloc, conv, request)
    }

    /// The request of a conversation that stands is carried out, by a read for which this word was drawn; what it needs is
    /// searched for among the keys of a ring, where these files are open; its user is asked where that comes to it; a
    /// question for the authentication server that this wants is raised; and its start and its end are written into the
    /// log. Where no request is there, nothing is done.
    pub fn carry_out(
        &mut self,
        alloc: Global,
        conv: u64,
        word: [u8; 8],
        ring: &KeyRing,
        asking: Asking,
    ) -> Result<(), NoMemory>
        ensures kept { OnOk result ((done : List Deed) → IsReady done conv ring.now asking
            → Logs done self.old → Logs (carried_logged conv word done) self.new) }
        ensures same { OnErr result (SameLogs self.old self.new) }
    {
        if !self.talks.has_request(conv) {
            return Ok(());
        }
        let start = self.prepare(alloc, conv)?;
        let over = is_over_at(&self.talks, conv);
        let behind = self.talks.raised();
        let asks = &mut self.files.asks;
        self.talks.carry_out(alloc, conv, word, ring, asking, asks)?;
        end_if_over(&self.talks, &mut self.calls, conv, behind);
        ask(&self.talks, &mut self.files, conv);
        self.log_talk(conv, over, start);
        Ok(())
    }

    /// A read that may hold so many bytes is told the answer of a conversation that stands, if one is there: the answer
    /// is handed out, or it is kept, where it doesn't fit. It takes no memory.
    pub fn tell(&mut self, conv: u64, count: u32) -> Option<Told>
        ensures tells { (done : List Deed) → stands done conv ≡ true → Logs done self.old
            → TellsBy (λ d. Logs d self.new) (standing_of done conv).phase
            done conv count result }
        ensures short { IfSome result (IsShort count) }
        ensures questions { (talks_in self.new).questions ≡ (talks_in self.old).questions }
        ensures drops { calls_in self.new ≡ calls_in self.old }
    {
        self.talks.tell(conv, count)
    }
}

// ---- their users

impl Conversations {
    /// The user of a conversation replies to the question of a tag: what follows is as behind a request that is carried
    /// out.
    pub fn reply(
        &mut self,
        alloc: Global,
        kind: PromptKind,
        tag: u64,
        conv: u64,
        agrees: bool,
        ring: &KeyRing,
        asking: Asking,
    ) -> Result<(), NoMemory>
        ensures kept { OnOk result ((done : List Deed)
            → asker_of tag (prompts_of done kind) ≡ Some conv → IsReady done conv ring.now asking
            → Logs done self.old → Logs (logged_talk conv (said_by kind agrees)
            (OfPrompts kind (side.Replied tag) ∷ done)) self.new) }
        ensures same { OnErr result (SameLogs self.old self.new) }
    {
        let start = self.build_begun(alloc, conv)?;
        let over = is_over_at(&self.talks, conv);
        let behind = self.talks.raised();
        let asks = &mut self.files.asks;
        resume(
            &mut self.talks,
            asks,
            alloc,
            kind,
            conv,
            agrees,
            ring,
            asking,
        )?;
        end_if_over(&self.talks, &mut self.calls, conv, behind);
        ask(&self.talks, &mut self.files, conv);
        let _ = self.files.reply(kind, tag);
        self.log_talk(conv, over, start);
        Ok(())
    }

    /// The file by which the user of a conversation was asked is closed: its question is withdrawn, and the request that
    /// waits for the reply is refused. It takes no memory.
    pub fn shut(&mut self, kind: PromptKind, conv: u64)
        ensures shut { (done : List Deed) → is_asker done kind conv ≡ true → Logs done self.old
            → Logs (OfTalk conv c.Shut ∷ OfPrompts kind (side.Withdrawn conv) ∷ done) self.new }
        ensures questions { (talks_in self.new).questions ≡ (talks_in self.old).questions }
    {
        let behind = self.talks.raised();
        self.files.withdraw(kind, conv);
        self.talks.shut(conv);
        end_if_over(&self.talks, &mut self.calls, conv, behind);
    }

    /// The first line of a file of lines is handed out, where it has at most so many bytes. None: there is none. It takes no
    /// memory.
    pub fn hand_out_line(&mut self, node: Node, count: u32) -> Result<Option<Bytes>, TooSmall>
        ensures answer { (done : List Deed) → Logs done self.old
            → Hands (found count (lines_in done node)) result }
        ensures read { (done : List Deed) → Logs done self.old
            → Logs (if_handed result (line_read node done) done) self.new }
        ensures talks { keeping_of self.new ≡ keeping_of self.old }
    {
        self.files.hand_out(node, count)
    }

    /// A line of ctl switches the further lines of the log on or off.
    pub fn switch(&mut self)
        ensures switched { (done : List Deed) (conn : ℕ) → Logs done self.old
            → Logs (OfKeys conn Switched ∷ done) self.new }
        ensures talks { keeping_of self.new ≡ keeping_of self.old }
    {
        self.files.switch();
    }
}

// A conversation goes on behind a reply.
fn resume(
    talks: &mut Talks,
    asks: &mut Asks,
    alloc: Global,
    kind: PromptKind,
    conv: u64,
    agrees: bool,
    ring: &KeyRing,
    asking: Asking,
) -> Result<(), NoMemory>
    ensures kept { OnOk result ((done : List Deed) → IsReady done conv ring.now asking
        → Speak done talks.old → asked_kind (standing_of done conv).phase ≡ Some kind
        → Speak (talked conv (said_by kind agrees) done) talks.new) }
    ensures ready { OnOk result ((done : List Deed) → IsReady done conv ring.now asking
        → Speak done talks.old → asked_kind (standing_of done conv).phase ≡ Some kind
        → Readied done conv (said_by kind agrees) asking ring.now asks.new) }
    ensures asks { SameAsks asks.old asks.new }
    ensures back { OnErr result ((done : List Deed) → Speak done talks.old
        → Speak done talks.new) }
{
    match kind {
        PromptKind::Confirm => talks.consented(alloc, conv, agrees, ring, asking, asks),
        PromptKind::Needkey => talks.key_told(alloc, conv, ring, asking, asks),
    }
}

// The user of a conversation is asked, where he is to be.
fn ask(talks: &Talks, files: &mut LineFiles, conv: u64)
    ensures { (done : List Deed) → stands done conv ≡ true → Speak done talks.now
        → AsksBy (asked_kind (standing_of done conv).phase) conv files.old files.new }
{
    if let Some(kind) = find_kind(talks, conv) {
        files.ask(kind, conv);
    }
}

// By which file the user of a conversation is to be asked.
fn find_kind(talks: &Talks, conv: u64) -> Option<PromptKind>
    ensures { (done : List Deed) → stands done conv ≡ true → Speak done talks.now
        → result ≡ asked_kind (standing_of done conv).phase }
{
    match talks.conversation(conv) {
        Some(conversation) => conversation.asks(),
        None => None,
    }
}
