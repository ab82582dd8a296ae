// The conversations of an agent, with all that is kept of them: they are opened, and end.
ghost use Rattle.std.specs.Prelude.{◌≡◌, ◌∷◌, [], List, ℕ, Option, Some, true, IfOk, IfNone, IfSome, OnErr, OnOk};
ghost use Rattle.file_tree.specs.declared.tree.Node.TheVariants.{Rpc};
ghost use Rattle.side_files.specs.Questions.{asker_of, first_conv, standing};
ghost use Rattle.agent_history.specs.Deeds.{Deed, OfFids, Opened, fid_of, names};
ghost use Rattle.agent_history.specs.SideFiles.{askers, prompts_of};
ghost use Rattle.agent_talks.specs.Speaks.{stands};
ghost use Rattle.agent_talks.specs.Asking.{ended, is_asker};
ghost use Rattle.agent_talks.specs.Ending.{leaving_of};
ghost use Rattle.agent_talks.specs.Logging.{Logs, SameLogs};

use crate::ends::{EndLines, drop_lines};
use crate::files::{LineFiles, withdraw_all};
use crate::held::Talks;
use crate::kept::KeptCalls;
use crate::speaker::Leaving;
use side_files::PromptKind;
use std::alloc::Global;
use std::collections::BTreeMap;
use wire_base::NoMemory;

/// The conversations of an agent that stand, with their questions for the authentication server, the connections to it that
/// they keep or gave up, the questions to their users, and the log, into which is written what becomes of them. The lines of
/// their ends are made at their starts, so that an end is told without memory. It has no Debug, which would print secrets.
#[derive(Drop)]
pub struct Conversations {
    pub talks: Talks,
    pub calls: KeptCalls,
    pub files: LineFiles,
    pub(crate) ends: EndLines,
}

impl Conversations {
    /// No conversations, no questions, and no lines.
    pub fn new(alloc: Global) -> Result<Conversations, NoMemory>
        ensures { IfOk result (λ talks. Logs [] talks) }
    {
        Ok(Conversations {
            talks: Talks::new(alloc),
            calls: KeptCalls::new(alloc),
            files: LineFiles::new(alloc)?,
            ends: BTreeMap::new(alloc),
        })
    }

    /// A fid of a connection that names rpc was opened: it has a conversation from now on, under the next number.
    pub fn open(&mut self, alloc: Global, conn: u64, fid: u32) -> Result<(), NoMemory>
        ensures opened { OnOk result ((done : List Deed) (mode : ℕ)
            → names Rpc (fid_of done conn fid) ≡ true → Logs done self.old
            → Logs (OfFids conn (Opened fid mode) ∷ done) self.new) }
        ensures same { OnErr result (SameLogs self.old self.new) }
    {
        self.talks.open(alloc, conn, fid)
    }

    /// A fid is given up, or a version of a connection is answered, or it is hung up: the questions of their conversations to
    /// their users are withdrawn, and they end, and give up the connections that they keep. It takes no memory.
    pub fn end(&mut self, leaving: Leaving)
        ensures { (done : List Deed) (deed : Deed) → leaving_of deed ≡ Some leaving
            → Logs done self.old → Logs (ended deed done) self.new }
    {
        let leavers = self.talks.leavers(leaving);
        let behind = self.talks.raised();
        drop_lines(&mut self.ends, leavers, leaving);
        withdraw_all(&mut self.files, leavers, leaving);
        self.calls.leave(leavers, leaving, behind);
        self.talks.end(leaving);
    }

    /// The conversation that waits for the reply to the question of a tag, where one does. It takes no memory.
    pub fn asker(&self, kind: PromptKind, tag: u64) -> Option<u64>
        ensures asker { (done : List Deed) → Logs done self.now
            → result ≡ asker_of tag (prompts_of done kind) }
        ensures stands { IfSome result (λ conv. (done : List Deed) → Logs done self.now
            → stands done conv ≡ true) }
    {
        self.files.asker(kind, tag)
    }

    /// The conversation whose question by a file is the oldest, if any waits for a reply. It takes no memory.
    pub fn first_asker(&self, kind: PromptKind) -> Option<u64>
        ensures some { IfSome result (λ conv. (done : List Deed) → Logs done self.now
            → is_asker done kind conv ≡ true) }
        ensures none { IfNone result ((done : List Deed) → Logs done self.now
            → askers done kind ≡ []) }
        ensures first { (done : List Deed) → Logs done self.now
            → result ≡ first_conv (standing (prompts_of done kind)) }
    {
        self.files.first_asker(kind)
    }
}
