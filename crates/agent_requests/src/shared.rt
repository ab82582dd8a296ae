// What the connections of an agent share.
ghost use Rattle.std.specs.Prelude.{◌≡◌, ◌≤◌, ◌∷◌, [], ◌&&◌, ℕ, List, Option, false, true, None, Ok, is_some, length, nat_lt, not, option_map, take, IfOk, IfSome, OnOk, OnErr};
ghost use Rattle.file_tree.specs.Calls.{node_of};
ghost use Rattle.talks.specs.Requests.{meant};
ghost use Rattle.talks.specs.Calls as c;
ghost use Rattle.side_files.specs.Lines.{Hands, found, if_handed};
ghost use Rattle.side_files.specs.Questions.{asker_of};
ghost use Rattle.agent_history.specs.Deeds.{Deed, OfFids, OfKeys, OfTalk, Opened, Switched, fid_of, was_hung};
ghost use Rattle.agent_history.specs.SideFiles.{line_read, lines_in, prompts_of};
ghost use Rattle.agent_history.specs.Conversations.{speakers, stands, standing_of};
ghost use Rattle.agent_history.specs.Requests.{is_rpc, most_talks};
ghost use Rattle.agent_talks.specs.Tells.{IsShort, TellsBy};
ghost use Rattle.agent_talks.specs.Logging.{Logs, SameLogs, calls_in, keeping_of, talks_in};
ghost use Rattle.agent_requests.specs.Sharing.{SameShared, Shares};

use crate::holders::Holders;
use agent_talks::{Conversations, Told};
use file_tree::Node;
use key_ring::ListedRing;
use mailboxes::Mailboxes;
use side_files::{PromptKind, TooSmall};
use std::alloc::Global;
use talks::Request;
use wire_base::{Bytes, NoMemory};

/// How many conversations may stand.
const MOST_TALKS: usize = 1024;

/// Whether the file is that of conversations.
pub fn is_rpc(node: Node) -> bool
    ensures { result ≡ is_rpc node }
{
    matches!(node, Node::Rpc)
}

// A conversation begins where the file of a fid that is held is rpc.
fn open_talk(
    talks: &mut Conversations,
    alloc: Global,
    node: Node,
    conn: u64,
    fid: u32,
) -> Result<(), NoMemory>
    ensures opened { OnOk result ((done : List Deed) (mode : ℕ)
        → is_some (fid_of done conn fid) ≡ true → node_of (fid_of done conn fid) ≡ node
        → Logs done talks.old → Logs (OfFids conn (Opened fid mode) ∷ done) talks.new) }
    ensures same { OnErr result (SameLogs talks.old talks.new) }
{
    if is_rpc(node) {
        return talks.open(alloc, conn, fid);
    }
    Ok(())
}

// The first bytes of a line, at most so many.
fn cut_line(line: Option<Bytes>, count: u32) -> Option<Bytes>
    ensures { result ≡ option_map (take count) line }
{
    let mut line = line?;
    line.truncate(count as usize);
    Some(line)
}

/// What the connections of an agent share: the keys, who has which file open alone, the replies and the reads that wait
/// of all of them, and the conversations with the connections to the authentication server that they keep, the questions to
/// their users and the log.
#[derive(Drop)]
pub struct Shared {
    pub ring: ListedRing,
    pub holders: Holders,
    pub mailboxes: Mailboxes,
    pub talks: Conversations,
}

impl Shared {
    /// No keys, no files that are open, no replies, no conversations.
    pub fn new(alloc: Global) -> Result<Shared, NoMemory>
        ensures { IfOk result (λ shared. Shares [] shared) }
    {
        let talks = Conversations::new(alloc)?;
        Ok(Shared {
            ring: ListedRing::new(alloc),
            holders: Holders::new(),
            mailboxes: Mailboxes::new(alloc),
            talks,
        })
    }

    /// Whether the file is rpc, and as many conversations stand as may.
    pub fn is_crowded(&self, node: Node) -> bool
        ensures { (done : List Deed) → Logs done self.now.talks → result
            ≡ (is_rpc node && not (nat_lt (length (speakers done)) most_talks)) }
    {
        is_rpc(node) && self.talks.talks.count() >= MOST_TALKS
    }

    /// A fid that is held and names this file opens it: where it is rpc, a conversation begins.
    pub fn open(&mut self, alloc: Global, node: Node, conn: u64, fid: u32) -> Result<(), NoMemory>
        ensures opened { OnOk result ((done : List Deed) (mode : ℕ) → was_hung done conn ≡ false
            → is_some (fid_of done conn fid) ≡ true → node_of (fid_of done conn fid) ≡ node
            → Shares done self.old → Shares (OfFids conn (Opened fid mode) ∷ done) self.new) }
        ensures ring { self.new.ring ≡ self.old.ring }
        ensures mail { self.new.mailboxes ≡ self.old.mailboxes }
        ensures same { OnErr result (SameShared self.old self.new) }
    {
        open_talk(&mut self.talks, alloc, node, conn, fid)?;
        self.holders.open(node, conn, fid);
        Ok(())
    }

    /// A request is written on a conversation that stands, which a copy is kept of.
    pub fn store(&mut self, alloc: Global, conv: u64, request: Request<'_>) -> Result<(), NoMemory>
        ensures stored { OnOk result ((done : List Deed) → stands done conv ≡ true
            → Shares done self.old
            → Shares (OfTalk conv (c.Stored (meant request.entry)) ∷ done) self.new) }
        ensures ring { self.new.ring ≡ self.old.ring }
        ensures mail { self.new.mailboxes ≡ self.old.mailboxes }
        ensures same { OnErr result (SameShared self.old self.new) }
    {
        self.talks.store(alloc, conv, request)
    }

    /// A read that may hold so many bytes is told the answer of a conversation that stands, if one is there: the answer
    /// is handed out, or it is kept, where it doesn't fit. It takes no memory.
    pub fn tell(&mut self, conv: u64, count: u32) -> Option<Told>
        ensures tells { (done : List Deed) → stands done conv ≡ true → Shares done self.old
            → TellsBy (λ d. Shares d self.new) (standing_of done conv).phase
            done conv count result }
        ensures short { IfSome result (IsShort count) }
        ensures ring { self.new.ring ≡ self.old.ring }
        ensures holders { self.new.holders ≡ self.old.holders }
        ensures mail { self.new.mailboxes ≡ self.old.mailboxes }
        ensures questions { (talks_in self.new.talks).questions
            ≡ (talks_in self.old.talks).questions }
        ensures drops { calls_in self.new.talks ≡ calls_in self.old.talks }
    {
        self.talks.tell(conv, count)
    }

    /// The conversation that waits for the reply to the question of a tag, where one does. It takes no memory.
    pub fn asker(&self, kind: PromptKind, tag: u64) -> Option<u64>
        ensures asker { (done : List Deed) → Shares done self.now
            → result ≡ asker_of tag (prompts_of done kind) }
        ensures stands { IfSome result (λ conv. (done : List Deed) → Shares done self.now
            → stands done conv ≡ true) }
    {
        self.talks.asker(kind, tag)
    }

    /// The first line of a file of lines is handed out, where it has at most so many bytes. None: there is none. It takes no
    /// memory.
    pub fn hand_out_line(&mut self, node: Node, count: u32) -> Result<Option<Bytes>, TooSmall>
        ensures answer { (done : List Deed) → Shares done self.old
            → Hands (found count (lines_in done node)) result }
        ensures read { (done : List Deed) → Shares done self.old
            → Shares (if_handed result (line_read node done) done) self.new }
        ensures short { IfOk result (λ found. IfSome found (λ line. length line ≤ count)) }
        ensures none { result ≡ Ok None → SameShared self.old self.new }
        ensures same { OnErr result (SameShared self.old self.new) }
        ensures ring { self.new.ring ≡ self.old.ring }
        ensures holders { self.new.holders ≡ self.old.holders }
        ensures mail { self.new.mailboxes ≡ self.old.mailboxes }
        ensures talks { keeping_of self.new.talks ≡ keeping_of self.old.talks }
    {
        let line = self.talks.hand_out_line(node, count)?;
        Ok(cut_line(line, count))
    }
}
