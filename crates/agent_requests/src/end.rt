// Fids are given up, and with them conversations and open files.
ghost use Rattle.std.specs.Prelude.{◌≡◌, ◌≤◌, List, ℕ, Option, false, true, length};
ghost use Rattle.agent_history.specs.Deeds.{Deed, OfConnection, OfFids, Clunked, Hung, Versioned, was_hung};
ghost use Rattle.agent_history.specs.SideFiles.{askers, file_of};
ghost use Rattle.agent_history.specs.Conversations.{all_shut, closed, given_up_by, shut};
ghost use Rattle.mailboxes.specs.Deliveries.{KeepsNone, SameRoom, StillNone};
ghost use Rattle.side_files.specs.declared.line.PromptKind.TheVariants as k;
ghost use Rattle.agent_talks.specs.Asking.{is_asker};
ghost use Rattle.agent_requests.specs.Sharing.{Shares};

use crate::shared::Shared;
use agent_talks::Leaving;
use file_tree::Node;
use side_files::PromptKind;
use std::alloc::Global;

impl Shared {
    /// A fid of a connection is given up. It takes no memory.
    pub fn clunk(&mut self, alloc: Global, conn: u64, fid: u32)
        ensures shares { (done : List Deed) → was_hung done conn ≡ false → Shares done self.old
            → Shares (given_up_by (OfFids conn (Clunked fid)) done) self.new }
        ensures ring { self.new.ring ≡ self.old.ring }
        ensures room { SameRoom self.old.mailboxes self.new.mailboxes }
    {
        self.ring.forget();
        self.talks.end(Leaving::Fid(conn, fid));
        self.holders.clunk(conn, fid);
        self.mailboxes.give_up(conn, fid);
        self.close_both(alloc);
    }

    /// A version of a connection is answered: its fids and its reads that wait are given up. It takes no memory.
    pub fn version(&mut self, alloc: Global, conn: u64)
        ensures shares { (done : List Deed) (msize : Option ℕ) → was_hung done conn ≡ false
            → Shares done self.old
            → Shares (given_up_by (OfFids conn (Versioned msize)) done) self.new }
        ensures ring { self.new.ring ≡ self.old.ring }
        ensures room { SameRoom self.old.mailboxes self.new.mailboxes }
    {
        self.ring.forget();
        self.talks.end(Leaving::Connection(conn));
        self.holders.leave(conn);
        self.mailboxes.drop_waits(conn);
        self.close_both(alloc);
    }

    /// A connection is hung up. It takes no memory.
    pub fn leave(&mut self, alloc: Global, conn: u64)
        ensures shares { (done : List Deed) → Shares done self.old
            → Shares (given_up_by (OfConnection conn Hung) done) self.new }
        ensures ring { self.new.ring ≡ self.old.ring }
        ensures none { KeepsNone self.new.mailboxes conn }
    {
        self.ring.forget();
        self.talks.end(Leaving::Connection(conn));
        self.holders.leave(conn);
        self.mailboxes.leave(conn);
        self.close_both(alloc);
    }

    // Whoever waits for a reply in a file that nobody has open is shut, by confirm and then by needkey.
    fn close_both(&mut self, alloc: Global)
        ensures shares { (done : List Deed) → Shares done self.old
            → Shares (closed k.Needkey (closed k.Confirm done)) self.new }
        ensures ring { self.new.ring ≡ self.old.ring }
        ensures room { SameRoom self.old.mailboxes self.new.mailboxes }
        ensures none { StillNone self.old.mailboxes self.new.mailboxes }
    {
        self.close(alloc, PromptKind::Confirm);
        self.close(alloc, PromptKind::Needkey);
    }

    // Whoever waits for a reply in a file is shut, if nobody has it open.
    fn close(&mut self, alloc: Global, kind: PromptKind)
        ensures shares { (done : List Deed) → Shares done self.old
            → Shares (closed kind done) self.new }
        ensures ring { self.new.ring ≡ self.old.ring }
        ensures room { SameRoom self.old.mailboxes self.new.mailboxes }
        ensures none { StillNone self.old.mailboxes self.new.mailboxes }
    {
        if self.holders.has(file_of(kind)) {
            return;
        }
        let most = self.talks.talks.count();
        self.shut_all(alloc, kind, most);
    }

    // Whoever waits for a reply in a file is shut, in the order in which they asked: at most so many do.
    fn shut_all(&mut self, alloc: Global, kind: PromptKind, most: usize)
        ensures shares { (done : List Deed) → length (askers done kind) ≤ most
            → Shares done self.old → Shares (all_shut kind (askers done kind) done) self.new }
        ensures ring { self.new.ring ≡ self.old.ring }
        ensures room { SameRoom self.old.mailboxes self.new.mailboxes }
        ensures none { StillNone self.old.mailboxes self.new.mailboxes }
    {
        if most == 0 {
            return;
        }
        let Some(conv) = self.talks.first_asker(kind) else {
            return;
        };
        self.shut(alloc, kind, conv);
        self.shut_all(alloc, kind, most - 1);
    }

    // A conversation that waits for a reply in a file is shut: its question is withdrawn, the request that waits for the
    // reply is refused, and this is delivered.
    fn shut(&mut self, alloc: Global, kind: PromptKind, conv: u64)
        ensures shares { (done : List Deed) → is_asker done kind conv ≡ true → Shares done self.old
            → Shares (shut kind conv done) self.new }
        ensures ring { self.new.ring ≡ self.old.ring }
        ensures room { SameRoom self.old.mailboxes self.new.mailboxes }
        ensures none { StillNone self.old.mailboxes self.new.mailboxes }
    {
        self.talks.shut(kind, conv);
        self.deliver(alloc, conv);
    }
}

// The file of the questions of a kind.
fn file_of(kind: PromptKind) -> Node
    ensures { result ≡ file_of kind }
{
    match kind {
        PromptKind::Confirm => Node::Confirm,
        PromptKind::Needkey => Node::Needkey,
    }
}
