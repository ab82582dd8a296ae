// The mailboxes of all connections, by their numbers.
ghost use Rattle.mailboxes.specs.Rests.{Rests};

use crate::mailbox::Mailbox;
use crate::reply::Reply;
use crate::settled_for::SettledFor;
use crate::wait::Read;
use std::alloc::Global;
use std::collections::BTreeMap;
use wire_base::NoMemory;

/// What a read is told whose fid is given up while it waits.
const FID_GIVEN_UP: &[u8; 11] = b"unknown fid";

/// The replies that weren't taken yet and the reads that wait, of each connection. A connection that nothing is kept for
/// has none.
#[derive(Drop)]
pub struct Mailboxes {
    boxes: BTreeMap<u64, Mailbox>,
    settled: bool,
    unswept: SettledFor,
    settled_for: SettledFor,
    ghost rests: { Rests unswept boxes },
}

impl Mailboxes {
    ghost use Rattle.std.specs.Prelude.{◌≡◌, ◌∷◌, ◌||◌, ◌==◌, ◌&&◌, [], ℕ, List, Option, false, true, drop, find, length, map, option_map, IsOk, IfNone, IfSome, OnErr, OnOk};
    ghost use Rattle.nine.specs.declared.message.RBody.{RBody};
    ghost use Rattle.nine.specs.Messages.{r_frame};
    ghost use Rattle.agent_history.specs.Deeds.{Deed, OfFids, OfReplies, OfConnection, Versioned, Clunked, Answered, Awaited, Settled, Flushed, Hung, Taken, was_hung};
    ghost use Rattle.agent_history.specs.Replies.{is_unsettled, swept, waits, waits_for, waits_under};
    ghost use Rattle.mailboxes.specs.Kept.{reply_bytes};
    ghost use Rattle.mailboxes.specs.Deliveries.{Becomes, Delivers, KeepsNone, SameMail, SamePlace, SameRoom, StillNone, given_up, has_place, has_room, mail_at, read_of, replies_at, under};
    ghost use Rattle.mailboxes.specs.Mails as mails;

    /// No replies, and no reads that wait. It takes no memory.
    pub fn new(alloc: Global) -> Mailboxes
        ensures delivers { Delivers [] result }
        ensures none { (conn : ℕ) → KeepsNone result conn }
    {
        Mailboxes {
            boxes: BTreeMap::new(alloc),
            settled: false,
            unswept: SettledFor::Nobody,
            settled_for: SettledFor::Nobody,
        }
    }

    /// Makes room for one more reply of a connection.
    pub fn reserve(&mut self, alloc: Global, conn: u64) -> Result<(), NoMemory>
        ensures room { OnOk result (has_room self.new conn ≡ true) }
        ensures same { SameMail self.old self.new }
        ensures delivers { (done : List Deed) → Delivers done self.old → Delivers done self.new }
    {
        if let Some(mailbox) = self.boxes.get_mut(&conn) {
            return mailbox.reserve();
        }
        let mut mailbox = Mailbox::new(alloc);
        mailbox.reserve()?;
        self.boxes.insert(conn, mailbox)?;
        Ok(())
    }

    fn push_at(&mut self, conn: u64, reply: Reply)
        requires { has_room self.old conn ≡ true }
        ensures becomes { Becomes self.old self.new conn (mails.pushed (reply_bytes reply)
            (mail_at self.old conn)) }
        ensures settled { self.new.settled ≡ self.old.settled }
    {
        let Some(mailbox) = self.boxes.get_mut(&conn) else {
            unreachable!()
        };
        mailbox.push(reply);
    }

    /// Puts the reply to a request of a connection last. It takes no memory.
    pub fn push(&mut self, conn: u64, reply: Reply)
        requires { has_room self.old conn ≡ true }
        ensures delivers { (done : List Deed) (tag : ℕ) (body : RBody)
            → reply_bytes reply ≡ r_frame (under tag body) → Delivers done self.old
            → Delivers (OfReplies conn (Answered tag body) ∷ done) self.new }
        ensures spent { has_room self.new conn ≡ false }
        ensures room { (other : ℕ) → (conn ≡ other → ⊥)
            → has_room self.new other ≡ has_room self.old other }
    {
        self.push_at(conn, reply);
    }

    /// The oldest reply of a connection.
    pub fn front(&self, conn: u64) -> Option<&Reply>
        ensures some { IfSome result (λ reply. replies_at self.now conn
            ≡ reply_bytes reply.now ∷ drop 1 (replies_at self.now conn)) }
        ensures none { IfNone result (replies_at self.now conn ≡ []) }
    {
        self.boxes.get(&conn)?.front()
    }

    fn pop_at(&mut self, conn: u64)
        ensures becomes { Becomes self.old self.new conn (mails.popped (mail_at self.old conn)) }
        ensures settled { self.new.settled ≡ self.old.settled }
    {
        if let Some(mailbox) = self.boxes.get_mut(&conn) {
            mailbox.pop();
        }
    }

    /// The oldest reply of a connection was taken.
    pub fn pop(&mut self, conn: u64)
        ensures delivers { (done : List Deed) → Delivers done self.old
            → Delivers (OfReplies conn Taken ∷ done) self.new }
        ensures fewer { replies_at self.new conn ≡ drop 1 (replies_at self.old conn) }
    {
        self.pop_at(conn);
    }

    /// Some read of the connection waits under the tag.
    pub fn has_tag(&self, conn: u64, tag: u16) -> bool
        ensures { (done : List Deed) → was_hung done conn ≡ false → Delivers done self.now
            → result ≡ waits_under done conn tag }
    {
        self.has_tag_at(conn, tag)
    }

    fn has_tag_at(&self, conn: u64, tag: u16) -> bool
        ensures { result ≡ mails.has_tag tag (mail_at self.now conn).waits }
    {
        match self.boxes.get(&conn) {
            Some(mailbox) => mailbox.has_tag(tag),
            None => false,
        }
    }

    /// Some read of the connection waits for the fid.
    pub fn has_fid(&self, conn: u64, fid: u32) -> bool
        ensures { (done : List Deed) → was_hung done conn ≡ false → Delivers done self.now
            → result ≡ waits_for done conn fid }
    {
        self.has_fid_at(conn, fid)
    }

    fn has_fid_at(&self, conn: u64, fid: u32) -> bool
        ensures { result ≡ mails.has_fid fid (mail_at self.now conn).waits }
    {
        match self.boxes.get(&conn) {
            Some(mailbox) => mailbox.has_fid(fid),
            None => false,
        }
    }

    /// How many reads of the connection wait.
    pub fn count_waits(&self, conn: u64) -> usize
        ensures { (done : List Deed) → was_hung done conn ≡ false → Delivers done self.now
            → result ≡ length (waits done conn) }
    {
        self.count_waits_at(conn)
    }

    fn count_waits_at(&self, conn: u64) -> usize
        ensures { result ≡ length (mail_at self.now conn).waits }
    {
        match self.boxes.get(&conn) {
            Some(mailbox) => mailbox.count_waits(),
            None => 0,
        }
    }

    /// The read that waits for a fid of a connection and isn't settled, if one does: the first.
    pub fn reader(&self, conn: u64, fid: u32) -> Option<Read>
        ensures { (done : List Deed) → was_hung done conn ≡ false → Delivers done self.now
            → option_map read_of (find (λ wait. wait.fid == fid && is_unsettled wait)
            (waits done conn)) ≡ result }
    {
        self.reader_at(conn, fid)
    }

    fn reader_at(&self, conn: u64, fid: u32) -> Option<Read>
        ensures { result ≡ mails.first_reader fid (mail_at self.now conn).waits }
    {
        self.boxes.get(&conn)?.reader(fid)
    }

    /// Makes room for one more read of a connection that waits, its reply included.
    pub fn reserve_wait(&mut self, alloc: Global, conn: u64) -> Result<(), NoMemory>
        ensures place { OnOk result (has_place self.new conn ≡ true) }
        ensures same { SameMail self.old self.new }
        ensures room { SameRoom self.old self.new }
        ensures delivers { (done : List Deed) → Delivers done self.old → Delivers done self.new }
    {
        if let Some(mailbox) = self.boxes.get_mut(&conn) {
            return mailbox.reserve_wait();
        }
        let mut mailbox = Mailbox::new(alloc);
        mailbox.reserve_wait()?;
        self.boxes.insert(conn, mailbox)?;
        Ok(())
    }

    fn wait_at(&mut self, conn: u64, read: Read)
        requires { has_place self.old conn ≡ true }
        ensures becomes { Becomes self.old self.new conn
            (mails.awaited read.tag read.fid read.count (mail_at self.old conn)) }
        ensures settled { self.new.settled ≡ self.old.settled }
    {
        let Some(mailbox) = self.boxes.get_mut(&conn) else {
            unreachable!()
        };
        mailbox.wait(read.tag, read.fid, read.count);
    }

    /// A read of a connection waits from now on. It takes no memory.
    pub fn wait(&mut self, conn: u64, read: Read)
        requires { has_place self.old conn ≡ true }
        ensures delivers { (done : List Deed) → Delivers done self.old
            → Delivers (OfReplies conn (Awaited read.tag read.fid read.count) ∷ done) self.new }
        ensures room { SameRoom self.old self.new }
    {
        self.wait_at(conn, read);
    }

    fn settle_at(&mut self, conn: u64, tag: u16, reply: Reply)
        ensures becomes { Becomes self.old self.new conn (mails.with_settled tag (reply_bytes reply)
            (mail_at self.old conn)) }
        ensures settled { self.new.settled
            ≡ (mails.has_tag tag (mail_at self.old conn).waits || self.old.settled) }
        ensures none { StillNone self.old self.new }
    {
        if let Some(mailbox) = self.boxes.get_mut(&conn) {
            let found = mailbox.settle(tag, reply);
            self.settled = found || self.settled;
            self.unswept = self.unswept.and(found, conn);
            self.settled_for = self.settled_for.and(found, conn);
        }
    }

    /// The read of a connection that waits under the tag has this reply. It takes no memory.
    pub fn settle(&mut self, conn: u64, tag: u16, reply: Reply)
        ensures delivers { (done : List Deed) (body : RBody) → was_hung done conn ≡ false
            → reply_bytes reply ≡ r_frame (under tag body) → Delivers done self.old
            → Delivers (OfReplies conn (Settled tag body) ∷ done) self.new }
        ensures room { SameRoom self.old self.new }
        ensures place { SamePlace self.old self.new }
        ensures none { StillNone self.old self.new }
    {
        self.settle_at(conn, tag, reply);
    }

    fn give_up_at(&mut self, conn: u64, fid: u32)
        ensures becomes { Becomes self.old self.new conn (mails.with_fid_settled fid given_up
            (mail_at self.old conn)) }
        ensures settled { self.new.settled
            ≡ (mails.has_fid fid (mail_at self.old conn).waits || self.old.settled) }
    {
        if let Some(mailbox) = self.boxes.get_mut(&conn) {
            let found = mailbox.has_fid(fid);
            mailbox.settle_fid(fid, FID_GIVEN_UP);
            self.settled = found || self.settled;
            self.unswept = self.unswept.and(found, conn);
            self.settled_for = self.settled_for.and(found, conn);
        }
    }

    /// A fid of a connection is given up: the reads that wait for it are refused. It takes no memory.
    pub fn give_up(&mut self, conn: u64, fid: u32)
        ensures delivers { (done : List Deed) → was_hung done conn ≡ false → Delivers done self.old
            → Delivers (OfFids conn (Clunked fid) ∷ done) self.new }
        ensures room { SameRoom self.old self.new }
    {
        self.give_up_at(conn, fid);
    }

    fn flush_at(&mut self, conn: u64, tag: u16)
        ensures becomes { Becomes self.old self.new conn (mails.flushed tag
            (mail_at self.old conn)) }
        ensures settled { self.new.settled ≡ self.old.settled }
    {
        if let Some(mailbox) = self.boxes.get_mut(&conn) {
            mailbox.flush(tag);
        }
    }

    /// The read of a connection that waits under the tag is dropped.
    pub fn flush(&mut self, conn: u64, tag: u16)
        ensures delivers { (done : List Deed) → Delivers done self.old
            → Delivers (OfReplies conn (Flushed tag) ∷ done) self.new }
        ensures room { SameRoom self.old self.new }
    {
        self.flush_at(conn, tag);
    }

    fn drop_waits_at(&mut self, conn: u64)
        ensures becomes { Becomes self.old self.new conn (mails.without_waits
            (mail_at self.old conn)) }
        ensures settled { self.new.settled ≡ self.old.settled }
    {
        if let Some(mailbox) = self.boxes.get_mut(&conn) {
            mailbox.drop_waits();
        }
    }

    /// A version of a connection is answered: its reads that wait are dropped.
    pub fn drop_waits(&mut self, conn: u64)
        ensures delivers { (done : List Deed) (msize : Option ℕ) → Delivers done self.old
            → Delivers (OfFids conn (Versioned msize) ∷ done) self.new }
        ensures room { SameRoom self.old self.new }
    {
        self.drop_waits_at(conn);
    }

    fn leave_at(&mut self, conn: u64)
        ensures becomes { Becomes self.old self.new conn mails.no_mail }
        ensures settled { self.new.settled ≡ self.old.settled }
        ensures none { KeepsNone self.new conn }
    {
        self.boxes.remove(&conn);
    }

    /// A connection is hung up: nothing is kept for it any more.
    pub fn leave(&mut self, conn: u64)
        ensures delivers { (done : List Deed) → Delivers done self.old
            → Delivers (OfConnection conn Hung ∷ done) self.new }
        ensures none { KeepsNone self.new conn }
    {
        self.leave_at(conn);
    }

    fn sweep_all(&mut self)
        ensures mails { (conn : ℕ) → mail_at self.new conn ≡ mails.swept (mail_at self.old conn) }
        ensures settled { self.new.settled ≡ self.old.settled }
        ensures none { StillNone self.old self.new }
    {
        self.boxes.retain(|_, mailbox| {
            mailbox.sweep();
            true
        });
        self.unswept = SettledFor::Nobody;
    }

    fn sweep_one(&mut self, conn: u64)
        requires { self.old.unswept ≡ SettledFor.One conn }
        ensures mails { (conn : ℕ) → mail_at self.new conn ≡ mails.swept (mail_at self.old conn) }
        ensures settled { self.new.settled ≡ self.old.settled }
        ensures none { StillNone self.old self.new }
    {
        self.unswept = SettledFor::Nobody;
        let Some(mailbox) = self.boxes.get_mut(&conn) else {
            return;
        };
        mailbox.sweep();
    }

    fn sweep_boxes(&mut self)
        ensures mails { (conn : ℕ) → mail_at self.new conn ≡ mails.swept (mail_at self.old conn) }
        ensures settled { self.new.settled ≡ self.old.settled }
        ensures none { StillNone self.old self.new }
    {
        match self.unswept {
            SettledFor::One(conn) => self.sweep_one(conn),
            SettledFor::Nobody | SettledFor::Several => self.sweep_all(),
        }
    }

    /// The last of an event: the replies to the reads that it settled stand behind the others of their connections, in the
    /// order in which the reads came. It takes no memory.
    pub fn sweep(&mut self)
        ensures delivers { (done : List Deed) → Delivers done self.old
            → Delivers (swept done) self.new }
        ensures room { SameRoom self.old self.new }
        ensures none { StillNone self.old self.new }
    {
        if self.settled {
            self.sweep_boxes();
            self.settled = false;
        }
    }

    /// Whose reads were settled, or refused since their fid was given up, since this was last asked. Replies and reads stay
    /// as they are, and it takes no memory.
    pub fn take_settled(&mut self) -> SettledFor
        ensures { SameMail self.old self.new }
    {
        let settled_for = self.settled_for;
        self.settled_for = SettledFor::Nobody;
        settled_for
    }
}
