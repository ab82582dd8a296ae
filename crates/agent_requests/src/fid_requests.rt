// Requests on the fids of a connection: version, attach, walk, open, clunk, remove and stat, and those that are
// refused on every file.
ghost use Rattle.std.specs.Prelude.{◌≡◌, ◌∷◌, ◌≤◌, List, ℕ, Option, None, IsSome, Err, length, map, codes, false, OnOk, OnErr, IfOk, if◌then◌else◌};
ghost use Rattle.nine.specs.declared.message.TBody.TheVariants as t;
ghost use Rattle.file_tree.specs.Tree.{qid_of};
ghost use Rattle.file_tree.specs.Calls.{open_fault};
ghost use Rattle.file_tree.specs.Held.{state_at, HasRoom};
ghost use Rattle.agent_history.specs.Deeds.{Deed, OfFids, Attached, Clunked, Opened, Versioned, was_hung};
ghost use Rattle.agent_history.specs.Requests.{agreed, is_known, walking};
ghost use Rattle.agent_history.specs.Conversations.{given_up_by};
ghost use Rattle.mailboxes.specs.Deliveries.{SameRoom};
ghost use Rattle.agent_requests.specs.Sharing.{Shares};
ghost use Rattle.agent_requests.specs.Connections.{Keeps, SameKept, Tried, msize_in};

use crate::Shared;
use crate::call::Call;
use crate::connection::{Connection, Phase};
use crate::msize::{MOST_MSIZE, Msize};
use crate::refused::{Refusal, Refused, Tried};
use file_tree::{Fids, Node, put_record, record_size};
use mailboxes::Reply;
use nine::{QidList, put_attach, put_clunk, put_flush, put_open, put_stat, put_version, put_walk};
use std::alloc::Global;
use std::collections::BTreeMap;
use wire_base::{Bytes, NoMemory, TextList};

const NOFID: u32 = 0xffff_ffff;

const LEAST_MSIZE: u32 = 256;

const VERSION: &[u8; 6] = b"9P2000";

const UNKNOWN: &[u8; 7] = b"unknown";

// Most replies have at most so many bytes.
pub(crate) const USUAL_REPLY: usize = 64;

// The version is 9P2000, or one of its dialects.
fn is_known(version: &[u8]) -> bool
    ensures { result ≡ is_known version.now }
{
    version == VERSION.as_slice() || version.starts_with(b"9P2000.")
}

// How far a connection has come with this version.
fn agreed(msize: u32, version: &[u8]) -> Phase
    ensures { msize_in result ≡ agreed msize version.now }
{
    if is_known(version) {
        Phase::Agreed(Msize::agree(msize))
    } else {
        Phase::Open
    }
}

// The version that is answered.
fn answered(version: &[u8]) -> &'static [u8]
    ensures { result.now ≡ (if is_known version.now then codes "9P2000" else codes "unknown") }
{
    if is_known(version) { VERSION } else { UNKNOWN }
}

// The qids of some files.
fn qids_of(alloc: Global, nodes: &[Node]) -> Result<QidList, NoMemory>
    ensures { IfOk result (λ qids. qids ≡ map qid_of nodes.now) }
{
    let mut qids = QidList::new(alloc);
    for node in nodes {
        qids.push(node.qid())?;
    }
    Ok(qids)
}

impl Connection {
    /// Version: a largest message is agreed where the version is known, all fids are given up, and reads that wait are
    /// dropped.
    #[tactic(auto, unfolding(agent_history::specs::Requests::refusal, agent_history::specs::Requests::after, agent_history::specs::Requests::reply_of))]
    pub fn version(&mut self, call: Call, shared: &mut Shared, msize: u32, version: &[u8]) -> Tried
        ensures { Tried call (t.Version msize version.now) self.old self.new shared.old shared.new
            result }
    {
        if msize < LEAST_MSIZE {
            return Err(Refused::For(Refusal::MsizeTooSmall));
        }
        let mut reply = Bytes::with_capacity(call.alloc, USUAL_REPLY)?;
        let most = msize.min(MOST_MSIZE);
        put_version(call.tag, most, answered(version), &mut reply)?;
        self.renew(call, shared, agreed(msize, version));
        Ok(Some(Reply::Spelled(reply)))
    }

    // It comes so far, all fids are given up, and reads that wait are dropped.
    fn renew(&mut self, call: Call, shared: &mut Shared, phase: Phase)
        ensures keeps { (done : List Deed) (msize : Option ℕ) → msize_in phase ≡ msize
            → Keeps done call.conn self.old
            → Keeps (OfFids call.conn (Versioned msize) ∷ done) call.conn self.new }
        ensures shares { (done : List Deed) (msize : Option ℕ) → was_hung done call.conn ≡ false
            → Shares done shared.old
            → Shares (given_up_by (OfFids call.conn (Versioned msize)) done) shared.new }
        ensures ring { shared.new.ring ≡ shared.old.ring }
        ensures room { SameRoom shared.old.mailboxes shared.new.mailboxes }
    {
        self.phase = phase;
        self.fids = Fids::new(call.alloc);
        self.texts = BTreeMap::new(call.alloc);
        shared.version(call.alloc, call.conn);
    }

    /// Attach: the fid names the root.
    #[tactic(auto, unfolding(agent_history::specs::Requests::refusal, agent_history::specs::Requests::after, agent_history::specs::Requests::reply_of))]
    pub fn attach(&mut self, call: Call, fid: u32, afid: u32) -> Tried
        ensures { (uname aname : List ℕ) (s : Shared)
            → Tried call (t.Attach fid afid uname aname) self.old self.new s s result }
    {
        if afid != NOFID {
            return Err(Refused::For(Refusal::BadAfid));
        }
        self.fids.may_attach(fid)?;
        let mut reply = Bytes::with_capacity(call.alloc, USUAL_REPLY)?;
        put_attach(call.tag, &Node::Root.qid(), &mut reply)?;
        self.hold_root(fid)?;
        Ok(Some(Reply::Spelled(reply)))
    }

    // The fid names the root.
    fn hold_root(&mut self, fid: u32) -> Result<(), NoMemory>
        requires { HasRoom self.old.fids fid }
        ensures keeps { OnOk result ((done : List Deed) (conn : ℕ) → Keeps done conn self.old
            → Keeps (OfFids conn (Attached fid) ∷ done) conn self.new) }
        ensures phase { self.new.phase ≡ self.old.phase }
        ensures err { OnErr result (SameKept self.old self.new) }
    {
        self.fids.mark_walked(fid, Node::Root)?;
        self.texts.remove(&fid);
        Ok(())
    }

    /// Walk: the new fid names the file to which the names lead, where all of them are there.
    #[tactic(auto, unfolding(agent_history::specs::Requests::refusal, agent_history::specs::Requests::after, agent_history::specs::Requests::reply_of), using(crate::proofs::FidLemmas::shares_walking))]
    pub fn walk(&mut self, call: Call, fid: u32, newfid: u32, wname: &TextList) -> Tried
        requires { length wname.now ≤ 16 }
        ensures { (s : Shared)
            → Tried call (t.Walk fid newfid wname.now) self.old self.new s s result }
    {
        let (nodes, end) = self
            .fids
            .may_walk(call.alloc, fid, newfid, wname.as_slice())?;
        let qids = qids_of(call.alloc, nodes.as_slice())?;
        let mut reply = Bytes::with_capacity(call.alloc, USUAL_REPLY)?;
        put_walk(call.tag, qids.as_slice(), &mut reply)?;
        self.move_to(newfid, end)?;
        Ok(Some(Reply::Spelled(reply)))
    }

    // The fid names the file to which a walk led, if it led to one.
    fn move_to(&mut self, newfid: u32, end: Option<Node>) -> Result<(), NoMemory>
        requires { HasRoom self.old.fids newfid }
        ensures keeps { OnOk result ((done : List Deed) (conn : ℕ) → Keeps done conn self.old
            → Keeps (walking conn newfid end done) conn self.new) }
        ensures phase { self.new.phase ≡ self.old.phase }
        ensures err { OnErr result (SameKept self.old self.new) }
    {
        let Some(end) = end else {
            return Ok(());
        };
        self.fids.mark_walked(newfid, end)?;
        self.texts.remove(&newfid);
        Ok(())
    }

    /// Open: the file is open.
    #[tactic(auto, unfolding(agent_history::specs::Requests::refusal, agent_history::specs::Requests::after, agent_history::specs::Requests::reply_of))]
    pub fn open(&mut self, call: Call, shared: &mut Shared, fid: u32, mode: u8) -> Tried
        ensures { Tried call (t.Open fid mode) self.old self.new shared.old shared.new result }
    {
        let node = self.fids.may_open(fid, mode)?;
        if shared.holders.has(node) {
            return Err(Refused::For(Refusal::ExclusiveUse));
        }
        if shared.is_crowded(node) {
            return Err(Refused::For(Refusal::TooManyConversations));
        }
        let mut reply = Bytes::with_capacity(call.alloc, USUAL_REPLY)?;
        put_open(call.tag, &node.qid(), 0, &mut reply)?;
        shared.open(call.alloc, node, call.conn, fid)?;
        self.open_fid(fid, mode);
        Ok(Some(Reply::Spelled(reply)))
    }

    // The fid, which may be opened so, is open.
    fn open_fid(&mut self, fid: u32, mode: u8)
        requires { open_fault (state_at self.old.fids fid) mode ≡ None }
        ensures keeps { (done : List Deed) (conn : ℕ) → Keeps done conn self.old
            → Keeps (OfFids conn (Opened fid mode) ∷ done) conn self.new }
        ensures phase { self.new.phase ≡ self.old.phase }
    {
        self.fids.mark_open(fid, mode);
    }

    // A fid that is held is given up.
    fn give_up(&mut self, call: Call, shared: &mut Shared, fid: u32)
        requires { IsSome (state_at self.old.fids fid) }
        ensures keeps { (done : List Deed) → Keeps done call.conn self.old
            → Keeps (given_up_by (OfFids call.conn (Clunked fid)) done) call.conn self.new }
        ensures shares { (done : List Deed) → was_hung done call.conn ≡ false
            → Shares done shared.old
            → Shares (given_up_by (OfFids call.conn (Clunked fid)) done) shared.new }
        ensures phase { self.new.phase ≡ self.old.phase }
        ensures ring { shared.new.ring ≡ shared.old.ring }
        ensures room { SameRoom shared.old.mailboxes shared.new.mailboxes }
    {
        self.drop_fid(fid);
        shared.clunk(call.alloc, call.conn, fid);
    }

    // Nothing is kept of a fid that was held.
    fn drop_fid(&mut self, fid: u32)
        requires { IsSome (state_at self.old.fids fid) }
        ensures keeps { (done : List Deed) (conn : ℕ) → Keeps done conn self.old
            → Keeps (OfFids conn (Clunked fid) ∷ done) conn self.new }
        ensures phase { self.new.phase ≡ self.old.phase }
    {
        self.texts.remove(&fid);
        if self.fids.clunk(fid).is_err() {
            unreachable!()
        }
    }

    /// Clunk: the fid is given up.
    #[tactic(auto, unfolding(agent_history::specs::Requests::refusal, agent_history::specs::Requests::after, agent_history::specs::Requests::reply_of, file_tree::specs::Calls::fid_fault))]
    pub fn clunk(&mut self, call: Call, shared: &mut Shared, fid: u32) -> Tried
        ensures { Tried call (t.Clunk fid) self.old self.new shared.old shared.new result }
    {
        self.fids.file_of(fid)?;
        let mut reply = Bytes::with_capacity(call.alloc, USUAL_REPLY)?;
        put_clunk(call.tag, &mut reply)?;
        self.give_up(call, shared, fid);
        Ok(Some(Reply::Spelled(reply)))
    }

    /// Remove: the fid is given up, and the reply is a refusal all the same.
    #[tactic(auto, unfolding(agent_history::specs::Requests::refusal, agent_history::specs::Requests::after, agent_history::specs::Requests::reply_of, file_tree::specs::Calls::fid_fault))]
    pub fn remove(&mut self, call: Call, shared: &mut Shared, fid: u32) -> Tried
        ensures { Tried call (t.Remove fid) self.old self.new shared.old shared.new result }
    {
        self.fids.file_of(fid)?;
        self.give_up(call, shared, fid);
        Ok(Some(Refusal::PermissionDenied.reply(call.tag)))
    }

    /// Stat: the record of what the fid names.
    #[tactic(auto, unfolding(agent_history::specs::Requests::refusal, agent_history::specs::Requests::after, agent_history::specs::Requests::reply_of, file_tree::specs::Calls::fid_fault))]
    pub fn stat(&self, call: Call, fid: u32) -> Tried
        ensures { (s : Shared) → Tried call (t.Stat fid) self.now self.now s s result }
    {
        let state = self.fids.file_of(fid)?;
        let mut told = Bytes::with_capacity(call.alloc, record_size(state.node))?;
        put_record(state.node, &mut told)?;
        let mut reply = Bytes::with_capacity(call.alloc, USUAL_REPLY + told.len())?;
        put_stat(call.tag, told.as_slice(), &mut reply)?;
        Ok(Some(Reply::Spelled(reply)))
    }

    /// Create and wstat, which no file allows.
    #[tactic(auto, unfolding(agent_history::specs::Requests::refusal, file_tree::specs::Calls::fid_fault))]
    pub fn deny(&self, call: Call, fid: u32) -> Refused
        ensures create { (name : List ℕ) (perm mode : ℕ) (s : Shared)
            → Tried call (t.Create fid name perm mode) self.now self.now s s (Err result) }
        ensures wstat { (stat : List ℕ) (s : Shared)
            → Tried call (t.Wstat fid stat) self.now self.now s s (Err result) }
    {
        match self.fids.file_of(fid) {
            Ok(_) => Refused::For(Refusal::PermissionDenied),
            Err(fault) => fault.into(),
        }
    }

    /// Flush: the read that waits under the tag is dropped.
    #[tactic(auto, unfolding(agent_history::specs::Requests::refusal, agent_history::specs::Requests::after, agent_history::specs::Requests::reply_of))]
    pub fn flush(&mut self, call: Call, shared: &mut Shared, oldtag: u16) -> Tried
        ensures { Tried call (t.Flush oldtag) self.old self.new shared.old shared.new result }
    {
        let mut reply = Bytes::with_capacity(call.alloc, USUAL_REPLY)?;
        put_flush(call.tag, &mut reply)?;
        shared.mailboxes.flush(call.conn, oldtag);
        Ok(Some(Reply::Spelled(reply)))
    }
}
