// Reads and writes of the files that are open.
ghost use Rattle.std.specs.Prelude.{◌≡◌, ◌∷◌, ◌≤◌, ◌<◌, ◌+◌, ◌-◌, ◌^◌, ◌==◌, List, ℕ, Some, true, length, option_map, OnOk, OnErr, IfOk, if◌then◌else◌};
ghost use Rattle.nine.specs.declared.message.TBody.TheVariants as t;
ghost use Rattle.nine.specs.declared.message.RBody.TheVariants as r;
ghost use Rattle.nine.specs.Messages.{r_frame};
ghost use Rattle.file_tree.specs.Faults.{fault_text};
ghost use Rattle.file_tree.specs.Calls.{dir_fault, node_of};
ghost use Rattle.file_tree.specs.Directories.{dir_bytes, dir_end};
ghost use Rattle.file_tree.specs.Held.{is_open_directory, next_at, state_at};
ghost use Rattle.key_lists.specs.CtlLines.{after_lines, lines_fault, lines_of};
ghost use Rattle.agent_history.specs.Deeds.{Deed, OfFids, Browsed, Listed, keys_of};
ghost use Rattle.agent_history.specs.Requests.{ctl_text, effective, lets_read, lets_write, piece, written};
ghost use Rattle.mailboxes.specs.Kept.{reply_bytes};
ghost use Rattle.mailboxes.specs.Deliveries.{under};
ghost use Rattle.key_ring.specs.Switches.{switches};
ghost use Rattle.agent_requests.specs.Logging.{Logs};
ghost use Rattle.agent_requests.specs.Connections.{Keeps, SameKept, Says, Told, Tried};
ghost use Rattle.agent_requests.specs.LineRequests.{switching};

use crate::call::Call;
use crate::connection::Connection;
use crate::fid_requests::USUAL_REPLY;
use crate::line_requests::{kind_at, read_line, write_answer};
use crate::msize::Msize;
use crate::refused::{Refusal, Refused, Tried};
use crate::rpc_requests::{read_rpc, write_reply, write_rpc};
use crate::{Conversations, Shared, is_rpc};
use file_tree::{Node, reads, writes};
use mailboxes::Reply;
use nine::put_read;
use wire_base::{Bytes, NoMemory};

// The bytes of a reply to a read that aren't content.
const READ_OVERHEAD: u32 = 24;

const PROTOCOLS: &[u8; 22] = b"apop\ncram\np9any\np9sk1\n";

// The mode in which a fid is open lets it be read.
fn lets_read(mode: Option<u8>) -> bool
    ensures { result ≡ lets_read mode }
{
    match mode {
        Some(mode) => reads(mode),
        None => false,
    }
}

// The mode in which a fid is open lets it be written.
fn lets_write(mode: Option<u8>) -> bool
    ensures { result ≡ lets_write mode }
{
    match mode {
        Some(mode) => writes(mode),
        None => false,
    }
}

// How many bytes a reply may hold of what is read.
fn effective(count: u32, msize: Option<Msize>) -> u32
    ensures most { result ≡ effective count msize }
    ensures small { result ≤ 8216 }
{
    match msize {
        Some(msize) => count.min(msize.bytes().saturating_sub(READ_OVERHEAD)),
        None => 0,
    }
}

// The bytes of a text from an offset on, at most so many.
fn piece(text: &[u8], offset: u64, most: u32) -> &[u8]
    ensures piece { result.now ≡ piece offset most text.now }
    ensures short { length result.now ≤ most }
{
    let offset = offset.min(text.len() as u64) as usize;
    let (_, rest) = text.split_at(offset);
    let most = rest.len().min(most as usize);
    rest.split_at(most).0
}

// The reply that hands over what was read.
fn read_reply(call: Call, content: &[u8]) -> Result<Reply, NoMemory>
    requires { length content.now ≤ 8216 }
    ensures { IfOk result (λ reply. reply_bytes reply
        ≡ r_frame (under call.tag (r.Read content.now))) }
{
    let mut reply = Bytes::with_capacity(call.alloc, USUAL_REPLY + content.len())?;
    put_read(call.tag, content, &mut reply)?;
    Ok(Reply::Spelled(reply))
}

impl Connection {
    // A read of a directory that the fid has open: as many whole records as fit.
    fn read_directory(&mut self, call: Call, fid: u32, offset: u64, count: u32) -> Tried
        requires open { is_open_directory (state_at self.old.fids fid) ≡ true }
        requires small { count ≤ 8216 }
        ensures told { Told (option_map fault_text (dir_fault (next_at self.old.fids fid) offset))
            (Says call.tag (Some (r.Read (dir_bytes (node_of
            (state_at self.old.fids fid)) offset count)))) result }
        ensures keeps { OnOk result ((done : List Deed) (conn : ℕ) → Keeps done conn self.old
            → Keeps (OfFids conn (Browsed fid (dir_end (node_of
            (state_at self.old.fids fid)) offset count)) ∷ done) conn self.new) }
        ensures phase { self.new.phase ≡ self.old.phase }
        ensures err { OnErr result (SameKept self.old self.new) }
    {
        let mut records = Bytes::new(call.alloc);
        let end = self.fids.may_read(fid, offset, count, &mut records)?;
        let reply = read_reply(call, records.as_slice())?;
        self.mark_read(fid, end);
        Ok(Some(reply))
    }

    // The next read of the fid may begin there.
    fn mark_read(&mut self, fid: u32, end: u64)
        ensures keeps { (done : List Deed) (conn : ℕ) → Keeps done conn self.old
            → Keeps (OfFids conn (Browsed fid end) ∷ done) conn self.new }
        ensures phase { self.new.phase ≡ self.old.phase }
    {
        self.fids.mark_read(fid, end);
    }

    // A read of ctl: from 0 on the list of keys of this moment, which the fid then keeps; else what the fid has.
    fn read_ctl(
        &mut self,
        call: Call,
        shared: &mut Shared,
        fid: u32,
        offset: u64,
        count: u32,
    ) -> Result<Reply, NoMemory>
        requires { count ≤ 8216 }
        ensures reply { IfOk result (λ reply. (done : List Deed) (conn : ℕ)
            → Keeps done conn self.old → shared.old.ring ≡ keys_of done
            → reply_bytes reply ≡ r_frame (under call.tag (r.Read (piece offset count
            (ctl_text done conn fid offset))))) }
        ensures keeps { OnOk result ((done : List Deed) (conn : ℕ) → Keeps done conn self.old
            → shared.old.ring ≡ keys_of done
            → Keeps (if offset == 0 then OfFids conn (Listed fid) ∷ done else done) conn self.new) }
        ensures phase { self.new.phase ≡ self.old.phase }
        ensures shared { shared.new ≡ shared.old }
        ensures err { OnErr result (SameKept self.old self.new) }
    {
        if offset == 0 {
            let text = shared.ring.text(call.alloc)?;
            let reply = read_reply(call, piece(text.as_slice(), 0, count))?;
            self.texts.insert(fid, text)?;
            return Ok(reply);
        }
        match self.texts.get(&fid) {
            Some(text) => read_reply(call, piece(text.as_slice(), offset, count)),
            None => read_reply(call, &[]),
        }
    }

    /// Read: of a directory, of ctl, of the list of protocols, of rpc, or of a file of lines.
    #[tactic(auto, unfolding(agent_history::specs::Requests::refusal, agent_history::specs::Requests::after, agent_history::specs::Requests::reply_of, file_tree::specs::Calls::fid_fault), using(crate::proofs::FidLemmas::shares_listing))]
    pub fn read(
        &mut self,
        call: Call,
        shared: &mut Shared,
        fid: u32,
        offset: u64,
        count: u32,
    ) -> Tried
        ensures { Tried call (t.Read fid offset count) self.old self.new shared.old shared.new
            result }
    {
        let state = self.fids.file_of(fid)?;
        if state.mode.is_none() {
            return Err(Refused::For(Refusal::NotOpen));
        }
        if !lets_read(state.mode) {
            return Err(Refused::For(Refusal::NotOpenForReading));
        }
        let most = effective(count, self.msize());
        match state.node {
            Node::Root | Node::Factotum => self.read_directory(call, fid, offset, most),
            Node::Ctl => Ok(Some(self.read_ctl(call, shared, fid, offset, most)?)),
            Node::Proto => Ok(Some(read_reply(call, piece(PROTOCOLS, offset, most))?)),
            Node::Rpc => read_rpc(call, shared, fid, most),
            Node::Confirm | Node::Needkey | Node::Log => {
                read_line(call, shared, state.node, fid, most)
            }
        }
    }

    /// Write: of ctl, whose lines are carried out up to the first that is refused, of rpc, which gets a request, or of a
    /// file of questions, one of which is replied to.
    #[tactic(auto, unfolding(agent_history::specs::Requests::refusal, agent_history::specs::Requests::after, agent_history::specs::Requests::reply_of, file_tree::specs::Calls::fid_fault))]
    pub fn write(&self, call: Call, shared: &mut Shared, fid: u32, content: &[u8]) -> Tried
        requires small { length content.now ≤ 8216 }
        requires room { shared.old.ring.ever_added + 8216 < 2 ^ 64 - 1 }
        ensures { (offset : ℕ)
            → Tried call (t.Write fid offset content.now) self.now self.now shared.old shared.new
            result }
    {
        let state = self.fids.file_of(fid)?;
        if state.mode.is_none() {
            return Err(Refused::For(Refusal::NotOpen));
        }
        if !lets_write(state.mode) {
            return Err(Refused::For(Refusal::NotOpenForWriting));
        }
        if is_rpc(state.node) {
            return write_rpc(call, shared, fid, content);
        }
        if let Some(kind) = kind_at(state.node) {
            return write_answer(call, shared, kind, content);
        }
        Ok(Some(write_lines(call, shared, content)?))
    }
}

// Carries the lines of a write of ctl out, and says how many bytes were written, or which line was refused first.
fn write_lines(call: Call, shared: &mut Shared, content: &[u8]) -> Result<Reply, NoMemory>
    requires small { length content.now ≤ 8216 }
    requires room { shared.old.ring.ever_added + 8216 < 2 ^ 64 - 1 }
    ensures said { IfOk result (λ reply. reply_bytes reply
        ≡ r_frame (under call.tag (written content.now (lines_fault shared.old.ring
        (lines_of content.now))))) }
    ensures keys { OnOk result (shared.new.ring
        ≡ after_lines shared.old.ring (lines_of content.now)) }
    ensures holders { shared.new.holders ≡ shared.old.holders }
    ensures mailboxes { shared.new.mailboxes ≡ shared.old.mailboxes }
    ensures talks { OnOk result ((done : List Deed) (conn : ℕ) → Logs done shared.old.talks
        → Logs (switching (switches shared.old.ring (lines_of content.now)) conn done)
        shared.new.talks) }
    ensures few { shared.new.ring.ever_added ≤ shared.old.ring.ever_added + 8216 }
    ensures err { OnErr result (shared.new ≡ shared.old) }
{
    let reply = write_reply(call, content)?;
    let written = shared.ring.write(call.alloc, content)?;
    switch(&mut shared.talks, written.switches);
    match written.fault {
        None => Ok(reply),
        Some(fault) => Ok(Refusal::OfLine(fault).reply(call.tag)),
    }
}

// The further lines of the log are switched, where lines of ctl do that an odd number of times.
fn switch(talks: &mut Conversations, switches: bool)
    ensures { (done : List Deed) (conn : ℕ) → Logs done talks.old
        → Logs (switching switches conn done) talks.new }
{
    if switches {
        talks.switch();
    }
}
