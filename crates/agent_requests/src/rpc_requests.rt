// Reads and writes of rpc.
ghost use Rattle.std.specs.Prelude.{◌≡◌, ◌≤◌, ◌&&◌, List, ℕ, Ok, true, false, length, not, OnErr, OnOk, IfOk};
ghost use Rattle.talks.specs.Requests.{meant};
ghost use Rattle.agent_history.specs.Deeds.{Deed, was_hung};
ghost use Rattle.agent_history.specs.Requests.{has_answer, phase_of, stored, waits_enough};
ghost use Rattle.agent_history.specs.Conversations.{stands};
ghost use Rattle.nine.specs.declared.message.RBody.TheVariants as r;
ghost use Rattle.nine.specs.Messages.{r_frame};
ghost use Rattle.mailboxes.specs.Deliveries.{Delivers, SameRoom, under};
ghost use Rattle.mailboxes.specs.Kept.{reply_bytes};
ghost use Rattle.agent_requests.specs.Sharing.{SameShared, Shares};
ghost use Rattle.agent_requests.specs.Connections.{asked};
ghost use Rattle.agent_requests.specs.RpcRequests.{Answered, IsOpen, ReadTold, WriteTold, Requests};

use crate::call::Call;
use crate::fid_requests::USUAL_REPLY;
use crate::refused::{Refusal, Refused, Tried};
use crate::{Shared, spell_told};
use mailboxes::{Read, Reply};
use nine::put_write;
use std::alloc::Global;
use talks::{Request, RpcFault, parse_request};
use wire_base::{Bytes, NoMemory};

// How many reads of a connection may wait.
const MOST_WAITS: usize = 64;

/// Read of rpc: the request that is there is carried out, and its answer is read, or the read waits for it.
pub(crate) fn read_rpc(call: Call, shared: &mut Shared, fid: u32, count: u32) -> Tried
    requires { count ≤ 8216 }
    ensures told { (done : List Deed) → was_hung done call.conn ≡ false → Shares done shared.old
        → ReadTold done (asked call) fid count shared.new result }
    ensures ring { shared.new.ring ≡ shared.old.ring }
    ensures room { SameRoom shared.old.mailboxes shared.new.mailboxes }
    ensures same { OnErr result (SameShared shared.old shared.new) }
{
    if shared.mailboxes.has_fid(call.conn, fid) {
        return Err(Refused::For(Refusal::RpcBusy));
    }
    if shared.talks.talks.is_resting_at(call.conn, fid) {
        return Err(Refused::For(Refusal::NoRpcPending));
    }
    if is_crowded(shared, call.conn, fid) {
        return Err(Refused::For(Refusal::TooManyWaiting));
    }
    let Some(conv) = shared.talks.talks.conv_at(call.conn, fid) else {
        return Err(Refused::For(Refusal::NoRpcPending));
    };
    let read = Read {
        tag: call.tag,
        fid,
        count: count as u16,
    };
    Ok(read_talk(call, shared, conv, read)?)
}

// As many reads of the connection wait as may, and this one would have to.
fn is_crowded(shared: &Shared, conn: u64, fid: u32) -> bool
    ensures { (done : List Deed) → was_hung done conn ≡ false → Shares done shared.now
        → result ≡ (not (has_answer (phase_of done conn fid)) && waits_enough done conn) }
{
    if shared.talks.talks.has_answer_at(conn, fid) {
        return false;
    }
    waits_enough(shared, conn)
}

/// As many reads of the connection wait as may.
pub(crate) fn waits_enough(shared: &Shared, conn: u64) -> bool
    ensures { (done : List Deed) → was_hung done conn ≡ false
        → Delivers done shared.now.mailboxes → result ≡ waits_enough done conn }
{
    shared.mailboxes.count_waits(conn) >= MOST_WAITS
}

// The read of a conversation that stands, which nothing refuses.
fn read_talk(
    call: Call,
    shared: &mut Shared,
    conv: u64,
    read: Read,
) -> Result<Option<Reply>, NoMemory>
    requires { read.tag ≡ call.tag }
    ensures answered { IfOk result (λ reply. (done : List Deed) → was_hung done call.conn ≡ false
        → stands done conv ≡ true → Shares done shared.old
        → Answered done (asked call) read.fid read.count conv shared.new reply) }
    ensures ring { shared.new.ring ≡ shared.old.ring }
    ensures room { SameRoom shared.old.mailboxes shared.new.mailboxes }
    ensures same { OnErr result (SameShared shared.old shared.new) }
{
    shared.mailboxes.reserve_wait(call.alloc, call.conn)?;
    shared.carry_out(call.alloc, conv, call.word)?;
    match shared.tell(conv, u32::from(read.count)) {
        Some(told) => Ok(Some(spell_told(call.alloc, call.tag, read.count, told))),
        None => {
            shared.mailboxes.wait(call.conn, read);
            Ok(None)
        }
    }
}

/// Write of rpc: a request is there from now on, which the next read carries out.
pub(crate) fn write_rpc(call: Call, shared: &mut Shared, fid: u32, content: &[u8]) -> Tried
    requires { length content.now ≤ 8216 }
    ensures told { (done : List Deed) → Shares done shared.old
        → WriteTold done (asked call) fid content.now shared.new result }
    ensures ring { shared.new.ring ≡ shared.old.ring }
    ensures mail { shared.new.mailboxes ≡ shared.old.mailboxes }
    ensures same { OnErr result (SameShared shared.old shared.new) }
{
    if !shared.talks.talks.is_resting_at(call.conn, fid) {
        return Err(Refused::For(Refusal::RpcBusy));
    }
    let request = read_request(content)?;
    let reply = write_reply(call, content)?;
    let conv = shared.talks.talks.conv_at(call.conn, fid);
    store_at(shared, call.alloc, conv, request)?;
    Ok(Some(reply))
}

/// The reply that tells how many bytes were written.
pub(crate) fn write_reply(call: Call, content: &[u8]) -> Result<Reply, NoMemory>
    requires { length content.now ≤ 8216 }
    ensures { IfOk result (λ reply. reply_bytes reply
        ≡ r_frame (under call.tag (r.Write (length content.now)))) }
{
    let mut reply = Bytes::with_capacity(call.alloc, USUAL_REPLY)?;
    put_write(call.tag, content.len() as u32, &mut reply)?;
    Ok(Reply::Spelled(reply))
}

// A request is written on a conversation, where one is meant.
fn store_at(
    shared: &mut Shared,
    alloc: Global,
    conv: Option<u64>,
    request: Request<'_>,
) -> Result<(), NoMemory>
    ensures stored { OnOk result ((done : List Deed) → IsOpen done conv → Shares done shared.old
        → Shares (stored conv (Ok (meant request.entry)) done) shared.new) }
    ensures ring { shared.new.ring ≡ shared.old.ring }
    ensures mail { shared.new.mailboxes ≡ shared.old.mailboxes }
    ensures same { OnErr result (SameShared shared.old shared.new) }
{
    match conv {
        Some(conv) => shared.store(alloc, conv, request),
        None => Ok(()),
    }
}

// The request that is written.
fn read_request(content: &[u8]) -> Result<Request<'_>, Refused>
    ensures { Requests result content.now }
{
    match parse_request(content) {
        Ok(request) => Ok(request),
        Err(RpcFault::TooLong) => Err(Refused::For(Refusal::RpcTooLong)),
        Err(RpcFault::UnknownVerb) => Err(Refused::For(Refusal::UnknownRpcVerb)),
    }
}
