// Reads of the files of lines, and replies to questions: confirm, needkey and the log.
ghost use Rattle.std.specs.Prelude.{◌≡◌, ◌≤◌, List, true, false, length, OnErr};
ghost use Rattle.file_tree.specs.declared.tree.Node.{Node as FileNode};
ghost use Rattle.side_files.specs.Lines.{Nothing, found};
ghost use Rattle.agent_history.specs.Deeds.{Deed, was_hung};
ghost use Rattle.agent_history.specs.SideFiles.{kind_at, lines_in};
ghost use Rattle.mailboxes.specs.Deliveries.{SameRoom};
ghost use Rattle.agent_requests.specs.Sharing.{SameShared, Shares};
ghost use Rattle.agent_requests.specs.Connections.{asked};
ghost use Rattle.agent_requests.specs.LineRequests.{LineTold, ReplyTold};

use crate::Shared;
use crate::call::Call;
use crate::refused::{Refusal, Refused, Tried};
use crate::rpc_requests::{waits_enough, write_reply};
use file_tree::Node;
use mailboxes::{Read, Reply, ToldLine};
use side_files::{PromptKind, TooSmall, parse_reply};

/// Which questions a file is for.
pub(crate) fn kind_at(node: Node) -> Option<PromptKind>
    ensures { result ≡ kind_at node }
{
    match node {
        Node::Confirm => Some(PromptKind::Confirm),
        Node::Needkey => Some(PromptKind::Needkey),
        Node::Root | Node::Factotum | Node::Rpc | Node::Ctl | Node::Proto | Node::Log => None,
    }
}

/// Read of a file of lines: its first line is read, or the read waits for one.
pub(crate) fn read_line(call: Call, shared: &mut Shared, node: Node, fid: u32, count: u32) -> Tried
    requires { count ≤ 8216 }
    ensures told { (done : List Deed) → was_hung done call.conn ≡ false → Shares done shared.old
        → LineTold done (asked call) fid count node (found count (lines_in done node))
        shared.new result }
    ensures ring { shared.new.ring ≡ shared.old.ring }
    ensures room { SameRoom shared.old.mailboxes shared.new.mailboxes }
    ensures same { OnErr result (SameShared shared.old shared.new) }
{
    match shared.hand_out_line(node, count) {
        Ok(Some(line)) => Ok(Some(Reply::Line {
            tag: call.tag,
            line: ToldLine::new(line),
        })),
        Ok(None) => wait_for_line(call, shared, fid, count),
        Err(TooSmall) => Err(Refused::For(Refusal::ReadTooSmall)),
    }
}

// No line is there: the read waits for one, unless as many of its connection wait as may.
fn wait_for_line(call: Call, shared: &mut Shared, fid: u32, count: u32) -> Tried
    requires { count ≤ 8216 }
    ensures told { (done : List Deed) (node : FileNode) → was_hung done call.conn ≡ false
        → Shares done shared.old
        → LineTold done (asked call) fid count node Nothing shared.new result }
    ensures ring { shared.new.ring ≡ shared.old.ring }
    ensures room { SameRoom shared.old.mailboxes shared.new.mailboxes }
    ensures same { OnErr result (SameShared shared.old shared.new) }
{
    if waits_enough(shared, call.conn) {
        return Err(Refused::For(Refusal::TooManyWaiting));
    }
    let read = Read {
        tag: call.tag,
        fid,
        count: count as u16,
    };
    shared.mailboxes.reserve_wait(call.alloc, call.conn)?;
    shared.mailboxes.wait(call.conn, read);
    Ok(None)
}

/// Write of a file of questions: one is replied to and forgotten, and whoever asked it goes on.
pub(crate) fn write_answer(
    call: Call,
    shared: &mut Shared,
    kind: PromptKind,
    content: &[u8],
) -> Tried
    requires { length content.now ≤ 8216 }
    ensures told { (done : List Deed) → Shares done shared.old
        → ReplyTold done (asked call) kind content.now shared.new result }
    ensures ring { shared.new.ring ≡ shared.old.ring }
    ensures room { SameRoom shared.old.mailboxes shared.new.mailboxes }
    ensures same { OnErr result (SameShared shared.old shared.new) }
{
    let Some(answer) = parse_reply(call.alloc, content)? else {
        return Err(Refused::For(Refusal::BadReply));
    };
    let Some(conv) = shared.asker(kind, answer.tag) else {
        return Err(Refused::For(Refusal::UnknownTag));
    };
    let reply = write_reply(call, content)?;
    shared.reply(call.alloc, kind, answer.tag, conv, answer.agrees)?;
    Ok(Some(reply))
}
