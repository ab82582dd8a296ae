// The public calls of `mailboxes`.
ghost use Rattle.std.specs.Prelude.{◌≡◌, ◌∷◌, [], Option, drop, IfNone, IfSome, List, false, length, ◌==◌, ◌&&◌, find, option_map, ℕ, ◌++◌, OnOk, OnErr};
ghost use Rattle.agent_history.specs.Deeds.{Deed, OfReplies, Taken, was_hung, Settled, OfFids, Clunked, Flushed, Versioned, OfConnection, Hung};
ghost use Rattle.agent_history.specs.Replies.{waits_under, waits, is_unsettled};
ghost use Rattle.mailboxes.specs.Deliveries.{replies_at, Delivers, read_of, SamePlace, SameRoom, StillNone, under, KeepsNone};
ghost use Rattle.mailboxes.specs.Kept.{reply_bytes};
ghost use Rattle.nine.specs.Messages.{r_frame};
ghost use Rattle.nine.specs.declared.message.RBody.{RBody};

use mailboxes::{Mailboxes, Read, Reply};
use wire_base::{Bytes, NoMemory};

/// As `Mailboxes::front`.
pub fn mailboxes_front<'x>(mailboxes: &'x Mailboxes, conn: u64) -> Option<&'x Reply>
    ensures some { IfSome result (λ reply. replies_at mailboxes.now conn
        ≡ reply_bytes reply.now ∷ drop 1 (replies_at mailboxes.now conn)) }
    ensures none { IfNone result (replies_at mailboxes.now conn ≡ []) }
{
    mailboxes.front(conn)
}

/// As `Mailboxes::pop`.
pub fn mailboxes_pop(mailboxes: &mut Mailboxes, conn: u64)
    ensures delivers { (done : List Deed) → Delivers done mailboxes.old
        → Delivers (OfReplies conn Taken ∷ done) mailboxes.new }
    ensures fewer { replies_at mailboxes.new conn ≡ drop 1 (replies_at mailboxes.old conn) }
{
    mailboxes.pop(conn)
}

/// As `Mailboxes::has_tag`.
pub fn mailboxes_has_tag(mailboxes: &Mailboxes, conn: u64, tag: u16) -> bool
    ensures { (done : List Deed) → was_hung done conn ≡ false → Delivers done mailboxes.now
        → result ≡ waits_under done conn tag }
{
    mailboxes.has_tag(conn, tag)
}

/// As `Mailboxes::count_waits`.
pub fn mailboxes_count_waits(mailboxes: &Mailboxes, conn: u64) -> usize
    ensures { (done : List Deed) → was_hung done conn ≡ false → Delivers done mailboxes.now
        → result ≡ length (waits done conn) }
{
    mailboxes.count_waits(conn)
}

/// As `Mailboxes::reader`.
pub fn mailboxes_reader(mailboxes: &Mailboxes, conn: u64, fid: u32) -> Option<Read>
    ensures { (done : List Deed) → was_hung done conn ≡ false → Delivers done mailboxes.now
        → option_map read_of (find (λ wait. wait.fid == fid && is_unsettled wait)
        (waits done conn)) ≡ result }
{
    mailboxes.reader(conn, fid)
}

/// As `Mailboxes::settle`.
pub fn mailboxes_settle(mailboxes: &mut Mailboxes, conn: u64, tag: u16, reply: Reply)
    ensures delivers { (done : List Deed) (body : RBody) → was_hung done conn ≡ false
        → reply_bytes reply ≡ r_frame (under tag body) → Delivers done mailboxes.old
        → Delivers (OfReplies conn (Settled tag body) ∷ done) mailboxes.new }
    ensures room { SameRoom mailboxes.old mailboxes.new }
    ensures place { SamePlace mailboxes.old mailboxes.new }
    ensures none { StillNone mailboxes.old mailboxes.new }
{
    mailboxes.settle(conn, tag, reply)
}

/// As `Mailboxes::give_up`.
pub fn mailboxes_give_up(mailboxes: &mut Mailboxes, conn: u64, fid: u32)
    ensures delivers { (done : List Deed) → was_hung done conn ≡ false → Delivers done mailboxes.old
        → Delivers (OfFids conn (Clunked fid) ∷ done) mailboxes.new }
    ensures room { SameRoom mailboxes.old mailboxes.new }
{
    mailboxes.give_up(conn, fid)
}

/// As `Mailboxes::flush`.
pub fn mailboxes_flush(mailboxes: &mut Mailboxes, conn: u64, tag: u16)
    ensures delivers { (done : List Deed) → Delivers done mailboxes.old
        → Delivers (OfReplies conn (Flushed tag) ∷ done) mailboxes.new }
    ensures room { SameRoom mailboxes.old mailboxes.new }
{
    mailboxes.flush(conn, tag)
}

/// As `Mailboxes::drop_waits`.
pub fn mailboxes_drop_waits(mailboxes: &mut Mailboxes, conn: u64)
    ensures delivers { (done : List Deed) (msize : Option ℕ) → Delivers done mailboxes.old
        → Delivers (OfFids conn (Versioned msize) ∷ done) mailboxes.new }
    ensures room { SameRoom mailboxes.old mailboxes.new }
{
    mailboxes.drop_waits(conn)
}

/// As `Mailboxes::leave`.
pub fn mailboxes_leave(mailboxes: &mut Mailboxes, conn: u64)
    ensures delivers { (done : List Deed) → Delivers done mailboxes.old
        → Delivers (OfConnection conn Hung ∷ done) mailboxes.new }
    ensures none { KeepsNone mailboxes.new conn }
{
    mailboxes.leave(conn)
}

/// As `Reply::put`.
pub fn reply_put(reply: &Reply, out: &mut Bytes) -> Result<(), NoMemory>
    ensures ok { OnOk result (out.new ≡ out.old ++ reply_bytes reply.now) }
    ensures err { OnErr result (out.new ≡ out.old) }
{
    reply.put(out)
}
