// Replies, written field by field behind what the output holds.
ghost use Rattle.std.specs.Prelude.{◌≡◌, ◌+◌, ◌-◌, ◌≤◌, ◌<◌, ◌^◌, ◌++◌, [], length, OnOk, OnErr};
ghost use Rattle.std.specs.List.{flat_map};
ghost use Rattle.std.specs.Int.{w16, w32, to_le_bytes};
ghost use Rattle.wire_base.specs.Readers.{counted, spelled, listing};
ghost use Rattle.nine.specs.Messages.{frame, qid_text, r_given, r_frame};
ghost use Rattle.nine.specs.declared.message.RBody.TheVariants as r;
ghost use Rattle.nine.specs.Encoded.{Extends};

use crate::head::put_head;
use crate::message::{RBody, RMsg};
use crate::qid::Qid;
use wire_base::{Bytes, NoMemory, put_str, put_u16, put_u32};

// type[1] vers[4] path[8]
fn put_qid(qid: &Qid, out: &mut Bytes) -> Result<(), NoMemory>
    ensures ok { OnOk result (out.new ≡ out.old ++ qid_text qid.now) }
    ensures err { OnErr result (out.new ≡ out.old) }
{
    let kind = qid.kind.to_le_bytes();
    let vers = qid.vers.to_le_bytes();
    let path = qid.path.to_le_bytes();
    out.append(&[
        kind[0], vers[0], vers[1], vers[2], vers[3], path[0], path[1], path[2], path[3], path[4],
        path[5], path[6], path[7],
    ])
}

// The qids, one behind the other.
fn put_qids(qids: &[Qid], out: &mut Bytes) -> Result<(), NoMemory>
    ensures ok { OnOk result (out.new ≡ out.old ++ flat_map qid_text qids.now) }
    ensures err { OnErr result (Extends out.old out.new) }
{
    for qid in qids {
        put_qid(qid, out)?;
    }
    Ok(())
}

fn spell_version(tag: u16, msize: u32, version: &[u8], out: &mut Bytes) -> Result<(), NoMemory>
    requires { length version.now < 2 ^ 16 }
    ensures ok { OnOk result (out.new
        ≡ out.old ++ frame 101 tag (to_le_bytes w32 msize ++ spelled version.now)) }
    ensures err { OnErr result (Extends out.old out.new) }
{
    put_head(6 + version.len(), 101, tag, out)?;
    put_u32(msize, out)?;
    put_str(version, out)
}

fn spell_error(tag: u16, ename: &[u8], out: &mut Bytes) -> Result<(), NoMemory>
    requires { length ename.now < 2 ^ 16 }
    ensures ok { OnOk result (out.new ≡ out.old ++ frame 107 tag (spelled ename.now)) }
    ensures err { OnErr result (Extends out.old out.new) }
{
    put_head(2 + ename.len(), 107, tag, out)?;
    put_str(ename, out)
}

// A reply of this type that is a qid.
fn spell_qid(kind: u8, tag: u16, qid: &Qid, out: &mut Bytes) -> Result<(), NoMemory>
    ensures ok { OnOk result (out.new ≡ out.old ++ frame kind tag (qid_text qid.now)) }
    ensures err { OnErr result (Extends out.old out.new) }
{
    put_head(13, kind, tag, out)?;
    put_qid(qid, out)
}

fn spell_walk(tag: u16, qids: &[Qid], out: &mut Bytes) -> Result<(), NoMemory>
    requires { length qids.now ≤ 16 }
    ensures ok { OnOk result (out.new ≡ out.old ++ frame 111 tag (listing w16 qid_text qids.now)) }
    ensures err { OnErr result (Extends out.old out.new) }
{
    put_head(2 + 13 * qids.len(), 111, tag, out)?;
    put_u16(qids.len() as u16, out)?;
    put_qids(qids, out)
}

// A reply of this type that is a qid and the unit of reads and writes.
fn spell_opened(kind: u8, tag: u16, qid: &Qid, iounit: u32, out: &mut Bytes) -> Result<(), NoMemory>
    ensures ok { OnOk result (out.new
        ≡ out.old ++ frame kind tag (qid_text qid.now ++ to_le_bytes w32 iounit)) }
    ensures err { OnErr result (Extends out.old out.new) }
{
    put_head(17, kind, tag, out)?;
    put_qid(qid, out)?;
    put_u32(iounit, out)
}

fn spell_read(tag: u16, content: &[u8], out: &mut Bytes) -> Result<(), NoMemory>
    requires { length content.now < 2 ^ 32 - 11 }
    ensures ok { OnOk result (out.new ≡ out.old ++ frame 117 tag (counted w32 content.now)) }
    ensures err { OnErr result (Extends out.old out.new) }
{
    put_head(4 + content.len(), 117, tag, out)?;
    put_u32(content.len() as u32, out)?;
    out.append(content)
}

fn spell_write(tag: u16, count: u32, out: &mut Bytes) -> Result<(), NoMemory>
    ensures ok { OnOk result (out.new ≡ out.old ++ frame 119 tag (to_le_bytes w32 count)) }
    ensures err { OnErr result (Extends out.old out.new) }
{
    put_head(4, 119, tag, out)?;
    put_u32(count, out)
}

fn spell_stat(tag: u16, stat: &[u8], out: &mut Bytes) -> Result<(), NoMemory>
    requires { length stat.now < 2 ^ 16 }
    ensures ok { OnOk result (out.new ≡ out.old ++ frame 125 tag (counted w16 stat.now)) }
    ensures err { OnErr result (Extends out.old out.new) }
{
    put_head(2 + stat.len(), 125, tag, out)?;
    put_u16(stat.len() as u16, out)?;
    out.append(stat)
}

// A reply of this type without fields.
fn spell_bare(kind: u8, tag: u16, out: &mut Bytes) -> Result<(), NoMemory>
    ensures ok { OnOk result (out.new ≡ out.old ++ frame kind tag []) }
    ensures err { OnErr result (Extends out.old out.new) }
{
    put_head(0, kind, tag, out)
}

/// Appends the reply that agrees to a version.
pub fn put_version(tag: u16, msize: u32, version: &[u8], out: &mut Bytes) -> Result<(), NoMemory>
    requires { length version.now < 2 ^ 16 }
    ensures ok { OnOk result (out.new
        ≡ out.old ++ r_frame (record { tag = tag; body = r.Version msize version.now })) }
    ensures err { OnErr result (out.new ≡ out.old) }
{
    let before = out.len();
    let done = spell_version(tag, msize, version, out);
    out.undo_on_err(before, done)
}

/// Appends the reply that names the file over which the user is authenticated.
pub fn put_auth(tag: u16, aqid: &Qid, out: &mut Bytes) -> Result<(), NoMemory>
    ensures ok { OnOk result (out.new
        ≡ out.old ++ r_frame (record { tag = tag; body = r.Auth aqid.now })) }
    ensures err { OnErr result (out.new ≡ out.old) }
{
    let before = out.len();
    let done = spell_qid(103, tag, aqid, out);
    out.undo_on_err(before, done)
}

/// Appends the reply to an attach.
pub fn put_attach(tag: u16, qid: &Qid, out: &mut Bytes) -> Result<(), NoMemory>
    ensures ok { OnOk result (out.new
        ≡ out.old ++ r_frame (record { tag = tag; body = r.Attach qid.now })) }
    ensures err { OnErr result (out.new ≡ out.old) }
{
    let before = out.len();
    let done = spell_qid(105, tag, qid, out);
    out.undo_on_err(before, done)
}

/// Appends the reply that says why a request was refused.
pub fn put_error(tag: u16, ename: &[u8], out: &mut Bytes) -> Result<(), NoMemory>
    requires { length ename.now < 2 ^ 16 }
    ensures ok { OnOk result (out.new
        ≡ out.old ++ r_frame (record { tag = tag; body = r.Error ename.now })) }
    ensures err { OnErr result (out.new ≡ out.old) }
{
    let before = out.len();
    let done = spell_error(tag, ename, out);
    out.undo_on_err(before, done)
}

/// Appends the reply that a request is given up.
pub fn put_flush(tag: u16, out: &mut Bytes) -> Result<(), NoMemory>
    ensures ok { OnOk result (out.new ≡ out.old ++ r_frame (record { tag = tag; body = r.Flush })) }
    ensures err { OnErr result (out.new ≡ out.old) }
{
    let before = out.len();
    let done = spell_bare(109, tag, out);
    out.undo_on_err(before, done)
}

/// Appends the reply that names the files that a walk came through.
pub fn put_walk(tag: u16, qids: &[Qid], out: &mut Bytes) -> Result<(), NoMemory>
    requires { length qids.now ≤ 16 }
    ensures ok { OnOk result (out.new
        ≡ out.old ++ r_frame (record { tag = tag; body = r.Walk qids.now })) }
    ensures err { OnErr result (out.new ≡ out.old) }
{
    let before = out.len();
    let done = spell_walk(tag, qids, out);
    out.undo_on_err(before, done)
}

/// Appends the reply to an open.
pub fn put_open(tag: u16, qid: &Qid, iounit: u32, out: &mut Bytes) -> Result<(), NoMemory>
    ensures ok { OnOk result (out.new
        ≡ out.old ++ r_frame (record { tag = tag; body = r.Open qid.now iounit })) }
    ensures err { OnErr result (out.new ≡ out.old) }
{
    let before = out.len();
    let done = spell_opened(113, tag, qid, iounit, out);
    out.undo_on_err(before, done)
}

/// Appends the reply to a create.
pub fn put_create(tag: u16, qid: &Qid, iounit: u32, out: &mut Bytes) -> Result<(), NoMemory>
    ensures ok { OnOk result (out.new
        ≡ out.old ++ r_frame (record { tag = tag; body = r.Create qid.now iounit })) }
    ensures err { OnErr result (out.new ≡ out.old) }
{
    let before = out.len();
    let done = spell_opened(115, tag, qid, iounit, out);
    out.undo_on_err(before, done)
}

/// Appends the reply that hands over what was read.
pub fn put_read(tag: u16, content: &[u8], out: &mut Bytes) -> Result<(), NoMemory>
    requires { length content.now < 2 ^ 32 - 11 }
    ensures ok { OnOk result (out.new
        ≡ out.old ++ r_frame (record { tag = tag; body = r.Read content.now })) }
    ensures err { OnErr result (out.new ≡ out.old) }
{
    let before = out.len();
    let done = spell_read(tag, content, out);
    out.undo_on_err(before, done)
}

/// Appends the reply that says how many bytes were written.
pub fn put_write(tag: u16, count: u32, out: &mut Bytes) -> Result<(), NoMemory>
    ensures ok { OnOk result (out.new
        ≡ out.old ++ r_frame (record { tag = tag; body = r.Write count })) }
    ensures err { OnErr result (out.new ≡ out.old) }
{
    let before = out.len();
    let done = spell_write(tag, count, out);
    out.undo_on_err(before, done)
}

/// Appends the reply that a fid was given up.
pub fn put_clunk(tag: u16, out: &mut Bytes) -> Result<(), NoMemory>
    ensures ok { OnOk result (out.new ≡ out.old ++ r_frame (record { tag = tag; body = r.Clunk })) }
    ensures err { OnErr result (out.new ≡ out.old) }
{
    let before = out.len();
    let done = spell_bare(121, tag, out);
    out.undo_on_err(before, done)
}

/// Appends the reply that a file was removed.
pub fn put_remove(tag: u16, out: &mut Bytes) -> Result<(), NoMemory>
    ensures ok { OnOk result (out.new
        ≡ out.old ++ r_frame (record { tag = tag; body = r.Remove })) }
    ensures err { OnErr result (out.new ≡ out.old) }
{
    let before = out.len();
    let done = spell_bare(123, tag, out);
    out.undo_on_err(before, done)
}

/// Appends the reply that hands over a stat.
pub fn put_stat(tag: u16, stat: &[u8], out: &mut Bytes) -> Result<(), NoMemory>
    requires { length stat.now < 2 ^ 16 }
    ensures ok { OnOk result (out.new
        ≡ out.old ++ r_frame (record { tag = tag; body = r.Stat stat.now })) }
    ensures err { OnErr result (out.new ≡ out.old) }
{
    let before = out.len();
    let done = spell_stat(tag, stat, out);
    out.undo_on_err(before, done)
}

/// Appends the reply that a stat was changed.
pub fn put_wstat(tag: u16, out: &mut Bytes) -> Result<(), NoMemory>
    ensures ok { OnOk result (out.new ≡ out.old ++ r_frame (record { tag = tag; body = r.Wstat })) }
    ensures err { OnErr result (out.new ≡ out.old) }
{
    let before = out.len();
    let done = spell_bare(127, tag, out);
    out.undo_on_err(before, done)
}

/// Appends the one spelling of a reply.
///
/// Its strings have at most 65,535 bytes and are UTF-8 without NUL, it has at most 16 qids, a stat has at most 65,535
/// bytes, and its frame is shorter than 2^32 bytes.
pub fn encode_r(m: &RMsg, out: &mut Bytes) -> Result<(), NoMemory>
    requires { r_given m.now.body }
    ensures ok { OnOk result (out.new ≡ out.old ++ r_frame m.now) }
    ensures err { OnErr result (out.new ≡ out.old) }
{
    let tag = m.tag;
    match &m.body {
        RBody::Version { msize, version } => put_version(tag, *msize, version.as_slice(), out),
        RBody::Auth { aqid } => put_auth(tag, aqid, out),
        RBody::Attach { qid } => put_attach(tag, qid, out),
        RBody::Error { ename } => put_error(tag, ename.as_slice(), out),
        RBody::Flush => put_flush(tag, out),
        RBody::Walk { wqid } => put_walk(tag, wqid.as_slice(), out),
        RBody::Open { qid, iounit } => put_open(tag, qid, *iounit, out),
        RBody::Create { qid, iounit } => put_create(tag, qid, *iounit, out),
        RBody::Read { content } => put_read(tag, content.as_slice(), out),
        RBody::Write { count } => put_write(tag, *count, out),
        RBody::Clunk => put_clunk(tag, out),
        RBody::Remove => put_remove(tag, out),
        RBody::Stat { stat } => put_stat(tag, stat.as_slice(), out),
        RBody::Wstat => put_wstat(tag, out),
    }
}
