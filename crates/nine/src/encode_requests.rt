// Requests, written field by field behind what the output holds.
ghost use Rattle.std.specs.Prelude.{◌≡◌, ◌+◌, ◌-◌, ◌<◌, ◌^◌, ◌++◌, length, take, OnOk, OnErr};
ghost use Rattle.std.specs.List.{flat_map, AllByRecursion};
ghost use Rattle.std.specs.Int.{w8, w16, w32, w64, to_le_bytes};
ghost use Rattle.wire_base.specs.Readers.{counted, spelled, listing, FitsList, IsString};
ghost use Rattle.nine.specs.Messages.{frame, t_given, t_frame};
ghost use Rattle.nine.specs.declared.message.TBody.TheVariants as t;
ghost use Rattle.nine.specs.Encoded.{Extends};

use crate::head::{put_head, put_u8};
use crate::message::{TBody, TMsg};
use wire_base::{Bytes, NoMemory, Text, put_str, put_u16, put_u32, put_u64};

// How many bytes the names take, each with its length.
fn names_len(names: &[Text]) -> usize
    requires { length (flat_map spelled names.now) < 2 ^ 32 }
    ensures { result ≡ length (flat_map spelled names.now) }
{
    let mut total = 0;
    for name in names {
        total += 2 + name.len();
    }
    total
}

// The names, one behind the other.
fn put_names(names: &[Text], out: &mut Bytes) -> Result<(), NoMemory>
    requires { AllByRecursion IsString names.now }
    ensures ok { OnOk result (out.new ≡ out.old ++ flat_map spelled names.now) }
    ensures err { OnErr result (Extends out.old out.new) }
{
    for name in names {
        put_str(name.as_slice(), out)?;
    }
    Ok(())
}

fn spell_version(tag: u16, msize: u32, version: &[u8], out: &mut Bytes) -> Result<(), NoMemory>
    requires { length version.now < 2 ^ 16 }
    ensures ok { OnOk result (out.new
        ≡ out.old ++ frame 100 tag (to_le_bytes w32 msize ++ spelled version.now)) }
    ensures err { OnErr result (Extends out.old out.new) }
{
    put_head(6 + version.len(), 100, tag, out)?;
    put_u32(msize, out)?;
    put_str(version, out)
}

fn spell_auth(
    tag: u16,
    afid: u32,
    uname: &[u8],
    aname: &[u8],
    out: &mut Bytes,
) -> Result<(), NoMemory>
    requires uname { length uname.now < 2 ^ 16 }
    requires aname { length aname.now < 2 ^ 16 }
    ensures ok { OnOk result (out.new
        ≡ out.old ++ frame 102 tag (to_le_bytes w32 afid ++ spelled uname.now
        ++ spelled aname.now)) }
    ensures err { OnErr result (Extends out.old out.new) }
{
    put_head(8 + uname.len() + aname.len(), 102, tag, out)?;
    put_u32(afid, out)?;
    put_str(uname, out)?;
    put_str(aname, out)
}

fn spell_attach(
    tag: u16,
    fid: u32,
    afid: u32,
    uname: &[u8],
    aname: &[u8],
    out: &mut Bytes,
) -> Result<(), NoMemory>
    requires uname { length uname.now < 2 ^ 16 }
    requires aname { length aname.now < 2 ^ 16 }
    ensures ok { OnOk result (out.new
        ≡ out.old ++ frame 104 tag (to_le_bytes w32 fid ++ to_le_bytes w32 afid ++ spelled uname.now
        ++ spelled aname.now)) }
    ensures err { OnErr result (Extends out.old out.new) }
{
    put_head(12 + uname.len() + aname.len(), 104, tag, out)?;
    put_u32(fid, out)?;
    put_u32(afid, out)?;
    put_str(uname, out)?;
    put_str(aname, out)
}

fn spell_flush(tag: u16, oldtag: u16, out: &mut Bytes) -> Result<(), NoMemory>
    ensures ok { OnOk result (out.new ≡ out.old ++ frame 108 tag (to_le_bytes w16 oldtag)) }
    ensures err { OnErr result (Extends out.old out.new) }
{
    put_head(2, 108, tag, out)?;
    put_u16(oldtag, out)
}

fn spell_walk(
    tag: u16,
    fid: u32,
    newfid: u32,
    names: &[Text],
    out: &mut Bytes,
) -> Result<(), NoMemory>
    requires { FitsList 16 IsString names.now }
    ensures ok { OnOk result (out.new
        ≡ out.old ++ frame 110 tag (to_le_bytes w32 fid ++ to_le_bytes w32 newfid
        ++ listing w16 spelled names.now)) }
    ensures err { OnErr result (Extends out.old out.new) }
{
    put_head(10 + names_len(names), 110, tag, out)?;
    put_u32(fid, out)?;
    put_u32(newfid, out)?;
    put_u16(names.len() as u16, out)?;
    put_names(names, out)
}

fn spell_open(tag: u16, fid: u32, mode: u8, out: &mut Bytes) -> Result<(), NoMemory>
    ensures ok { OnOk result (out.new
        ≡ out.old ++ frame 112 tag (to_le_bytes w32 fid ++ to_le_bytes w8 mode)) }
    ensures err { OnErr result (Extends out.old out.new) }
{
    put_head(5, 112, tag, out)?;
    put_u32(fid, out)?;
    put_u8(mode, out)
}

fn spell_create(
    tag: u16,
    fid: u32,
    name: &[u8],
    perm: u32,
    mode: u8,
    out: &mut Bytes,
) -> Result<(), NoMemory>
    requires { length name.now < 2 ^ 16 }
    ensures ok { OnOk result (out.new
        ≡ out.old ++ frame 114 tag (to_le_bytes w32 fid ++ spelled name.now ++ to_le_bytes w32 perm
        ++ to_le_bytes w8 mode)) }
    ensures err { OnErr result (Extends out.old out.new) }
{
    put_head(11 + name.len(), 114, tag, out)?;
    put_u32(fid, out)?;
    put_str(name, out)?;
    put_u32(perm, out)?;
    put_u8(mode, out)
}

fn spell_read(tag: u16, fid: u32, offset: u64, count: u32, out: &mut Bytes) -> Result<(), NoMemory>
    ensures ok { OnOk result (out.new
        ≡ out.old ++ frame 116 tag (to_le_bytes w32 fid ++ to_le_bytes w64 offset
        ++ to_le_bytes w32 count)) }
    ensures err { OnErr result (Extends out.old out.new) }
{
    put_head(16, 116, tag, out)?;
    put_u32(fid, out)?;
    put_u64(offset, out)?;
    put_u32(count, out)
}

fn spell_write(
    tag: u16,
    fid: u32,
    offset: u64,
    content: &[u8],
    out: &mut Bytes,
) -> Result<(), NoMemory>
    requires { length content.now < 2 ^ 32 - 23 }
    ensures ok { OnOk result (out.new
        ≡ out.old ++ frame 118 tag (to_le_bytes w32 fid ++ to_le_bytes w64 offset
        ++ counted w32 content.now)) }
    ensures err { OnErr result (Extends out.old out.new) }
{
    put_head(16 + content.len(), 118, tag, out)?;
    put_u32(fid, out)?;
    put_u64(offset, out)?;
    put_u32(content.len() as u32, out)?;
    out.append(content)
}

// A request of this type that is a fid.
fn spell_fid(kind: u8, tag: u16, fid: u32, out: &mut Bytes) -> Result<(), NoMemory>
    ensures ok { OnOk result (out.new ≡ out.old ++ frame kind tag (to_le_bytes w32 fid)) }
    ensures err { OnErr result (Extends out.old out.new) }
{
    put_head(4, kind, tag, out)?;
    put_u32(fid, out)
}

fn spell_wstat(tag: u16, fid: u32, stat: &[u8], out: &mut Bytes) -> Result<(), NoMemory>
    requires { length stat.now < 2 ^ 16 }
    ensures ok { OnOk result (out.new
        ≡ out.old ++ frame 126 tag (to_le_bytes w32 fid ++ counted w16 stat.now)) }
    ensures err { OnErr result (Extends out.old out.new) }
{
    put_head(6 + stat.len(), 126, tag, out)?;
    put_u32(fid, out)?;
    put_u16(stat.len() as u16, out)?;
    out.append(stat)
}

// The request behind what stands; where memory runs out, some of it.
fn spell(m: &TMsg, out: &mut Bytes) -> Result<(), NoMemory>
    requires { t_given m.now.body }
    ensures ok { OnOk result (out.new ≡ out.old ++ t_frame m.now) }
    ensures err { OnErr result (Extends out.old out.new) }
{
    let tag = m.tag;
    match &m.body {
        TBody::Version { msize, version } => spell_version(tag, *msize, version.as_slice(), out),
        TBody::Auth { afid, uname, aname } => {
            spell_auth(tag, *afid, uname.as_slice(), aname.as_slice(), out)
        }
        TBody::Attach {
            fid,
            afid,
            uname,
            aname,
        } => spell_attach(tag, *fid, *afid, uname.as_slice(), aname.as_slice(), out),
        TBody::Flush { oldtag } => spell_flush(tag, *oldtag, out),
        TBody::Walk { fid, newfid, wname } => {
            spell_walk(tag, *fid, *newfid, wname.as_slice(), out)
        }
        TBody::Open { fid, mode } => spell_open(tag, *fid, *mode, out),
        TBody::Create {
            fid,
            name,
            perm,
            mode,
        } => spell_create(tag, *fid, name.as_slice(), *perm, *mode, out),
        TBody::Read { fid, offset, count } => spell_read(tag, *fid, *offset, *count, out),
        TBody::Write {
            fid,
            offset,
            content,
        } => spell_write(tag, *fid, *offset, content.as_slice(), out),
        TBody::Clunk { fid } => spell_fid(120, tag, *fid, out),
        TBody::Remove { fid } => spell_fid(122, tag, *fid, out),
        TBody::Stat { fid } => spell_fid(124, tag, *fid, out),
        TBody::Wstat { fid, stat } => spell_wstat(tag, *fid, stat.as_slice(), out),
    }
}

/// Appends the one spelling of a request.
///
/// Its strings have at most 65,535 bytes and are UTF-8 without NUL, it has at most 16 names, a stat has at most 65,535
/// bytes, and its frame is shorter than 2^32 bytes.
pub fn encode_t(m: &TMsg, out: &mut Bytes) -> Result<(), NoMemory>
    requires { t_given m.now.body }
    ensures ok { OnOk result (out.new ≡ out.old ++ t_frame m.now) }
    ensures err { OnErr result (out.new ≡ out.old) }
{
    let before = out.len();
    let done = spell(m, out);
    out.undo_on_err(before, done)
}
