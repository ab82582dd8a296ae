// The lines of requests.
ghost use Rattle.std.specs.Prelude.{◌≡◌, ◌++◌, OnOk, OnErr, codes};
ghost use Rattle.nine.specs.Encoded.{Extends};
ghost use Rattle.std.specs.List.{flat_map};
ghost use Rattle.nine_print.specs.Values.{number_text, fid_text, perm_text, string_text, content_text};
ghost use Rattle.nine_print.specs.Lines.{names_text, t_word, t_shown, t_line};

use crate::value::{put_content, put_fid, put_number, put_perm, put_string, put_tag};
use nine::{TBody, TMsg};
use std::alloc::Global;
use wire_base::{Bytes, NoMemory, Text};

// Strings, each behind a blank.
fn put_strings(alloc: Global, names: &[Text], out: &mut Bytes) -> Result<(), NoMemory>
    ensures ok { OnOk result (out.new ≡ out.old ++ flat_map (string_text (codes " ")) names.now) }
    ensures err { OnErr result (Extends out.old out.new) }
{
    for name in names {
        put_string(alloc, b" ", name.as_slice(), out)?;
    }
    Ok(())
}

#[tactic(auto, unfolding(crate::specs::Lines::names_text))]
fn put_names(alloc: Global, names: &[Text], out: &mut Bytes) -> Result<(), NoMemory>
    ensures ok { OnOk result (out.new ≡ out.old ++ names_text names.now) }
    ensures err { OnErr result (Extends out.old out.new) }
{
    put_number(alloc, b" nwname ", names.len() as u64, out)?;
    put_strings(alloc, names, out)
}

pub(crate) fn put_version(
    alloc: Global,
    msize: u32,
    version: &[u8],
    out: &mut Bytes,
) -> Result<(), NoMemory>
    ensures ok { OnOk result (out.new
        ≡ out.old ++ (number_text (codes " msize ") msize
        ++ string_text (codes " version ") version.now)) }
    ensures err { OnErr result (Extends out.old out.new) }
{
    put_number(alloc, b" msize ", msize as u64, out)?;
    put_string(alloc, b" version ", version, out)
}

fn put_auth(
    alloc: Global,
    afid: u32,
    uname: &[u8],
    aname: &[u8],
    out: &mut Bytes,
) -> Result<(), NoMemory>
    ensures ok { OnOk result (out.new
        ≡ out.old ++ (fid_text (codes " afid ") afid ++ string_text (codes " uname ") uname.now
        ++ string_text (codes " aname ") aname.now)) }
    ensures err { OnErr result (Extends out.old out.new) }
{
    put_fid(alloc, b" afid ", afid, out)?;
    put_string(alloc, b" uname ", uname, out)?;
    put_string(alloc, b" aname ", aname, out)
}

fn put_attach(
    alloc: Global,
    fid: u32,
    afid: u32,
    uname: &[u8],
    aname: &[u8],
    out: &mut Bytes,
) -> Result<(), NoMemory>
    ensures ok { OnOk result (out.new
        ≡ out.old ++ (fid_text (codes " fid ") fid ++ fid_text (codes " afid ") afid
        ++ string_text (codes " uname ") uname.now ++ string_text (codes " aname ") aname.now)) }
    ensures err { OnErr result (Extends out.old out.new) }
{
    put_fid(alloc, b" fid ", fid, out)?;
    put_fid(alloc, b" afid ", afid, out)?;
    put_string(alloc, b" uname ", uname, out)?;
    put_string(alloc, b" aname ", aname, out)
}

fn put_walk(
    alloc: Global,
    fid: u32,
    newfid: u32,
    names: &[Text],
    out: &mut Bytes,
) -> Result<(), NoMemory>
    ensures ok { OnOk result (out.new
        ≡ out.old ++ (fid_text (codes " fid ") fid ++ fid_text (codes " newfid ") newfid
        ++ names_text names.now)) }
    ensures err { OnErr result (Extends out.old out.new) }
{
    put_fid(alloc, b" fid ", fid, out)?;
    put_fid(alloc, b" newfid ", newfid, out)?;
    put_names(alloc, names, out)
}

fn put_open(alloc: Global, fid: u32, mode: u8, out: &mut Bytes) -> Result<(), NoMemory>
    ensures ok { OnOk result (out.new
        ≡ out.old ++ (fid_text (codes " fid ") fid ++ number_text (codes " mode ") mode)) }
    ensures err { OnErr result (Extends out.old out.new) }
{
    put_fid(alloc, b" fid ", fid, out)?;
    put_number(alloc, b" mode ", mode as u64, out)
}

fn put_create(
    alloc: Global,
    fid: u32,
    name: &[u8],
    perm: u32,
    mode: u8,
    out: &mut Bytes,
) -> Result<(), NoMemory>
    ensures ok { OnOk result (out.new
        ≡ out.old ++ (fid_text (codes " fid ") fid ++ string_text (codes " name ") name.now
        ++ perm_text (codes " perm ") perm ++ number_text (codes " mode ") mode)) }
    ensures err { OnErr result (Extends out.old out.new) }
{
    put_fid(alloc, b" fid ", fid, out)?;
    put_string(alloc, b" name ", name, out)?;
    put_perm(alloc, b" perm ", perm, out)?;
    put_number(alloc, b" mode ", mode as u64, out)
}

fn put_read(
    alloc: Global,
    fid: u32,
    offset: u64,
    count: u32,
    out: &mut Bytes,
) -> Result<(), NoMemory>
    ensures ok { OnOk result (out.new
        ≡ out.old ++ (fid_text (codes " fid ") fid ++ number_text (codes " offset ") offset
        ++ number_text (codes " count ") count)) }
    ensures err { OnErr result (Extends out.old out.new) }
{
    put_fid(alloc, b" fid ", fid, out)?;
    put_number(alloc, b" offset ", offset, out)?;
    put_number(alloc, b" count ", count as u64, out)
}

fn put_write(
    alloc: Global,
    secrets: bool,
    fid: u32,
    offset: u64,
    content: &[u8],
    out: &mut Bytes,
) -> Result<(), NoMemory>
    ensures ok { OnOk result (out.new
        ≡ out.old ++ (fid_text (codes " fid ") fid ++ number_text (codes " offset ") offset
        ++ content_text secrets (codes " count ") content.now)) }
    ensures err { OnErr result (Extends out.old out.new) }
{
    put_fid(alloc, b" fid ", fid, out)?;
    put_number(alloc, b" offset ", offset, out)?;
    put_content(alloc, secrets, b" count ", content, out)
}

fn put_wstat(
    alloc: Global,
    secrets: bool,
    fid: u32,
    stat: &[u8],
    out: &mut Bytes,
) -> Result<(), NoMemory>
    ensures ok { OnOk result (out.new
        ≡ out.old ++ (fid_text (codes " fid ") fid ++ content_text secrets (codes " stat ") stat.now)) }
    ensures err { OnErr result (Extends out.old out.new) }
{
    put_fid(alloc, b" fid ", fid, out)?;
    put_content(alloc, secrets, b" stat ", stat, out)
}

fn word(body: &TBody) -> &'static [u8]
    ensures { result.now ≡ t_word body.now }
{
    match body {
        TBody::Version { .. } => b"Tversion",
        TBody::Auth { .. } => b"Tauth",
        TBody::Attach { .. } => b"Tattach",
        TBody::Flush { .. } => b"Tflush",
        TBody::Walk { .. } => b"Twalk",
        TBody::Open { .. } => b"Topen",
        TBody::Create { .. } => b"Tcreate",
        TBody::Read { .. } => b"Tread",
        TBody::Write { .. } => b"Twrite",
        TBody::Clunk { .. } => b"Tclunk",
        TBody::Remove { .. } => b"Tremove",
        TBody::Stat { .. } => b"Tstat",
        TBody::Wstat { .. } => b"Twstat",
    }
}

fn put_fields(alloc: Global, secrets: bool, body: &TBody, out: &mut Bytes) -> Result<(), NoMemory>
    ensures ok { OnOk result (out.new ≡ out.old ++ t_shown secrets body.now) }
    ensures err { OnErr result (Extends out.old out.new) }
{
    match body {
        TBody::Version { msize, version } => put_version(alloc, *msize, version.as_slice(), out),
        TBody::Auth { afid, uname, aname } => {
            put_auth(alloc, *afid, uname.as_slice(), aname.as_slice(), out)
        }
        TBody::Attach {
            fid,
            afid,
            uname,
            aname,
        } => put_attach(alloc, *fid, *afid, uname.as_slice(), aname.as_slice(), out),
        TBody::Flush { oldtag } => put_number(alloc, b" oldtag ", *oldtag as u64, out),
        TBody::Walk { fid, newfid, wname } => {
            put_walk(alloc, *fid, *newfid, wname.as_slice(), out)
        }
        TBody::Open { fid, mode } => put_open(alloc, *fid, *mode, out),
        TBody::Create {
            fid,
            name,
            perm,
            mode,
        } => put_create(alloc, *fid, name.as_slice(), *perm, *mode, out),
        TBody::Read { fid, offset, count } => put_read(alloc, *fid, *offset, *count, out),
        TBody::Write {
            fid,
            offset,
            content,
        } => put_write(alloc, secrets, *fid, *offset, content.as_slice(), out),
        TBody::Clunk { fid } => put_fid(alloc, b" fid ", *fid, out),
        TBody::Remove { fid } => put_fid(alloc, b" fid ", *fid, out),
        TBody::Stat { fid } => put_fid(alloc, b" fid ", *fid, out),
        TBody::Wstat { fid, stat } => put_wstat(alloc, secrets, *fid, stat.as_slice(), out),
    }
}

/// Appends the line of a request.
#[tactic(auto, unfolding(crate::specs::Lines::t_line))]
pub(crate) fn put_request(
    alloc: Global,
    secrets: bool,
    m: &TMsg,
    out: &mut Bytes,
) -> Result<(), NoMemory>
    ensures ok { OnOk result (out.new ≡ out.old ++ t_line secrets m.now) }
    ensures err { OnErr result (Extends out.old out.new) }
{
    out.append(word(&m.body))?;
    put_tag(alloc, m.tag, out)?;
    put_fields(alloc, secrets, &m.body, out)?;
    out.push(b'\n')
}
