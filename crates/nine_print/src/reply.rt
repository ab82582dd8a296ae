// The lines of replies.
ghost use Rattle.std.specs.Prelude.{◌≡◌, ◌++◌, OnOk, OnErr, codes};
ghost use Rattle.nine.specs.Encoded.{Extends};
ghost use Rattle.std.specs.List.{flat_map};
ghost use Rattle.nine_print.specs.Values.{number_text, qid_shown};
ghost use Rattle.nine_print.specs.Lines.{qids_text, r_word, r_shown, r_line};

use crate::request::put_version;
use crate::value::{put_content, put_number, put_qid, put_string, put_tag};
use nine::{Qid, RBody, RMsg};
use std::alloc::Global;
use wire_base::{Bytes, NoMemory};

// Qids, each behind a blank.
fn put_each_qid(alloc: Global, qids: &[Qid], out: &mut Bytes) -> Result<(), NoMemory>
    ensures ok { OnOk result (out.new ≡ out.old ++ flat_map (qid_shown (codes " ")) qids.now) }
    ensures err { OnErr result (Extends out.old out.new) }
{
    for qid in qids {
        put_qid(alloc, b" ", qid, out)?;
    }
    Ok(())
}

#[tactic(auto, unfolding(crate::specs::Lines::qids_text))]
fn put_qids(alloc: Global, qids: &[Qid], out: &mut Bytes) -> Result<(), NoMemory>
    ensures ok { OnOk result (out.new ≡ out.old ++ qids_text qids.now) }
    ensures err { OnErr result (Extends out.old out.new) }
{
    put_number(alloc, b" nwqid ", qids.len() as u64, out)?;
    put_each_qid(alloc, qids, out)
}

fn put_opened(alloc: Global, qid: &Qid, iounit: u32, out: &mut Bytes) -> Result<(), NoMemory>
    ensures ok { OnOk result (out.new
        ≡ out.old ++ (qid_shown (codes " qid ") qid.now ++ number_text (codes " iounit ") iounit)) }
    ensures err { OnErr result (Extends out.old out.new) }
{
    put_qid(alloc, b" qid ", qid, out)?;
    put_number(alloc, b" iounit ", iounit as u64, out)
}

fn word(body: &RBody) -> &'static [u8]
    ensures { result.now ≡ r_word body.now }
{
    match body {
        RBody::Version { .. } => b"Rversion",
        RBody::Auth { .. } => b"Rauth",
        RBody::Attach { .. } => b"Rattach",
        RBody::Error { .. } => b"Rerror",
        RBody::Flush => b"Rflush",
        RBody::Walk { .. } => b"Rwalk",
        RBody::Open { .. } => b"Ropen",
        RBody::Create { .. } => b"Rcreate",
        RBody::Read { .. } => b"Rread",
        RBody::Write { .. } => b"Rwrite",
        RBody::Clunk => b"Rclunk",
        RBody::Remove => b"Rremove",
        RBody::Stat { .. } => b"Rstat",
        RBody::Wstat => b"Rwstat",
    }
}

fn put_fields(alloc: Global, secrets: bool, body: &RBody, out: &mut Bytes) -> Result<(), NoMemory>
    ensures ok { OnOk result (out.new ≡ out.old ++ r_shown secrets body.now) }
    ensures err { OnErr result (Extends out.old out.new) }
{
    match body {
        RBody::Version { msize, version } => put_version(alloc, *msize, version.as_slice(), out),
        RBody::Auth { aqid } => put_qid(alloc, b" aqid ", aqid, out),
        RBody::Attach { qid } => put_qid(alloc, b" qid ", qid, out),
        RBody::Error { ename } => put_string(alloc, b" ename ", ename.as_slice(), out),
        RBody::Walk { wqid } => put_qids(alloc, wqid.as_slice(), out),
        RBody::Open { qid, iounit } => put_opened(alloc, qid, *iounit, out),
        RBody::Create { qid, iounit } => put_opened(alloc, qid, *iounit, out),
        RBody::Read { content } => put_content(alloc, secrets, b" count ", content.as_slice(), out),
        RBody::Write { count } => put_number(alloc, b" count ", *count as u64, out),
        RBody::Stat { stat } => put_content(alloc, secrets, b" stat ", stat.as_slice(), out),
        RBody::Flush => Ok(()),
        RBody::Clunk => Ok(()),
        RBody::Remove => Ok(()),
        RBody::Wstat => Ok(()),
    }
}

/// Appends the line of a reply.
#[tactic(auto, unfolding(crate::specs::Lines::r_line))]
pub(crate) fn put_reply(
    alloc: Global,
    secrets: bool,
    m: &RMsg,
    out: &mut Bytes,
) -> Result<(), NoMemory>
    ensures ok { OnOk result (out.new ≡ out.old ++ r_line secrets m.now) }
    ensures err { OnErr result (Extends out.old out.new) }
{
    out.append(word(&m.body))?;
    put_tag(alloc, m.tag, out)?;
    put_fields(alloc, secrets, &m.body, out)?;
    out.push(b'\n')
}
