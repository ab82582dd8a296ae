// Messages of 9P as they are read and written.
use crate::fields::{Came, bytes_at, number_at, text_at, text_of, verb_of, word_at};
use anyhow::bail;
use nine::{
    DecodeFault, Qid, QidList, RBody, RMsg, TBody, TMsg, decode_r, decode_t, encode_r, encode_t,
    put_attach, put_auth, put_clunk, put_create, put_error, put_flush, put_open, put_read,
    put_remove, put_stat, put_version, put_walk, put_write, put_wstat,
};
use row_files::{Report, Row};
use std::alloc::Global;
use wire_base::{Bytes, u32_at};

pub(crate) fn play(
    alloc: Global,
    file: &str,
    rows: &[Row],
    report: &mut Report,
) -> anyhow::Result<()> {
    for row in rows {
        let mut came = Came::new(alloc);
        answer(alloc, row, &mut came)?;
        report.compare(alloc, file, row, came.fields())?;
    }
    Ok(())
}

fn answer(alloc: Global, row: &Row, came: &mut Came) -> anyhow::Result<()> {
    match verb_of(row) {
        "request" => read_request(alloc, bytes_at(row, 1), came),
        "frame" => frame(alloc, bytes_at(row, 1), came),
        "put" => {
            let mut out = Bytes::from_slice(alloc, b"--")?;
            put(row, &mut out)?;
            Ok(came.bytes(out.as_slice())?)
        }
        "encode" => {
            let mut out = Bytes::from_slice(alloc, b"--")?;
            encode(alloc, row, &mut out)?;
            Ok(came.bytes(out.as_slice())?)
        }
        _ => Ok(came.word("no such verb")?),
    }
}

// The request that a frame spells; at 0 where the frame isn't whole.
fn decoded(alloc: Global, frame: &[u8]) -> Result<TMsg, DecodeFault> {
    match u32_at(frame, 0) {
        Ok((size, 4)) if frame.len() >= 7 && size as usize == frame.len() => {
            decode_t(alloc, frame)
        }
        _ => Err(DecodeFault::Bad { at: 0 }),
    }
}

fn read_request(alloc: Global, frame: &[u8], came: &mut Came) -> anyhow::Result<()> {
    match decoded(alloc, frame) {
        Ok(message) => {
            came.shown(&message.tag)?;
            tell_request(&message.body, came)
        }
        Err(fault) => tell_fault(fault, came),
    }
}

fn tell_fault(fault: DecodeFault, came: &mut Came) -> anyhow::Result<()> {
    match fault {
        DecodeFault::Bad { at } => came.shown(&at),
        DecodeFault::NoMemory => bail!("out of memory"),
    }
}

// What a request asks.
fn tell_request(body: &TBody, came: &mut Came) -> anyhow::Result<()> {
    match body {
        TBody::Version { msize, version } => {
            came.word("version")?;
            came.shown(msize)?;
            Ok(came.bytes(version.as_slice())?)
        }
        TBody::Attach {
            fid,
            afid,
            uname,
            aname,
        } => {
            came.word("attach")?;
            came.shown(fid)?;
            came.shown(afid)?;
            came.bytes(uname.as_slice())?;
            Ok(came.bytes(aname.as_slice())?)
        }
        TBody::Walk { fid, newfid, wname } => {
            came.word("walk")?;
            came.shown(fid)?;
            came.shown(newfid)?;
            for name in wname.as_slice() {
                came.bytes(name.as_slice())?;
            }
            Ok(())
        }
        body => tell_other_request(body, came),
    }
}

fn tell_other_request(body: &TBody, came: &mut Came) -> anyhow::Result<()> {
    match body {
        TBody::Open { fid, mode } => {
            came.word("open")?;
            came.shown(fid)?;
            came.shown(mode)
        }
        TBody::Read { fid, offset, count } => {
            came.word("read")?;
            came.shown(fid)?;
            came.shown(offset)?;
            came.shown(count)
        }
        TBody::Write {
            fid,
            offset,
            content,
        } => {
            came.word("write")?;
            came.shown(fid)?;
            came.shown(offset)?;
            Ok(came.bytes(content.as_slice())?)
        }
        TBody::Clunk { fid } => {
            came.word("clunk")?;
            came.shown(fid)
        }
        _ => Ok(came.word("another request")?),
    }
}

// A frame is read in its own direction, and in the other.
fn frame(alloc: Global, frame: &[u8], came: &mut Came) -> anyhow::Result<()> {
    let kind = frame.get(4).copied().unwrap_or(0);
    if kind & 1 == 0 {
        request_again(alloc, frame, came)?;
        reply_again(alloc, frame, came)
    } else {
        reply_again(alloc, frame, came)?;
        request_again(alloc, frame, came)
    }
}

// A frame that is a message is written as it was read.
fn tell_again(frame: &[u8], written: &Bytes, came: &mut Came) -> anyhow::Result<()> {
    Ok(came.word(if written.as_slice() == frame {
        "message"
    } else {
        "another message"
    })?)
}

fn request_again(alloc: Global, frame: &[u8], came: &mut Came) -> anyhow::Result<()> {
    match u32_at(frame, 0) {
        Ok((size, 4)) if frame.len() >= 7 && size as usize == frame.len() => {
            match decode_t(alloc, frame) {
                Ok(message) => {
                    let mut out = Bytes::new(alloc);
                    encode_t(&message, &mut out)?;
                    tell_again(frame, &out, came)
                }
                Err(fault) => tell_fault(fault, came),
            }
        }
        _ => Ok(came.word("no frame")?),
    }
}

fn reply_again(alloc: Global, frame: &[u8], came: &mut Came) -> anyhow::Result<()> {
    match u32_at(frame, 0) {
        Ok((size, 4)) if frame.len() >= 7 && size as usize == frame.len() => {
            match decode_r(alloc, frame) {
                Ok(message) => {
                    let mut out = Bytes::new(alloc);
                    encode_r(&message, &mut out)?;
                    tell_again(frame, &out, came)
                }
                Err(fault) => tell_fault(fault, came),
            }
        }
        _ => Ok(came.word("no frame")?),
    }
}

fn tag_at(row: &Row, at: usize) -> anyhow::Result<u16> {
    match u16::try_from(number_at(row, at)?) {
        Ok(tag) => Ok(tag),
        Err(_) => bail!("line {}: field {} is no tag", row.line, at),
    }
}

// The qid of the root, of the folder in it, or of ctl.
fn qid_at(row: &Row, at: usize) -> anyhow::Result<Qid> {
    let (kind, path) = match text_at(row, at) {
        "root" => (0x80, 0),
        "folder" => (0x80, 1),
        "ctl" => (0, 3),
        _ => bail!("line {}: field {} is no qid", row.line, at),
    };
    let vers = 0;
    Ok(Qid { kind, vers, path })
}

// Appends the reply of a row.
fn put(row: &Row, out: &mut Bytes) -> anyhow::Result<()> {
    let tag = tag_at(row, 2)?;
    match text_at(row, 1) {
        "attach" => put_attach(tag, &qid_at(row, 3)?, out)?,
        "auth" => put_auth(tag, &qid_at(row, 3)?, out)?,
        "walk" => put_walk(tag, &[qid_at(row, 3)?, qid_at(row, 4)?], out)?,
        "open" => put_open(tag, &qid_at(row, 3)?, word_at(row, 4)?, out)?,
        "create" => put_create(tag, &qid_at(row, 3)?, word_at(row, 4)?, out)?,
        "write" => put_write(tag, word_at(row, 3)?, out)?,
        "clunk" => put_clunk(tag, out)?,
        "flush" => put_flush(tag, out)?,
        "remove" => put_remove(tag, out)?,
        "wstat" => put_wstat(tag, out)?,
        _ => put_text(tag, row, out)?,
    }
    Ok(())
}

// The same of a reply with a text.
fn put_text(tag: u16, row: &Row, out: &mut Bytes) -> anyhow::Result<()> {
    let text = match text_at(row, 1) {
        "version" => bytes_at(row, 4),
        _ => bytes_at(row, 3),
    };
    if text.len() > 1000 {
        bail!("a long text");
    }
    match text_at(row, 1) {
        "version" => put_version(tag, word_at(row, 3)?, text, out)?,
        "read" => put_read(tag, text, out)?,
        "stat" => put_stat(tag, text, out)?,
        "error" => put_error(tag, text, out)?,
        _ => bail!("no such reply"),
    }
    Ok(())
}

// Appends the reply of a row, as a message.
fn encode(alloc: Global, row: &Row, out: &mut Bytes) -> anyhow::Result<()> {
    let tag = tag_at(row, 2)?;
    match text_at(row, 1) {
        "version" => encode_version(alloc, tag, row, out),
        "walk" => encode_walk(alloc, tag, row, out),
        "read" => encode_read(alloc, tag, bytes_at(row, 3), out),
        "error" => encode_error(alloc, tag, bytes_at(row, 3), out),
        _ => encode_plain(tag, row, out),
    }
}

// The same of a reply without a text.
fn encode_plain(tag: u16, row: &Row, out: &mut Bytes) -> anyhow::Result<()> {
    match text_at(row, 1) {
        "attach" => {
            let qid = qid_at(row, 3)?;
            let body = RBody::Attach { qid };
            Ok(encode_r(&RMsg { tag, body }, out)?)
        }
        "open" => {
            let (qid, iounit) = (qid_at(row, 3)?, word_at(row, 4)?);
            let body = RBody::Open { qid, iounit };
            Ok(encode_r(&RMsg { tag, body }, out)?)
        }
        "write" => {
            let count = word_at(row, 3)?;
            let body = RBody::Write { count };
            Ok(encode_r(&RMsg { tag, body }, out)?)
        }
        "clunk" => {
            let body = RBody::Clunk;
            Ok(encode_r(&RMsg { tag, body }, out)?)
        }
        _ => bail!("no such reply"),
    }
}

fn encode_version(alloc: Global, tag: u16, row: &Row, out: &mut Bytes) -> anyhow::Result<()> {
    let msize = word_at(row, 3)?;
    let version = text_of(alloc, bytes_at(row, 4))?;
    if version.len() >= 65536 {
        bail!("a long text");
    }
    let body = RBody::Version { msize, version };
    Ok(encode_r(&RMsg { tag, body }, out)?)
}

fn encode_walk(alloc: Global, tag: u16, row: &Row, out: &mut Bytes) -> anyhow::Result<()> {
    let (first, second) = (qid_at(row, 3)?, qid_at(row, 4)?);
    let mut wqid = QidList::new(alloc);
    wqid.push(first)?;
    wqid.push(second)?;
    let body = RBody::Walk { wqid };
    Ok(encode_r(&RMsg { tag, body }, out)?)
}

fn encode_read(alloc: Global, tag: u16, content: &[u8], out: &mut Bytes) -> anyhow::Result<()> {
    let content = Bytes::from_slice(alloc, content)?;
    if content.len() >= 1000 {
        bail!("a long content");
    }
    let body = RBody::Read { content };
    Ok(encode_r(&RMsg { tag, body }, out)?)
}

fn encode_error(alloc: Global, tag: u16, ename: &[u8], out: &mut Bytes) -> anyhow::Result<()> {
    let ename = text_of(alloc, ename)?;
    if ename.len() >= 65536 {
        bail!("a long text");
    }
    let body = RBody::Error { ename };
    Ok(encode_r(&RMsg { tag, body }, out)?)
}
