// The records of tickets: requests, sealed tickets and authenticators, who is known to whom, and names.
use crate::fields::{Came, byte_at, bytes_at, digits_at, verb_of, word_at};
use anyhow::bail;
use row_files::{Report, Row};
use sealing::{
    Authenticator, Key7, Ticket, TicketReq, open_auth, open_ticket, read_info, read_req, seal_auth,
    seal_ticket, write_info, write_req,
};
use std::alloc::Global;
use wire_base::{AuthInfo, Bytes, Name};

pub(crate) fn play(
    alloc: Global,
    file: &str,
    rows: &[Row],
    report: &mut Report,
) -> anyhow::Result<()> {
    for row in rows {
        let mut came = Came::new(alloc);
        answer(alloc, row, &mut came)?;
        report.compare(alloc, file, row, came.fields())?;
    }
    Ok(())
}

fn answer(alloc: Global, row: &Row, came: &mut Came) -> anyhow::Result<()> {
    match verb_of(row) {
        "write-request" => write_request(row, came),
        "read-request" => read_request(bytes_at(row, 1), came),
        "seal-ticket" => seal_one(row, came),
        "open-ticket" => open_one(&digits_at(row, 2)?, &Key7(digits_at(row, 1)?), came),
        "seal-authenticator" => {
            let (key, num, chal) = (
                Key7(digits_at(row, 1)?),
                byte_at(row, 2)?,
                digits_at(row, 3)?,
            );
            let id = word_at(row, 4)?;
            came.digits(&seal_auth(&Authenticator { num, chal, id }, &key))
        }
        "open-authenticator" => {
            let found = open_auth(&digits_at(row, 2)?, &Key7(digits_at(row, 1)?));
            came.shown(&found.num)?;
            came.digits(&found.chal)?;
            came.shown(&found.id)
        }
        "write-info" => info(alloc, row, came),
        "read-info" => read_one_info(bytes_at(row, 1), came),
        "name-of-4" => match Name::<4>::from_text(bytes_at(row, 1)) {
            Some(name) => tell_name(name.text(), came),
            None => Ok(came.word("none")?),
        },
        "name-of-8" => match Name::<8>::from_text(bytes_at(row, 1)) {
            Some(name) => tell_name(name.text(), came),
            None => Ok(came.word("none")?),
        },
        _ => Ok(came.word("no such verb")?),
    }
}

fn name_at<const N: usize>(row: &Row, at: usize) -> anyhow::Result<Name<N>> {
    match Name::from_text(bytes_at(row, at)) {
        Some(name) => Ok(name),
        None => bail!("line {}: field {} is no name", row.line, at),
    }
}

// A name of a field.
fn tell_name(name: &[u8], came: &mut Came) -> anyhow::Result<()> {
    came.word("name")?;
    Ok(came.bytes(name)?)
}

fn write_request(row: &Row, came: &mut Came) -> anyhow::Result<()> {
    let request = TicketReq {
        kind: byte_at(row, 1)?,
        authid: name_at(row, 2)?,
        authdom: name_at(row, 3)?,
        chal: digits_at(row, 4)?,
        hostid: name_at(row, 5)?,
        uid: name_at(row, 6)?,
    };
    Ok(came.bytes(&write_req(&request))?)
}

fn read_request(bytes: &[u8], came: &mut Came) -> anyhow::Result<()> {
    match read_req(bytes) {
        Ok(request) => {
            came.shown(&request.kind)?;
            came.bytes(request.authid.text())?;
            came.bytes(request.authdom.text())?;
            came.digits(&request.chal)?;
            came.bytes(request.hostid.text())?;
            Ok(came.bytes(request.uid.text())?)
        }
        Err(fault) => came.shown(&fault),
    }
}

fn seal_one(row: &Row, came: &mut Came) -> anyhow::Result<()> {
    let ticket = Ticket {
        num: byte_at(row, 2)?,
        chal: digits_at(row, 3)?,
        cuid: name_at(row, 4)?,
        suid: name_at(row, 5)?,
        key: Key7(digits_at(row, 6)?),
    };
    came.digits(&seal_ticket(&ticket, &Key7(digits_at(row, 1)?)))
}

fn open_one(sealed: &[u8; 72], key: &Key7, came: &mut Came) -> anyhow::Result<()> {
    match open_ticket(sealed, key) {
        Ok(ticket) => {
            came.shown(&ticket.num)?;
            came.digits(&ticket.chal)?;
            came.bytes(ticket.cuid.text())?;
            came.bytes(ticket.suid.text())?;
            came.digits(&ticket.key.0)
        }
        Err(fault) => came.shown(&fault),
    }
}

// Who is known to whom, written behind what stands before.
fn info(alloc: Global, row: &Row, came: &mut Came) -> anyhow::Result<()> {
    let info = AuthInfo {
        cuid: name_at(row, 1)?,
        suid: name_at(row, 2)?,
        secret: digits_at(row, 3)?,
    };
    let mut out = Bytes::from_slice(alloc, b"before ")?;
    write_info(&info, &mut out)?;
    match out.as_slice().strip_prefix(b"before ".as_slice()) {
        Some(written) => Ok(came.bytes(written)?),
        None => Ok(came.word("nothing behind")?),
    }
}

fn read_one_info(bytes: &[u8], came: &mut Came) -> anyhow::Result<()> {
    match read_info(bytes) {
        Some(info) => {
            came.bytes(info.cuid.text())?;
            came.bytes(info.suid.text())?;
            came.digits(&info.secret)
        }
        None => Ok(came.word("none")?),
    }
}
