// Requests of rpc as they are read, and its answers as they are printed.
use crate::fields::{Came, bytes_at, number_at, text_at, verb_of, word_at};
use crate::tuples::tuple_at;
use anyhow::bail;
use row_files::{Report, Row};
use std::alloc::Global;
use talks::{Request, RpcAnswer, answer_fits, parse_request, print_answer};
use wire_base::{AuthInfo, Bytes, Name};

pub(crate) fn play(
    alloc: Global,
    file: &str,
    rows: &[Row],
    report: &mut Report,
) -> anyhow::Result<()> {
    for row in rows {
        let mut came = Came::new(alloc);
        answer(alloc, row, &mut came)?;
        report.compare(alloc, file, row, came.fields())?;
    }
    Ok(())
}

fn answer(alloc: Global, row: &Row, came: &mut Came) -> anyhow::Result<()> {
    match verb_of(row) {
        "request" => request(bytes_at(row, 1), came),
        "long" => long(alloc, bytes_at(row, 1), number_at(row, 2)?, came),
        "answer" => print(alloc, &answer_at(alloc, row, 1)?, came),
        "size" => size(word_at(row, 1)?, &answer_at(alloc, row, 2)?, came),
        _ => Ok(came.word("no such verb")?),
    }
}

// What a text is read as.
fn request(text: &[u8], came: &mut Came) -> anyhow::Result<()> {
    match parse_request(text) {
        Ok(Request::Start(template)) => {
            came.word("start")?;
            came.bytes(template)?;
        }
        Ok(Request::Read) => came.word("read")?,
        Ok(Request::Write(message)) => {
            came.word("write")?;
            came.bytes(message)?;
        }
        Ok(Request::AuthInfo) => came.word("authinfo")?,
        Ok(Request::Attr) => came.word("attr")?,
        Err(fault) => came.shown(&fault)?,
    }
    Ok(())
}

// What a text is read as that is filled up to a length; of a message its length.
fn long(alloc: Global, front: &[u8], size: u64, came: &mut Came) -> anyhow::Result<()> {
    let mut text = Bytes::from_slice(alloc, front)?;
    for _ in 0..size {
        if text.len() as u64 >= size {
            break;
        }
        text.push(7)?;
    }
    match parse_request(text.as_slice()) {
        Ok(Request::Write(message)) => {
            came.word("write")?;
            came.count(message.len())
        }
        Ok(_) => Ok(came.word("another verb")?),
        Err(fault) => came.shown(&fault),
    }
}

// How an answer is printed.
fn print(alloc: Global, answer: &RpcAnswer, came: &mut Came) -> anyhow::Result<()> {
    let mut out = Bytes::new(alloc);
    print_answer(answer, &mut out)?;
    Ok(came.bytes(out.as_slice())?)
}

// Whether an answer fits a size, the largest one, and one less.
fn size(size: u32, answer: &RpcAnswer, came: &mut Came) -> anyhow::Result<()> {
    came.flag(answer_fits(answer, size))?;
    came.flag(answer_fits(answer, u32::MAX))?;
    Ok(came.flag(answer_fits(answer, size.saturating_sub(1)))?)
}

// The answer that a row names: one with details, or one of a few words.
fn answer_at(alloc: Global, row: &Row, at: usize) -> anyhow::Result<RpcAnswer> {
    let behind = at.saturating_add(1);
    match text_at(row, at) {
        "Got" => Ok(RpcAnswer::Got(Bytes::from_slice(alloc, bytes_at(row, behind))?)),
        "BadKey" => Ok(RpcAnswer::BadKey(tuple_at(alloc, row, behind)?)),
        "NeedKey" => Ok(RpcAnswer::NeedKey(tuple_at(alloc, row, behind)?)),
        "Attributes" => Ok(RpcAnswer::Attributes(tuple_at(alloc, row, behind)?)),
        "TooSmall" => Ok(RpcAnswer::TooSmall(word_at(row, behind)?)),
        "Info" => Ok(RpcAnswer::Info(info_of(bytes_at(row, behind))?)),
        word => plain_answer(word),
    }
}

// Who a user is known to be on both sides.
fn info_of(user: &[u8]) -> anyhow::Result<AuthInfo> {
    match Name::from_text(user) {
        Some(name) => Ok(AuthInfo {
            cuid: name,
            suid: name,
            secret: [1; 8],
        }),
        None => bail!("no name"),
    }
}

fn plain_answer(word: &str) -> anyhow::Result<RpcAnswer> {
    Ok(match word {
        "Ok" => RpcAnswer::Ok,
        "DoneHaveai" => RpcAnswer::DoneHaveai,
        "Done" => RpcAnswer::Done,
        "SecretInTemplate" => RpcAnswer::SecretInTemplate,
        "UnknownProto" => RpcAnswer::UnknownProto,
        "UnknownRole" => RpcAnswer::UnknownRole,
        "BadUser" => RpcAnswer::BadUser,
        "BadTemplate" => RpcAnswer::BadTemplate,
        "WrongKind" => RpcAnswer::WrongKind,
        "WrongChallenge" => RpcAnswer::WrongChallenge,
        "WrongUser" => RpcAnswer::WrongUser,
        "NotOffered" => RpcAnswer::NotOffered,
        "ServerSaidNo" => RpcAnswer::ServerSaidNo,
        "NoServer" => RpcAnswer::NoServer,
        "TooLong" => RpcAnswer::TooLong,
        "Denied" => RpcAnswer::Denied,
        "NoRoom" => RpcAnswer::NoRoom,
        "AwaitsRead" => RpcAnswer::AwaitsRead,
        "AwaitsWrite" => RpcAnswer::AwaitsWrite,
        "Broken" => RpcAnswer::Broken,
        "NotStarted" => RpcAnswer::NotStarted,
        "AlreadyStarted" => RpcAnswer::AlreadyStarted,
        "NoInfo" => RpcAnswer::NoInfo,
        _ => bail!("no such answer: {word}"),
    })
}
