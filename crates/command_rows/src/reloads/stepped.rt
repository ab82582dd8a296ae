// One session, request by request, whose server is given other tables behind the first one.
ghost use Rattle.std.specs.Prelude.{◌<◌, OnOk};
ghost use Rattle.auth_server.specs.Answers.{most_wrong};

use super::client::{Lines, digits_for, request};
use auth_server::{AsStep, AuthCore, Log, Session};
use auth_tables::{KeyTable, SpeaksTable, parse_keys, parse_speaks};
use std::alloc::Global;
use wire_base::Bytes;

/// How many bytes a table has at most.
const MOST_BYTES: usize = 1 << 20;

// Answers a request, and notes what came of it.
fn ask(
    alloc: Global,
    core: &AuthCore,
    session: &mut Session,
    request: &[u8],
    lines: &mut Lines,
) -> anyhow::Result<()>
    requires { session.old.wrong < most_wrong }
    ensures { OnOk result (session.new.wrong < most_wrong) }
{
    let Some(kind) = request.first() else {
        anyhow::bail!("no request");
    };
    if core.need(session, *kind) != Some(request.len()) {
        anyhow::bail!("no request of this session");
    }
    let mut out = Bytes::new(alloc);
    lines.note(&core.notice(session, request));
    match core.step(session, request, &[[7; 8]; 3], &mut out)? {
        AsStep::Replied => Ok(()),
        AsStep::TooManyWrong => anyhow::bail!("the session is over"),
    }
}

/// The tables of a text of keys, and of nobody who speaks for another.
pub(crate) fn tables(alloc: Global, keys: &[u8]) -> anyhow::Result<(KeyTable, SpeaksTable)> {
    if keys.len() > MOST_BYTES {
        anyhow::bail!("a long table");
    }
    match (parse_keys(alloc, keys), parse_speaks(alloc, b"")) {
        (Ok(keys), Ok(speaks)) => Ok((keys, speaks)),
        _ => anyhow::bail!("bad tables"),
    }
}

// Answers the challenge by the digits of a password.
fn try_password(
    alloc: Global,
    core: &AuthCore,
    session: &mut Session,
    first: &[u8],
    password: &[u8; 8],
    lines: &mut Lines,
) -> anyhow::Result<()>
    requires { session.old.wrong < most_wrong }
    ensures { OnOk result (session.new.wrong < most_wrong) }
{
    let mut answer = Bytes::new(alloc);
    answer.append(first)?;
    answer.append(&digits_for(password))?;
    ask(alloc, core, session, answer.as_slice(), lines)
}

/// ann is given a challenge, her password becomes another, and she answers by the old one and by the new one.
pub(crate) fn play(
    alloc: Global,
    core: &mut AuthCore,
    later: &[u8],
    lines: &mut Lines,
) -> anyhow::Result<()> {
    let mut session = Session::new();
    let first = request(b"ann")?;
    ask(alloc, core, &mut session, &first, lines)?;
    let (keys, speaks) = tables(alloc, later)?;
    core.reload(keys, speaks);
    try_password(alloc, core, &mut session, &first, b"annpass1", lines)?;
    try_password(alloc, core, &mut session, &first, b"another2", lines)
}
