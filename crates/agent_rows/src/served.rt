// The authentication server of the logins: its tables, and the connection over which a login's questions come.
ghost use Rattle.std.specs.Prelude.{◌≡◌, ◌<◌, IfOk, Some, length};
ghost use Rattle.auth_server.specs.Answers.{most_wrong};
ghost use Rattle.auth_server.specs.Requests.{kind_of, needed};

use crate::unlike::Unlike;
use anyhow::bail;
use attr_tuples::is_dom;
use auth_server::{AsStep, AuthCore, Session};
use auth_tables::{KeyTable, SpeaksTable, TableFault, parse_keys, parse_speaks};
use std::alloc::Global;
use wire_base::{Bytes, NoMemory, Text, get_u64};

const KEYS: &[u8] = b"user=ann !password=annpass\nuser=srv !password=srvpass\n";

const SPEAKS: &[u8] = b"hostid=ann uid=bob\n";

// How many bytes a question has that vouches for nobody.
const REQUEST_BYTES: usize = 141;

// A connection that goes on.
#[derive(Drop)]
struct Line {
    session: Session,
    ghost few: { session.wrong < most_wrong },
}

/// The authentication server, and the connection that it has, if it has one.
#[derive(Drop)]
pub(crate) struct Server {
    core: AuthCore,
    line: Option<Line>,
}

// The three words that stand here.
fn words_of(given: &[u8]) -> Result<[[u8; 8]; 3], Unlike> {
    let mut words = [[0; 8]; 3];
    for (place, word) in words.iter_mut().enumerate() {
        *word = get_u64(given, place * 8)
            .ok_or(Unlike::Field)?
            .to_le_bytes();
    }
    Ok(words)
}

// The keys of the server's users.
fn keys(alloc: Global) -> anyhow::Result<KeyTable> {
    match parse_keys(alloc, KEYS) {
        Ok(keys) => Ok(keys),
        Err(TableFault::NoMemory) => bail!("out of memory"),
        Err(TableFault::Line { .. }) => bail!("no keys"),
    }
}

// Who speaks for whom.
fn speaks(alloc: Global) -> anyhow::Result<SpeaksTable> {
    match parse_speaks(alloc, SPEAKS) {
        Ok(speaks) => Ok(speaks),
        Err(TableFault::NoMemory) => bail!("out of memory"),
        Err(TableFault::Line { .. }) => bail!("no speakers"),
    }
}

// The answer to the next request of a session, which is put once more where memory ran out for it.
fn step(
    core: &AuthCore,
    session: &mut Session,
    request: &[u8],
    words: &[[u8; 8]; 3],
    out: &mut Bytes,
) -> Result<AsStep, Unlike>
    requires whole { needed session.old.held (kind_of request.now) ≡ Some (length request.now) }
    requires goes_on { session.old.wrong < most_wrong }
    ensures { IfOk result (λ step. step ≡ AsStep.Replied → session.new.wrong < most_wrong) }
{
    match core.step(session, request, words, out) {
        Ok(step) => Ok(step),
        Err(NoMemory) => match core.step(session, request, words, out) {
            Ok(step) => Ok(step),
            Err(NoMemory) => Err(Unlike::Twice),
        },
    }
}

impl Server {
    /// The server of the domain x.
    pub(crate) fn new(alloc: Global) -> anyhow::Result<Server> {
        let Some(dom) = Text::from_slice(alloc, b"x")? else {
            bail!("no text")
        };
        if !is_dom(dom.as_slice()) {
            bail!("no domain")
        }
        let core = AuthCore::new(dom, keys(alloc)?, speaks(alloc)?);
        Ok(Server { core, line: None })
    }

    /// Answers a question by these words. One that vouches for a user comes by the connection of his challenge, and any
    /// other by a new one.
    pub(crate) fn answer(
        &mut self,
        alloc: Global,
        question: &[u8],
        words: &[u8],
    ) -> Result<Bytes, Unlike> {
        let words = words_of(words)?;
        let line = match self.line.take() {
            Some(line) if question.len() != REQUEST_BYTES => line,
            _ => Line {
                session: Session::new(),
            },
        };
        self.serve(alloc, line, question, &words)
    }

    // Answers a question that comes by a connection, which goes on unless that was its last.
    fn serve(
        &mut self,
        alloc: Global,
        line: Line,
        question: &[u8],
        words: &[[u8; 8]; 3],
    ) -> Result<Bytes, Unlike> {
        let Line { mut session } = line;
        if question.is_empty() {
            return Err(Unlike::Question);
        }
        match self.core.need(&session, question[0]) {
            Some(size) if size == question.len() => {}
            _ => return Err(Unlike::Question),
        }
        let mut out = Bytes::new(alloc);
        match step(&self.core, &mut session, question, words, &mut out)? {
            AsStep::Replied => self.line = Some(Line { session }),
            AsStep::TooManyWrong => {}
        }
        Ok(out)
    }
}
