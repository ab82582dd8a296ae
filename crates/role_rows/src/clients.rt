// Clients of the authentication server of the domain x: what each sends, what it is answered and how its session ends.
use crate::calls::array_of;
use crate::came::Came;
use crate::messages::Messages;
use crate::play_fault::PlayFault;
use attr_tuples::is_dom;
use auth_server::{AsStep, AuthCore, AuthEnd, Session, serve_auth};
use auth_tables::{KeyTable, SpeaksTable, parse_keys, parse_speaks};
use row_files::{Report, Row};
use sealing::{AUTH_TC, Key7, open_ticket};
use std::alloc::Global;
use wire_base::{Bytes, Text};
use wire_streams::{MemSink, MemSource, MemWords};

/// How many bytes a table has at most.
const MOST_BYTES: usize = 1 << 20;

/// The numbers of the read, the write and the word of a session that fail, counted from 1; 0 where none does.
type Failing = (u64, u64, u64);

// The server, and the words that are drawn for each session.
#[derive(Drop)]
struct Player {
    alloc: Global,
    messages: Messages,
    words: Vec<[u8; 8]>,
    core: Option<AuthCore>,
}

/// Plays a file of clients.
pub(crate) fn play(
    rt: &HostRuntime,
    file: &str,
    rows: &[Row],
    report: &mut Report,
) -> anyhow::Result<()> {
    let alloc = rt.alloc();
    let mut player = Player {
        alloc,
        messages: Messages::new(alloc),
        words: Vec::new(alloc),
        core: None,
    };
    for row in rows {
        match row.word() {
            b"messages" => player.messages.read(rt, row)?,
            b"fronts" => player.tell_fronts(file, row, report)?,
            _ => player.tell(file, row, report)?,
        }
    }
    Ok(())
}

// Whether a row of this word is kept, and has nothing to compare.
fn is_kept(word: &[u8]) -> bool {
    matches!(word, b"message" | b"words" | b"tables")
}

impl Player {
    fn tell(&mut self, file: &str, row: &Row, report: &mut Report) -> anyhow::Result<()> {
        let mut came = Came::new(self.alloc);
        let played = self.carry_out(row, &mut came);
        if played.is_ok() && is_kept(row.word()) {
            return Ok(());
        }
        came.settle(file, row, played, report)
    }

    fn carry_out(&mut self, row: &Row, came: &mut Came) -> Result<(), PlayFault> {
        match row.word() {
            b"message" => self.messages.learn(row),
            b"words" => self.keep_words(row),
            b"tables" => self.keep_tables(row),
            b"answer" => self.tell_answer(row, came),
            b"opens" => self.tell_opens(row, came),
            b"session" => self.tell_session(row, 2, (0, 0, 0), came),
            b"failing" => self.tell_failing(row, came),
            _ => Err(PlayFault::Row("nothing is to be done")),
        }
    }

    // So many times these words are drawn.
    fn keep_words(&mut self, row: &Row) -> Result<(), PlayFault> {
        let Some(times) = row.number(1) else {
            return Err(PlayFault::Row("no number of times"));
        };
        let mut words = Vec::new(self.alloc);
        for _ in 0..times {
            put_words(row, &mut words)?;
        }
        self.words = words;
        Ok(())
    }

    // The server has these tables from here on.
    fn keep_tables(&mut self, row: &Row) -> Result<(), PlayFault> {
        let (Some(keys), Some(speaks)) = (row.field(1), row.field(2)) else {
            return Err(PlayFault::Row("no tables"));
        };
        let keys = keys_of(self.alloc, keys)?;
        let speaks = speaks_of(self.alloc, speaks)?;
        self.core = Some(core_of(self.alloc, keys, speaks)?);
        Ok(())
    }

    // What the first request of a session is answered.
    fn answer_of(&self, request: &[u8]) -> Result<Bytes, PlayFault> {
        let (Some(core), Some(words)) = (&self.core, first_words(&self.words)) else {
            return Err(PlayFault::Row("no tables or no words"));
        };
        match array_of::<141>(request) {
            Some(request) => answer(self.alloc, core, &request, &words),
            None => Err(PlayFault::Row("no ticket request")),
        }
    }

    fn tell_answer(&self, row: &Row, came: &mut Came) -> Result<(), PlayFault> {
        let request = self.messages.join(row, 1)?;
        let answer = self.answer_of(request.as_slice())?;
        Ok(self.messages.tell(answer.as_slice(), came)?)
    }

    // How many bytes the answer has, and whether this key opens its first ticket as a client's.
    fn tell_opens(&self, row: &Row, came: &mut Came) -> Result<(), PlayFault> {
        let Some(key) = row.field(1) else {
            return Err(PlayFault::Row("no key"));
        };
        let request = self.messages.join(row, 2)?;
        let answer = self.answer_of(request.as_slice())?;
        came.put_number(answer.len() as u64)?;
        match opens(answer.as_slice(), key) {
            true => came.put(b"opens")?,
            false => came.put(b"stays-shut")?,
        }
        Ok(())
    }

    // How the session ends of a client that sends what stands in a row from a place on.
    fn tell_session(
        &self,
        row: &Row,
        from: usize,
        failing: Failing,
        came: &mut Came,
    ) -> Result<(), PlayFault> {
        let input = self.messages.join(row, from)?;
        self.serve(input.as_slice(), failing, came)
    }

    // The same where a read, a write or a word fails.
    fn tell_failing(&self, row: &Row, came: &mut Came) -> Result<(), PlayFault> {
        let (Some(read), Some(write), Some(word)) = (row.number(2), row.number(3), row.number(4))
        else {
            return Err(PlayFault::Row("no numbers of what fails"));
        };
        self.tell_session(row, 5, (read, write, word), came)
    }

    fn serve(
        &self,
        input: &[u8],
        (read, write, word): Failing,
        came: &mut Came,
    ) -> Result<(), PlayFault> {
        let Some(core) = &self.core else {
            return Err(PlayFault::Row("no tables"));
        };
        let alloc = self.alloc;
        let mut source = MemSource::new(input.to_vec(alloc)?, [read].to_vec(alloc)?);
        let mut sink = MemSink::new(Vec::new(alloc), [write].to_vec(alloc)?);
        let mut words = MemWords::new(self.words.clone()?, [word].to_vec(alloc)?);
        let end = serve_auth(alloc, core, &mut source, &mut sink, &mut words);
        put_end(end, came)?;
        Ok(self.messages.tell_each(sink.content(), came)?)
    }

    // Each front of what a client sends, of so many bytes to so many, ends so in a session of its own.
    fn tell_fronts(&self, file: &str, row: &Row, report: &mut Report) -> anyhow::Result<()> {
        let (Some(first), Some(last)) = (row.number(1), row.number(2)) else {
            let played = Err(PlayFault::Row("no numbers of bytes"));
            return Came::new(self.alloc).settle(file, row, played, report);
        };
        for size in first..=last {
            let mut came = Came::new(self.alloc);
            let played = self.serve_front(row, size, &mut came);
            came.settle(file, row, played, report)?;
        }
        Ok(())
    }

    fn serve_front(&self, row: &Row, size: u64, came: &mut Came) -> Result<(), PlayFault> {
        let mut input = self.messages.join(row, 3)?;
        match usize::try_from(size) {
            Ok(size) if size < input.len() => input.truncate(size),
            _ => return Err(PlayFault::Row("no front has so many bytes")),
        }
        self.serve(input.as_slice(), (0, 0, 0), came)
    }
}

// The words of a row, which stand behind their number of times.
fn put_words(row: &Row, words: &mut Vec<[u8; 8]>) -> Result<(), PlayFault> {
    for field in row.given.iter().skip(2) {
        match array_of::<8>(field.as_slice()) {
            Some(word) => words.push(word).map_err(wire_base::NoMemory::from)?,
            None => return Err(PlayFault::Row("no word of eight bytes")),
        }
    }
    Ok(())
}

fn first_words(words: &[[u8; 8]]) -> Option<[[u8; 8]; 3]> {
    Some([*words.first()?, *words.get(1)?, *words.get(2)?])
}

/// The table of keys that a text is.
pub(crate) fn keys_of(alloc: Global, text: &[u8]) -> Result<KeyTable, PlayFault> {
    if text.len() > MOST_BYTES {
        return Err(PlayFault::Row("a long table"));
    }
    match parse_keys(alloc, text) {
        Ok(table) => Ok(table),
        Err(_) => Err(PlayFault::Row("a bad table of keys")),
    }
}

/// The table of who speaks for whom that a text is.
pub(crate) fn speaks_of(alloc: Global, text: &[u8]) -> Result<SpeaksTable, PlayFault> {
    if text.len() > MOST_BYTES {
        return Err(PlayFault::Row("a long table"));
    }
    match parse_speaks(alloc, text) {
        Ok(table) => Ok(table),
        Err(_) => Err(PlayFault::Row("a bad table of who speaks")),
    }
}

// The server of domain x with these tables.
fn core_of(alloc: Global, keys: KeyTable, speaks: SpeaksTable) -> Result<AuthCore, PlayFault> {
    match Text::from_slice(alloc, b"x")? {
        Some(dom) if is_dom(dom.as_slice()) => Ok(AuthCore::new(dom, keys, speaks)),
        _ => Err(PlayFault::Row("no domain")),
    }
}

// The answer to a first request of a session.
fn answer(
    alloc: Global,
    core: &AuthCore,
    request: &[u8; 141],
    words: &[[u8; 8]; 3],
) -> Result<Bytes, PlayFault> {
    let mut session = Session::new();
    let mut out = Bytes::new(alloc);
    match core.need(&session, request[0]) {
        Some(141) => {}
        _ => return Err(PlayFault::Row("no ticket request")),
    }
    match core.step(&mut session, request.as_slice(), words, &mut out)? {
        AsStep::Replied => Ok(out),
        AsStep::TooManyWrong => Err(PlayFault::Row("the session is over")),
    }
}

// Whether a key opens the first ticket of an answer, as a client's.
fn opens(answer: &[u8], key: &[u8]) -> bool {
    let Some(ticket) = answer.get(1..73) else {
        return false;
    };
    let (Some(ticket), Some(key)) = (array_of::<72>(ticket), array_of::<7>(key)) else {
        return false;
    };
    match open_ticket(&ticket, &Key7(key)) {
        Ok(ticket) => ticket.num == AUTH_TC,
        Err(_) => false,
    }
}

// How a session ends: a word, the byte at which it does, and the kind that isn't served.
fn put_end(end: AuthEnd, came: &mut Came) -> Result<(), PlayFault> {
    match end {
        AuthEnd::UnknownType { at, kind } => {
            came.put(b"unknown-kind")?;
            came.put_number(at)?;
            came.put_number(u64::from(kind))?;
        }
        AuthEnd::Torn { at } => {
            came.put(b"torn")?;
            came.put_number(at)?;
        }
        AuthEnd::NoMemory => return Err(PlayFault::NoMemory),
        AuthEnd::End => came.put(b"end")?,
        AuthEnd::TooManyWrong => came.put(b"too-many-wrong")?,
        AuthEnd::ReadFault => came.put(b"read-fault")?,
        AuthEnd::WriteFault => came.put(b"write-fault")?,
        AuthEnd::WordFault => came.put(b"word-fault")?,
        AuthEnd::Flood => came.put(b"flood")?,
    }
    Ok(())
}
