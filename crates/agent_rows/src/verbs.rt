// What rows do, and how one is read.
use crate::unlike::Unlike;
use row_files::Row;
use wire_base::Bytes;

/// What a row does; the head of each file says what each is.
#[derive(Clone, Copy, PartialEq, Eq)]
pub(crate) enum Verb {
    Ask,
    Send,
    Take,
    Begin,
    Open,
    Write,
    Keys,
    Read,
    Rpc,
    Wait,
    Told,
    Question,
    Answer,
    Unanswered,
    Roomless,
    Serve,
    Dropped,
    Hang,
    Gone,
    Stop,
    Stopped,
    Outcome,
    Chosen,
}

static VERBS: [(&str, Verb); 23] = [
    ("ask", Verb::Ask),
    ("send", Verb::Send),
    ("take", Verb::Take),
    ("begin", Verb::Begin),
    ("open", Verb::Open),
    ("write", Verb::Write),
    ("keys", Verb::Keys),
    ("read", Verb::Read),
    ("rpc", Verb::Rpc),
    ("wait", Verb::Wait),
    ("told", Verb::Told),
    ("question", Verb::Question),
    ("answer", Verb::Answer),
    ("unanswered", Verb::Unanswered),
    ("roomless", Verb::Roomless),
    ("serve", Verb::Serve),
    ("dropped", Verb::Dropped),
    ("hang", Verb::Hang),
    ("gone", Verb::Gone),
    ("stop", Verb::Stop),
    ("stopped", Verb::Stopped),
    ("outcome", Verb::Outcome),
    ("chosen", Verb::Chosen),
];

/// What a row does.
pub(crate) fn verb_of(row: &Row) -> Result<Verb, Unlike> {
    for (word, verb) in &VERBS {
        if word.as_bytes() == row.word() {
            return Ok(*verb);
        }
    }
    Err(Unlike::Verb)
}

/// The number of the agent that a row is about.
pub(crate) fn agent_of(row: &Row) -> Result<u64, Unlike> {
    match row.number(1) {
        Some(number) if number < 2 => Ok(number),
        _ => Err(Unlike::Field),
    }
}

/// The number at a place of a row.
pub(crate) fn number_at(row: &Row, at: usize) -> Result<u64, Unlike> {
    row.number(at).ok_or(Unlike::Field)
}

/// The fid that a row names behind the connection.
pub(crate) fn fid_of(row: &Row) -> Result<u32, Unlike> {
    u32::try_from(number_at(row, 3)?).map_err(|_| Unlike::Field)
}

/// The tag of a read that waits at a fid.
pub(crate) fn tag_of_wait(fid: u32) -> Result<u16, Unlike> {
    u16::try_from(fid.saturating_add(100)).map_err(|_| Unlike::Field)
}

/// The fields of a row from a place on.
pub(crate) fn fields_from(row: &Row, at: usize) -> &[Bytes] {
    row.given.get(at..).unwrap_or(&[])
}

/// Whether nothing has to come.
pub(crate) fn wants_nothing(row: &Row) -> bool {
    match row.wanted.first() {
        Some(field) => row.wanted.len() == 1 && field.as_slice() == b"nothing".as_slice(),
        None => true,
    }
}
