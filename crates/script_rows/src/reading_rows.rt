// Rows of what a text of labels reads its atoms as: which are apart, and what of a record, of tables, of a conversation and of
// the holders of conversations they spell.
use anyhow::bail;
use auth_tables::{KeyTable, parse_keys};
use row_files::{Report, Row};
use std::alloc::Global;
use symbolic_runs::Reading;
use trace_labels::{LabelLine, read_labels};
use trace_runs::{
    AtomKind, are_apart, gives_sevens, holder_of, is_short, reading_of, reads_held, reads_holders,
    reads_tables, reads_words,
};
use wire_base::{Bytes, List, Text};
use wire_histories::{Protocol, Role, Setting, Step, Wire};
use wire_streams::SteadySource;

static FIRST_KEYS: &[u8] = b"user=ann !hex=01010101010101\nuser=srv !hex=02020202020202\n";

static LATER_KEYS: &[u8] =
    b"user=ann !hex=03030303030303\nuser=mrose !hex=04040404040404 !password=tanstaaf\nuser=srv !hex=02020202020202\n";

// The labels of a row: its fields behind its word and one more, each a line.
fn labels_of(alloc: Global, row: &Row) -> anyhow::Result<List<LabelLine>> {
    let mut text = Bytes::new(alloc);
    for field in row.given.iter().skip(2) {
        text.append(field.as_slice())?;
        text.push(b'\n')?;
    }
    let mut source = SteadySource::new(text.as_slice().to_vec(alloc)?);
    match read_labels(alloc, &mut source) {
        Ok(labels) if labels.bad.is_none() => Ok(labels.lines),
        _ => bail!("no labels"),
    }
}

fn kind_of(word: &[u8]) -> anyhow::Result<AtomKind> {
    match word {
        b"nonce" => Ok(AtomKind::Nonce),
        b"aschal" => Ok(AtomKind::Challenge),
        b"key" => Ok(AtomKind::Key),
        b"pw" => Ok(AtomKind::Password),
        _ => bail!("no such kind"),
    }
}

fn start_of(
    alloc: Global,
    conv: &[u8],
    protocol: Protocol,
    role: Role,
    word: [u8; 8],
) -> anyhow::Result<Step> {
    Ok(Step::Start {
        conv: Bytes::from_slice(alloc, conv)?,
        protocol,
        role,
        word,
    })
}

// The record of the rows: a client of p9sk1, one of apop, a request, and a server of cram.
fn record_of(alloc: Global) -> anyhow::Result<Wire> {
    let mut steps = Wire::new(alloc);
    steps.push(start_of(alloc, b"c", Protocol::P9sk1, Role::Client, [1; 8])?)?;
    steps.push(start_of(alloc, b"c", Protocol::Apop, Role::Client, [2; 8])?)?;
    steps.push(Step::AsGot {
        session: Bytes::from_slice(alloc, b"s")?,
        bytes: Bytes::new(alloc),
        words: [[3; 8], [4; 8], [5; 8]],
    })?;
    steps.push(start_of(alloc, b"c", Protocol::Cram, Role::Server, [6; 8])?)?;
    Ok(steps)
}

fn tell_words(alloc: Global, reading: &Reading) -> anyhow::Result<bool> {
    let steps = record_of(alloc)?;
    Ok(is_short(steps.as_slice()) && reads_words(reading, steps.as_slice()))
}

fn keys_of(alloc: Global, text: &'static [u8]) -> anyhow::Result<KeyTable> {
    if text.len() > 1000 {
        bail!("a long table");
    }
    match parse_keys(alloc, text) {
        Ok(table) => Ok(table),
        Err(_) => bail!("no table"),
    }
}

fn tell_tables(alloc: Global, reading: &Reading) -> anyhow::Result<bool> {
    let first = keys_of(alloc, FIRST_KEYS)?;
    let later = keys_of(alloc, LATER_KEYS)?;
    Ok(reads_tables(alloc, reading, &[&first, &later])?)
}

// Whether the key of mrose is that of the holder of c.
fn tell_held(
    alloc: Global,
    labels: &List<LabelLine>,
    reading: &Reading,
    protocol: Protocol,
    role: Role,
) -> anyhow::Result<bool> {
    let Some(holder) = holder_of(labels.as_slice(), b"c") else {
        return Ok(false);
    };
    let table = keys_of(alloc, LATER_KEYS)?;
    let Some(key) = table.find(b"mrose") else {
        bail!("no key");
    };
    let holder = holder.copy()?;
    Ok(reads_held(
        reading,
        protocol,
        role,
        holder,
        Some(key.des()),
        key.password(),
    ))
}

// A record that starts the conversations of these letters: c, a client of p9sk1, d, one of apop, and e, a server of cram.
fn starts_of(alloc: Global, letters: &[u8]) -> anyhow::Result<Wire> {
    let mut steps = Wire::new(alloc);
    for letter in letters {
        let (protocol, role) = match *letter {
            b'c' => (Protocol::P9sk1, Role::Client),
            b'd' => (Protocol::Apop, Role::Client),
            b'e' => (Protocol::Cram, Role::Server),
            _ => bail!("no such conversation"),
        };
        steps.push(start_of(alloc, &[*letter], protocol, role, [*letter; 8])?)?;
    }
    Ok(steps)
}

// A setting in which c and d keep mrose's key, and e keeps none.
fn setting_of(alloc: Global) -> anyhow::Result<Setting> {
    let Some(dom) = Text::from_slice(alloc, b"dom")? else {
        bail!("no domain");
    };
    let table = keys_of(alloc, LATER_KEYS)?;
    let Some(key) = table.find(b"mrose") else {
        bail!("no key");
    };
    let Some(password) = key.password() else {
        bail!("no password");
    };
    let mut setting = Setting::new(alloc, dom);
    setting.note_key(b"c", key.des(), None)?;
    setting.note_key(b"d", key.des(), Some(password.copy()?))?;
    Ok(setting)
}

// Whether the holders of these conversations are told, and their keys are read.
fn tell_holders(
    alloc: Global,
    labels: &List<LabelLine>,
    reading: &Reading,
    letters: &[u8],
) -> anyhow::Result<bool> {
    let setting = setting_of(alloc)?;
    let steps = starts_of(alloc, letters)?;
    Ok(reads_holders(reading, labels.as_slice(), &setting, steps.as_slice())?)
}

fn argument(row: &Row) -> &[u8] {
    match row.field(1) {
        Some(field) => field,
        None => b"",
    }
}

// Whether it is so.
fn judge(alloc: Global, row: &Row) -> anyhow::Result<bool> {
    let labels = labels_of(alloc, row)?;
    let reading = reading_of(alloc, labels.as_slice())?;
    match (row.word(), argument(row)) {
        (b"apart", kind) => Ok(are_apart(alloc, labels.as_slice(), kind_of(kind)?)?),
        (b"sevens", _) => Ok(gives_sevens(labels.as_slice())),
        (b"words", _) => tell_words(alloc, &reading),
        (b"tables", _) => tell_tables(alloc, &reading),
        (b"held", b"client") => tell_held(alloc, &labels, &reading, Protocol::P9any, Role::Client),
        (b"held", b"mail") => tell_held(alloc, &labels, &reading, Protocol::Apop, Role::Client),
        (b"held", b"server") => tell_held(alloc, &labels, &reading, Protocol::Cram, Role::Server),
        (b"holders", letters) => tell_holders(alloc, &labels, &reading, letters),
        _ => bail!("no such row"),
    }
}

/// Plays the rows of a file.
pub fn play(
    alloc: Global,
    file: &'static str,
    rows: &[Row],
    report: &mut Report,
) -> anyhow::Result<()> {
    for row in rows {
        let said: &[u8] = if judge(alloc, row)? { b"yes" } else { b"no" };
        let mut fields = Vec::new(alloc);
        fields.push(Bytes::from_slice(alloc, said)?)?;
        report.compare(alloc, file, row, &fields)?;
    }
    Ok(())
}
