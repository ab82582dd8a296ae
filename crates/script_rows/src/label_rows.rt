// Rows of lines of labels and of texts of them: what each is, and the first line that is bad.
use anyhow::bail;
use row_files::{Report, Row};
use std::alloc::Global;
use trace_labels::{LabelLine, LabelsFault, Unread, parse_label_line, read_labels};
use wire_base::Bytes;
use wire_streams::SteadySource;

// The first word of a line.
fn word_of(line: &LabelLine) -> &'static [u8] {
    match line {
        LabelLine::Compromised { .. } => b"compromised".as_slice(),
        LabelLine::Holder { .. } => b"holder".as_slice(),
        LabelLine::Reading { .. } => b"reading".as_slice(),
        LabelLine::Label { .. } => b"label".as_slice(),
        LabelLine::Proof { .. } => b"proof".as_slice(),
    }
}

// What a line is.
fn tell_line(alloc: Global, text: &[u8]) -> anyhow::Result<Bytes> {
    match parse_label_line(alloc, text) {
        Ok(line) => Ok(Bytes::from_slice(alloc, word_of(&line))?),
        Err(Unread::BadForm) => Ok(Bytes::from_slice(alloc, b"no")?),
        Err(Unread::NoMemory) => bail!("out of memory"),
    }
}

// What a text of labels is.
fn tell_text(alloc: Global, text: &[u8]) -> anyhow::Result<Bytes> {
    let mut source = SteadySource::new(text.to_vec(alloc)?);
    let told = match read_labels(alloc, &mut source) {
        Ok(labels) => match labels.bad {
            Some(line) => format!(in alloc; "bad {line} behind {}", labels.lines.len())?,
            None => format!(in alloc; "{}", labels.lines.len())?,
        },
        Err(LabelsFault::Flood) => format!(in alloc; "flood")?,
        Err(LabelsFault::ReadFault) => bail!("a read failed"),
        Err(LabelsFault::NoMemory) => bail!("out of memory"),
    };
    Ok(Bytes::from_slice(alloc, told.as_bytes())?)
}

// A row's fields behind its word, with a newline behind each.
fn lines_of(alloc: Global, row: &Row) -> anyhow::Result<Bytes> {
    let mut text = Bytes::new(alloc);
    for field in row.given.iter().skip(1) {
        text.append(field.as_slice())?;
        text.push(b'\n')?;
    }
    Ok(text)
}

// A label that is so deep.
fn deep_label(alloc: Global, deep: u32) -> anyhow::Result<Bytes> {
    let mut text = Bytes::from_slice(alloc, b"label 1 ")?;
    for _ in 1..deep {
        text.append(b"cat 1 ")?;
    }
    text.append(b"nonce 0")?;
    Ok(text)
}

fn field_of(row: &Row) -> &[u8] {
    match row.field(1) {
        Some(field) => field,
        None => b"",
    }
}

// What comes of a row.
fn tell(alloc: Global, row: &Row) -> anyhow::Result<Bytes> {
    match row.word() {
        b"line" => tell_line(alloc, field_of(row)),
        b"raw" => tell_text(alloc, field_of(row)),
        b"text" => tell_text(alloc, lines_of(alloc, row)?.as_slice()),
        b"deep" => {
            let deep = std::str::from_utf8(field_of(row))?.parse::<u32>()?;
            tell_line(alloc, deep_label(alloc, deep)?.as_slice())
        }
        _ => bail!("no such row"),
    }
}

/// Plays the rows of a file.
pub fn play(
    alloc: Global,
    file: &'static str,
    rows: &[Row],
    report: &mut Report,
) -> anyhow::Result<()> {
    for row in rows {
        let mut fields = Vec::new(alloc);
        fields.push(tell(alloc, row)?)?;
        report.compare(alloc, file, row, &fields)?;
    }
    Ok(())
}
