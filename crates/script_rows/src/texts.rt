// The bytes that fields stand for: files, texts under names, and themselves.
use crate::came::Came;
use anyhow::bail;
use row_files::{Row, hex_digit};
use std::alloc::Global;
use std::fs::File;
use wire_base::Bytes;
use wire_streams::{ReadSource, read_whole};

/// How many bytes a file may have.
const MOST_BYTES: usize = 16_777_216;

/// The bytes of a file.
pub(crate) fn read_file(rt: &HostRuntime, name: &[u8]) -> anyhow::Result<Bytes> {
    let name = std::str::from_utf8(name)?;
    let mut source = ReadSource::new(File::open(rt, name)?);
    match read_whole(rt.alloc(), MOST_BYTES, &mut source) {
        Ok(bytes) => Ok(Bytes::from_vec(bytes)),
        Err(_) => bail!("{name} can't be read"),
    }
}

/// A field of a row, by its place.
pub(crate) fn argument(row: &Row, at: usize) -> anyhow::Result<&[u8]> {
    match row.field(at) {
        Some(field) => Ok(field),
        None => bail!("a field is missing"),
    }
}

/// The number that a field of a row spells.
pub(crate) fn number_at(row: &Row, at: usize) -> anyhow::Result<u64> {
    match row.number(at) {
        Some(number) => Ok(number),
        None => bail!("a number is missing"),
    }
}

/// Appends the bytes of hexadecimal digits.
pub(crate) fn put_hex(digits: &[u8], out: &mut Bytes) -> anyhow::Result<()> {
    let mut high: Option<u8> = None;
    for digit in digits {
        let Some(value) = hex_digit(*digit) else {
            bail!("what is no hexadecimal digit");
        };
        match high.take() {
            None => high = Some(value),
            Some(high) => out.push((high << 4) | value)?,
        }
    }
    if high.is_some() {
        bail!("an odd number of digits");
    }
    Ok(())
}

/// A text under a name.
#[derive(Drop)]
struct Named {
    name: Bytes,
    bytes: Bytes,
}

/// Texts under names.
#[derive(Drop)]
pub(crate) struct Texts {
    named: Vec<Named>,
}

impl Texts {
    /// No texts yet.
    pub(crate) fn new(alloc: Global) -> Texts {
        Texts {
            named: Vec::new(alloc),
        }
    }

    // The text that was last put under a name.
    fn find(&self, name: &[u8]) -> anyhow::Result<&[u8]> {
        for named in self.named.iter().rev() {
            if named.name.as_slice() == name {
                return Ok(named.bytes.as_slice());
            }
        }
        bail!("a text has no such name")
    }

    /// Appends the bytes that a field stands for: `@FILE` for those of a file, `$NAME` for a text, and each other for itself.
    pub(crate) fn put_bytes(
        &self,
        rt: &HostRuntime,
        field: &[u8],
        out: &mut Bytes,
    ) -> anyhow::Result<()> {
        if let Some(name) = field.strip_prefix(b"@".as_slice()) {
            let content = read_file(rt, name)?;
            return Ok(out.append(content.as_slice())?);
        }
        match field.strip_prefix(b"$".as_slice()) {
            Some(name) => Ok(out.append(self.find(name)?)?),
            None => Ok(out.append(field)?),
        }
    }

    /// The bytes that a field stands for.
    pub(crate) fn bytes_of(&self, rt: &HostRuntime, field: &[u8]) -> anyhow::Result<Bytes> {
        let mut bytes = Bytes::new(rt.alloc());
        self.put_bytes(rt, field, &mut bytes)?;
        Ok(bytes)
    }

    // What a row of one of these verbs puts under its name.
    fn read_row(&self, rt: &HostRuntime, row: &Row, out: &mut Bytes) -> anyhow::Result<()> {
        if row.word() == b"times".as_slice() {
            let times = number_at(row, 2)?;
            let once = self.bytes_of(rt, argument(row, 3)?)?;
            for _ in 0..times {
                out.append(once.as_slice())?;
            }
            return Ok(());
        }
        for field in row.given.iter().skip(2) {
            match row.word() {
                b"hex" => put_hex(field.as_slice(), out)?,
                _ => self.put_bytes(rt, field.as_slice(), out)?,
            }
        }
        Ok(())
    }

    /// Puts a text under a name: `hex NAME DIGITS..`, `text NAME FIELD..` or `times NAME COUNT FIELD`.
    pub(crate) fn keep(&mut self, rt: &HostRuntime, row: &Row) -> anyhow::Result<()> {
        let name = Bytes::from_slice(rt.alloc(), argument(row, 1)?)?;
        let mut bytes = Bytes::new(rt.alloc());
        self.read_row(rt, row, &mut bytes)?;
        self.named.push(Named { name, bytes })?;
        Ok(())
    }

    /// Puts bytes that came: as the field that is wanted there has them, where that stands for the same bytes.
    pub(crate) fn put_came(
        &self,
        rt: &HostRuntime,
        row: &Row,
        at: usize,
        bytes: &[u8],
        came: &mut Came,
    ) -> anyhow::Result<()> {
        if let Some(field) = row.wanted.get(at) {
            let wanted = self.bytes_of(rt, field.as_slice())?;
            if wanted.as_slice() == bytes {
                return Ok(came.put(field.as_slice())?);
            }
        }
        Ok(came.put(bytes)?)
    }
}
