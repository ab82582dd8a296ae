// How a file of rows is read: byte by byte, with the place at which the reader stands.
use crate::row::{Row, hex_digit};
use std::alloc::Global;
use std::fmt;
use wire_base::{Bytes, NoMemory};

/// Why a field can't be read.
#[derive(Clone, Copy, Debug, PartialEq, Eq)]
pub enum FieldFault {
    /// The row ends within quotes.
    OpenQuote,
    /// Behind `\` stands no escape.
    BadEscape,
    /// Behind closing quotes stands neither a blank nor `*` with a number of 1 to 1,000,000.
    BadTimes,
    /// Memory ran out.
    NoMemory,
}

impl From<NoMemory> for FieldFault {
    fn from(_: NoMemory) -> Self {
        FieldFault::NoMemory
    }
}

/// The row that can't be read, counted from 1, and why.
#[derive(Clone, Copy, Debug, PartialEq, Eq)]
pub struct RowFault {
    pub line: u32,
    pub cause: FieldFault,
}

impl fmt::Display for RowFault {
    fn fmt<W: fmt::Write>(&self, f: &mut fmt::Formatter<W>) -> fmt::Result {
        match self.cause {
            FieldFault::OpenQuote => write!(f, "line {}: open quotes", self.line),
            FieldFault::BadEscape => write!(f, "line {}: no escape", self.line),
            FieldFault::BadTimes => write!(f, "line {}: no number of times", self.line),
            FieldFault::NoMemory => write!(f, "line {}: out of memory", self.line),
        }
    }
}

impl std::error::Error for RowFault {}

/// How often a field may be repeated.
const MOST_TIMES: u32 = 1_000_000;

// Where a reader stands within a row.
#[derive(Clone, Copy)]
enum Place {
    Between,
    Bare,
    Quoted,
    Escaped,
    HighDigit,
    LowDigit(u8),
    Closed,
    Times(u32),
    Comment,
}

// A row while it is read.
#[derive(Drop)]
struct Reader {
    place: Place,
    field: Bytes,
    given: Vec<Bytes>,
    wanted: Vec<Bytes>,
    is_wanted: bool,
    is_bare: bool,
}

impl Reader {
    fn new(alloc: Global) -> Reader {
        Reader {
            place: Place::Between,
            field: Bytes::new(alloc),
            given: Vec::new(alloc),
            wanted: Vec::new(alloc),
            is_wanted: false,
            is_bare: false,
        }
    }

    // The field is at its end.
    fn finish(&mut self, alloc: Global) -> Result<(), FieldFault> {
        let field = std::mem::replace(&mut self.field, Bytes::new(alloc));
        self.place = Place::Between;
        if self.is_bare && !self.is_wanted && field.as_slice() == b"=>".as_slice() {
            self.is_wanted = true;
        } else if self.is_wanted {
            self.wanted.push(field).map_err(NoMemory::from)?;
        } else {
            self.given.push(field).map_err(NoMemory::from)?;
        }
        Ok(())
    }

    // The field stands so many times.
    fn repeat(&mut self, alloc: Global, times: u32) -> Result<(), FieldFault> {
        let once = self.field.copy()?;
        self.field = Bytes::new(alloc);
        for _ in 0..times {
            self.field.append(once.as_slice())?;
        }
        Ok(())
    }

    fn between(&mut self, byte: u8) -> Result<(), FieldFault> {
        match byte {
            b' ' | b'\t' => {}
            b'#' => self.place = Place::Comment,
            b'"' => {
                self.is_bare = false;
                self.place = Place::Quoted;
            }
            _ => {
                self.is_bare = true;
                self.place = Place::Bare;
                self.field.push(byte)?;
            }
        }
        Ok(())
    }

    fn quoted(&mut self, byte: u8) -> Result<(), FieldFault> {
        match byte {
            b'"' => self.place = Place::Closed,
            b'\\' => self.place = Place::Escaped,
            _ => self.field.push(byte)?,
        }
        Ok(())
    }

    fn escaped(&mut self, byte: u8) -> Result<(), FieldFault> {
        self.place = Place::Quoted;
        match byte {
            b'n' => self.field.push(b'\n')?,
            b'r' => self.field.push(b'\r')?,
            b't' => self.field.push(b'\t')?,
            b'0' => self.field.push(0)?,
            b'"' | b'\\' => self.field.push(byte)?,
            b'x' => self.place = Place::HighDigit,
            _ => return Err(FieldFault::BadEscape),
        }
        Ok(())
    }

    fn high_digit(&mut self, byte: u8) -> Result<(), FieldFault> {
        let high = hex_digit(byte).ok_or(FieldFault::BadEscape)?;
        self.place = Place::LowDigit(high);
        Ok(())
    }

    fn low_digit(&mut self, high: u8, byte: u8) -> Result<(), FieldFault> {
        let low = hex_digit(byte).ok_or(FieldFault::BadEscape)?;
        self.place = Place::Quoted;
        Ok(self.field.push((high << 4) | low)?)
    }

    fn closed(&mut self, alloc: Global, byte: u8) -> Result<(), FieldFault> {
        match byte {
            b' ' | b'\t' => self.finish(alloc),
            b'*' => {
                self.place = Place::Times(0);
                Ok(())
            }
            _ => Err(FieldFault::BadTimes),
        }
    }

    fn times(&mut self, alloc: Global, times: u32, byte: u8) -> Result<(), FieldFault> {
        match byte {
            b' ' | b'\t' => self.end_times(alloc, times),
            b'0'..=b'9' => {
                let more = times.saturating_mul(10);
                self.place = Place::Times(more.saturating_add(u32::from(byte - b'0')));
                Ok(())
            }
            _ => Err(FieldFault::BadTimes),
        }
    }

    fn end_times(&mut self, alloc: Global, times: u32) -> Result<(), FieldFault> {
        if times == 0 || times > MOST_TIMES {
            return Err(FieldFault::BadTimes);
        }
        self.repeat(alloc, times)?;
        self.finish(alloc)
    }

    fn step(&mut self, alloc: Global, byte: u8) -> Result<(), FieldFault> {
        match self.place {
            Place::Between => self.between(byte),
            Place::Bare if byte == b' ' || byte == b'\t' => self.finish(alloc),
            Place::Bare => Ok(self.field.push(byte)?),
            Place::Quoted => self.quoted(byte),
            Place::Escaped => self.escaped(byte),
            Place::HighDigit => self.high_digit(byte),
            Place::LowDigit(high) => self.low_digit(high, byte),
            Place::Closed => self.closed(alloc, byte),
            Place::Times(times) => self.times(alloc, times, byte),
            Place::Comment => Ok(()),
        }
    }

    // The row is at its end.
    fn end(&mut self, alloc: Global) -> Result<(), FieldFault> {
        match self.place {
            Place::Between | Place::Comment => Ok(()),
            Place::Bare | Place::Closed => self.finish(alloc),
            Place::Times(times) => self.end_times(alloc, times),
            Place::Quoted | Place::Escaped | Place::HighDigit | Place::LowDigit(_) => {
                Err(FieldFault::OpenQuote)
            }
        }
    }
}

// Reads a row into a new reader.
fn read_row(alloc: Global, reader: &mut Reader, text: &[u8]) -> Result<(), FieldFault> {
    for byte in text {
        reader.step(alloc, *byte)?;
    }
    reader.end(alloc)
}

/// The rows of a text, but for those that are empty or comments; or the first that can't be read.
pub fn read_rows(alloc: Global, text: &[u8]) -> Result<Vec<Row>, RowFault> {
    let mut rows = Vec::new(alloc);
    let mut line: u32 = 0;
    for row in text.split(|byte| *byte == b'\n') {
        line = line.saturating_add(1);
        let mut reader = Reader::new(alloc);
        if let Err(cause) = read_row(alloc, &mut reader, row) {
            return Err(RowFault { line, cause });
        }
        if reader.given.is_empty() && reader.wanted.is_empty() {
            continue;
        }
        let Reader { given, wanted, .. } = reader;
        let row = Row {
            line,
            given,
            wanted,
        };
        if rows.push(row).is_err() {
            let cause = FieldFault::NoMemory;
            return Err(RowFault { line, cause });
        }
    }
    Ok(rows)
}
