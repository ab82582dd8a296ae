// What is told of cases: how many there were, and each that wasn't as wanted.
use crate::field::put_field;
use crate::row::Row;
use std::alloc::Global;
use wire_base::{Bytes, NoMemory};

/// Cases that were compared.
#[derive(Drop)]
pub struct Report {
    cases: u64,
    unlike: u64,
    told: Bytes,
}

// Whether two lists of fields are the same.
fn is_same(left: &[Bytes], right: &[Bytes]) -> bool {
    if left.len() != right.len() {
        return false;
    }
    for (a, b) in left.iter().zip(right) {
        if a.as_slice() != b.as_slice() {
            return false;
        }
    }
    true
}

// Appends fields, with a blank before each.
fn put_fields(fields: &[Bytes], out: &mut Bytes) -> Result<(), NoMemory> {
    for field in fields {
        out.push(b' ')?;
        put_field(field.as_slice(), out)?;
    }
    Ok(())
}

impl Report {
    /// No cases yet.
    pub fn new(alloc: Global) -> Report {
        Report {
            cases: 0,
            unlike: 0,
            told: Bytes::new(alloc),
        }
    }

    /// A case came so: it is counted, and where that isn't what its row wants, told with its file and line.
    pub fn compare(
        &mut self,
        alloc: Global,
        file: &str,
        row: &Row,
        came: &[Bytes],
    ) -> Result<(), NoMemory> {
        self.cases = self.cases.saturating_add(1);
        if is_same(&row.wanted, came) {
            return Ok(());
        }
        self.place(alloc, file, row)?;
        self.told.append(b"\n    wanted")?;
        put_fields(&row.wanted, &mut self.told)?;
        self.told.append(b"\n    came")?;
        put_fields(came, &mut self.told)?;
        self.told.push(b'\n')
    }

    /// A row can't be carried out, for a cause: it counts as a case that isn't as wanted.
    pub fn refuse(
        &mut self,
        alloc: Global,
        file: &str,
        row: &Row,
        cause: &str,
    ) -> Result<(), NoMemory> {
        self.cases = self.cases.saturating_add(1);
        self.place(alloc, file, row)?;
        self.told.append(b" ")?;
        self.told.append(cause.as_bytes())?;
        self.told.push(b'\n')
    }

    // Tells a row's place, and counts it as unlike.
    fn place(&mut self, alloc: Global, file: &str, row: &Row) -> Result<(), NoMemory> {
        self.unlike = self.unlike.saturating_add(1);
        let place = format!(in alloc; "{file}:{}:", row.line)?;
        self.told.append(place.as_bytes())?;
        put_fields(&row.given, &mut self.told)
    }

    /// How many cases were compared.
    pub fn cases(&self) -> u64 {
        self.cases
    }

    /// How many of them weren't as wanted.
    pub fn unlike(&self) -> u64 {
        self.unlike
    }

    /// A line or more for each case that wasn't as wanted.
    pub fn told(&self) -> &[u8] {
        self.told.as_slice()
    }
}
