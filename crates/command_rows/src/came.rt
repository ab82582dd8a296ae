// What came of a row, and how that is told.
use row_files::{Report, Row};
use std::alloc::Global;
use wire_base::{Bytes, NoMemory};

/// The fields that came of a row, in order.
#[derive(Drop)]
pub(crate) struct Came {
    alloc: Global,
    fields: Vec<Bytes>,
}

impl Came {
    /// Nothing yet.
    pub(crate) fn new(alloc: Global) -> Came {
        Came {
            alloc,
            fields: Vec::new(alloc),
        }
    }

    /// Puts a field.
    pub(crate) fn put(&mut self, field: &[u8]) -> Result<(), NoMemory> {
        let field = Bytes::from_slice(self.alloc, field)?;
        self.fields.push(field)?;
        Ok(())
    }

    /// How many fields there are.
    pub(crate) fn len(&self) -> usize {
        self.fields.len()
    }

    /// Puts a number in decimal.
    pub(crate) fn put_number(&mut self, number: u64) -> anyhow::Result<()> {
        let digits = format!(in self.alloc; "{number}")?;
        Ok(self.put(digits.as_bytes())?)
    }

    /// Puts an answer to a question: `yes` or `no`.
    pub(crate) fn put_yes(&mut self, is_so: bool) -> anyhow::Result<()> {
        let answer = if is_so { "yes" } else { "no" };
        Ok(self.put(answer.as_bytes())?)
    }

    /// The row came to these fields, or can't be carried out. A row that wants nothing and came to nothing is no case.
    pub(crate) fn tell(
        &self,
        file: &str,
        row: &Row,
        played: anyhow::Result<()>,
        report: &mut Report,
    ) -> anyhow::Result<()> {
        if let Err(error) = played {
            let cause = format!(in self.alloc; "{error}")?;
            return Ok(report.refuse(self.alloc, file, row, cause.as_str())?);
        }
        if self.fields.is_empty() && row.wanted.is_empty() {
            return Ok(());
        }
        Ok(report.compare(self.alloc, file, row, &self.fields)?)
    }
}
