// What a row came to.
use crate::play_fault::PlayFault;
use anyhow::bail;
use row_files::{Report, Row};
use std::alloc::Global;
use wire_base::{Bytes, NoMemory};

/// What a row came to, field by field.
#[derive(Drop)]
pub(crate) struct Came {
    alloc: Global,
    fields: Vec<Bytes>,
}

impl Came {
    /// No fields yet.
    pub(crate) fn new(alloc: Global) -> Came {
        Came {
            alloc,
            fields: Vec::new(alloc),
        }
    }

    /// A field more.
    pub(crate) fn put(&mut self, field: &[u8]) -> Result<(), NoMemory> {
        let field = Bytes::from_slice(self.alloc, field)?;
        self.fields.push(field)?;
        Ok(())
    }

    /// A field more, which is a number in decimal.
    pub(crate) fn put_number(&mut self, number: u64) -> Result<(), NoMemory> {
        let digits = format!(in self.alloc; "{number}")?;
        self.put(digits.as_bytes())
    }

    /// Compares this with what a row wants, where it was played; where it couldn't be, that is told.
    pub(crate) fn settle(
        &self,
        file: &str,
        row: &Row,
        played: Result<(), PlayFault>,
        report: &mut Report,
    ) -> anyhow::Result<()> {
        match played {
            Ok(()) => report.compare(self.alloc, file, row, self.fields.as_slice())?,
            Err(PlayFault::Row(cause)) => report.refuse(self.alloc, file, row, cause)?,
            Err(PlayFault::NoMemory) => bail!("out of memory"),
        }
        Ok(())
    }
}
