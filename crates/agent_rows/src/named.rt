// What rows call some bytes by name, and the texts that fields come to.
use crate::unlike::Unlike;
use std::alloc::Global;
use wire_base::{Bytes, NoMemory};

// Bytes, and their name.
#[derive(Drop)]
struct Named {
    name: Bytes,
    value: Bytes,
}

/// The names of a file.
#[derive(Drop)]
pub(crate) struct Names {
    list: Vec<Named>,
}

impl Names {
    /// No names.
    pub(crate) fn new(alloc: Global) -> Names {
        Names {
            list: Vec::new(alloc),
        }
    }

    // What has this name: the last that was given it.
    fn find(&self, name: &[u8]) -> Option<&[u8]> {
        for named in self.list.iter().rev() {
            if named.name.as_slice() == name {
                return Some(named.value.as_slice());
            }
        }
        None
    }

    // Appends what a field stands for: behind `$` what has that name, and else itself.
    fn append(&self, field: &[u8], out: &mut Bytes) -> Result<(), Unlike> {
        let Some(name) = field.strip_prefix(b"$".as_slice()) else {
            return Ok(out.append(field)?);
        };
        let value = self.find(name).ok_or(Unlike::Name)?;
        Ok(out.append(value)?)
    }

    /// The text of fields, between which there is a blank.
    pub(crate) fn text(&self, alloc: Global, fields: &[Bytes]) -> Result<Bytes, Unlike> {
        let mut text = Bytes::new(alloc);
        let mut is_first = true;
        for field in fields {
            if !is_first {
                text.push(b' ')?;
            }
            is_first = false;
            self.append(field.as_slice(), &mut text)?;
        }
        Ok(text)
    }

    // The bytes of pieces that stand one right behind the other.
    fn joined(&self, alloc: Global, pieces: &[Bytes]) -> Result<Bytes, Unlike> {
        let mut value = Bytes::new(alloc);
        for piece in pieces {
            self.append(piece.as_slice(), &mut value)?;
        }
        Ok(value)
    }

    /// Gives these pieces a name.
    pub(crate) fn define(
        &mut self,
        alloc: Global,
        name: &[u8],
        pieces: &[Bytes],
    ) -> Result<(), Unlike> {
        let value = self.joined(alloc, pieces)?;
        let name = Bytes::from_slice(alloc, name)?;
        self.list
            .push(Named { name, value })
            .map_err(NoMemory::from)?;
        Ok(())
    }
}
