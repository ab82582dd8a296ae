// Messages that rows name: a field `$NAME` stands for the message of that name.
use crate::came::Came;
use crate::files::read_file;
use crate::play_fault::PlayFault;
use anyhow::bail;
use row_files::{Row, read_rows};
use std::alloc::Global;
use wire_base::{Bytes, NoMemory};

// A message: its name, with `$` in front, and its bytes.
#[derive(Drop)]
struct Message {
    name: Bytes,
    bytes: Bytes,
}

/// The messages that rows have named so far.
#[derive(Drop)]
pub(crate) struct Messages {
    alloc: Global,
    list: Vec<Message>,
}

impl Messages {
    /// No messages yet.
    pub(crate) fn new(alloc: Global) -> Messages {
        Messages {
            alloc,
            list: Vec::new(alloc),
        }
    }

    /// The row `message NAME PART ..` names a message, which is its parts in a row.
    pub(crate) fn learn(&mut self, row: &Row) -> Result<(), PlayFault> {
        let Some(name) = row.field(1) else {
            return Err(PlayFault::Row("a message without a name"));
        };
        let bytes = self.join(row, 2)?;
        let mut dollar_name = Bytes::from_slice(self.alloc, b"$".as_slice())?;
        dollar_name.append(name)?;
        self.keep(Message {
            name: dollar_name,
            bytes,
        })
    }

    fn keep(&mut self, message: Message) -> Result<(), PlayFault> {
        self.list.push(message).map_err(NoMemory::from)?;
        Ok(())
    }

    /// The row `messages FILE` has the file's rows name their messages.
    pub(crate) fn read(&mut self, rt: &HostRuntime, row: &Row) -> anyhow::Result<()> {
        let text = read_file(rt, row.field(1))?;
        let rows = read_rows(self.alloc, text.as_slice())?;
        for row in &rows {
            if self.learn(row).is_err() {
                bail!("line {} names no message", row.line);
            }
        }
        Ok(())
    }

    /// What the fields of a row say from this place on, one behind the other.
    pub(crate) fn join(&self, row: &Row, from: usize) -> Result<Bytes, PlayFault> {
        let mut joined = Bytes::new(self.alloc);
        for field in row.given.iter().skip(from) {
            joined.append(self.meant(field.as_slice())?)?;
        }
        Ok(joined)
    }

    /// What a field says: the message that it names, or itself.
    pub(crate) fn meant<'a>(&'a self, field: &'a [u8]) -> Result<&'a [u8], PlayFault> {
        if field.first() != Some(&b'$') {
            return Ok(field);
        }
        for message in &self.list {
            if message.name.as_slice() == field {
                return Ok(message.bytes.as_slice());
            }
        }
        Err(PlayFault::Row("no message has this name"))
    }

    // The first message of these bytes.
    fn find(&self, bytes: &[u8]) -> Option<&Message> {
        for message in &self.list {
            if message.bytes.as_slice() == bytes {
                return Some(message);
            }
        }
        None
    }

    /// A field more of what came: the name of the first message of these bytes, or the bytes.
    pub(crate) fn tell(&self, bytes: &[u8], came: &mut Came) -> Result<(), NoMemory> {
        match self.find(bytes) {
            Some(message) => came.put(message.name.as_slice()),
            None => came.put(bytes),
        }
    }

    // The longest message that these bytes begin with, if it has any bytes.
    fn longest_front(&self, bytes: &[u8]) -> Option<&Message> {
        let mut longest: Option<&Message> = None;
        let mut length = 0;
        for message in &self.list {
            if message.bytes.len() > length && bytes.starts_with(message.bytes.as_slice()) {
                length = message.bytes.len();
                longest = Some(message);
            }
        }
        longest
    }

    /// The names of the messages that these bytes are, one behind the other, and what is behind the last as it is.
    pub(crate) fn tell_each(&self, bytes: &[u8], came: &mut Came) -> Result<(), NoMemory> {
        let mut left = bytes;
        for _ in 0..bytes.len() {
            match self.longest_front(left) {
                Some(message) => {
                    came.put(message.name.as_slice())?;
                    left = rest_of(left, message.bytes.len());
                }
                None => break,
            }
        }
        if left.is_empty() {
            return Ok(());
        }
        came.put(left)
    }
}

// What stands behind the first bytes, so many.
fn rest_of(bytes: &[u8], count: usize) -> &[u8] {
    match bytes.get(count..) {
        Some(rest) => rest,
        None => b"",
    }
}
