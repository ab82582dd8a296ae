// Where all clients' words are drawn from.
use std::alloc::Global;
use std::fs::File;
use std::io::{self, ErrorKind, Read};
use std::sync::Arc;
use wire_base::NoMemory;
use wire_streams::{ReadAhead, ReadSource, ReadWords};

/// How many bytes of it one read asks for: 64 words.
const MANY: usize = 512;

/// Words of it, many of which are read at once.
pub(crate) type RandomWords = ReadWords<ReadAhead<ReadSource<Random>>>;

/// Random bytes, which all that share them read from one file. It is opened once.
#[derive(Drop)]
pub struct Random {
    file: Arc<Option<File>, Global>,
}

impl Random {
    /// The random bytes of a file. Where it couldn't be opened each read fails.
    pub fn new(alloc: Global, file: Option<File>) -> Result<Random, NoMemory> {
        match Arc::new(alloc, file) {
            Ok(file) => Ok(Random { file }),
            Err(_) => Err(NoMemory),
        }
    }

    /// The same file, for another.
    pub(crate) fn share(&self) -> Option<Random> {
        let file = Arc::try_clone(&self.file).ok()?;
        Some(Random { file })
    }

    /// Its words.
    pub(crate) fn words(self, alloc: Global) -> Result<RandomWords, NoMemory> {
        let ahead = ReadAhead::new(alloc, MANY, ReadSource::new(self))?;
        Ok(ReadWords::new(ahead))
    }
}

impl Read for Random {
    fn read(&mut self, buf: &mut [u8]) -> io::Result<usize> {
        match &*self.file {
            Some(file) => {
                let mut file = file;
                file.read(buf)
            }
            None => Err(ErrorKind::NotFound.into()),
        }
    }
}
