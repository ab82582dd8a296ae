// The words of a command line.
use std::env::{self, Env};
use std::io::ErrorKind;
use wire_base::{Text, TextList};

/// Why there are no words.
#[derive(Clone, Copy, Debug, PartialEq, Eq)]
pub enum WordsFault {
    /// A word isn't text, or the system gave none.
    NoText,
    /// Memory ran out.
    NoMemory,
}

/// The words behind the program's name. Words that aren't UTF-8, or hold a NUL, are none.
pub fn command_words<R: Env + AllocGlobal>(rt: &R) -> Result<TextList, WordsFault> {
    let alloc = rt.alloc();
    let mut words = TextList::new(alloc);
    let args = match env::args(rt) {
        Ok(args) => args,
        Err(fault) if fault.kind() == ErrorKind::OutOfMemory => return Err(WordsFault::NoMemory),
        Err(_) => return Err(WordsFault::NoText),
    };
    for word in args.skip(1) {
        match Text::from_slice(alloc, word.as_bytes()) {
            Ok(Some(text)) => {
                if words.push(text).is_err() {
                    return Err(WordsFault::NoMemory);
                }
            }
            Ok(None) => return Err(WordsFault::NoText),
            Err(_) => return Err(WordsFault::NoMemory),
        }
    }
    Ok(words)
}
