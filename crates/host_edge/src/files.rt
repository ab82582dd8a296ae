// Files that a program's words name.
use crate::line::{tell, tell_why};
use std::fs::{File, Files};
use std::io::{self, Eprint, ErrorKind, Read};
use std::os::unix::fs::MetadataExt;

/// The bits of a mode that tell the kind of a file, and the kind of a device that gives characters.
const KIND: u32 = 0o170000;

const DEVICE: u32 = 0o020000;

/// A file; each read of one that couldn't be opened fails.
#[derive(Drop)]
pub enum Opened {
    File(File),
    Shut,
}

impl Read for Opened {
    fn read(&mut self, buf: &mut [u8]) -> io::Result<usize> {
        match self {
            Opened::File(file) => file.read(buf),
            Opened::Shut => Err(ErrorKind::NotFound.into()),
        }
    }
}

/// Which of a table's bits of mode have to be clear.
#[derive(Clone, Copy, Debug, PartialEq, Eq)]
pub enum Guard {
    /// It has secrets: others than its owner may do nothing with it. A device, as the null device, keeps none.
    Secret,
    /// Others may read it. What is no regular file, as the null device, isn't looked at.
    Unchanged,
}

/// What tells a file and its content from another: where it is written, is guarded otherwise, or another stands under its name,
/// one of these changes.
#[derive(Clone, Copy, Debug, PartialEq, Eq)]
pub struct Stamp {
    device: u64,
    inode: u64,
    size: u64,
    written: (i64, i64),
    changed: (i64, i64),
}

/// What tells the file under a name from another; None where it can't be opened. Of one that is no regular file, as the null
/// device, nothing counts but which it is.
pub fn look_at<R: Files<File = File>>(rt: &R, path: &str) -> Option<Stamp> {
    let file = File::open(rt, path).ok()?;
    let found = file.metadata().ok()?;
    let is_regular = found.is_file();
    Some(Stamp {
        device: found.dev(),
        inode: found.ino(),
        size: if is_regular { found.size() } else { 0 },
        written: if is_regular {
            (found.mtime(), found.mtime_nsec())
        } else {
            (0, 0)
        },
        changed: if is_regular {
            (found.ctime(), found.ctime_nsec())
        } else {
            (0, 0)
        },
    })
}

/// Opens a file; one that can't be opened is named on standard error.
pub fn open<R: Files<File = File> + Eprint>(rt: &R, program: &str, path: &str) -> Opened {
    match File::open(rt, path) {
        Ok(file) => Opened::File(file),
        Err(_) => {
            tell(rt, program, "can't open", path);
            Opened::Shut
        }
    }
}

/// Opens a table; one that can't be opened, or with which others than its owner may do too much, is named on standard error,
/// and isn't read.
pub fn open_table<R: Files<File = File> + Eprint>(
    rt: &R,
    program: &str,
    path: &str,
    guard: Guard,
) -> Opened {
    let Opened::File(file) = open(rt, program, path) else {
        return Opened::Shut;
    };
    let Ok(found) = file.metadata() else {
        tell(rt, program, "can't open", path);
        return Opened::Shut;
    };
    match guard {
        Guard::Secret if found.mode() & KIND != DEVICE && found.mode() & 0o077 != 0 => {
            let why = "its mode must be 0600";
            tell_why(rt, program, "others may read or write", path, why);
            Opened::Shut
        }
        Guard::Unchanged if found.is_file() && found.mode() & 0o022 != 0 => {
            let why = "its mode must be 0644 or 0600";
            tell_why(rt, program, "others may write", path, why);
            Opened::Shut
        }
        Guard::Secret | Guard::Unchanged => Opened::File(file),
    }
}
