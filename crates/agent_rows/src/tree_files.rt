// The files of the trees, as replies name them: their qids and their records.
use crate::unlike::Unlike;
use wire_base::{Bytes, NoMemory, put_str, put_u16, put_u32, put_u64};

/// A file: its name, the kind and the path of its qid, and its mode.
struct TreeFile {
    name: &'static str,
    kind: u8,
    path: u64,
    mode: u32,
}

/// Whose all files are.
const OWNER: &[u8] = b"factotum";

/// How many bytes a record has behind its size, without its file's name.
const RECORD_BYTES: u16 = 71;

static TREE_FILES: [TreeFile; 10] = [
    TreeFile {
        name: "/",
        kind: 0x80,
        path: 0,
        mode: 0x8000_016d,
    },
    TreeFile {
        name: "factotum",
        kind: 0x80,
        path: 1,
        mode: 0x8000_016d,
    },
    TreeFile {
        name: "rpc",
        kind: 0,
        path: 2,
        mode: 0x1b6,
    },
    TreeFile {
        name: "ctl",
        kind: 0,
        path: 3,
        mode: 0x180,
    },
    TreeFile {
        name: "confirm",
        kind: 0x20,
        path: 4,
        mode: 0x2000_0180,
    },
    TreeFile {
        name: "needkey",
        kind: 0x20,
        path: 5,
        mode: 0x2000_0180,
    },
    TreeFile {
        name: "proto",
        kind: 0,
        path: 6,
        mode: 0x124,
    },
    TreeFile {
        name: "log",
        kind: 0x20,
        path: 7,
        mode: 0x2000_0180,
    },
    TreeFile {
        name: "who",
        kind: 0,
        path: 1,
        mode: 0x124,
    },
    TreeFile {
        name: "afid",
        kind: 0x08,
        path: 2,
        mode: 0,
    },
];

// The file of a name.
fn file_of(name: &[u8]) -> Result<&'static TreeFile, Unlike> {
    for file in &TREE_FILES {
        if file.name.as_bytes() == name {
            return Ok(file);
        }
    }
    Err(Unlike::Field)
}

// Appends a file's qid, whose version is 0.
fn put_qid_of(file: &TreeFile, out: &mut Bytes) -> Result<(), NoMemory> {
    out.push(file.kind)?;
    put_u32(0, out)?;
    put_u64(file.path, out)
}

/// Appends the qid of the file of this name.
pub(crate) fn put_qid(name: &[u8], out: &mut Bytes) -> Result<(), Unlike> {
    Ok(put_qid_of(file_of(name)?, out)?)
}

/// Appends the record of the file of this name, behind the length of the record.
pub(crate) fn put_record(name: &[u8], out: &mut Bytes) -> Result<(), Unlike> {
    let file = file_of(name)?;
    if name.len() > 8 {
        return Err(Unlike::Field);
    }
    let size = RECORD_BYTES + name.len() as u16;
    put_u16(size + 2, out)?;
    put_u16(size, out)?;
    out.append(&[0; 6])?;
    put_qid_of(file, out)?;
    put_u32(file.mode, out)?;
    out.append(&[0; 16])?;
    put_str(name, out)?;
    for _ in 0..3 {
        put_str(OWNER, out)?;
    }
    Ok(())
}
