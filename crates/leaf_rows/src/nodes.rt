// The tree of files: what stands in it, how its files are told, and which calls of a fid they refuse.
use crate::fields::{Came, byte_at, bytes_at, number_at, text_at, verb_of, word_at, words_of};
use anyhow::bail;
use file_tree::{
    FidFault, FidState, Node, attach_fault, dir_fault, open_fault, put_directory, put_record,
    reads, record_size, walk_fault, walk_from, writes,
};
use row_files::{Report, Row};
use std::alloc::Global;
use wire_base::Bytes;

pub(crate) fn play(
    alloc: Global,
    file: &str,
    rows: &[Row],
    report: &mut Report,
) -> anyhow::Result<()> {
    for row in rows {
        let mut came = Came::new(alloc);
        answer(alloc, row, &mut came)?;
        report.compare(alloc, file, row, came.fields())?;
    }
    Ok(())
}

fn answer(alloc: Global, row: &Row, came: &mut Came) -> anyhow::Result<()> {
    match verb_of(row) {
        "file" => file(node_at(row, 1)?, came),
        "files" => files(node_at(row, 1)?.files(), came),
        "record" => record(alloc, node_at(row, 1)?, came),
        "reads" => read_on(alloc, node_at(row, 1)?, word_at(row, 2)?, came),
        "steps" => steps(alloc, node_at(row, 1)?, bytes_at(row, 2), came),
        "mode" => {
            let mode = byte_at(row, 1)?;
            came.flag(reads(mode))?;
            Ok(came.flag(writes(mode))?)
        }
        "texts" => texts(came),
        _ => refuse(row, came),
    }
}

/// The file of a name.
pub(crate) fn node_of(name: &[u8]) -> Option<Node> {
    let nodes = [
        Node::Root,
        Node::Factotum,
        Node::Rpc,
        Node::Ctl,
        Node::Confirm,
        Node::Needkey,
        Node::Proto,
        Node::Log,
    ];
    for node in nodes {
        if node.name() == name {
            return Some(node);
        }
    }
    None
}

/// The file that a field names.
pub(crate) fn node_at(row: &Row, at: usize) -> anyhow::Result<Node> {
    match node_of(bytes_at(row, at)) {
        Some(node) => Ok(node),
        None => bail!("line {}: field {} names no file", row.line, at),
    }
}

// What is known of a file without opening it.
fn file(node: Node, came: &mut Came) -> anyhow::Result<()> {
    let qid = node.qid();
    came.shown(&node)?;
    came.digits(&[qid.kind])?;
    came.shown(&qid.vers)?;
    came.number(qid.path)?;
    came.digits(&node.mode().to_be_bytes())?;
    came.flag(node.is_written())?;
    came.flag(node.is_directory())?;
    Ok(came.flag(node.is_exclusive())?)
}

/// The names of files.
pub(crate) fn files(nodes: &[Node], came: &mut Came) -> anyhow::Result<()> {
    for node in nodes {
        came.bytes(node.name())?;
    }
    Ok(())
}

// The record by which a file is told, and its size.
fn record(alloc: Global, node: Node, came: &mut Came) -> anyhow::Result<()> {
    let mut out = Bytes::new(alloc);
    put_record(node, &mut out)?;
    came.digits(out.as_slice())?;
    came.count(record_size(node))
}

// Reads a directory with one count from its beginning to the first read that gives nothing: how much each gives, and
// whether all of them are the whole of its records or the front of them.
fn read_on(alloc: Global, node: Node, count: u32, came: &mut Came) -> anyhow::Result<()> {
    let mut out = Bytes::new(alloc);
    let mut offset = 0;
    for _ in 0..100 {
        let before = out.len();
        offset = put_directory(node, offset, count, &mut out)?;
        came.count(out.len().saturating_sub(before))?;
        if offset != out.len() as u64 {
            came.word("another offset")?;
        }
        if out.len() == before {
            break;
        }
    }
    compare(alloc, node, out.as_slice(), came)
}

fn compare(alloc: Global, node: Node, read: &[u8], came: &mut Came) -> anyhow::Result<()> {
    let mut whole = Bytes::new(alloc);
    for child in node.files() {
        put_record(*child, &mut whole)?;
    }
    let is_front = whole.as_slice().starts_with(read);
    Ok(match is_front {
        true if read.len() == whole.len() => came.word("whole")?,
        true => came.word("front")?,
        false => came.word("other bytes")?,
    })
}

// Where names lead from a file, and the end of the way.
fn steps(alloc: Global, node: Node, names: &[u8], came: &mut Came) -> anyhow::Result<()> {
    let names = words_of(alloc, names)?;
    let (nodes, end) = walk_from(alloc, node, names.as_slice())?;
    files(nodes.as_slice(), came)?;
    came.shown(&end)
}

// Each refusal and its text.
fn texts(came: &mut Came) -> anyhow::Result<()> {
    for fault in [
        FidFault::UnknownFid,
        FidFault::InUse,
        FidFault::TooMany,
        FidFault::AlreadyOpen,
        FidFault::NotDirectory,
        FidFault::NotFound,
        FidFault::BadMode,
        FidFault::Denied,
        FidFault::BadOffset,
        FidFault::NoMemory,
    ] {
        came.shown(&fault)?;
        came.bytes(fault.text())?;
    }
    Ok(())
}

// Why a call on a fid is refused by how the fid stands, which names ctl.
fn refuse(row: &Row, came: &mut Came) -> anyhow::Result<()> {
    let state = state_of(text_at(row, 1));
    match verb_of(row) {
        "attach-fault" => came.shown(&attach_fault(state, held_at(row, 2)?)),
        "walk-fault" => {
            let newfid = state_of(text_at(row, 2));
            came.shown(&walk_fault(state, newfid, false, held_at(row, 3)?, &[]))
        }
        "open-fault" => came.shown(&open_fault(state, byte_at(row, 2)?)),
        "read-fault" => came.shown(&dir_fault(number_at(row, 1)?, number_at(row, 2)?)),
        _ => Ok(came.word("no such verb")?),
    }
}

fn held_at(row: &Row, at: usize) -> anyhow::Result<usize> {
    Ok(word_at(row, at)? as usize)
}

fn state_of(word: &str) -> Option<FidState> {
    let node = Node::Ctl;
    match word {
        "closed" => Some(FidState { node, mode: None }),
        "open" => Some(FidState {
            node,
            mode: Some(0),
        }),
        _ => None,
    }
}
