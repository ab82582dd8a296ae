// Requests on the fids of one connection, one after the other.
use crate::fields::{Came, byte_at, bytes_at, number_at, verb_of, word_at, words_of};
use crate::nodes::{files, node_of};
use anyhow::bail;
use file_tree::{FidFault, FidState, Fids, Node, put_directory};
use row_files::{Report, Row};
use std::alloc::Global;
use wire_base::{Bytes, Text};

pub(crate) fn play(
    alloc: Global,
    file: &str,
    rows: &[Row],
    report: &mut Report,
) -> anyhow::Result<()> {
    let mut fids = Fids::new(alloc);
    for row in rows {
        if verb_of(row) == "connection" {
            fids = Fids::new(alloc);
            continue;
        }
        let mut came = Came::new(alloc);
        step(alloc, &mut fids, row, &mut came)?;
        report.compare(alloc, file, row, came.fields())?;
    }
    Ok(())
}

fn step(alloc: Global, fids: &mut Fids, row: &Row, came: &mut Came) -> anyhow::Result<()> {
    match verb_of(row) {
        "trip" => trip(alloc, bytes_at(row, 1), bytes_at(row, 2), came),
        "modes" => modes(alloc, bytes_at(row, 1), came),
        "attach-each" => attach_each(fids, word_at(row, 1)?, word_at(row, 2)?, came),
        "walk" => {
            let (fid, newfid) = (word_at(row, 1)?, word_at(row, 2)?);
            walk(alloc, fids, fid, newfid, bytes_at(row, 3), came)
        }
        "walk-in-halves" => {
            let (fid, newfid) = (word_at(row, 1)?, word_at(row, 2)?);
            walk_in_halves(alloc, fids, fid, newfid, bytes_at(row, 3), came)
        }
        "read" => {
            let (offset, count) = (number_at(row, 2)?, word_at(row, 3)?);
            read(alloc, fids, word_at(row, 1)?, offset, count, came)
        }
        _ => call(alloc, fids, word_at(row, 1)?, row, came),
    }
}

// A request on one fid.
fn call(
    alloc: Global,
    fids: &mut Fids,
    fid: u32,
    row: &Row,
    came: &mut Came,
) -> anyhow::Result<()> {
    match verb_of(row) {
        "attach" => came.shown(&fids.attach(fid)),
        "attach-in-halves" => attach_in_halves(fids, fid, came),
        "file" => tell_state(fids.file_of(fid), came),
        "may-open" => came.shown(&fids.may_open(fid, byte_at(row, 2)?)),
        "open" => came.shown(&open(fids, fid, byte_at(row, 2)?)),
        "read-in-halves" => read_in_halves(alloc, fids, fid, came),
        "stat" => stat(alloc, fids, fid, came),
        "clunk" => tell_state(fids.clunk(fid), came),
        _ => Ok(came.word("no such verb")?),
    }
}

// The file that a fid names and the mode in which it is open, or why there is none.
fn tell_state(state: Result<FidState, FidFault>, came: &mut Came) -> anyhow::Result<()> {
    match state {
        Ok(FidState { node, mode }) => {
            came.bytes(node.name())?;
            match mode {
                Some(mode) => came.number(u64::from(mode)),
                None => Ok(()),
            }
        }
        Err(fault) => Ok(came.bytes(fault.text())?),
    }
}

// A fid that isn't open.
fn closed(node: Node) -> Result<FidState, FidFault> {
    Ok(FidState { node, mode: None })
}

// Fid 0 names the root, and fid 1 the file to which this way leads from there.
fn at(alloc: Global, way: &[u8]) -> anyhow::Result<Fids> {
    let mut fids = Fids::new(alloc);
    lead(alloc, &mut fids, way)?;
    Ok(fids)
}

fn lead(alloc: Global, fids: &mut Fids, way: &[u8]) -> anyhow::Result<()> {
    let names = words_of(alloc, way)?;
    let led = match fids.attach(0) {
        Ok(()) => fids.walk(alloc, 0, 1, names.as_slice()),
        Err(fault) => Err(fault),
    };
    match led {
        Ok(nodes) if nodes.len() == names.as_slice().len() => Ok(()),
        _ => bail!("no way"),
    }
}

// What a walk answers: the files that it comes to, or what refuses it.
fn walk(
    alloc: Global,
    fids: &mut Fids,
    fid: u32,
    newfid: u32,
    words: &[u8],
    came: &mut Came,
) -> anyhow::Result<()> {
    let names = words_of(alloc, words)?;
    match fids.walk(alloc, fid, newfid, names.as_slice()) {
        Ok(nodes) => files(nodes.as_slice(), came),
        Err(fault) => Ok(came.bytes(fault.text())?),
    }
}

// The same as one text.
fn walked(alloc: Global, fids: &mut Fids, newfid: u32, names: &[Text]) -> anyhow::Result<Bytes> {
    let mut out = Bytes::new(alloc);
    match fids.walk(alloc, 1, newfid, names) {
        Ok(nodes) => {
            for node in nodes.as_slice() {
                if out.len() > 0 {
                    out.push(b' ')?;
                }
                out.append(node.name())?;
            }
        }
        Err(fault) => out.append(fault.text())?,
    }
    Ok(out)
}

// A walk from a file: onto a new fid, onto one that is held, and onto itself.
fn trip(alloc: Global, way: &[u8], words: &[u8], came: &mut Came) -> anyhow::Result<()> {
    let names = words_of(alloc, words)?;
    trip_onto(alloc, way, names.as_slice(), 2, came)?;
    trip_onto(alloc, way, names.as_slice(), 0, came)?;
    trip_onto(alloc, way, names.as_slice(), 1, came)
}

// What the walk answers, and what the new fid names then; of fids that it has nothing to do with what they name, if that
// has changed.
fn trip_onto(
    alloc: Global,
    way: &[u8],
    names: &[Text],
    newfid: u32,
    came: &mut Came,
) -> anyhow::Result<()> {
    let mut fids = at(alloc, way)?;
    let start = fids.file_of(1);
    let answer = walked(alloc, &mut fids, newfid, names)?;
    came.bytes(answer.as_slice())?;
    tell_state(fids.file_of(newfid), came)?;
    if newfid != 1 && fids.file_of(1) != start {
        came.word("fid 1 moved")?;
    }
    if newfid != 0 && fids.file_of(0) != closed(Node::Root) {
        came.word("fid 0 moved")?;
    }
    Ok(())
}

// Opens a fid, if it may be opened.
fn open(fids: &mut Fids, fid: u32, mode: u8) -> Result<Node, FidFault> {
    let node = fids.may_open(fid, mode)?;
    fids.mark_open(fid, mode);
    Ok(node)
}

// The modes in which a file is opened; then those that are denied; then how many are none.
fn modes(alloc: Global, way: &[u8], came: &mut Came) -> anyhow::Result<()> {
    came.word("opened")?;
    let _none = modes_that(alloc, way, Ok(()), came)?;
    came.word("denied")?;
    let _none = modes_that(alloc, way, Err(FidFault::Denied), came)?;
    came.word("bad")?;
    let mut unseen = Came::new(alloc);
    came.count(modes_that(alloc, way, Err(FidFault::BadMode), &mut unseen)?)
}

// The modes in which an open of a file is so answered, and how many they are.
fn modes_that(
    alloc: Global,
    way: &[u8],
    wanted: Result<(), FidFault>,
    came: &mut Came,
) -> anyhow::Result<usize> {
    let mut count: usize = 0;
    for mode in 0..=255u8 {
        if opened(alloc, way, mode)? == wanted {
            came.number(u64::from(mode))?;
            count = count.saturating_add(1);
        }
    }
    Ok(count)
}

// How an open of a file is answered, whose fid is then open in that mode or as it was.
fn opened(alloc: Global, way: &[u8], mode: u8) -> anyhow::Result<Result<(), FidFault>> {
    let name = match way.rsplit(|byte| *byte == b' ').next() {
        Some(name) if !name.is_empty() => name,
        _ => b"/".as_slice(),
    };
    let Some(node) = node_of(name) else {
        bail!("no file");
    };
    let mut fids = at(alloc, way)?;
    let answer = open(&mut fids, 1, mode);
    let state = FidState {
        node,
        mode: if answer.is_ok() { Some(mode) } else { None },
    };
    if fids.file_of(1) != Ok(state) || answer.is_ok_and(|named| named != node) {
        bail!("the fid is in another state");
    }
    Ok(answer.map(|_| ()))
}

// Attaches each fid of a range; how many are attached.
fn attach_each(fids: &mut Fids, from: u32, to: u32, came: &mut Came) -> anyhow::Result<()> {
    let mut count: usize = 0;
    for fid in from..to {
        if fids.attach(fid).is_ok() {
            count = count.saturating_add(1);
        }
    }
    came.count(count)
}

// Reads a directory, where the fid is open there; whether what is given stands in the whole from that offset on.
fn read(
    alloc: Global,
    fids: &mut Fids,
    fid: u32,
    offset: u64,
    count: u32,
    came: &mut Came,
) -> anyhow::Result<()> {
    let mut out = Bytes::new(alloc);
    match fids.file_of(fid) {
        Ok(
            FidState {
                node,
                mode: Some(_),
            },
        ) if node.is_directory() => {
            let answer = fids.dir_read(fid, offset, count, &mut out);
            came.shown(&answer.map(|()| out.len()))?;
            compare(alloc, node, offset, out.as_slice(), came)
        }
        _ => Ok(came.word("no open directory")?),
    }
}

fn compare(
    alloc: Global,
    node: Node,
    offset: u64,
    read: &[u8],
    came: &mut Came,
) -> anyhow::Result<()> {
    let mut whole = Bytes::new(alloc);
    let _end = put_directory(node, 0, 8192, &mut whole)?;
    let from = usize::try_from(offset).unwrap_or(usize::MAX);
    let here = whole.as_slice().get(from..).unwrap_or(&[]);
    if !here.starts_with(read) {
        came.word("other bytes")?;
    }
    Ok(())
}

// A fid is attached in two halves: what it names between them, and then.
fn attach_in_halves(fids: &mut Fids, fid: u32, came: &mut Came) -> anyhow::Result<()> {
    match fids.may_attach(fid) {
        Ok(()) => {
            tell_state(fids.file_of(fid), came)?;
            fids.mark_walked(fid, Node::Root)?;
            tell_state(fids.file_of(fid), came)
        }
        Err(fault) => Ok(came.bytes(fault.text())?),
    }
}

// The same of a walk, with the files that it comes to and the one to which all names lead.
fn walk_in_halves(
    alloc: Global,
    fids: &mut Fids,
    fid: u32,
    newfid: u32,
    words: &[u8],
    came: &mut Came,
) -> anyhow::Result<()> {
    let names = words_of(alloc, words)?;
    match fids.may_walk(alloc, fid, newfid, names.as_slice()) {
        Ok(walked) => {
            let (nodes, end) = walked;
            files(nodes.as_slice(), came)?;
            came.shown(&end)?;
            tell_state(fids.file_of(newfid), came)?;
            if let Some(node) = end {
                fids.mark_walked(newfid, node)?;
            }
            tell_state(fids.file_of(newfid), came)
        }
        Err(fault) => Ok(came.bytes(fault.text())?),
    }
}

// A directory is read from its beginning in two halves: how much is given, and where it ends.
fn read_in_halves(alloc: Global, fids: &mut Fids, fid: u32, came: &mut Came) -> anyhow::Result<()> {
    let mut out = Bytes::new(alloc);
    match fids.file_of(fid) {
        Ok(
            FidState {
                node,
                mode: Some(_),
            },
        ) if node.is_directory() => {
            let end = fids.may_read(fid, 0, 8192, &mut out);
            came.count(out.len())?;
            came.shown(&end)?;
            if let Ok(end) = end {
                fids.mark_read(fid, end);
            }
            Ok(())
        }
        _ => Ok(came.word("no open directory")?),
    }
}

// How a fid is told, behind what stands before.
fn stat(alloc: Global, fids: &Fids, fid: u32, came: &mut Came) -> anyhow::Result<()> {
    let mut out = Bytes::from_slice(alloc, b"so ")?;
    came.shown(&fids.stat(fid, &mut out))?;
    Ok(came.bytes(out.as_slice())?)
}
