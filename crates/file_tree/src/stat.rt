// What a stat tells of a file, as a record.
ghost use Rattle.std.specs.Prelude.{◌≡◌, ◌≤◌, ◌++◌, length, take, OnOk, OnErr};
ghost use Rattle.file_tree.specs.Directories.{size_of};
ghost use Rattle.file_tree.specs.Stats.{record_of, Begins};

use crate::tree::Node;
use wire_base::{Bytes, NoMemory, put_str};

// The owner, the group, and who wrote the file last: each with its length.
const OWNERS: &[u8; 30] = b"\x08\x00factotum\x08\x00factotum\x08\x00factotum";

// How many bytes a record has beside the name.
const RECORD_OVERHEAD: usize = 73;

/// How many bytes the file's record has.
#[tactic(auto, using(crate::proofs::RecordLaws::size_is, crate::proofs::RecordLaws::size_small))]
pub fn record_size(node: Node) -> usize
    ensures size { result ≡ size_of node }
    ensures small { result ≤ 81 }
{
    RECORD_OVERHEAD + node.name().len()
}

// The fields of a fixed size: size[2] type[2] dev[4] qid[13] mode[4] atime[4] mtime[4] length[8].
fn front(node: Node) -> [u8; 41]
    ensures { result ≡ take 41 (record_of node) }
{
    let size = (record_size(node) as u16 - 2).to_le_bytes();
    let qid = node.qid();
    let path = qid.path.to_le_bytes();
    let mode = node.mode().to_le_bytes();
    [
        size[0], size[1], 0, 0, 0, 0, 0, 0, qid.kind, 0, 0, 0, 0, path[0], path[1], path[2],
        path[3], path[4], path[5], path[6], path[7], mode[0], mode[1], mode[2], mode[3], 0, 0, 0,
        0, 0, 0, 0, 0, 0, 0, 0, 0, 0, 0, 0, 0,
    ]
}

fn spell_record(node: Node, out: &mut Bytes) -> Result<(), NoMemory>
    ensures ok { OnOk result (out.new ≡ out.old ++ record_of node) }
    ensures err { OnErr result (Begins out.old out.new) }
{
    out.append(&front(node))?;
    put_str(node.name(), out)?;
    out.append(OWNERS)
}

/// Appends the file's record.
pub fn put_record(node: Node, out: &mut Bytes) -> Result<(), NoMemory>
    ensures ok { OnOk result (out.new ≡ out.old ++ record_of node) }
    ensures err { OnErr result (out.new ≡ out.old) }
{
    let before = out.len();
    let done = spell_record(node, out);
    out.undo_on_err(before, done)
}
