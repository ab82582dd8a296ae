// What a read of a directory gives.
ghost use Rattle.std.specs.Prelude.{◌≡◌, ◌++◌, IfOk, OnOk, OnErr};
ghost use Rattle.file_tree.specs.Directories.{behind, dir_bytes, dir_end, fitting, records};
ghost use Rattle.file_tree.specs.Stats.{Begins};

use crate::stat::{put_record, record_size};
use crate::tree::Node;
use wire_base::{Bytes, NoMemory};

// The files whose records stand behind so many bytes.
fn behind(offset: u64, nodes: &[Node]) -> &[Node]
    ensures { result.now ≡ behind offset nodes.now }
{
    match nodes {
        [first, rest @ ..] if offset != 0 => {
            behind(offset.saturating_sub(record_size(*first) as u64), rest)
        }
        _ => nodes,
    }
}

// The records of as many of the first files as have room for them.
fn spell_fitting(nodes: &[Node], count: u32, out: &mut Bytes) -> Result<(), NoMemory>
    ensures ok { OnOk result (out.new ≡ out.old ++ records (fitting count nodes.now)) }
    ensures err { OnErr result (Begins out.old out.new) }
{
    let mut left = count as usize;
    for node in nodes {
        let size = record_size(*node);
        if size > left {
            return Ok(());
        }
        put_record(*node, out)?;
        left -= size;
    }
    Ok(())
}

/// Appends what a read of a directory from an offset gives: as many whole records as fit into so many bytes, after
/// those that stand before the offset. Answers the offset behind them.
pub fn put_directory(node: Node, offset: u64, count: u32, out: &mut Bytes) -> Result<u64, NoMemory>
    ensures ok { OnOk result (out.new ≡ out.old ++ dir_bytes node offset count) }
    ensures end { IfOk result (λ end. end ≡ dir_end node offset count) }
    ensures err { OnErr result (out.new ≡ out.old) }
{
    let before = out.len();
    match spell_fitting(behind(offset, node.files()), count, out) {
        Ok(()) => Ok(offset + (out.len() - before) as u64),
        Err(fault) => {
            out.truncate(before);
            Err(fault)
        }
    }
}
