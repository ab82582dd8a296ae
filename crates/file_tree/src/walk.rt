// Walks through the tree.
ghost use Rattle.std.specs.Prelude.{◌≡◌, IfOk};
ghost use Rattle.file_tree.specs.Tree.{lead_to, visited};

use crate::tree::Node;
use std::alloc::Global;
use wire_base::{List, NoMemory, Text};

/// Files, in order.
pub type Nodes = List<Node>;

/// Follows the names as long as they are there. Gives the files that it came to, and where all of the names lead,
/// if each was there.
pub fn walk_from(
    alloc: Global,
    node: Node,
    names: &[Text],
) -> Result<(Nodes, Option<Node>), NoMemory>
    ensures visited { IfOk result (λ found. found.0 ≡ visited node names.now) }
    ensures end { IfOk result (λ found. found.1 ≡ lead_to node names.now) }
{
    let mut nodes = Nodes::new(alloc);
    let mut at = node;
    for name in names {
        match at.step(name.as_slice()) {
            Some(next) => {
                nodes.push(next)?;
                at = next;
            }
            None => return Ok((nodes, None)),
        }
    }
    Ok((nodes, Some(at)))
}
