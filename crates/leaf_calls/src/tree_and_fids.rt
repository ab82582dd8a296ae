// The public calls of `file_tree`.
ghost use Rattle.std.specs.Prelude.{◌≡◌, Err, IfSome, Some, OnOk, OnErr, None, ok_or, ◌≤◌, ◌++◌};
ghost use Rattle.file_tree.specs.Calls.{at_rest, node_of, open_fault, attach_fault, walk_fault, writes, reads, dir_fault};
ghost use Rattle.file_tree.specs.Faults.{Answers, answered};
ghost use Rattle.file_tree.specs.Held.{attach_refusal, fresh, Becomes, fid_at, moved, node_at, walk_refusal, state_at, held_in};
ghost use Rattle.file_tree.specs.Stats.{record_of};
ghost use Rattle.file_tree.specs.Tree.{lead_to, visited, step};
ghost use Rattle.file_tree.specs.declared.fault.FidFault.TheVariants.{UnknownFid};
ghost use Rattle.file_tree.specs.declared.tree.Node.TheVariants.{Root};

use file_tree::{FidFault, FidState, Fids, Node, Nodes};
use std::alloc::Global;
use wire_base::{Bytes, NoMemory, Text};

/// As `Fids::attach`.
pub fn fids_attach(fids: &mut Fids, fid: u32) -> Result<(), FidFault>
    ensures answer { Answers (attach_refusal fids.old fid) tt result }
    ensures refused { IfSome (attach_refusal fids.old fid) (λ fault. result ≡ Err fault) }
    ensures ok { OnOk result (Becomes fids.old fids.new fid (Some (fresh (at_rest Root)))) }
    ensures err { OnErr result (fids.new ≡ fids.old) }
{
    fids.attach(fid)
}

/// As `Fids::walk`.
pub fn fids_walk(
    fids: &mut Fids,
    alloc: Global,
    fid: u32,
    newfid: u32,
    names: &[Text],
) -> Result<Nodes, FidFault>
    ensures answer { Answers (walk_refusal fids.old fid newfid names.now)
        (visited (node_at fids.old fid) names.now) result }
    ensures refused { IfSome (walk_refusal fids.old fid newfid names.now) (λ fault.
        result ≡ Err fault) }
    ensures ok { OnOk result (Becomes fids.old fids.new newfid
        (moved (fid_at fids.old newfid) (lead_to (node_at fids.old fid) names.now))) }
    ensures err { OnErr result (fids.new ≡ fids.old) }
{
    fids.walk(alloc, fid, newfid, names)
}

/// As `Fids::may_open`.
pub fn fids_may_open(fids: &Fids, fid: u32, mode: u8) -> Result<Node, FidFault>
    ensures { result ≡ answered (open_fault (state_at fids.now fid) mode)
        (node_of (state_at fids.now fid)) }
{
    fids.may_open(fid, mode)
}

/// As `Fids::clunk`.
pub fn fids_clunk(fids: &mut Fids, fid: u32) -> Result<FidState, FidFault>
    ensures answer { result ≡ ok_or (state_at fids.old fid) UnknownFid }
    ensures ok { OnOk result (Becomes fids.old fids.new fid None) }
    ensures err { OnErr result (fids.new ≡ fids.old) }
{
    fids.clunk(fid)
}

/// As `Fids::file_of`.
pub fn fids_file_of(fids: &Fids, fid: u32) -> Result<FidState, FidFault>
    ensures answer { result ≡ ok_or (state_at fids.now fid) UnknownFid }
    ensures few { held_in fids.now ≤ 256 }
{
    fids.file_of(fid)
}

/// As `attach_fault`.
pub fn attach_fault(fid: Option<FidState>, held: usize) -> Option<FidFault>
    ensures { result ≡ attach_fault fid held }
{
    file_tree::attach_fault(fid, held)
}

/// As `walk_fault`.
pub fn walk_fault(
    fid: Option<FidState>,
    newfid: Option<FidState>,
    same: bool,
    held: usize,
    names: &[Text],
) -> Option<FidFault>
    ensures { result ≡ walk_fault fid newfid same held names.now }
{
    file_tree::walk_fault(fid, newfid, same, held, names)
}

/// As `writes`.
pub fn writes(mode: u8) -> bool
    ensures { result ≡ writes mode }
{
    file_tree::writes(mode)
}

/// As `reads`.
pub fn reads(mode: u8) -> bool
    ensures { result ≡ reads mode }
{
    file_tree::reads(mode)
}

/// As `open_fault`.
pub fn open_fault(fid: Option<FidState>, mode: u8) -> Option<FidFault>
    ensures { result ≡ open_fault fid mode }
{
    file_tree::open_fault(fid, mode)
}

/// As `dir_fault`.
pub fn dir_fault(next: u64, offset: u64) -> Option<FidFault>
    ensures { result ≡ dir_fault next offset }
{
    file_tree::dir_fault(next, offset)
}

/// As `put_record`.
pub fn put_record(node: Node, out: &mut Bytes) -> Result<(), NoMemory>
    ensures ok { OnOk result (out.new ≡ out.old ++ record_of node) }
    ensures err { OnErr result (out.new ≡ out.old) }
{
    file_tree::put_record(node, out)
}

/// As `Node::step`.
pub fn node_step(node: Node, name: &[u8]) -> Option<Node>
    ensures { result ≡ step node name.now }
{
    node.step(name)
}
