// The tests of each request on a fid, in their order: the first that holds refuses it.
ghost use Rattle.std.specs.Prelude.{◌≡◌};
ghost use Rattle.file_tree.specs.Calls.{attach_fault, dir_fault, is_denied, lacks_first, open_fault, reads, walk_fault, writes};

use crate::fault::FidFault;
use crate::tree::{FidState, Node};
use wire_base::Text;

/// How many fids a connection may hold.
pub const MOST_FIDS: usize = 256;

const ACCESS_BITS: u8 = 3;

const READING: u8 = 0;

const WRITING: u8 = 1;

const READING_AND_WRITING: u8 = 2;

const EXECUTING: u8 = 3;

const TRUNCATING: u8 = 0x10;

const REMOVING_ON_CLOSE: u8 = 0x40;

const MODE_BITS: u8 = ACCESS_BITS | TRUNCATING | REMOVING_ON_CLOSE;

/// What refuses an attach, the fid being so and so many being held.
#[tactic(auto, unfolding(crate::specs::Calls::attach_fault))]
pub fn attach_fault(fid: Option<FidState>, held: usize) -> Option<FidFault>
    ensures { result ≡ attach_fault fid held }
{
    if fid.is_some() {
        return Some(FidFault::InUse);
    }
    if held >= MOST_FIDS {
        return Some(FidFault::TooMany);
    }
    None
}

fn lacks_first(node: Node, names: &[Text]) -> bool
    ensures { result ≡ lacks_first node names.now }
{
    match names {
        [first, ..] => node.step(first.as_slice()).is_none(),
        [] => false,
    }
}

/// What refuses a walk from a fid to a newfid, which may be the same one, so many being held.
#[tactic(auto, unfolding(crate::specs::Calls::walk_fault))]
pub fn walk_fault(
    fid: Option<FidState>,
    newfid: Option<FidState>,
    same: bool,
    held: usize,
    names: &[Text],
) -> Option<FidFault>
    ensures { result ≡ walk_fault fid newfid same held names.now }
{
    let Some(state) = fid else {
        return Some(FidFault::UnknownFid);
    };
    if state.mode.is_some() {
        return Some(FidFault::AlreadyOpen);
    }
    if newfid.is_some() && !same {
        return Some(FidFault::InUse);
    }
    if newfid.is_none() && held >= MOST_FIDS {
        return Some(FidFault::TooMany);
    }
    if !names.is_empty() && !state.node.is_directory() {
        return Some(FidFault::NotDirectory);
    }
    if lacks_first(state.node, names) {
        return Some(FidFault::NotFound);
    }
    None
}

/// Whether a mode lets its fid be written.
pub fn writes(mode: u8) -> bool
    ensures { result ≡ writes mode }
{
    matches!(mode & ACCESS_BITS, WRITING | READING_AND_WRITING)
}

/// Whether a mode in which a fid can be open lets it be read.
pub fn reads(mode: u8) -> bool
    ensures { result ≡ reads mode }
{
    matches!(mode & ACCESS_BITS, READING | READING_AND_WRITING)
}

// Whether a file may not be opened in a mode: it is to be removed at its close or executed, it isn't written, or it is
// to be made empty and not written.
fn is_denied(node: Node, mode: u8) -> bool
    ensures { result ≡ is_denied node mode }
{
    mode & REMOVING_ON_CLOSE != 0
        || mode & ACCESS_BITS == EXECUTING
        || (writes(mode) && !node.is_written())
        || (mode & TRUNCATING != 0 && !writes(mode))
}

/// What refuses an open of a fid in a mode.
#[tactic(auto, unfolding(crate::specs::Calls::open_fault))]
pub fn open_fault(fid: Option<FidState>, mode: u8) -> Option<FidFault>
    ensures { result ≡ open_fault fid mode }
{
    let Some(state) = fid else {
        return Some(FidFault::UnknownFid);
    };
    if state.mode.is_some() {
        return Some(FidFault::AlreadyOpen);
    }
    if mode & !MODE_BITS != 0 {
        return Some(FidFault::BadMode);
    }
    if is_denied(state.node, mode) {
        return Some(FidFault::Denied);
    }
    None
}

/// What refuses a read of a directory from an offset, the next one being that at which the latest read ended.
#[tactic(auto, unfolding(crate::specs::Calls::dir_fault))]
pub fn dir_fault(next: u64, offset: u64) -> Option<FidFault>
    ensures { result ≡ dir_fault next offset }
{
    if offset != 0 && offset != next {
        return Some(FidFault::BadOffset);
    }
    None
}
