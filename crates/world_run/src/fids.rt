// The fids by which a node has conversations open.
ghost use Rattle.std.specs.Prelude.{◌≡◌, ◌==◌, max, IfOk};
ghost use Rattle.std.specs.List.{list_any};
ghost use Rattle.world_history.specs.Acts.{highest, least_fid};
ghost use Rattle.world_run.specs.Fids.{fids};

use wire_base::{Bytes, NoMemory};

/// The least fid of a conversation: 0 names the root, and 1 has ctl open.
const FIRST_FID: u32 = 2;

/// A conversation that a node has open, and its fid there.
#[derive(Drop)]
pub struct Open {
    pub(crate) conv: Bytes,
    pub(crate) fid: u32,
}

fn is_held(fid: u32, held: &[Open]) -> bool
    ensures { result ≡ list_any (λ one. one.fid == fid) held.now }
{
    held.iter().any(|one| one.fid == fid)
}

fn higher(one: u32, other: u32) -> u32
    ensures { result ≡ max one other }
{
    if one < other { other } else { one }
}

// A number that isn't below any of their fids.
#[tactic(auto, using(crate::proofs::FidLemmas::max_behind))]
fn highest(held: &[Open]) -> u32
    ensures { result ≡ highest (fids held.now) }
{
    let mut found = 0;
    for one in held {
        found = higher(found, one.fid);
    }
    found
}

/// The least fid that isn't held; want of memory where there is none.
#[tactic(auto, using(crate::proofs::FidLemmas::least_held, crate::proofs::FidLemmas::least_free))]
pub(crate) fn least_fid(held: &[Open]) -> Result<u32, NoMemory>
    ensures { IfOk result (λ fid. fid ≡ least_fid (fids held.now)) }
{
    let mut fid = FIRST_FID;
    let mut left = highest(held);
    while left > 0 {
        if !is_held(fid, held) {
            return Ok(fid);
        }
        let Some(next) = fid.checked_add(1) else {
            return Err(NoMemory);
        };
        fid = next;
        left -= 1;
    }
    Ok(fid)
}
