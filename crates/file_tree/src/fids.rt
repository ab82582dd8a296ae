// The fids of one connection.
ghost use Rattle.std.specs.Prelude.{◌≡◌, ◌≤◌, [], ◌++◌, Err, IfSome, Some, None, OnOk, OnErr, true, option_map, ok_or};
ghost use Rattle.file_tree.specs.declared.fault.FidFault.TheVariants.{UnknownFid};
ghost use Rattle.file_tree.specs.declared.tree.Node.TheVariants.{Root};
ghost use Rattle.file_tree.specs.Tree.{lead_to, visited};
ghost use Rattle.file_tree.specs.Stats.{record_of};
ghost use Rattle.file_tree.specs.Faults.{Answers, answered};
ghost use Rattle.file_tree.specs.Calls.{at_rest, dir_fault, fid_fault, node_of, open_fault, opened};
ghost use Rattle.file_tree.specs.Directories.{dir_bytes, dir_end};
ghost use Rattle.file_tree.specs.Held.{attach_refusal, fid_at, fresh, held_in, is_open_directory, moved, next_at, node_at, read_to, state_at, walk_refusal, Becomes, HasRoom};

use crate::directory::put_directory;
use crate::fault::FidFault;
use crate::refusal::{attach_fault, dir_fault, open_fault, walk_fault};
use crate::stat::put_record;
use crate::tree::{FidState, Node};
use crate::walk::{Nodes, walk_from};
use std::alloc::Global;
use std::collections::BTreeMap;
use std::marker::Model;
use wire_base::{Bytes, NoMemory, Text};

/// A fid that is held.
#[derive(Clone, Copy, Debug, PartialEq, Eq)]
pub struct Fid {
    /// What it names, and whether it is open.
    pub state: FidState,
    /// Where its next read of a directory may begin, beside 0: where the latest read since its open ended.
    pub next: u64,
}

/// The fids of one connection.
#[derive(Drop)]
pub struct Fids {
    held: BTreeMap<u32, Fid>,
}

impl Model for Fids {
    ghost use Rattle.std.specs.Prelude.{◌≤◌, ℕ, List, length};
    ghost use Rattle.file_tree.specs.declared.fids.Fid.{Fid};

    ghost Value = { List (ℕ × Fid) };

    ghost view = { λ f. f.held.entries };

    ghost invariant = { λ f. length f.held.entries ≤ 256 };
}

impl Fids {
    /// No fids. It takes no memory.
    pub fn new(alloc: Global) -> Fids
        ensures { result ≡ [] }
    {
        Fids {
            held: BTreeMap::new(alloc),
        }
    }

    // What a fid names, if it is held.
    fn state(&self, fid: u32) -> Option<FidState>
        ensures { result ≡ state_at self.now fid }
    {
        match self.held.get(&fid) {
            Some(held) => Some(held.state),
            None => None,
        }
    }

    /// Attach: the fid names the root from now on.
    pub fn attach(&mut self, fid: u32) -> Result<(), FidFault>
        ensures answer { Answers (attach_refusal self.old fid) tt result }
        ensures refused { IfSome (attach_refusal self.old fid) (λ fault. result ≡ Err fault) }
        ensures ok { OnOk result (Becomes self.old self.new fid (Some (fresh (at_rest Root)))) }
        ensures err { OnErr result (self.new ≡ self.old) }
    {
        self.may_attach(fid)?;
        self.mark_walked(fid, Node::Root)?;
        Ok(())
    }

    /// The first half of an attach: whether the fid may be attached. It changes nothing and takes no memory. The second
    /// half is that of a walk to the root.
    #[tactic(auto, unfolding(crate::specs::Calls::attach_fault))]
    pub fn may_attach(&self, fid: u32) -> Result<(), FidFault>
        ensures answer { result ≡ answered (attach_refusal self.now fid) tt }
        ensures room { OnOk result (HasRoom self.now fid) }
    {
        match attach_fault(self.state(fid), self.held.len()) {
            Some(fault) => Err(fault),
            None => Ok(()),
        }
    }

    /// Walk: gives the files that the names lead to, as far as they are there. Where all are, newfid names the last of
    /// them from now on, or what the fid names where there are no names; else it is what it was. Newfid may be the fid.
    pub fn walk(
        &mut self,
        alloc: Global,
        fid: u32,
        newfid: u32,
        names: &[Text],
    ) -> Result<Nodes, FidFault>
        ensures answer { Answers (walk_refusal self.old fid newfid names.now)
            (visited (node_at self.old fid) names.now) result }
        ensures refused { IfSome (walk_refusal self.old fid newfid names.now) (λ fault.
            result ≡ Err fault) }
        ensures ok { OnOk result (Becomes self.old self.new newfid
            (moved (fid_at self.old newfid) (lead_to (node_at self.old fid) names.now))) }
        ensures err { OnErr result (self.new ≡ self.old) }
    {
        let (nodes, end) = self.may_walk(alloc, fid, newfid, names)?;
        if let Some(end) = end {
            self.mark_walked(newfid, end)?;
        }
        Ok(nodes)
    }

    /// The first half of a walk: the files that the names lead to, and where all of them lead, if each is there. It
    /// changes nothing.
    #[tactic(auto, unfolding(crate::specs::Calls::walk_fault))]
    pub fn may_walk(
        &self,
        alloc: Global,
        fid: u32,
        newfid: u32,
        names: &[Text],
    ) -> Result<(Nodes, Option<Node>), FidFault>
        ensures answer { Answers (walk_refusal self.now fid newfid names.now)
            (visited (node_at self.now fid) names.now, lead_to (node_at self.now fid) names.now)
            result }
        ensures refused { IfSome (walk_refusal self.now fid newfid names.now) (λ fault.
            result ≡ Err fault) }
        ensures room { OnOk result (HasRoom self.now newfid) }
    {
        let Some(from) = self.state(fid) else {
            return Err(FidFault::UnknownFid);
        };
        let onto = self.state(newfid);
        if let Some(fault) = walk_fault(Some(from), onto, fid == newfid, self.held.len(), names) {
            return Err(fault);
        }
        let found = walk_from(alloc, from.node, names)?;
        Ok(found)
    }

    /// The second half: newfid names this file from now on, and isn't open. Where memory runs out nothing has changed.
    pub fn mark_walked(&mut self, newfid: u32, node: Node) -> Result<(), NoMemory>
        requires { HasRoom self.old newfid }
        ensures ok { OnOk result (Becomes self.old self.new newfid (Some (fresh (at_rest node)))) }
        ensures err { OnErr result (self.new ≡ self.old) }
    {
        let state = FidState { node, mode: None };
        self.held.insert(newfid, Fid { state, next: 0 })?;
        Ok(())
    }

    /// Open: whether the fid may be opened in this mode, and the file. It changes nothing and takes no memory.
    #[tactic(auto, unfolding(crate::specs::Calls::open_fault))]
    pub fn may_open(&self, fid: u32, mode: u8) -> Result<Node, FidFault>
        ensures { result ≡ answered (open_fault (state_at self.now fid) mode)
            (node_of (state_at self.now fid)) }
    {
        let Some(state) = self.state(fid) else {
            return Err(FidFault::UnknownFid);
        };
        match open_fault(Some(state), mode) {
            Some(fault) => Err(fault),
            None => Ok(state.node),
        }
    }

    /// Open: the fid is open in this mode from now on. It takes no memory.
    pub fn mark_open(&mut self, fid: u32, mode: u8)
        requires { open_fault (state_at self.old fid) mode ≡ None }
        ensures { Becomes self.old self.new fid
            (option_map fresh (opened mode (state_at self.old fid))) }
    {
        if let Some(held) = self.held.get_mut(&fid) {
            held.state.mode = Some(mode);
            held.next = 0;
        }
    }

    /// Read of an open directory: appends as many whole records as fit into the count, after those that stand before
    /// the offset.
    pub fn dir_read(
        &mut self,
        fid: u32,
        offset: u64,
        count: u32,
        out: &mut Bytes,
    ) -> Result<(), FidFault>
        requires { is_open_directory (state_at self.old fid) ≡ true }
        ensures answer { Answers (dir_fault (next_at self.old fid) offset) tt result }
        ensures given { OnOk result (out.new
            ≡ out.old ++ dir_bytes (node_of (state_at self.old fid)) offset count) }
        ensures ok { OnOk result (Becomes self.old self.new fid
            (read_to (dir_end (node_of (state_at self.old fid)) offset count)
            (fid_at self.old fid))) }
        ensures err { OnErr result (self.new ≡ self.old) }
        ensures err_out { OnErr result (out.new ≡ out.old) }
    {
        let end = self.may_read(fid, offset, count, out)?;
        self.mark_read(fid, end);
        Ok(())
    }

    /// The first half of a read of an open directory: appends the records, and answers the offset behind them. It
    /// changes no fid.
    pub fn may_read(
        &self,
        fid: u32,
        offset: u64,
        count: u32,
        out: &mut Bytes,
    ) -> Result<u64, FidFault>
        requires { is_open_directory (state_at self.now fid) ≡ true }
        ensures answer { Answers (dir_fault (next_at self.now fid) offset)
            (dir_end (node_of (state_at self.now fid)) offset count) result }
        ensures given { OnOk result (out.new
            ≡ out.old ++ dir_bytes (node_of (state_at self.now fid)) offset count) }
        ensures err { OnErr result (out.new ≡ out.old) }
    {
        let Some(held) = self.held.get(&fid) else {
            return Err(FidFault::UnknownFid);
        };
        if let Some(fault) = dir_fault(held.next, offset) {
            return Err(fault);
        }
        let end = put_directory(held.state.node, offset, count, out)?;
        Ok(end)
    }

    /// The second half: the next read of the fid may begin at this offset. It takes no memory.
    pub fn mark_read(&mut self, fid: u32, end: u64)
        ensures { Becomes self.old self.new fid (read_to end (fid_at self.old fid)) }
    {
        if let Some(held) = self.held.get_mut(&fid) {
            held.next = end;
        }
    }

    /// Stat: appends the record of what the fid names.
    #[tactic(auto, unfolding(crate::specs::Calls::fid_fault))]
    pub fn stat(&self, fid: u32, out: &mut Bytes) -> Result<(), FidFault>
        ensures answer { Answers (fid_fault (state_at self.now fid)) tt result }
        ensures ok { OnOk result (out.new
            ≡ out.old ++ record_of (node_of (state_at self.now fid))) }
        ensures err { OnErr result (out.new ≡ out.old) }
    {
        let Some(state) = self.state(fid) else {
            return Err(FidFault::UnknownFid);
        };
        put_record(state.node, out)?;
        Ok(())
    }

    /// Clunk, and the first half of Remove: the fid is given up. Gives what it was. It takes no memory.
    pub fn clunk(&mut self, fid: u32) -> Result<FidState, FidFault>
        ensures answer { result ≡ ok_or (state_at self.old fid) UnknownFid }
        ensures ok { OnOk result (Becomes self.old self.new fid None) }
        ensures err { OnErr result (self.new ≡ self.old) }
    {
        match self.held.remove(&fid) {
            Some(held) => Ok(held.state),
            None => Err(FidFault::UnknownFid),
        }
    }

    /// What the fid names, and whether it is open. It takes no memory.
    pub fn file_of(&self, fid: u32) -> Result<FidState, FidFault>
        ensures answer { result ≡ ok_or (state_at self.now fid) UnknownFid }
        ensures few { held_in self.now ≤ 256 }
    {
        match self.held.get(&fid) {
            Some(held) => Ok(held.state),
            None => Err(FidFault::UnknownFid),
        }
    }
}
