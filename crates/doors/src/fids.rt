// The fids of one connection.
ghost use Rattle.std.specs.Prelude.{◌≡◌, [], ◌++◌, ◌∷◌, ◌==◌, OnOk, OnErr, option_copied, option_map, position, find};
ghost use Rattle.doors.specs.Fids.{holds, is_full, is_held, named, renamed, without};
ghost use Rattle.doors.specs.Requests.{authenticates};

use crate::fid::{AuthFid, Held, Names};
use std::alloc::Global;
use std::marker::Model;
use wire_base::NoMemory;

/// How many fids a connection may hold.
pub const MOST_FIDS: usize = 64;

/// The fids of one connection, in the order in which they came.
#[derive(Drop)]
pub struct Fids {
    held: Vec<Held>,
}

impl Model for Fids {
    ghost use Rattle.std.specs.Prelude.{List};
    ghost use Rattle.doors.specs.declared.fid.Held.{Held};

    ghost Value = { List Held };

    ghost view = { λ f. f.held.items };
}

// The fid as it is held.
fn find_fid(held: &[Held], fid: u32) -> Option<&Held>
    ensures { option_copied result ≡ find (λ h. h.fid == fid) held.now }
{
    held.iter().find(|held| held.fid == fid)
}

fn find_place(held: &[Held], fid: u32) -> Option<usize>
    ensures { result ≡ position (λ h. h.fid == fid) held.now }
{
    held.iter().position(|held| held.fid == fid)
}

// It names this from now on.
fn set_names(held: &mut Held, names: Names)
    ensures { held.new ≡ holds held.old.fid names }
{
    held.names = names;
}

impl Fids {
    /// No fids. It takes no memory.
    pub fn new(alloc: Global) -> Fids
        ensures { result ≡ [] }
    {
        Fids {
            held: Vec::new(alloc),
        }
    }

    /// Where their memory comes from.
    pub fn allocator(&self) -> Global {
        *self.held.allocator()
    }

    /// All of them.
    pub fn as_slice(&self) -> &[Held]
        ensures { result.now ≡ self.now }
    {
        &self.held
    }

    /// What a fid names, if it is held.
    pub fn named(&self, fid: u32) -> Option<&Names>
        ensures { option_copied result ≡ named fid self.now }
    {
        match find_fid(&self.held, fid) {
            Some(held) => Some(&held.names),
            None => None,
        }
    }

    pub fn is_held(&self, fid: u32) -> bool
        ensures { result ≡ is_held fid self.now }
    {
        self.named(fid).is_some()
    }

    /// Whether as many are held as may be.
    pub fn is_full(&self) -> bool
        ensures { result ≡ is_full self.now }
    {
        self.held.len() >= MOST_FIDS
    }

    /// The conversation that a fid names, if it names one.
    pub fn conversation(&self, fid: u32) -> Option<&AuthFid>
        ensures { option_copied result ≡ authenticates (named fid self.now) }
    {
        match self.named(fid) {
            Some(Names::Conversation(conversation)) => Some(conversation),
            Some(Names::File(_)) => None,
            None => None,
        }
    }

    /// A fid that isn't held names this from now on.
    pub fn add(&mut self, fid: u32, names: Names) -> Result<(), NoMemory>
        ensures ok { OnOk result (self.new ≡ self.old ++ holds fid names ∷ []) }
        ensures err { OnErr result (self.new ≡ self.old) }
    {
        self.held.push(Held { fid, names })?;
        Ok(())
    }

    /// A fid that is held names this from now on, in its place. It takes no memory.
    pub fn rename(&mut self, fid: u32, names: Names)
        ensures { self.new ≡ renamed fid names self.old }
    {
        if let Some(at) = find_place(&self.held, fid) {
            set_names(&mut self.held[at], names);
        }
    }

    /// A fid is given up.
    pub fn remove(&mut self, fid: u32)
        ensures { self.new ≡ without fid self.old }
    {
        self.held.retain(|held| held.fid != fid);
    }

    /// All of them are given up.
    pub fn clear(&mut self)
        ensures { self.new ≡ [] }
    {
        self.held.clear();
    }
}
