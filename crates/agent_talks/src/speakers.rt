// Who has the conversations open that stand: one look-up finds them by the fid, and one by the number.
ghost use Rattle.std.specs.Prelude.{◌≡◌, ◌==◌, ◌<◌, false, length, find, filter, not, option_copied, IfNone, IfSome, OnErr, OnOk, []};
ghost use Rattle.std.specs.List.{HoldsAt, list_any};
ghost use Rattle.agent_talks.specs.Kept.{leaves};
ghost use Rattle.agent_talks.specs.Listed.{IsAbove, Joins, Rises, conv_in, is_among};
ghost use Rattle.agent_talks.specs.declared.speaker.Leaving.TheVariants as l;

use crate::speaker::{Leaving, Speaker, keep_others};
use std::alloc::Global;
use std::collections::BTreeMap;
use std::marker::Model;
use wire_base::NoMemory;

/// Who has the conversations open that stand, the oldest first, with the number that each fid finds. To contracts it is the
/// list of them.
#[derive(Drop)]
pub struct Speakers {
    list: Vec<Speaker>,
    by_fid: BTreeMap<(u64, u32), u64>,
}

impl Model for Speakers {
    ghost use Rattle.std.specs.Prelude.{List};
    ghost use Rattle.agent_talks.specs.declared.speaker.Speaker.{Speaker};
    ghost use Rattle.agent_talks.specs.Listed.{IsListed};

    ghost Value = { List Speaker };

    ghost view = { λ s. s.list.items };

    ghost invariant = { λ s. IsListed s.by_fid s.list.items };
}

impl Speakers {
    /// Nobody. It takes no memory.
    pub fn new(alloc: Global) -> Speakers
        ensures { result ≡ [] }
    {
        Speakers {
            list: Vec::new(alloc),
            by_fid: BTreeMap::new(alloc),
        }
    }

    /// How many there are.
    pub fn len(&self) -> usize
        ensures { result ≡ length self.now }
    {
        self.list.len()
    }

    /// The number of the conversation that a fid of a connection has open.
    pub fn conv_at(&self, conn: u64, fid: u32) -> Option<u64>
        ensures { result ≡ conv_in conn fid self.now }
    {
        self.by_fid.get(&(conn, fid)).copied()
    }

    /// Who has the conversation of a number open.
    pub fn speaker_of(&self, conv: u64) -> Option<&Speaker>
        ensures { option_copied result ≡ find (λ s. s.conv == conv) self.now }
    {
        match find_place(&self.list, conv) {
            Some(at) => Some(&self.list[at]),
            None => None,
        }
    }

    /// Some of them, in their order, among whom are all that leave.
    pub fn leavers(&self, leaving: Leaving) -> &[Speaker]
        ensures { filter (λ s. leaves leaving s) result.now
            ≡ filter (λ s. leaves leaving s) self.now }
    {
        match leaving {
            Leaving::Fid(conn, fid) => self.opener(conn, fid),
            Leaving::Connection(_) => &self.list,
        }
    }

    fn opener(&self, conn: u64, fid: u32) -> &[Speaker]
        ensures { filter (λ s. leaves (l.Fid conn fid) s) result.now
            ≡ filter (λ s. leaves (l.Fid conn fid) s) self.now }
    {
        let Some(conv) = self.conv_at(conn, fid) else {
            return &[];
        };
        match find_place(&self.list, conv) {
            Some(at) => &self.list[at..at + 1],
            None => &[],
        }
    }

    /// One more stands last. A number that isn't above the others, or a fid that has one open, isn't taken.
    pub fn push(&mut self, speaker: Speaker) -> Result<(), NoMemory>
        ensures joins { OnOk result (Joins self.old self.new speaker) }
        ensures same { OnErr result (self.new ≡ self.old) }
    {
        let Speaker { conv, conn, fid } = speaker;
        if is_below(&self.list, conv) || self.by_fid.contains_key(&(conn, fid)) {
            return Err(NoMemory);
        }
        self.list.reserve(1)?;
        self.by_fid.insert((conn, fid), conv)?;
        self.list.push(speaker).unwrap();
        Ok(())
    }

    /// Those who leave are dropped. It takes no memory.
    pub fn leave(&mut self, leaving: Leaving)
        ensures { self.new ≡ filter (λ s. not (leaves leaving s)) self.old }
    {
        match leaving {
            Leaving::Fid(conn, fid) => self.drop_fid(conn, fid),
            Leaving::Connection(conn) => self.drop_connection(conn),
        }
    }

    fn drop_fid(&mut self, conn: u64, fid: u32)
        ensures { self.new ≡ filter (λ s. not (leaves (l.Fid conn fid) s)) self.old }
    {
        let Some(conv) = self.conv_at(conn, fid) else {
            return;
        };
        if let Some(at) = find_place(&self.list, conv) {
            self.list.remove(at);
            self.by_fid.remove(&(conn, fid));
        }
    }

    fn drop_connection(&mut self, conn: u64)
        ensures { self.new ≡ filter (λ s. not (leaves (l.Connection conn) s)) self.old }
    {
        keep_others(&mut self.list, Leaving::Connection(conn));
        self.by_fid.retain(|at, _| at.0 != conn);
    }
}

// Where the conversation of a number stands.
fn find_place(list: &[Speaker], conv: u64) -> Option<usize>
    requires { Rises list.now }
    ensures some { IfSome result (λ at. (at < length list.now)
        × HoldsAt (λ s. s.conv ≡ conv) list.now at) }
    ensures none { IfNone result (is_among conv list.now ≡ false) }
{
    list.binary_search_by_key(&conv, |speaker| speaker.conv)
        .ok()
}

// Whether the last number is no lower than this one.
fn is_below(list: &[Speaker], conv: u64) -> bool
    requires { Rises list.now }
    ensures { result ≡ false → IsAbove conv list.now }
{
    match list.last() {
        Some(last) => conv <= last.conv,
        None => false,
    }
}
