// The tests of each request, in their order: the first that holds refuses it, before the port is asked.
ghost use Rattle.std.specs.Prelude.{◌≡◌, ℕ, List, Some};
ghost use Rattle.nine.specs.declared.message.TBody.TheVariants as t;
ghost use Rattle.wire_base.specs.Rules.{first_told};
ghost use Rattle.agent_history.specs.Requests.{comes_first};
ghost use Rattle.doors.specs.declared.fid.Held.{Held};
ghost use Rattle.doors.specs.Requests.{is_for, lacks_first, open_tests, read_tests, refusal, walk_tests, write_tests};
ghost use Rattle.doors.specs.Refusals.{told};

use crate::fid::{AuthFid, Names};
use crate::fids::Fids;
use crate::file::DoorFile;
use crate::refusal::Refusal;
use nine::TBody;
use wire_base::Text;

const NOFID: u32 = 0xffff_ffff;

const LEAST_MSIZE: u32 = 256;

// The bits that no mode of open(5) has.
const OTHER_BITS: u8 = 0xac;

// A request to a conversation has at most 4096 bytes, the six of `write ` among them.
const MOST_CONTENT: usize = 4090;

/// A request that is answered before a version is agreed.
pub(crate) fn comes_first(body: &TBody) -> bool
    ensures { result ≡ comes_first body.now }
{
    matches!(body, TBody::Version { .. } | TBody::Flush { .. })
}

// A conversation is one for this user and this tree.
fn is_for(conversation: &AuthFid, uname: &[u8], aname: &[u8]) -> bool
    ensures { result ≡ is_for uname.now aname.now (Some conversation.now) }
{
    conversation.uname.as_slice() == uname && conversation.aname.as_slice() == aname
}

fn lacks_first(file: DoorFile, names: &[Text]) -> bool
    ensures { result ≡ lacks_first file names.now }
{
    match names {
        [first, ..] => file.step(first.as_slice()).is_none(),
        [] => false,
    }
}

// Of a walk to a fid that is held or not, while no other may be held or one may.
fn walk_refusal(
    names: &Names,
    same: bool,
    held: bool,
    full: bool,
    wname: &[Text],
) -> Option<Refusal>
    ensures { told result ≡ first_told (walk_tests same held full wname.now names.now) }
{
    let Names::File(from) = names else {
        return Some(Refusal::Denied);
    };
    if from.is_open {
        return Some(Refusal::AlreadyOpen);
    }
    if held && !same {
        return Some(Refusal::InUse);
    }
    if !held && full {
        return Some(Refusal::TooMany);
    }
    if !wname.is_empty() && !from.file.is_directory() {
        return Some(Refusal::NotDirectory);
    }
    if lacks_first(from.file, wname) {
        return Some(Refusal::NotFound);
    }
    None
}

// Of an open: each file is opened for reading alone.
fn open_refusal(names: &Names, mode: u8) -> Option<Refusal>
    ensures { told result ≡ first_told (open_tests mode names.now) }
{
    let Names::File(named) = names else {
        return Some(Refusal::Denied);
    };
    if named.is_open {
        return Some(Refusal::AlreadyOpen);
    }
    if mode & OTHER_BITS != 0 {
        return Some(Refusal::BadMode);
    }
    if mode != 0 {
        return Some(Refusal::Denied);
    }
    None
}

// Of a read: that of a directory begins where the latest of the fid ended, or anew.
fn read_refusal(names: &Names, offset: u64) -> Option<Refusal>
    ensures { told result ≡ first_told (read_tests offset names.now) }
{
    let Names::File(named) = names else {
        return None;
    };
    if !named.is_open {
        return Some(Refusal::NotOpen);
    }
    if named.file.is_directory() && (offset != 0 && offset != named.next) {
        return Some(Refusal::BadOffset);
    }
    None
}

fn write_refusal(names: &Names, content: &[u8]) -> Option<Refusal>
    ensures { told result ≡ first_told (write_tests content.now names.now) }
{
    match names {
        Names::Conversation(_) => {
            if content.len() > MOST_CONTENT {
                return Some(Refusal::RpcTooLong);
            }
            None
        }
        Names::File(named) => {
            if !named.is_open {
                return Some(Refusal::NotOpen);
            }
            Some(Refusal::NotOpenForWriting)
        }
    }
}

#[tactic(auto, unfolding(crate::specs::Requests::refusal))]
fn version_refusal(msize: u32) -> Option<Refusal>
    ensures { (all : List Held) (version : List ℕ) → told result
        ≡ refusal all (t.Version msize version) }
{
    if msize < LEAST_MSIZE {
        return Some(Refusal::MsizeTooSmall);
    }
    None
}

impl Fids {
    #[tactic(auto, unfolding(crate::specs::Requests::refusal))]
    fn auth_refusal(&self, afid: u32) -> Option<Refusal>
        ensures { (uname aname : List ℕ) → told result
            ≡ refusal self.now (t.Auth afid uname aname) }
    {
        if afid == NOFID {
            return Some(Refusal::BadAfid);
        }
        if self.is_held(afid) {
            return Some(Refusal::InUse);
        }
        if self.is_full() {
            return Some(Refusal::TooMany);
        }
        None
    }

    #[tactic(auto, unfolding(crate::specs::Requests::refusal))]
    fn attach_refusal(&self, fid: u32, afid: u32, uname: &[u8], aname: &[u8]) -> Option<Refusal>
        ensures { told result ≡ refusal self.now (t.Attach fid afid uname.now aname.now) }
    {
        if self.is_held(fid) {
            return Some(Refusal::InUse);
        }
        if self.is_full() {
            return Some(Refusal::TooMany);
        }
        let Some(conversation) = self.conversation(afid) else {
            return Some(Refusal::AuthenticationRequired);
        };
        if !is_for(conversation, uname, aname) {
            return Some(Refusal::WrongAttach);
        }
        None
    }

    // Of what no file and no conversation allows.
    #[tactic(auto, unfolding(crate::specs::Requests::refusal))]
    fn denial(&self, fid: u32) -> Option<Refusal>
        ensures create { (name : List ℕ) (perm mode : ℕ) → told result
            ≡ refusal self.now (t.Create fid name perm mode) }
        ensures wstat { (stat : List ℕ) → told result ≡ refusal self.now (t.Wstat fid stat) }
    {
        match self.named(fid) {
            Some(_) => Some(Refusal::Denied),
            None => Some(Refusal::UnknownFid),
        }
    }

    // Of a request that a fid which is held allows.
    #[tactic(auto, unfolding(crate::specs::Requests::refusal))]
    fn held_refusal(&self, fid: u32) -> Option<Refusal>
        ensures clunk { told result ≡ refusal self.now (t.Clunk fid) }
        ensures remove { told result ≡ refusal self.now (t.Remove fid) }
    {
        match self.named(fid) {
            Some(_) => None,
            None => Some(Refusal::UnknownFid),
        }
    }

    #[tactic(auto, unfolding(crate::specs::Requests::refusal))]
    fn stat_refusal(&self, fid: u32) -> Option<Refusal>
        ensures { told result ≡ refusal self.now (t.Stat fid) }
    {
        match self.named(fid) {
            Some(Names::File(_)) => None,
            Some(Names::Conversation(_)) => Some(Refusal::Denied),
            None => Some(Refusal::UnknownFid),
        }
    }

    /// Why a request is refused before the port is asked, if it is.
    #[tactic(auto, unfolding(crate::specs::Requests::refusal))]
    pub fn refusal(&self, body: &TBody) -> Option<Refusal>
        ensures { told result ≡ refusal self.now body.now }
    {
        match body {
            TBody::Version { msize, .. } => version_refusal(*msize),
            TBody::Auth { afid, .. } => self.auth_refusal(*afid),
            TBody::Attach {
                fid,
                afid,
                uname,
                aname,
            } => self.attach_refusal(*fid, *afid, uname.as_slice(), aname.as_slice()),
            TBody::Flush { .. } => None,
            TBody::Walk { fid, newfid, wname } => {
                self.walk_refusal(*fid, *newfid, wname.as_slice())
            }
            TBody::Open { fid, mode } => self.open_refusal(*fid, *mode),
            TBody::Create { fid, .. } => self.denial(*fid),
            TBody::Read { fid, offset, .. } => self.read_refusal(*fid, *offset),
            TBody::Write { fid, content, .. } => self.write_refusal(*fid, content.as_slice()),
            TBody::Clunk { fid } => self.held_refusal(*fid),
            TBody::Remove { fid } => self.held_refusal(*fid),
            TBody::Stat { fid } => self.stat_refusal(*fid),
            TBody::Wstat { fid, .. } => self.denial(*fid),
        }
    }

    #[tactic(auto, unfolding(crate::specs::Requests::refusal))]
    fn walk_refusal(&self, fid: u32, newfid: u32, wname: &[Text]) -> Option<Refusal>
        ensures { told result ≡ refusal self.now (t.Walk fid newfid wname.now) }
    {
        let Some(names) = self.named(fid) else {
            return Some(Refusal::UnknownFid);
        };
        walk_refusal(
            names,
            fid == newfid,
            self.is_held(newfid),
            self.is_full(),
            wname,
        )
    }

    #[tactic(auto, unfolding(crate::specs::Requests::refusal))]
    fn open_refusal(&self, fid: u32, mode: u8) -> Option<Refusal>
        ensures { told result ≡ refusal self.now (t.Open fid mode) }
    {
        let Some(names) = self.named(fid) else {
            return Some(Refusal::UnknownFid);
        };
        open_refusal(names, mode)
    }

    #[tactic(auto, unfolding(crate::specs::Requests::refusal))]
    fn read_refusal(&self, fid: u32, offset: u64) -> Option<Refusal>
        ensures { (count : ℕ) → told result ≡ refusal self.now (t.Read fid offset count) }
    {
        let Some(names) = self.named(fid) else {
            return Some(Refusal::UnknownFid);
        };
        read_refusal(names, offset)
    }

    #[tactic(auto, unfolding(crate::specs::Requests::refusal))]
    fn write_refusal(&self, fid: u32, content: &[u8]) -> Option<Refusal>
        ensures { (offset : ℕ) → told result
            ≡ refusal self.now (t.Write fid offset content.now) }
    {
        let Some(names) = self.named(fid) else {
            return Some(Refusal::UnknownFid);
        };
        write_refusal(names, content)
    }
}
