// Requests for which the port is asked.
ghost use Rattle.std.specs.Prelude.{◌≡◌, ◌<◌, ◌^◌, ◌++◌, ◌∷◌, [], ℕ, List, Some, None, true, length, min, OnOk, OnErr, IfOk, codes, if◌then◌else◌};
ghost use Rattle.nine.specs.declared.message.TBody.TheVariants as t;
ghost use Rattle.sealing.specs.InfoReading.{info_reading};
ghost use Rattle.agent_history.specs.Requests.{agreed, is_known};
ghost use Rattle.doors.specs.declared.fid.AuthFid.{AuthFid};
ghost use Rattle.doors.specs.declared.fid.Held.{Held};
ghost use Rattle.doors.specs.declared.fid.Names.TheVariants.{Conversation};
ghost use Rattle.doors.specs.Calls.{PortCall, heard, info_request, is_fit, write_text};
ghost use Rattle.doors.specs.Deeds.{Deed, Became, Came, Versioned};
ghost use Rattle.doors.specs.Fids.{begun, conversations, keeping, named};
ghost use Rattle.doors.specs.Requests.{accepts, closings, heard_in, refusal, to_read, told, vouches};
ghost use Rattle.doors.specs.Answers.{IsFound, asked, heard_of, said_of};
ghost use Rattle.doors.specs.Doors.{Carried, Closes, GivesUp, Keeps, Served, reply_under};

use crate::asking::{Answer, ask, begin, given};
use crate::connection::Connection;
use crate::fid::{AuthFid, FileFid, Held, Names};
use crate::file::DoorFile;
use crate::port::Port;
use crate::reading::{Found, find};
use crate::refusal::Refusal;
use nine::{Qid, put_attach, put_auth, put_clunk, put_error, put_read, put_version, put_write};
use sealing::read_info;
use std::alloc::Global;
use wire_base::{Bytes, NoMemory, Text, check_text};

const MOST_MSIZE: u32 = 8216;

const VERSION: &[u8; 6] = b"9P2000";

const UNKNOWN: &[u8; 7] = b"unknown";

const WRITE: &[u8; 6] = b"write ";

const INFO: &[u8; 8] = b"authinfo";

// How many bytes a text of 9P may have.
const MOST_TEXT: usize = 65535;

// The qid of a fid by which a user is authenticated.
const AUTH_QID: Qid = Qid {
    kind: 0x08,
    vers: 0,
    path: 2,
};

// The version is 9P2000, or one of its dialects.
fn is_known(version: &[u8]) -> bool
    ensures { result ≡ is_known version.now }
{
    version == VERSION.as_slice() || version.starts_with(b"9P2000.")
}

// The largest message that is agreed with a version.
fn agreed(msize: u32, version: &[u8]) -> Option<u32>
    ensures { result ≡ agreed msize version.now }
{
    if is_known(version) {
        Some(msize.min(MOST_MSIZE))
    } else {
        None
    }
}

// The version that is answered.
fn answered(version: &[u8]) -> &'static [u8]
    ensures { result.now ≡ (if is_known version.now then codes "9P2000" else codes "unknown") }
{
    if is_known(version) { VERSION } else { UNKNOWN }
}

// Closes all conversations that fids name.
fn close_all<P: Port>(held: &[Held], port: &mut P)
    ensures { (setting : P.Setting) (past : List PortCall) → P.stands setting past port.old
        → P.stands setting (closings (conversations held.now) ++ past) port.new }
{
    let [first, rest @ ..] = held else {
        return;
    };
    if let Names::Conversation(conversation) = &first.names {
        port.close(conversation.conv);
    }
    close_all(rest, port);
}

// An authinfo says that this user was accepted.
fn accepts(uname: &[u8], bytes: &[u8]) -> bool
    ensures { result ≡ accepts uname.now (info_reading bytes.now) }
{
    match read_info(bytes) {
        Some(info) => info.suid.text() == uname,
        None => false,
    }
}

// An answer says so.
fn vouches(uname: &[u8], came: Option<Answer>, answer: &[u8]) -> bool
    ensures { result ≡ vouches uname.now (heard_of came answer.now) }
{
    match came {
        Some(Answer::Well) => accepts(uname, given(answer)),
        Some(Answer::Ended) => false,
        Some(Answer::Else) => false,
        None => false,
    }
}

// The reply that tells an answer as it is. One that no text of 9P is can't be told.
fn put_told(tag: u16, answer: &[u8], out: &mut Bytes) -> Result<(), NoMemory>
    ensures ok { OnOk result (out.new ≡ out.old ++ reply_under tag (told answer.now)) }
    ensures err { OnErr result (out.new ≡ out.old) }
{
    if answer.len() <= MOST_TEXT && check_text(answer) {
        put_error(tag, answer, out)
    } else {
        put_error(tag, Refusal::Unavailable.text(), out)
    }
}

// The request by which bytes are written to a conversation.
fn write_request(alloc: Global, content: &[u8]) -> Result<Bytes, NoMemory>
    ensures { IfOk result (λ request. request ≡ write_text content.now) }
{
    let mut request = Bytes::with_capacity(alloc, WRITE.len() + content.len())?;
    request.append(WRITE)?;
    request.append(content)?;
    Ok(request)
}

impl Connection {
    /// Version: all fids are given up and their conversations closed, and a largest message is agreed where the version is
    /// known.
    #[tactic(auto, unfolding(crate::specs::Requests::after, crate::specs::Requests::reply_of))]
    pub fn version<P: Port>(
        &mut self,
        tag: u16,
        msize: u32,
        version: &[u8],
        port: &mut P,
        out: &mut Bytes,
    ) -> Result<(), NoMemory>
        ensures ok { OnOk result ((done : List Deed) (setting : P.Setting) (past : List PortCall)
            → Keeps done self.old
            → P.stands setting past port.old → Carried (P.stands setting) done past tag
            (t.Version msize version.now) self.new port.new out.old out.new) }
        ensures err { OnErr result (out.new ≡ out.old) }
    {
        put_version(tag, msize.min(MOST_MSIZE), answered(version), out)?;
        close_all(self.fids.as_slice(), port);
        self.fids.clear();
        self.msize = agreed(msize, version);
        Ok(())
    }

    /// Auth: the fid names a conversation for this user and this tree.
    #[tactic(auto, unfolding(crate::specs::Requests::after, crate::specs::Requests::reply_of))]
    pub fn auth<P: Port>(
        &mut self,
        tag: u16,
        afid: u32,
        uname: Text,
        aname: Text,
        port: &mut P,
        out: &mut Bytes,
    ) -> Result<(), NoMemory>
        ensures ok { OnOk result ((done : List Deed) (setting : P.Setting) (past : List PortCall)
            → Keeps done self.old
            → P.stands setting past port.old → Carried (P.stands setting) done past tag
            (t.Auth afid uname aname) self.new port.new out.old out.new) }
        ensures err { OnErr result (out.new ≡ out.old) }
    {
        let Some(conv) = begin(self.fids.allocator(), port)? else {
            return put_error(tag, Refusal::Unavailable.text(), out);
        };
        let names = Names::Conversation(AuthFid {
            conv,
            uname,
            aname,
            kept: Bytes::new(self.fids.allocator()),
        });
        self.fids.add(afid, names)?;
        put_auth(tag, &AUTH_QID, out)
    }

    // The fid names the root for the user for whom the answer vouches.
    #[tactic(auto, unfolding(crate::specs::Requests::after, crate::specs::Requests::reply_of))]
    fn admit(
        &mut self,
        tag: u16,
        fid: u32,
        uname: Text,
        vouched: bool,
        out: &mut Bytes,
    ) -> Result<(), NoMemory>
        ensures ok { OnOk result ((done : List Deed) (afid : ℕ) (aname : List ℕ)
            (calls : List PortCall) → vouched ≡ vouches uname (heard_in calls)
            → Keeps done self.old
            → Served done tag (t.Attach fid afid uname aname) calls self.new out.old out.new) }
        ensures err { OnErr result (out.new ≡ out.old) }
    {
        if !vouched {
            return put_error(tag, Refusal::NotAuthenticated.text(), out);
        }
        let names = Names::File(FileFid {
            file: DoorFile::Root,
            uname,
            is_open: false,
            next: 0,
        });
        self.fids.add(fid, names)?;
        put_attach(tag, &DoorFile::Root.qid(), out)
    }

    /// Attach: the fid names the root, where the afid's conversation says that this user was accepted. An afid that names no
    /// conversation vouches for nobody.
    pub fn attach<P: Port>(
        &mut self,
        tag: u16,
        fid: u32,
        afid: u32,
        uname: Text,
        port: &mut P,
        out: &mut Bytes,
    ) -> Result<(), NoMemory>
        ensures ok { OnOk result ((done : List Deed) (setting : P.Setting) (past : List PortCall) (aname : List ℕ)
            → Keeps done self.old → P.stands setting past port.old → Carried (P.stands setting) done past tag
            (t.Attach fid afid uname aname) self.new port.new out.old out.new) }
        ensures err { OnErr result (out.new ≡ out.old) }
    {
        let Some(conversation) = self.fids.conversation(afid) else {
            return self.admit(tag, fid, uname, false, out);
        };
        let mut answer = Bytes::new(self.fids.allocator());
        let came = ask(port, conversation.conv, INFO, &mut answer)?;
        let vouched = vouches(uname.as_slice(), came, answer.as_slice());
        self.admit(tag, fid, uname, vouched, out)
    }

    // Hands over as many of the bytes as there is room for, and keeps the others.
    #[tactic(auto, unfolding(crate::specs::Requests::after, crate::specs::Requests::reply_of))]
    fn hand_over(
        &mut self,
        tag: u16,
        fid: u32,
        count: u32,
        bytes: &[u8],
        out: &mut Bytes,
    ) -> Result<(), NoMemory>
        ensures ok { OnOk result ((done : List Deed) (a : AuthFid) (offset : ℕ)
            (calls : List PortCall) → Keeps done self.old
            → named fid self.old.fids ≡ Some (Conversation a)
            → to_read a.kept calls ≡ Some bytes.now
            → Served done tag (t.Read fid offset count) calls self.new out.old out.new) }
        ensures err { OnErr result (out.new ≡ out.old) }
    {
        let Some(conversation) = self.fids.conversation(fid) else {
            return put_read(tag, &[], out);
        };
        let first = bytes.len().min(self.room(count) as usize);
        let (given, kept) = bytes.split_at(first);
        let names = Names::Conversation(AuthFid {
            conv: conversation.conv,
            uname: conversation.uname.copy()?,
            aname: conversation.aname.copy()?,
            kept: Bytes::from_slice(self.fids.allocator(), kept)?,
        });
        self.fids.rename(fid, names);
        put_read(tag, given, out)
    }

    // Answers a read of a conversation by what was found.
    #[tactic(auto, unfolding(crate::specs::Requests::after, crate::specs::Requests::reply_of))]
    fn answer_read(
        &mut self,
        tag: u16,
        fid: u32,
        count: u32,
        found: Found,
        out: &mut Bytes,
    ) -> Result<(), NoMemory>
        ensures ok { OnOk result ((done : List Deed) (a : AuthFid) (offset : ℕ)
            (calls : List PortCall) → Keeps done self.old
            → named fid self.old.fids ≡ Some (Conversation a)
            → IsFound found a.kept calls
            → Served done tag (t.Read fid offset count) calls self.new out.old out.new) }
        ensures err { OnErr result (out.new ≡ out.old) }
    {
        match found {
            Found::Given(bytes) => self.hand_over(tag, fid, count, bytes.as_slice(), out),
            Found::Refused(answer) => put_told(tag, answer.as_slice(), out),
            Found::Lost => put_error(tag, Refusal::Unavailable.text(), out),
        }
    }

    /// Read: of a file of the tree, or of a conversation, of which it gives what is kept, or else what the conversation
    /// answers.
    pub fn read<P: Port>(
        &mut self,
        tag: u16,
        fid: u32,
        offset: u64,
        count: u32,
        port: &mut P,
        out: &mut Bytes,
    ) -> Result<(), NoMemory>
        ensures ok { OnOk result ((done : List Deed) (setting : P.Setting) (past : List PortCall)
            → Keeps done self.old
            → P.stands setting past port.old → Carried (P.stands setting) done past tag
            (t.Read fid offset count) self.new port.new out.old out.new) }
        ensures err { OnErr result (out.new ≡ out.old) }
    {
        match self.fids.named(fid) {
            Some(Names::File(_)) => self.read_file(tag, fid, offset, count, out),
            Some(Names::Conversation(conversation)) => {
                let found = find(self.fids.allocator(), conversation, port)?;
                self.answer_read(tag, fid, count, found, out)
            }
            None => put_error(tag, Refusal::Unavailable.text(), out),
        }
    }

    // Answers a write to a conversation by what it answered.
    #[tactic(auto, unfolding(crate::specs::Requests::after, crate::specs::Requests::reply_of))]
    fn answer_write(
        &self,
        tag: u16,
        content: &[u8],
        came: Option<Answer>,
        answer: &[u8],
        out: &mut Bytes,
    ) -> Result<(), NoMemory>
        requires { length content.now < 2 ^ 32 }
        ensures ok { OnOk result ((done : List Deed) (fid offset conv : ℕ) → Keeps done self.now
            → heard (said_of came) answer.now ≡ heard_of came answer.now
            → Served done tag (t.Write fid offset content.now)
            (asked conv (write_text content.now) came answer.now) self.now out.old out.new) }
        ensures err { OnErr result (out.new ≡ out.old) }
    {
        match came {
            Some(Answer::Well) => put_write(tag, content.len() as u32, out),
            Some(Answer::Ended) => put_told(tag, answer, out),
            Some(Answer::Else) => put_told(tag, answer, out),
            None => put_error(tag, Refusal::Unavailable.text(), out),
        }
    }

    /// Write to a conversation. What isn't one can't be written.
    #[tactic(auto, unfolding(crate::specs::Requests::after, crate::specs::Requests::reply_of))]
    pub fn write<P: Port>(
        &mut self,
        tag: u16,
        fid: u32,
        content: &[u8],
        port: &mut P,
        out: &mut Bytes,
    ) -> Result<(), NoMemory>
        requires short { length content.now < 2 ^ 32 }
        requires tested { refusal self.old.fids (t.Write fid 0 content.now) ≡ None }
        ensures ok { OnOk result ((done : List Deed) (setting : P.Setting) (past : List PortCall) (offset : ℕ)
            → Keeps done self.old → P.stands setting past port.old → Carried (P.stands setting) done past tag
            (t.Write fid offset content.now) self.new port.new out.old out.new) }
        ensures err { OnErr result (out.new ≡ out.old) }
    {
        let Some(conversation) = self.fids.conversation(fid) else {
            return put_error(tag, Refusal::Unavailable.text(), out);
        };
        let request = write_request(self.fids.allocator(), content)?;
        let mut answer = Bytes::new(self.fids.allocator());
        let came = ask(port, conversation.conv, request.as_slice(), &mut answer)?;
        self.answer_write(tag, content, came, answer.as_slice(), out)
    }

    // The conversation that a fid names is closed, if it names one.
    fn close<P: Port>(&self, fid: u32, port: &mut P)
        ensures { (setting : P.Setting) (past : List PortCall) → P.stands setting past port.old
            → Closes (P.stands setting) past (named fid self.now.fids) port.new }
    {
        let Some(conversation) = self.fids.conversation(fid) else {
            return;
        };
        port.close(conversation.conv);
    }

    // The fid is given up, and its conversation closed, if it names one.
    fn give_up<P: Port>(&mut self, fid: u32, port: &mut P)
        ensures { (done : List Deed) (setting : P.Setting) (past : List PortCall)
            → Keeps done self.old
            → P.stands setting past port.old → GivesUp (P.stands setting) done past fid self.new port.new }
    {
        self.close(fid, port);
        self.fids.remove(fid);
    }

    /// Clunk: the fid is given up, and its conversation closed, if it names one.
    #[tactic(auto, unfolding(crate::specs::Requests::after, crate::specs::Requests::reply_of))]
    pub fn clunk<P: Port>(
        &mut self,
        tag: u16,
        fid: u32,
        port: &mut P,
        out: &mut Bytes,
    ) -> Result<(), NoMemory>
        ensures ok { OnOk result ((done : List Deed) (setting : P.Setting) (past : List PortCall)
            → Keeps done self.old
            → P.stands setting past port.old → Carried (P.stands setting) done past tag
            (t.Clunk fid) self.new port.new out.old out.new) }
        ensures err { OnErr result (out.new ≡ out.old) }
    {
        self.give_up(fid, port);
        put_clunk(tag, out)
    }

    /// Remove: a clunk that is answered by a refusal.
    #[tactic(auto, unfolding(crate::specs::Requests::after, crate::specs::Requests::reply_of))]
    pub fn remove<P: Port>(
        &mut self,
        tag: u16,
        fid: u32,
        port: &mut P,
        out: &mut Bytes,
    ) -> Result<(), NoMemory>
        ensures ok { OnOk result ((done : List Deed) (setting : P.Setting) (past : List PortCall)
            → Keeps done self.old
            → P.stands setting past port.old → Carried (P.stands setting) done past tag
            (t.Remove fid) self.new port.new out.old out.new) }
        ensures err { OnErr result (out.new ≡ out.old) }
    {
        self.give_up(fid, port);
        put_error(tag, Refusal::Denied.text(), out)
    }
}
