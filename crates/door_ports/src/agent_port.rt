// A port at an agent, on a connection of its own.
ghost use Rattle.std.specs.Prelude.{◌≡◌, ◌<◌, ◌^◌, ◌==◌, [], Bool, find, List, IfOk, OnOk, length};
ghost use Rattle.doors.specs.Calls.{PortCall, Asked, Closed, Opened, is_start};
ghost use Rattle.door_ports.specs.Exchanges.{Exchange};
ghost use Rattle.door_ports.specs.Settings.{IsReadying, IsSaidSo, Setting, holds, next_conv, readied, word_for};
ghost use Rattle.door_ports.specs.Settings as settings;
ghost use Rattle.door_ports.specs.Ports.{AsksOne, Keeps, Makes, Stands, StandsWith, Stood, Went, fresh, opened_as, told_word};

use crate::agents::AskedAgent;
use crate::exchange::{clunk, open_rpc, prepare, tell};
use crate::reply::Reply;
use agent_core::Agent;
use doors::{Port, PortOpen, PortSaid};
use std::alloc::Global;
use wire_base::{Bytes, NoMemory};

/// The first fid of a conversation: 0 names the root of the agent's tree, and 1 has ctl open.
const FIRST: u32 = 2;

// As many numbers are tried as a connection may hold fids.
const END: u32 = 258;

/// A port at an agent, which it asks on one connection. A conversation has the number of its fid there: the least that is free,
/// from 2 on. Once a call found no memory, every later open and request finds none.
#[derive(Drop)]
pub struct AgentPort<A> {
    pub(crate) alloc: Global,
    pub(crate) agent: A,
    pub(crate) conn: u64,
    pub(crate) word: [u8; 8],
    // The connection was made ready, which the first open does.
    pub(crate) is_ready: bool,
    // The conversations that are open.
    pub(crate) convs: Vec<u32>,
    // Memory ran out in a call.
    pub(crate) has_failed: bool,
}

/// A port that has an agent of its own. Nobody else opens its connection, and no fid of the agent has confirm or needkey open:
/// then no answer waits for anybody.
pub type CorePort = AgentPort<Agent>;

// The conversation of a number, where it is open.
fn fid_of(convs: &[u32], conv: u64) -> Option<u32>
    ensures { result ≡ find (λ c. c == conv) convs.now }
{
    convs.iter().copied().find(|c| u64::from(*c) == conv)
}

fn holds(convs: &[u32], conv: u32) -> bool
    ensures { result ≡ holds conv convs.now }
{
    fid_of(convs, u64::from(conv)).is_some()
}

// The least number from 2 on that none has. There are never so many that none is free.
fn next_conv(convs: &[u32]) -> u32
    ensures { result ≡ next_conv convs.now }
{
    for at in FIRST..END {
        if !holds(convs, at) {
            return at;
        }
    }
    END
}

// A request is a start.
fn is_start(request: &[u8]) -> bool
    ensures { result ≡ is_start request.now }
{
    request.starts_with(b"start")
}

// What a port says of what the agent replied last, whose text is put in the place of what `out` holds. There is always a
// reply, and a read is replied to by an answer or refused; else there is no answer to it.
fn hand_over(reply: Reply, out: &mut Bytes) -> Result<PortSaid, NoMemory>
    ensures { IfOk result (λ said. IsSaidSo reply said out.new) }
{
    match reply {
        Reply::Read(text) => {
            *out = text;
            Ok(PortSaid::Said)
        }
        Reply::Refused(text) => {
            *out = text;
            Ok(PortSaid::Said)
        }
        Reply::Gone => Ok(PortSaid::Gone),
        Reply::Silent => Err(NoMemory),
        Reply::Done => Err(NoMemory),
    }
}

impl<A: AskedAgent> AgentPort<A> {
    /// A port at an agent, on a connection of this number, which nobody else uses. It takes no memory and asks nothing yet; its
    /// word is eight zeros.
    pub fn new(alloc: Global, agent: A, conn: u64) -> AgentPort<A>
        ensures { (past : A.Past) → A.stands past [] agent
            → StandsWith A.stands (fresh past conn) [] [] result }
    {
        AgentPort {
            alloc,
            agent,
            conn,
            word: [0; 8],
            is_ready: false,
            convs: Vec::new(alloc),
            has_failed: false,
        }
    }

    /// The agent, whose port it was.
    pub fn into_agent(self) -> A
        ensures { result ≡ self.agent }
    {
        self.agent
    }

    /// The word of the starts that follow, which is to be random and drawn for one frame.
    pub fn set_word(&mut self, word: [u8; 8])
        ensures { (s : Stood A.Past) (calls : List PortCall) (more : List Exchange)
            → StandsWith A.stands s calls more self.old
            → StandsWith A.stands (told_word s calls more word) [] [] self.new }
    {
        self.word = word;
    }

    // The connection is made ready, if it isn't.
    fn make_ready(&mut self) -> Result<(), NoMemory>
        ensures { OnOk result ((s : Setting) (past : A.Past) (done : List Exchange)
            → Keeps s self.old → A.stands past done self.old.agent
            → Went (A.stands past) (IsReadying s.ready s.conn) done (readied s) self.new) }
    {
        if self.is_ready {
            return Ok(());
        }
        prepare(self.alloc, &mut self.agent, self.conn)?;
        self.is_ready = true;
        Ok(())
    }

    // Opens the next conversation on a connection that is ready, where the agent lets it.
    fn open_next(&mut self) -> Result<Option<u32>, NoMemory>
        ensures { IfOk result (λ conv. (s : Setting) (past : A.Past) (done : List Exchange)
            → Keeps (readied s) self.old → A.stands past done self.old.agent
            → Went (A.stands past) (settings.IsOpenedSo s.conn (next_conv s.convs) (opened_as conv))
            done (settings.after_open (opened_as conv) s) self.new) }
    {
        let fid = next_conv(&self.convs);
        let lets = open_rpc(self.alloc, &mut self.agent, self.conn, fid)?;
        if !lets {
            return Ok(None);
        }
        self.convs.push(fid)?;
        Ok(Some(fid))
    }

    // Opens a conversation, where the agent lets it.
    fn begin(&mut self) -> Result<Option<u32>, NoMemory>
        ensures { IfOk result (λ conv. (s : Setting) (past : A.Past) (done : List Exchange)
            → Keeps s self.old → A.stands past done self.old.agent
            → Makes (A.stands past) s (Opened (opened_as conv)) done self.new) }
    {
        self.make_ready()?;
        self.open_next()
    }

    // The word for a request.
    fn word_for(&self, request: &[u8]) -> [u8; 8]
        ensures { (s : Setting) → Keeps s self.now → result ≡ word_for s request.now }
    {
        if is_start(request) { self.word } else { [0; 8] }
    }

    // Asks a conversation. What it is replied last.
    fn ask(&mut self, conv: u64, request: &[u8]) -> Result<Reply, NoMemory>
        requires { length request.now < 2 ^ 31 }
        ensures { IfOk result (λ reply. (s : Setting) (past : A.Past) (done : List Exchange)
            → Keeps s self.old → A.stands past done self.old.agent
            → AsksOne (A.stands past) s conv request.now reply done self.new) }
    {
        let Some(fid) = fid_of(&self.convs, conv) else {
            let text = Bytes::from_slice(self.alloc, b"unknown fid")?;
            return Ok(Reply::Refused(text));
        };
        let word = self.word_for(request);
        tell(self.alloc, &mut self.agent, self.conn, fid, request, word)
    }

    // The same, as a port says it.
    fn answer(&mut self, conv: u64, request: &[u8], out: &mut Bytes) -> Result<PortSaid, NoMemory>
        requires { length request.now < 2 ^ 31 }
        ensures { IfOk result (λ said. (s : Setting) (past : A.Past) (done : List Exchange)
            → Keeps s self.old → A.stands past done self.old.agent
            → Makes (A.stands past) s (Asked conv request.now said out.new) done self.new) }
    {
        let reply = self.ask(conv, request)?;
        hand_over(reply, out)
    }

    // Gives the fid of a conversation up, if it is open.
    fn give_up(&mut self, conv: u64) -> Result<(), NoMemory>
        ensures { OnOk result ((s : Setting) (past : A.Past) (done : List Exchange)
            → Keeps s self.old → A.stands past done self.old.agent
            → Went (A.stands past) (settings.IsClosedSo (holds conv s.convs) s.conn conv) done
            s self.new) }
    {
        let Some(fid) = fid_of(&self.convs, conv) else {
            return Ok(());
        };
        clunk(self.alloc, &mut self.agent, self.conn, fid)
    }

    // Closes a conversation, if it is open.
    fn end(&mut self, conv: u64) -> Result<(), NoMemory>
        ensures { OnOk result ((s : Setting) (past : A.Past) (done : List Exchange)
            → Keeps s self.old → A.stands past done self.old.agent
            → Makes (A.stands past) s (Closed conv) done self.new) }
    {
        self.give_up(conv)?;
        self.convs.retain(|c| u64::from(*c) != conv);
        Ok(())
    }
}

impl<A: AskedAgent> Port for AgentPort<A> {
    ghost use Rattle.door_ports.specs.Ports.{Stands, Stood};

    ghost Setting = { Stood A.Past };

    ghost stands = { Stands A.stands };

    fn open(&mut self) -> PortOpen {
        if self.has_failed {
            return PortOpen::NoMemory;
        }
        match self.begin() {
            Ok(Some(conv)) => PortOpen::Open(u64::from(conv)),
            Ok(None) => PortOpen::Refused,
            Err(NoMemory) => {
                self.has_failed = true;
                PortOpen::NoMemory
            }
        }
    }

    fn close(&mut self, conv: u64) {
        if self.has_failed {
            return;
        }
        match self.end(conv) {
            Ok(()) => {}
            Err(NoMemory) => self.has_failed = true,
        }
    }

    fn rpc(&mut self, conv: u64, request: &[u8], out: &mut Bytes) -> PortSaid {
        if self.has_failed {
            return PortSaid::NoMemory;
        }
        match self.answer(conv, request, out) {
            Ok(said) => said,
            Err(NoMemory) => {
                self.has_failed = true;
                PortSaid::NoMemory
            }
        }
    }
}
