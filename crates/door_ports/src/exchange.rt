// What a port does at an agent: requests on its connection, each with a take of its reply.
ghost use Rattle.std.specs.Prelude.{◌≡◌, ◌∷◌, ◌<◌, ◌^◌, List, length, Some, IfOk, OnOk};
ghost use Rattle.nine.specs.Decoding.{IsFrame};
ghost use Rattle.door_ports.specs.Asks.{Met, Sent};
ghost use Rattle.door_ports.specs.Exchanges as exchanges;
ghost use Rattle.door_ports.specs.Exchanges.{Exchange, IsClunk, IsPreparing, IsTold, IsTry, exchange, is_limit, lets, no_word};
ghost use Rattle.door_ports.specs.Ports.{Did};

use crate::agents::AskedAgent;
use crate::frames::{File, agrees, attaches, clunks, opens, reads, walks, writes};
use crate::reply::Reply;
use std::alloc::Global;
use wire_base::{Bytes, NoMemory};

/// The fid by which a connection has ctl open.
const CTL: u32 = 1;

/// No random word.
const NO_WORD: [u8; 8] = [0; 8];

// The text of one of the two limits that an open of a conversation may meet.
fn is_limit(text: &[u8]) -> bool
    ensures { result ≡ is_limit text.now }
{
    text == b"too many fids".as_slice() || text == b"too many conversations".as_slice()
}

// Whether the agent let a request. Another reply than these no open knows: there is no answer to it.
fn judge(reply: Reply) -> Result<bool, NoMemory>
    ensures { IfOk result (λ let_it. lets reply ≡ Some let_it) }
{
    match reply {
        Reply::Done => Ok(true),
        Reply::Gone => Ok(false),
        Reply::Refused(text) => {
            if is_limit(text.as_slice()) {
                Ok(false)
            } else {
                Err(NoMemory)
            }
        }
        Reply::Read(_) => Err(NoMemory),
        Reply::Silent => Err(NoMemory),
    }
}

// A frame comes. Whether the agent lets it.
fn meet<A: AskedAgent>(
    alloc: Global,
    agent: &mut A,
    conn: u64,
    frame: Bytes,
) -> Result<bool, NoMemory>
    requires { IsFrame frame }
    ensures { IfOk result (λ let_it. (past : A.Past) (done : List Exchange)
        → A.stands past done agent.old
        → Met (A.stands past) conn frame let_it done agent.new) }
{
    let reply = agent.exchange(alloc, conn, frame, NO_WORD)?;
    judge(reply)
}

// A frame comes, whatever it is replied.
fn send<A: AskedAgent>(
    alloc: Global,
    agent: &mut A,
    conn: u64,
    frame: Bytes,
) -> Result<(), NoMemory>
    requires { IsFrame frame }
    ensures { OnOk result ((past : A.Past) (done : List Exchange)
        → A.stands past done agent.old
        → Sent (A.stands past) conn frame done agent.new) }
{
    agent.exchange(alloc, conn, frame, NO_WORD)?;
    Ok(())
}

/// A connection is made ready: its fid 0 names the root, and its fid 1 has ctl open.
pub fn prepare<A: AskedAgent>(alloc: Global, agent: &mut A, conn: u64) -> Result<(), NoMemory>
    ensures { OnOk result ((past : A.Past) (done : List Exchange)
        → A.stands past done agent.old
        → Did (A.stands past) (IsPreparing conn) done agent.new) }
{
    send(alloc, agent, conn, agrees(alloc)?)?;
    send(alloc, agent, conn, attaches(alloc)?)?;
    send(alloc, agent, conn, walks(alloc, CTL, File::Ctl)?)?;
    send(alloc, agent, conn, opens(alloc, CTL)?)?;
    Ok(())
}

/// A fid is given up.
pub(crate) fn clunk<A: AskedAgent>(
    alloc: Global,
    agent: &mut A,
    conn: u64,
    fid: u32,
) -> Result<(), NoMemory>
    ensures { OnOk result ((past : A.Past) (done : List Exchange)
        → A.stands past done agent.old
        → Did (A.stands past) (IsClunk conn fid) done agent.new) }
{
    send(alloc, agent, conn, clunks(alloc, fid)?)
}

/// A fid opens rpc, and is given up again where the agent doesn't let it.
pub(crate) fn open_rpc<A: AskedAgent>(
    alloc: Global,
    agent: &mut A,
    conn: u64,
    fid: u32,
) -> Result<bool, NoMemory>
    ensures { IfOk result (λ let_it. (past : A.Past) (done : List Exchange)
        → A.stands past done agent.old
        → Did (A.stands past) (IsTry conn fid let_it) done agent.new) }
{
    let walked = meet(alloc, agent, conn, walks(alloc, fid, File::Rpc)?)?;
    if !walked {
        return Ok(false);
    }
    let opened = meet(alloc, agent, conn, opens(alloc, fid)?)?;
    if opened {
        return Ok(true);
    }
    send(alloc, agent, conn, clunks(alloc, fid)?)?;
    Ok(false)
}

/// Bytes are written by a fid. What that is replied.
pub fn write<A: AskedAgent>(
    alloc: Global,
    agent: &mut A,
    conn: u64,
    fid: u32,
    request: &[u8],
) -> Result<Reply, NoMemory>
    requires { length request.now < 2 ^ 31 }
    ensures { IfOk result (λ reply. (past : A.Past) (done : List Exchange)
        → A.stands past done agent.old
        → A.stands past (exchange conn (exchanges.writes fid request.now) no_word reply ∷ done)
        agent.new) }
{
    let content = Bytes::from_slice(alloc, request)?;
    let frame = writes(alloc, fid, content)?;
    agent.exchange(alloc, conn, frame, NO_WORD)
}

// What a fid has for a read is read.
fn read<A: AskedAgent>(
    alloc: Global,
    agent: &mut A,
    conn: u64,
    fid: u32,
    word: [u8; 8],
) -> Result<Reply, NoMemory>
    ensures { IfOk result (λ reply. (past : A.Past) (done : List Exchange)
        → A.stands past done agent.old
        → A.stands past (exchange conn (exchanges.reads fid) word reply ∷ done) agent.new) }
{
    let frame = reads(alloc, fid)?;
    agent.exchange(alloc, conn, frame, word)
}

/// A fid that has rpc open is asked: the request is written, and where that is done it is read with the word.
pub(crate) fn tell<A: AskedAgent>(
    alloc: Global,
    agent: &mut A,
    conn: u64,
    fid: u32,
    request: &[u8],
    word: [u8; 8],
) -> Result<Reply, NoMemory>
    requires { length request.now < 2 ^ 31 }
    ensures { IfOk result (λ reply. (past : A.Past) (done : List Exchange)
        → A.stands past done agent.old
        → Did (A.stands past) (IsTold conn fid request.now word reply) done agent.new) }
{
    let written = write(alloc, agent, conn, fid, request)?;
    let Reply::Done = written else {
        return Ok(written);
    };
    read(alloc, agent, conn, fid, word)
}
