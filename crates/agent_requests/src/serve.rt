// How a frame on a connection is answered.
ghost use Rattle.std.specs.Prelude.{◌≡◌, ◌∷◌, List, ℕ, ◌<◌, ◌≤◌, ◌+◌, ◌-◌, ◌^◌, ◌⊎◌, false, true, Some, None, IsSome, IfOk, IfErr, OnOk, OnErr, length};
ghost use Rattle.nine.specs.Messages.{t_fits, IsRequest};
ghost use Rattle.nine.specs.Decoding.{IsFrame, request_of};
ghost use Rattle.agent_history.specs.Deeds.{Deed, msize_of, was_hung};
ghost use Rattle.agent_history.specs.Requests.{Call as HistoryCall, answered, comes_first, is_over, lacks_version, repeats_tag};
ghost use Rattle.mailboxes.specs.Deliveries.{Delivers};
ghost use Rattle.agent_requests.specs.Sharing.{SameShared, Shares};
ghost use Rattle.agent_requests.specs.Connections.{FrameAnswered, FrameTried, Keeps, SameKept, Tried, WritesAtMost, asked, msize_in};

use crate::Shared;
use crate::call::Call;
use crate::connection::Connection;
use crate::refused::{Refusal, Refused, Tried};
use mailboxes::Reply;
use nine::{DecodeFault, TBody, TMsg, decode_t};
use std::alloc::Global;
use wire_base::NoMemory;

// A request that is answered before a version is agreed, and whatever its tag is.
fn comes_first(body: &TBody) -> bool
    ensures { result ≡ comes_first body.now }
{
    matches!(body, TBody::Version { .. } | TBody::Flush { .. })
}

// A request comes under the tag of a read of its connection that waits.
fn repeats_tag(call: Call, shared: &Shared, body: &TBody) -> bool
    ensures { (done : List Deed) → was_hung done call.conn ≡ false
        → Delivers done shared.now.mailboxes → result ≡ repeats_tag done (asked call) body.now }
{
    !comes_first(body) && shared.mailboxes.has_tag(call.conn, call.tag)
}

impl Connection {
    // Carries a request out, where nothing refuses it.
    fn carry_out(&mut self, call: Call, shared: &mut Shared, body: &TBody) -> Tried
        requires fits { t_fits body.now }
        requires small { WritesAtMost 8216 body.now }
        requires room { shared.old.ring.ever_added + 8216 < 2 ^ 64 - 1 }
        ensures { Tried call body.now self.old self.new shared.old shared.new result }
    {
        match body {
            TBody::Version { msize, version } => {
                self.version(call, shared, *msize, version.as_slice())
            }
            TBody::Auth { .. } => Err(Refused::For(Refusal::NoAuthentication)),
            TBody::Attach { fid, afid, .. } => self.attach(call, *fid, *afid),
            TBody::Flush { oldtag } => self.flush(call, shared, *oldtag),
            TBody::Walk { fid, newfid, wname } => self.walk(call, *fid, *newfid, wname),
            TBody::Open { fid, mode } => self.open(call, shared, *fid, *mode),
            TBody::Create { fid, .. } => Err(self.deny(call, *fid)),
            TBody::Wstat { fid, .. } => Err(self.deny(call, *fid)),
            TBody::Read { fid, offset, count } => self.read(call, shared, *fid, *offset, *count),
            TBody::Write { fid, content, .. } => {
                self.write(call, shared, *fid, content.as_slice())
            }
            TBody::Clunk { fid } => self.clunk(call, shared, *fid),
            TBody::Remove { fid } => self.remove(call, shared, *fid),
            TBody::Stat { fid } => self.stat(call, *fid),
        }
    }

    // The frame is longer than what was agreed.
    fn is_over(&self, frame: &[u8]) -> bool
        ensures over { (done : List Deed) (conn : ℕ) → Keeps done conn self.now
            → result ≡ is_over (msize_of done conn) frame.now }
        ensures small { result ≡ false → IsSome (msize_in self.now.phase)
            → length frame.now ≤ 8216 }
    {
        match self.msize() {
            Some(msize) => frame.len() > msize.bytes() as usize,
            None => false,
        }
    }

    // The request wants a version, and none is agreed.
    fn lacks_version(&self, body: &TBody) -> bool
        ensures lacks { (done : List Deed) (call : HistoryCall) → Keeps done call.conn self.now
            → result ≡ lacks_version done call body.now }
        ensures agreed { result ≡ false → comes_first body.now ≡ false
            → IsSome (msize_in self.now.phase) }
    {
        !comes_first(body) && self.msize().is_none()
    }

    // Carries out the request that a frame is, where nothing refuses it.
    fn try_frame(&mut self, call: Call, shared: &mut Shared, frame: &[u8]) -> Tried
        requires whole { IsFrame frame.now }
        requires room { shared.old.ring.ever_added + 8216 < 2 ^ 64 - 1 }
        ensures { FrameTried call frame.now self.old self.new shared.old shared.new result }
    {
        if self.is_over(frame) {
            return Err(Refused::For(Refusal::OverMsize));
        }
        let request = request(call.alloc, frame)?;
        if self.lacks_version(&request.body) {
            return Err(Refused::For(Refusal::NoVersion));
        }
        if repeats_tag(call, shared, &request.body) {
            return Err(Refused::For(Refusal::DuplicateTag));
        }
        self.carry_out(call, shared, &request.body)
    }

    // The same, and the refusal where the request isn't carried out.
    fn answer(
        &mut self,
        call: Call,
        shared: &mut Shared,
        frame: &[u8],
    ) -> Result<Option<Reply>, NoMemory>
        requires whole { IsFrame frame.now }
        requires room { shared.old.ring.ever_added + 8216 < 2 ^ 64 - 1 }
        ensures { FrameAnswered call frame.now self.old self.new shared.old shared.new result }
    {
        match self.try_frame(call, shared, frame) {
            Ok(reply) => Ok(reply),
            Err(Refused::For(why)) => Ok(Some(why.reply(call.tag))),
            Err(Refused::NoMemory) => Err(NoMemory),
        }
    }

    /// Answers a frame: its reply, if it doesn't wait for it, stands behind the others of its connection, and what it did
    /// is kept.
    pub fn serve(&mut self, call: Call, shared: &mut Shared, frame: &[u8]) -> Result<(), NoMemory>
        requires whole { IsFrame frame.now }
        requires room { shared.old.ring.ever_added + 8216 < 2 ^ 64 - 1 }
        ensures keeps { OnOk result ((done : List Deed) → Keeps done call.conn self.old
            → Shares done shared.old
            → Keeps (answered done (asked call) frame.now) call.conn self.new) }
        ensures shares { OnOk result ((done : List Deed) → Keeps done call.conn self.old
            → Shares done shared.old → Shares (answered done (asked call) frame.now) shared.new) }
        ensures few { shared.new.ring.ever_added ≤ shared.old.ring.ever_added + 8216 }
        ensures kept { OnErr result (SameKept self.old self.new) }
        ensures same { OnErr result (SameShared shared.old shared.new) }
    {
        shared.mailboxes.reserve(call.alloc, call.conn)?;
        let reply = self.answer(call, shared, frame)?;
        if let Some(reply) = reply {
            shared.mailboxes.push(call.conn, reply);
        }
        Ok(())
    }
}

// The request that a frame is.
#[tactic(auto, unfolding(nine::specs::Decoding::request_of))]
fn request(alloc: Global, frame: &[u8]) -> Result<TMsg, Refused>
    requires { IsFrame frame.now }
    ensures request { IfOk result (λ m. request_of frame.now ≡ Some m) }
    ensures spelled { IfOk result (λ m. IsRequest frame.now m) }
    ensures none { IfErr result (λ e. (e ≡ Refused.NoMemory)
        ⊎ ((e ≡ Refused.For Refusal.BadMessage) × (request_of frame.now ≡ None))) }
{
    match decode_t(alloc, frame) {
        Ok(request) => Ok(request),
        Err(DecodeFault::Bad { .. }) => Err(Refused::For(Refusal::BadMessage)),
        Err(DecodeFault::NoMemory) => Err(Refused::NoMemory),
    }
}
