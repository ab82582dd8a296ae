// What is kept of a connection.
ghost use Rattle.std.specs.Prelude.{◌≡◌, ◌<◌, ◌-◌, ◌^◌, ◌⊎◌, [], List, IfOk, IfErr, Ok, Some, None};
ghost use Rattle.nine.specs.Messages.{t_given};
ghost use Rattle.nine.specs.Decoding.{IsFrame, request_of};
ghost use Rattle.agent_history.specs.Requests.{effective, is_over, tag_of};
ghost use Rattle.doors.specs.Deeds.{Deed};
ghost use Rattle.doors.specs.Requests.{granted, granted_body, refusal};
ghost use Rattle.doors.specs.Doors.{IsRefusedSo, Keeps, by_refusal};

use crate::fids::Fids;
use crate::refusal::{Refusal, Refused};
use crate::tests::comes_first;
use nine::{DecodeFault, TBody, TMsg, decode_t};
use std::alloc::Global;
use wire_base::get_u16;

// How many bytes of a message aren't what is read.
const READ_OVERHEAD: u32 = 24;

/// What is kept of a connection.
#[derive(Drop)]
pub struct Connection {
    /// The largest message that was agreed, if a version is.
    pub msize: Option<u32>,
    pub fids: Fids,
}

/// The tag of a frame.
pub(crate) fn tag_of(frame: &[u8]) -> u16
    ensures { result ≡ tag_of frame.now }
{
    get_u16(frame, 5).unwrap_or(0)
}

// The request that a frame is.
#[tactic(auto, unfolding(nine::specs::Decoding::request_of))]
fn request(alloc: Global, frame: &[u8]) -> Result<TMsg, Refused>
    requires { IsFrame frame.now }
    ensures request { IfOk result (λ m. request_of frame.now ≡ Some m) }
    ensures given { IfOk result (λ m. t_given m.body) }
    ensures none { IfErr result (λ e. (e ≡ Refused.NoMemory)
        ⊎ ((e ≡ Refused.For Refusal.BadMessage) × (request_of frame.now ≡ None))) }
{
    match decode_t(alloc, frame) {
        Ok(request) => Ok(request),
        Err(DecodeFault::Bad { .. }) => Err(Refused::For(Refusal::BadMessage)),
        Err(DecodeFault::NoMemory) => Err(Refused::NoMemory),
    }
}

impl Connection {
    /// No version and no fids. It takes no memory.
    pub fn new(alloc: Global) -> Connection
        ensures { Keeps [] result }
    {
        Connection {
            msize: None,
            fids: Fids::new(alloc),
        }
    }

    // The frame is longer than what was agreed.
    fn is_over(&self, frame: &[u8]) -> bool
        ensures { result ≡ is_over self.now.msize frame.now }
    {
        match self.msize {
            Some(msize) => frame.len() > msize as usize,
            None => false,
        }
    }

    /// How many bytes a reply may hold of what is read.
    pub fn room(&self, count: u32) -> u32
        ensures room { result ≡ effective count self.now.msize }
        ensures small { result < 2 ^ 32 - 11 }
    {
        match self.msize {
            Some(msize) => count.min(msize.saturating_sub(READ_OVERHEAD)),
            None => 0,
        }
    }

    // The tests that a request meets before the port is asked.
    fn granted_body(&self, body: &TBody) -> Option<Refusal>
        ensures granted { (done : List Deed) → Keeps done self.now
            → granted_body done body.now ≡ by_refusal body.now result }
        ensures tested { result ≡ None → refusal self.now.fids body.now ≡ None }
    {
        if !comes_first(body) && self.msize.is_none() {
            return Some(Refusal::NoVersion);
        }
        self.fids.refusal(body)
    }

    /// The request that a frame is, where no test refuses it before the port is asked.
    #[tactic(auto, unfolding(crate::specs::Requests::granted))]
    pub fn granted(&self, frame: &[u8]) -> Result<TBody, Refused>
        requires { IsFrame frame.now }
        ensures ok { IfOk result (λ body. (done : List Deed) → Keeps done self.now
            → granted done frame.now ≡ Ok body) }
        ensures given { IfOk result (λ body. t_given body) }
        ensures tested { IfOk result (λ body. refusal self.now.fids body ≡ None) }
        ensures err { IfErr result (λ e. (done : List Deed) → Keeps done self.now
            → IsRefusedSo (granted done frame.now) e) }
    {
        if self.is_over(frame) {
            return Err(Refused::For(Refusal::OverMsize));
        }
        let request = request(self.fids.allocator(), frame)?;
        match self.granted_body(&request.body) {
            Some(why) => Err(Refused::For(why)),
            None => Ok(request.body),
        }
    }
}
