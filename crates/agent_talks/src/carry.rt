// A conversation goes on: its request is carried out, or its user answered.
ghost use Rattle.std.specs.Prelude.{◌≡◌, List, ℕ, true, IfOk, OnOk, OnErr};
ghost use Rattle.talks.specs.Calls as c;
ghost use Rattle.talks.specs.Calls.{Call};
ghost use Rattle.agent_history.specs.Deeds.{Deed};
ghost use Rattle.agent_history.specs.Conversations.{standing_of};
ghost use Rattle.conversations.specs.Shown.{asks_user, has_request};
ghost use Rattle.conversations.specs.Asking.{SameAsks, asks_that};
ghost use Rattle.conversations.specs.Fits.{Holds, Stays};
ghost use Rattle.agent_talks.specs.Changes.{Back, BothGo, BothReady, BothStay, Goes, IsAsking, StepReady, next_by};
ghost use Rattle.agent_talks.specs.Numbered.{kept_in};
ghost use Rattle.agent_talks.specs.Speaks.{IsReady, Readied, ShowsRequest, Speak, carried_talk, talked};

use crate::held::Talks;
use crate::numbered::NumberedTalks;
use crate::question::Question;
use conversations::{Asks, Conversation};
use key_ring::KeyRing;
use std::alloc::Global;
use talks::Asking;
use wire_base::NoMemory;

// By what a conversation goes on.
#[derive(Clone, Copy)]
pub(crate) enum Step {
    /// Its request is carried out, by a read for which this word was drawn.
    CarryOut([u8; 8]),
    /// Its user was asked whether a key may be used, and answered.
    Consent(bool),
    /// Its user was asked for a key, and answered.
    KeyTold,
}

impl Talks {
    /// The request of a conversation that stands is carried out, by a read for which this word was drawn; the key that
    /// it needs is searched for among the keys of a ring, where these files are open; a question to its user that this
    /// comes to is made; and a question for the authentication server that this wants is raised. Where no request is
    /// there, nothing is done.
    pub fn carry_out(
        &mut self,
        alloc: Global,
        conv: u64,
        word: [u8; 8],
        ring: &KeyRing,
        asking: Asking,
        asks: &mut Asks,
    ) -> Result<(), NoMemory>
        ensures kept { OnOk result ((done : List Deed) → IsReady done conv ring.now asking
            → Speak done self.old → Speak (carried_talk conv word done) self.new) }
        ensures ready { OnOk result ((done : List Deed) → IsReady done conv ring.now asking
            → Speak done self.old → has_request (standing_of done conv).phase ≡ true
            → Readied done conv (c.CarriedOut word) asking ring.now asks.new) }
        ensures asks { SameAsks asks.old asks.new }
        ensures back { OnErr result ((done : List Deed) → Speak done self.old
            → Speak done self.new) }
    {
        if !self.has_request(conv) {
            return Ok(());
        }
        match self.go_on(alloc, conv, Step::CarryOut(word), ring, asking, asks) {
            Ok(_) => Ok(()),
            Err(fault) => Err(fault),
        }
    }

    /// Whether a conversation that stands has a request that isn't carried out yet. It takes no memory.
    pub fn has_request(&self, conv: u64) -> bool
        ensures { ShowsRequest self.now conv result }
    {
        match self.table.get(conv) {
            Some(conversation) => conversation.has_request(),
            None => false,
        }
    }

    /// The user of a conversation that stands was asked whether a key may be used, and answered: what follows is as behind
    /// a request that is carried out.
    pub fn consented(
        &mut self,
        alloc: Global,
        conv: u64,
        agrees: bool,
        ring: &KeyRing,
        asking: Asking,
        asks: &mut Asks,
    ) -> Result<(), NoMemory>
        ensures kept { OnOk result ((done : List Deed) → IsReady done conv ring.now asking
            → Speak done self.old → asks_user (standing_of done conv).phase ≡ true
            → Speak (talked conv (c.Consented agrees) done) self.new) }
        ensures ready { OnOk result ((done : List Deed) → IsReady done conv ring.now asking
            → Speak done self.old
            → asks_that (c.Consented agrees) (standing_of done conv).phase ≡ true
            → Readied done conv (c.Consented agrees) asking ring.now asks.new) }
        ensures asks { SameAsks asks.old asks.new }
        ensures back { OnErr result ((done : List Deed) → Speak done self.old
            → Speak done self.new) }
    {
        match self.go_on(alloc, conv, Step::Consent(agrees), ring, asking, asks) {
            Ok(_) => Ok(()),
            Err(fault) => Err(fault),
        }
    }

    /// The user of a conversation that stands was asked for a key, and answered: what follows is as behind a request that
    /// is carried out.
    pub fn key_told(
        &mut self,
        alloc: Global,
        conv: u64,
        ring: &KeyRing,
        asking: Asking,
        asks: &mut Asks,
    ) -> Result<(), NoMemory>
        ensures kept { OnOk result ((done : List Deed) → IsReady done conv ring.now asking
            → Speak done self.old → asks_user (standing_of done conv).phase ≡ true
            → Speak (talked conv c.KeyTold done) self.new) }
        ensures ready { OnOk result ((done : List Deed) → IsReady done conv ring.now asking
            → Speak done self.old → asks_that c.KeyTold (standing_of done conv).phase ≡ true
            → Readied done conv c.KeyTold asking ring.now asks.new) }
        ensures asks { SameAsks asks.old asks.new }
        ensures back { OnErr result ((done : List Deed) → Speak done self.old
            → Speak done self.new) }
    {
        match self.go_on(alloc, conv, Step::KeyTold, ring, asking, asks) {
            Ok(_) => Ok(()),
            Err(fault) => Err(fault),
        }
    }

    // Whether the authentication server is asked then.
    fn go_on(
        &mut self,
        alloc: Global,
        conv: u64,
        step: Step,
        ring: &KeyRing,
        asking: Asking,
        asks: &mut Asks,
    ) -> Result<bool, NoMemory>
        ensures goes { IfOk result (λ on_server. Goes self.old self.new conv on_server) }
        ensures kept { OnOk result (BothGo (kept_in self.old.table conv)
            (kept_in self.new.table conv) (next_by step asking ring.now)) }
        ensures ready { OnOk result (BothReady (kept_in self.old.table conv) step
            asking ring.now asks.new) }
        ensures asks { SameAsks asks.old asks.new }
        ensures back { OnErr result (Back self.old self.new conv) }
    {
        let Some(number) = self.raised.checked_add(1) else {
            return Err(NoMemory);
        };
        self.questions.reserve(1)?;
        let on_server = step_at(&mut self.table, alloc, conv, step, ring, asking, asks)?;
        if on_server {
            self.questions
                .push(Question {
                    call: number,
                    conv,
                    handed: false,
                })
                .unwrap();
            self.raised = number;
        }
        Ok(on_server)
    }
}

// The conversation of a number takes a step, where there is one; whether the authentication server is asked then.
fn step_at(
    table: &mut NumberedTalks,
    alloc: Global,
    conv: u64,
    step: Step,
    ring: &KeyRing,
    asking: Asking,
    asks: &mut Asks,
) -> Result<bool, NoMemory>
    ensures kept { OnOk result (BothGo (kept_in table.old conv) (kept_in table.new conv)
        (next_by step asking ring.now)) }
    ensures ready { OnOk result (BothReady (kept_in table.old conv) step
        asking ring.now asks.new) }
    ensures on_server { IfOk result (λ on_server.
        IsAsking (kept_in table.new conv) on_server) }
    ensures asks { SameAsks asks.old asks.new }
    ensures back { OnErr result (BothStay (kept_in table.old conv)
        (kept_in table.new conv)) }
    ensures others { (other : ℕ) → (conv ≡ other → ⊥)
        → kept_in table.new other ≡ kept_in table.old other }
{
    match table.get_mut(conv) {
        Some(conversation) => {
            take_step(conversation, alloc, step, ring, asking, asks)?;
            Ok(conversation.waits_for_server())
        }
        None => Ok(false),
    }
}

fn take_step(
    conversation: &mut Conversation,
    alloc: Global,
    step: Step,
    ring: &KeyRing,
    asking: Asking,
    asks: &mut Asks,
) -> Result<(), NoMemory>
    ensures kept { OnOk result ((talk : List Call) → Holds conversation.old talk
        → Holds conversation.new (next_by step asking ring.now talk)) }
    ensures ready { OnOk result (StepReady conversation.old step asking ring.now asks.new) }
    ensures asks { SameAsks asks.old asks.new }
    ensures back { OnErr result (Stays conversation.old conversation.new) }
{
    match step {
        Step::CarryOut(word) => conversation.perform(alloc, word, ring, asking, asks),
        Step::Consent(agrees) => conversation.consented(alloc, agrees, ring, asking, asks),
        Step::KeyTold => conversation.key_told(alloc, ring, asking, asks),
    }
}
