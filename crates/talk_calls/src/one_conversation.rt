// The public calls of `conversations`.
ghost use Rattle.std.specs.Prelude.{Option, ◌≡◌, option_copied, OnErr, OnOk};
ghost use Rattle.conversations.specs.Shown.{is_resting, answer_in};
ghost use Rattle.conversations.specs.Asking.{Readies, SameAsks, Answers};
ghost use Rattle.conversations.specs.Fits.{Shows, answer_held, Performs, Stays, with_request, Keeps, Resumes};
ghost use Rattle.talks.specs.Calls as c;
ghost use Rattle.talks.specs.Standings.{outcome_of};

use conversations::{Asks, Conversation, phase};
use key_ring::KeyRing;
use roles::Outcome;
use std::alloc::Global;
use talks::{Asking, RpcAnswer};
use wire_base::NoMemory;

/// As `Conversation::is_resting`.
pub fn conversation_is_resting(conversation: &Conversation) -> bool
    ensures { Shows conversation.now (λ s. is_resting s.phase) result }
{
    conversation.is_resting()
}

/// As `Conversation::outcome`.
pub fn conversation_outcome(conversation: &Conversation) -> Option<Outcome>
    ensures { Shows conversation.now outcome_of result }
{
    conversation.outcome()
}

/// As `Conversation::answer`.
pub fn conversation_answer<'x>(conversation: &'x Conversation) -> Option<&'x RpcAnswer>
    ensures shown { Shows conversation.now (λ s. answer_in s.phase) (option_copied result) }
    ensures held { option_copied result ≡ answer_held conversation.now }
{
    conversation.answer()
}

/// As `Conversation::perform`.
pub fn conversation_perform(
    conversation: &mut Conversation,
    alloc: Global,
    word: [u8; 8],
    ring: &KeyRing,
    asking: Asking,
    asks: &mut Asks,
) -> Result<(), NoMemory>
    ensures kept { OnOk result (Performs conversation.old conversation.new word asking ring.now) }
    ensures ready { OnOk result (Readies conversation.old
        (with_request word asking ring.now) asking ring.now asks.old asks.new) }
    ensures asks { SameAsks asks.old asks.new }
    ensures back { OnErr result (Stays conversation.old conversation.new) }
{
    conversation.perform(alloc, word, ring, asking, asks)
}

/// As `Conversation::shut`.
pub fn conversation_shut(conversation: &mut Conversation)
    ensures { Keeps conversation.old conversation.new c.Shut }
{
    conversation.shut()
}

/// As `Conversation::unheard`.
pub fn conversation_unheard(conversation: &mut Conversation)
    ensures { Keeps conversation.old conversation.new c.Unheard }
{
    conversation.unheard()
}

/// As `Conversation::roomless`.
pub fn conversation_roomless(conversation: &mut Conversation)
    ensures { Keeps conversation.old conversation.new c.Roomless }
{
    conversation.roomless()
}

/// As `Conversation::consented`.
pub fn conversation_consented(
    conversation: &mut Conversation,
    alloc: Global,
    agrees: bool,
    ring: &KeyRing,
    asking: Asking,
    asks: &mut Asks,
) -> Result<(), NoMemory>
    ensures kept { OnOk result (Resumes conversation.old conversation.new (c.Consented agrees)
        asking ring.now) }
    ensures ready { OnOk result (Answers conversation.old (c.Consented agrees)
        asking ring.now asks.new) }
    ensures asks { SameAsks asks.old asks.new }
    ensures unchanged { OnErr result (conversation.new ≡ conversation.old) }
{
    conversation.consented(alloc, agrees, ring, asking, asks)
}
