// The public calls of `agent_talks`.
ghost use Rattle.std.specs.Prelude.{◌≡◌, List, Option, is_some, nat_lt, option_copied, option_map, true, OnErr, OnOk};
ghost use Rattle.agent_history.specs.Conversations.{asker, next_question, conv_of, standing_of, outcome_at};
ghost use Rattle.agent_history.specs.Deeds.{Deed};
ghost use Rattle.agent_talks.specs.Kept as kept;
ghost use Rattle.agent_talks.specs.Speaks.{Speak, IsReady, Readied, talked};
ghost use Rattle.conversations.specs.Asking.{SameAsks, asks_that};
ghost use Rattle.conversations.specs.Shown.{asks_user};
ghost use Rattle.talks.specs.Calls as c;

use agent_talks::{Question, Talks};
use conversations::Asks;
use key_ring::KeyRing;
use roles::Outcome;
use std::alloc::Global;
use talks::Asking;
use wire_base::NoMemory;

/// As `Talks::asker`.
pub fn talks_asker(talks: &Talks, call: u64) -> Option<u64>
    ensures told { (done : List Deed) → Speak done talks.now → result ≡ asker done call }
    ensures found { result ≡ kept.asker_of call talks.now.questions.items }
{
    talks.asker(call)
}

/// As `Talks::next_question`.
pub fn talks_next_question<'x>(talks: &'x Talks) -> Option<&'x Question>
    ensures left { is_some (option_copied result) ≡ nat_lt 0 (kept.unasked talks.now) }
    ensures told { (done : List Deed) → Speak done talks.now
        → option_map kept.question_of (option_copied result) ≡ next_question done }
{
    talks.next_question()
}

/// As `Talks::conv_at`.
pub fn talks_conv_at(talks: &Talks, conn: u64, fid: u32) -> Option<u64>
    ensures { (done : List Deed) → Speak done talks.now → result ≡ conv_of done conn fid }
{
    talks.conv_at(conn, fid)
}

/// As `Talks::consented`.
pub fn talks_consented(
    talks: &mut Talks,
    alloc: Global,
    conv: u64,
    agrees: bool,
    ring: &KeyRing,
    asking: Asking,
    asks: &mut Asks,
) -> Result<(), NoMemory>
    ensures kept { OnOk result ((done : List Deed) → IsReady done conv ring.now asking
        → Speak done talks.old → asks_user (standing_of done conv).phase ≡ true
        → Speak (talked conv (c.Consented agrees) done) talks.new) }
    ensures ready { OnOk result ((done : List Deed) → IsReady done conv ring.now asking
        → Speak done talks.old
        → asks_that (c.Consented agrees) (standing_of done conv).phase ≡ true
        → Readied done conv (c.Consented agrees) asking ring.now asks.new) }
    ensures asks { SameAsks asks.old asks.new }
    ensures back { OnErr result ((done : List Deed) → Speak done talks.old
        → Speak done talks.new) }
{
    talks.consented(alloc, conv, agrees, ring, asking, asks)
}

/// As `Talks::outcome_at`.
pub fn talks_outcome_at(talks: &Talks, conn: u64, fid: u32) -> Option<Outcome>
    ensures { (done : List Deed) → Speak done talks.now
        → result ≡ outcome_at done conn fid }
{
    talks.outcome_at(conn, fid)
}
