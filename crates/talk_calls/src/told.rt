// The public calls of `agent_talks`.
ghost use Rattle.std.specs.Prelude.{◌≡◌, IfOk, ◌∷◌, List, Some, OnErr, OnOk, ◌≤◌, ◌+◌, false, length, drop, IsOk, [], Option, true, IfNone, IfSome, ℕ};
ghost use Rattle.agent_history.specs.Conversations.{asker};
ghost use Rattle.agent_history.specs.Deeds.{Deed, DropTaken, OfPrompts, OfLog, OfTalk, is_debug, OfKeys, Switched};
ghost use Rattle.agent_history.specs.Requests.{said_by};
ghost use Rattle.agent_history.specs.SideFiles.{prompts_of, askers};
ghost use Rattle.agent_talks.specs.Kept.{is_asked, questions_in, unasked};
ghost use Rattle.agent_talks.specs.Speaks.{IsReady};
ghost use Rattle.side_files.specs.Calls as side;
ghost use Rattle.side_files.specs.Questions.{asker_of, first_conv, standing};
ghost use Rattle.talks.specs.Calls as c;
ghost use Rattle.talks.specs.Lines.{start_line};
ghost use Rattle.agent_talks.specs.Asking.{ended, is_asker};
ghost use Rattle.agent_talks.specs.Ending.{leaving_of};
ghost use Rattle.agent_talks.specs.Server.{call_of, is_answer};
ghost use Rattle.agent_talks.specs.Files.{Files};
ghost use Rattle.agent_talks.specs.Logging.{Logs, SameLogs, logged_talk, calls_in, keeping_of, logged_by, talks_in};

use agent_talks::{Conversations, Leaving, LineFiles, Said};
use attr_tuples::Tuple;
use key_ring::KeyRing;
use side_files::PromptKind;
use std::alloc::Global;
use talks::Asking;
use wire_base::{Bytes, NoMemory};

/// As `build_start`.
pub fn build_start(alloc: Global, conv: u64, template: &Tuple) -> Result<Bytes, NoMemory>
    ensures { IfOk result (λ line. line ≡ start_line conv template.now) }
{
    agent_talks::build_start(alloc, conv, template)
}

/// As `LineFiles::withdraw`.
pub fn line_files_withdraw(line_files: &mut LineFiles, kind: PromptKind, conv: u64)
    ensures { (done : List Deed) → Files done line_files.old
        → Files (OfPrompts kind (side.Withdrawn conv) ∷ done) line_files.new }
{
    line_files.withdraw(kind, conv)
}

/// As `LineFiles::push`.
pub fn line_files_push(line_files: &mut LineFiles, line: Bytes)
    ensures { (done : List Deed) → Files done line_files.old
        → Files (OfLog (side.Pushed line) ∷ done) line_files.new }
{
    line_files.push(line)
}

/// As `LineFiles::is_debug`.
pub fn line_files_is_debug(line_files: &LineFiles) -> bool
    ensures { (done : List Deed) → Files done line_files.now → result ≡ is_debug done }
{
    line_files.is_debug()
}

/// As `Conversations::reply`.
pub fn conversations_reply(
    conversations: &mut Conversations,
    alloc: Global,
    kind: PromptKind,
    tag: u64,
    conv: u64,
    agrees: bool,
    ring: &KeyRing,
    asking: Asking,
) -> Result<(), NoMemory>
    ensures kept { OnOk result ((done : List Deed)
        → asker_of tag (prompts_of done kind) ≡ Some conv → IsReady done conv ring.now asking
        → Logs done conversations.old → Logs (logged_talk conv (said_by kind agrees)
        (OfPrompts kind (side.Replied tag) ∷ done)) conversations.new) }
    ensures same { OnErr result (SameLogs conversations.old conversations.new) }
{
    conversations.reply(alloc, kind, tag, conv, agrees, ring, asking)
}

/// As `Conversations::server_told`.
pub fn conversations_server_told(
    conversations: &mut Conversations,
    alloc: Global,
    call: u64,
    said: Said<'_>,
) -> Result<(), NoMemory>
    ensures told { OnOk result ((done : List Deed) → Logs done conversations.old
        → Logs (logged_by (asker done call) (call_of said.entry) done) conversations.new) }
    ensures same { OnErr result (SameLogs conversations.old conversations.new) }
    ensures fewer { unasked (talks_in conversations.new) ≤ unasked (talks_in conversations.old) }
    ensures drops { length (calls_in conversations.new).drops
        ≤ length (calls_in conversations.old).drops + 1 }
    ensures unknown { is_asked call (questions_in (talks_in conversations.old)) ≡ false → IsOk result }
    ensures takes_none { is_answer said.entry ≡ false → IsOk result }
{
    conversations.server_told(alloc, call, said)
}

/// As `Conversations::end`.
pub fn conversations_end(conversations: &mut Conversations, leaving: Leaving)
    ensures { (done : List Deed) (deed : Deed) → leaving_of deed ≡ Some leaving
        → Logs done conversations.old → Logs (ended deed done) conversations.new }
{
    conversations.end(leaving)
}

/// As `Conversations::shut`.
pub fn conversations_shut(conversations: &mut Conversations, kind: PromptKind, conv: u64)
    ensures shut { (done : List Deed) → is_asker done kind conv ≡ true → Logs done conversations.old
        → Logs (OfTalk conv c.Shut ∷ OfPrompts kind (side.Withdrawn conv) ∷ done) conversations.new }
    ensures questions { (talks_in conversations.new).questions ≡ (talks_in conversations.old).questions }
{
    conversations.shut(kind, conv)
}

/// As `Conversations::take_drop`.
pub fn conversations_take_drop(conversations: &mut Conversations)
    ensures taken { (done : List Deed) → Logs done conversations.old
        → Logs (DropTaken ∷ done) conversations.new }
    ensures talks { talks_in conversations.new ≡ talks_in conversations.old }
    ensures drops { (calls_in conversations.new).drops ≡ drop 1 (calls_in conversations.old).drops }
{
    conversations.take_drop()
}

/// As `Conversations::first_asker`.
pub fn conversations_first_asker(conversations: &Conversations, kind: PromptKind) -> Option<u64>
    ensures some { IfSome result (λ conv. (done : List Deed) → Logs done conversations.now
        → is_asker done kind conv ≡ true) }
    ensures none { IfNone result ((done : List Deed) → Logs done conversations.now
        → askers done kind ≡ []) }
    ensures first { (done : List Deed) → Logs done conversations.now
        → result ≡ first_conv (standing (prompts_of done kind)) }
{
    conversations.first_asker(kind)
}

/// As `Conversations::switch`.
pub fn conversations_switch(conversations: &mut Conversations)
    ensures switched { (done : List Deed) (conn : ℕ) → Logs done conversations.old
        → Logs (OfKeys conn Switched ∷ done) conversations.new }
    ensures talks { keeping_of conversations.new ≡ keeping_of conversations.old }
{
    conversations.switch()
}
