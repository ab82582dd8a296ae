// The public calls of `agent_requests`.
ghost use Rattle.std.specs.Prelude.{◌≡◌, List, false, ℕ, Option, true, OnErr, OnOk, ◌∷◌, Some, ◌≤◌, IsOk, is_some, IfSome};
ghost use Rattle.agent_history.specs.Conversations.{given_up_by, stands, resumed, asker};
ghost use Rattle.agent_history.specs.Deeds.{Deed, OfFids, Clunked, was_hung, Versioned, OfConnection, Hung, OfPrompts, Opened, fid_of, OfKeys, Switched};
ghost use Rattle.agent_history.specs.Replies.{swept};
ghost use Rattle.agent_history.specs.Requests.{carried, said_by};
ghost use Rattle.agent_history.specs.SideFiles.{prompts_of};
ghost use Rattle.agent_requests.specs.Sharing.{Shares, SameShared, GivesOne};
ghost use Rattle.file_tree.specs.Calls.{node_of};
ghost use Rattle.mailboxes.specs.Deliveries.{SameRoom, KeepsNone, SamePlace};
ghost use Rattle.side_files.specs.Calls as side;
ghost use Rattle.side_files.specs.Questions.{asker_of};
ghost use Rattle.talks.specs.Calls as c;
ghost use Rattle.agent_talks.specs.Kept.{is_asked, questions_in, unasked};
ghost use Rattle.agent_talks.specs.Logging.{talks_in};

use agent_requests::Shared;
use file_tree::Node;
use side_files::PromptKind;
use std::alloc::Global;
use wire_base::NoMemory;

/// As `Shared::clunk`.
pub fn shared_clunk(shared: &mut Shared, alloc: Global, conn: u64, fid: u32)
    ensures shares { (done : List Deed) → was_hung done conn ≡ false → Shares done shared.old
        → Shares (given_up_by (OfFids conn (Clunked fid)) done) shared.new }
    ensures ring { shared.new.ring ≡ shared.old.ring }
    ensures room { SameRoom shared.old.mailboxes shared.new.mailboxes }
{
    shared.clunk(alloc, conn, fid)
}

/// As `Shared::version`.
pub fn shared_version(shared: &mut Shared, alloc: Global, conn: u64)
    ensures shares { (done : List Deed) (msize : Option ℕ) → was_hung done conn ≡ false
        → Shares done shared.old
        → Shares (given_up_by (OfFids conn (Versioned msize)) done) shared.new }
    ensures ring { shared.new.ring ≡ shared.old.ring }
    ensures room { SameRoom shared.old.mailboxes shared.new.mailboxes }
{
    shared.version(alloc, conn)
}

/// As `Shared::leave`.
pub fn shared_leave(shared: &mut Shared, alloc: Global, conn: u64)
    ensures shares { (done : List Deed) → Shares done shared.old
        → Shares (given_up_by (OfConnection conn Hung) done) shared.new }
    ensures ring { shared.new.ring ≡ shared.old.ring }
    ensures none { KeepsNone shared.new.mailboxes conn }
{
    shared.leave(alloc, conn)
}

/// As `Shared::carry_out`.
pub fn shared_carry_out(
    shared: &mut Shared,
    alloc: Global,
    conv: u64,
    word: [u8; 8],
) -> Result<(), NoMemory>
    ensures carried { OnOk result ((done : List Deed) → stands done conv ≡ true
        → Shares done shared.old → Shares (carried conv word done) shared.new) }
    ensures ring { shared.new.ring ≡ shared.old.ring }
    ensures room { SameRoom shared.old.mailboxes shared.new.mailboxes }
    ensures place { SamePlace shared.old.mailboxes shared.new.mailboxes }
    ensures same { OnErr result (SameShared shared.old shared.new) }
{
    shared.carry_out(alloc, conv, word)
}

/// As `Shared::reply`.
pub fn shared_reply(
    shared: &mut Shared,
    alloc: Global,
    kind: PromptKind,
    tag: u64,
    conv: u64,
    agrees: bool,
) -> Result<(), NoMemory>
    ensures replied { OnOk result ((done : List Deed)
        → asker_of tag (prompts_of done kind) ≡ Some conv → Shares done shared.old
        → Shares (resumed (Some conv) (said_by kind agrees)
        (OfPrompts kind (side.Replied tag) ∷ done)) shared.new) }
    ensures ring { shared.new.ring ≡ shared.old.ring }
    ensures room { SameRoom shared.old.mailboxes shared.new.mailboxes }
    ensures same { OnErr result (SameShared shared.old shared.new) }
{
    shared.reply(alloc, kind, tag, conv, agrees)
}

/// As `Shared::hear`.
pub fn shared_hear(
    shared: &mut Shared,
    alloc: Global,
    call: u64,
    bytes: &[u8],
) -> Result<(), NoMemory>
    ensures shares { OnOk result ((done : List Deed) → Shares done shared.old
        → Shares (swept (resumed (asker done call) (c.Heard bytes.now) done)) shared.new) }
    ensures ring { shared.new.ring ≡ shared.old.ring }
    ensures same { OnErr result (SameShared shared.old shared.new) }
    ensures fewer { unasked (talks_in shared.new.talks) ≤ unasked (talks_in shared.old.talks) }
    ensures drops { GivesOne shared.old shared.new }
    ensures unknown { is_asked call (questions_in (talks_in shared.old.talks)) ≡ false
        → IsOk result }
{
    shared.hear(alloc, call, bytes)
}

/// As `Shared::hear_nothing`.
pub fn shared_hear_nothing(shared: &mut Shared, alloc: Global, call: u64)
    ensures shares { (done : List Deed) → Shares done shared.old
        → Shares (swept (resumed (asker done call) c.Unheard done)) shared.new }
    ensures ring { shared.new.ring ≡ shared.old.ring }
    ensures fewer { unasked (talks_in shared.new.talks) ≤ unasked (talks_in shared.old.talks) }
    ensures drops { GivesOne shared.old shared.new }
{
    shared.hear_nothing(alloc, call)
}

/// As `Shared::lack_room`.
pub fn shared_lack_room(shared: &mut Shared, alloc: Global, call: u64)
    ensures shares { (done : List Deed) → Shares done shared.old
        → Shares (swept (resumed (asker done call) c.Roomless done)) shared.new }
    ensures ring { shared.new.ring ≡ shared.old.ring }
    ensures fewer { unasked (talks_in shared.new.talks) ≤ unasked (talks_in shared.old.talks) }
    ensures drops { GivesOne shared.old shared.new }
{
    shared.lack_room(alloc, call)
}

/// As `Shared::open`.
pub fn shared_open(
    shared: &mut Shared,
    alloc: Global,
    node: Node,
    conn: u64,
    fid: u32,
) -> Result<(), NoMemory>
    ensures opened { OnOk result ((done : List Deed) (mode : ℕ) → was_hung done conn ≡ false
        → is_some (fid_of done conn fid) ≡ true → node_of (fid_of done conn fid) ≡ node
        → Shares done shared.old → Shares (OfFids conn (Opened fid mode) ∷ done) shared.new) }
    ensures ring { shared.new.ring ≡ shared.old.ring }
    ensures mail { shared.new.mailboxes ≡ shared.old.mailboxes }
    ensures same { OnErr result (SameShared shared.old shared.new) }
{
    shared.open(alloc, node, conn, fid)
}

/// As `Shared::asker`.
pub fn shared_asker(shared: &Shared, kind: PromptKind, tag: u64) -> Option<u64>
    ensures asker { (done : List Deed) → Shares done shared.now
        → result ≡ asker_of tag (prompts_of done kind) }
    ensures stands { IfSome result (λ conv. (done : List Deed) → Shares done shared.now
        → stands done conv ≡ true) }
{
    shared.asker(kind, tag)
}
