// The conversations of an agent.
ghost use Rattle.std.specs.Prelude.{◌≡◌, [], ◌∷◌, List, ℕ, Option, Some, OnOk, OnErr, filter, is_some, length, map, option_copied, option_map, true};
ghost use Rattle.file_tree.specs.declared.tree.Node.TheVariants.{Rpc};
ghost use Rattle.talks.specs.Requests.{meant};
ghost use Rattle.talks.specs.Calls as c;
ghost use Rattle.agent_history.specs.Deeds.{Deed, OfFids, OfTalk, Opened, fid_of, names};
ghost use Rattle.agent_history.specs.Conversations.{conv_of, raised, speaker_of, speakers, talk};
ghost use Rattle.agent_talks.specs.Kept as kept;
ghost use Rattle.agent_talks.specs.Ending.{leaving_of};
ghost use Rattle.agent_talks.specs.Numbered.{kept_in};
ghost use Rattle.agent_talks.specs.Changes.{Leaves, Meets, Opens, left_at, left_one};
ghost use Rattle.agent_talks.specs.Speaks.{IsKept, SameTalks, Speak, stands};

use crate::numbered::NumberedTalks;
use crate::question::Question;
use crate::speaker::{Leaving, Speaker, leaves};
use crate::speakers::Speakers;
use conversations::Conversation;
use std::alloc::Global;
use talks::Request;
use wire_base::NoMemory;

/// The conversations that stand, each with the fid of a connection that has it open, and their questions for the
/// authentication server. It has no Debug, which would print secrets.
#[derive(Drop)]
pub struct Talks {
    pub(crate) speakers: Speakers,
    pub(crate) table: NumberedTalks,
    pub(crate) opened: u64,
    pub(crate) questions: Vec<Question>,
    pub(crate) raised: u64,
}

// ---- what stands

impl Talks {
    /// No conversations. It takes no memory.
    pub fn new(alloc: Global) -> Talks
        ensures { Speak [] result }
    {
        Talks {
            speakers: Speakers::new(alloc),
            table: NumberedTalks::new(alloc),
            opened: 0,
            questions: Vec::new(alloc),
            raised: 0,
        }
    }

    /// How many stand.
    pub fn count(&self) -> usize
        ensures { (done : List Deed) → Speak done self.now → result ≡ length (speakers done) }
    {
        self.speakers.len()
    }

    /// Some of those who have one open, the oldest first, among whom are all whose conversations end. It takes no memory.
    pub fn leavers(&self, leaving: Leaving) -> &[Speaker]
        ensures { filter (λ s. kept.leaves leaving s) result.now
            ≡ filter (λ s. kept.leaves leaving s) self.now.speakers }
    {
        self.speakers.leavers(leaving)
    }

    /// How many questions were ever raised. It takes no memory.
    pub fn raised(&self) -> u64
        ensures { (done : List Deed) → Speak done self.now → result ≡ raised done }
    {
        self.raised
    }

    /// The number of the conversation that a fid of a connection has open.
    pub fn conv_at(&self, conn: u64, fid: u32) -> Option<u64>
        ensures { (done : List Deed) → Speak done self.now → result ≡ conv_of done conn fid }
    {
        self.speakers.conv_at(conn, fid)
    }

    /// Who has the conversation of a number open.
    pub fn speaker_of(&self, conv: u64) -> Option<&Speaker>
        ensures { (done : List Deed) → Speak done self.now
            → option_map kept.speaker_of (option_copied result) ≡ speaker_of done conv }
    {
        self.speakers.speaker_of(conv)
    }

    /// The conversation of a number, where it stands.
    pub fn conversation(&self, conv: u64) -> Option<&Conversation>
        ensures { (done : List Deed) → Speak done self.now
            → IsKept (stands done conv) (talk done conv) (option_copied result) }
    {
        self.table.get(conv)
    }
}

// ---- they are opened, and end

impl Talks {
    fn open_at(&mut self, alloc: Global, conn: u64, fid: u32) -> Result<(), NoMemory>
        ensures opens { OnOk result (Opens self.old self.new conn fid) }
        ensures same { OnErr result (SameTalks self.old self.new) }
    {
        let conv = self.opened;
        let Some(opened) = conv.checked_add(1) else {
            return Err(NoMemory);
        };
        self.speakers.push(Speaker { conv, conn, fid })?;
        match self.table.insert(conv, Conversation::new(alloc)) {
            Ok(()) => {
                self.opened = opened;
                Ok(())
            }
            Err(_) => {
                self.speakers.leave(Leaving::Fid(conn, fid));
                Err(NoMemory)
            }
        }
    }

    /// A fid of a connection that names rpc was opened: it has a conversation from now on, under the next number.
    pub fn open(&mut self, alloc: Global, conn: u64, fid: u32) -> Result<(), NoMemory>
        ensures opened { OnOk result ((done : List Deed) (mode : ℕ)
            → names Rpc (fid_of done conn fid) ≡ true → Speak done self.old
            → Speak (OfFids conn (Opened fid mode) ∷ done) self.new) }
        ensures same { OnErr result (SameTalks self.old self.new) }
    {
        self.open_at(alloc, conn, fid)
    }
}

impl Talks {
    fn leave(&mut self, leaving: Leaving)
        ensures { Leaves self.old self.new leaving }
    {
        let leavers = self.speakers.leavers(leaving);
        if leavers.is_empty() {
            return;
        }
        drop_left(&mut self.table, leavers, leaving);
        self.speakers.leave(leaving);
        keep_questions(&mut self.questions, &self.table);
    }

    /// A fid is given up, or a version of a connection is answered, or it is hung up: their conversations end, and so do
    /// their questions. It takes no memory.
    pub fn end(&mut self, leaving: Leaving)
        ensures { (done : List Deed) (deed : Deed) → leaving_of deed ≡ Some leaving
            → Speak done self.old → Speak (deed ∷ done) self.new }
    {
        self.leave(leaving);
    }
}

// The conversations of those who leave are kept no more.
fn drop_left(table: &mut NumberedTalks, speakers: &[Speaker], leaving: Leaving)
    ensures { (conv : ℕ) → kept_in table.new conv
        ≡ left_at leaving speakers.now conv (kept_in table.old conv) }
{
    for speaker in speakers {
        drop_one(table, leaving, speaker);
    }
}

// The conversation of one who leaves is kept no more.
fn drop_one(table: &mut NumberedTalks, leaving: Leaving, speaker: &Speaker)
    ensures { (conv : ℕ) → kept_in table.new conv
        ≡ left_one leaving speaker.now conv (kept_in table.old conv) }
{
    if leaves(leaving, speaker) {
        table.remove(speaker.conv);
    }
}

// The questions of conversations that are kept.
fn keep_questions(questions: &mut Vec<Question>, table: &NumberedTalks)
    ensures { questions.new.items
        ≡ filter (λ q. is_some (kept_in table.now q.conv)) questions.old.items }
{
    questions.retain(|question| table.contains(question.conv));
}

// ---- what they meet

impl Talks {
    fn store_at(&mut self, alloc: Global, conv: u64, request: Request<'_>) -> Result<(), NoMemory>
        ensures meets { OnOk result (Meets self.old self.new conv
            (c.Stored (meant request.entry))) }
        ensures questions { self.new.questions ≡ self.old.questions }
        ensures same { OnErr result (SameTalks self.old self.new) }
    {
        match self.table.get_mut(conv) {
            Some(conversation) => conversation.store(alloc, request),
            None => Ok(()),
        }
    }

    /// A request is written on a conversation that stands, which a copy is kept of.
    pub fn store(&mut self, alloc: Global, conv: u64, request: Request<'_>) -> Result<(), NoMemory>
        ensures kept { OnOk result ((done : List Deed) → stands done conv ≡ true
            → Speak done self.old
            → Speak (OfTalk conv (c.Stored (meant request.entry)) ∷ done) self.new) }
        ensures same { OnErr result (SameTalks self.old self.new) }
    {
        self.store_at(alloc, conv, request)
    }

    fn shut_at(&mut self, conv: u64)
        ensures meets { Meets self.old self.new conv c.Shut }
        ensures questions { self.new.questions ≡ self.old.questions }
    {
        if let Some(conversation) = self.table.get_mut(conv) {
            conversation.shut();
        }
    }

    /// The file by which the user of a conversation that stands was asked is closed. It takes no memory.
    pub fn shut(&mut self, conv: u64)
        ensures shut { (done : List Deed) → stands done conv ≡ true → Speak done self.old
            → Speak (OfTalk conv c.Shut ∷ done) self.new }
        ensures questions { self.new.questions ≡ self.old.questions }
    {
        self.shut_at(conv);
    }
}
