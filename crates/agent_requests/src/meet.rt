// What conversations meet, and what follows: reads that wait are told the lines and the answer that come.
ghost use Rattle.std.specs.Prelude.{◌≡◌, ◌≤◌, ◌∷◌, List, Some, false, true, IsOk, OnErr, OnOk};
ghost use Rattle.talks.specs.Calls as c;
ghost use Rattle.side_files.specs.Calls as side;
ghost use Rattle.side_files.specs.Questions.{asker_of};
ghost use Rattle.agent_history.specs.Deeds.{Deed, OfPrompts};
ghost use Rattle.agent_history.specs.SideFiles.{prompts_of};
ghost use Rattle.agent_history.specs.Replies.{swept};
ghost use Rattle.agent_history.specs.Conversations.{asker, resumed, stands};
ghost use Rattle.agent_history.specs.Requests.{carried, said_by};
ghost use Rattle.agent_talks.specs.Kept.{is_asked, questions_in, unasked};
ghost use Rattle.mailboxes.specs.Deliveries.{SamePlace, SameRoom};
ghost use Rattle.agent_talks.specs.Logging.{calls_in, talks_in};
ghost use Rattle.agent_requests.specs.Sharing.{GivesOne, SameShared, Shares};
ghost use Rattle.agent_requests.specs.Serving.{followed};

use crate::shared::Shared;
use agent_talks::Said;
use side_files::PromptKind;
use std::alloc::Global;
use wire_base::NoMemory;

impl Shared {
    /// The request of a conversation that stands is carried out, by a read for which this word was drawn, and the reads that
    /// wait for a line are told those that came. Where no request is there, nothing is done.
    pub fn carry_out(&mut self, alloc: Global, conv: u64, word: [u8; 8]) -> Result<(), NoMemory>
        ensures carried { OnOk result ((done : List Deed) → stands done conv ≡ true
            → Shares done self.old → Shares (carried conv word done) self.new) }
        ensures ring { self.new.ring ≡ self.old.ring }
        ensures room { SameRoom self.old.mailboxes self.new.mailboxes }
        ensures place { SamePlace self.old.mailboxes self.new.mailboxes }
        ensures same { OnErr result (SameShared self.old self.new) }
    {
        if !self.talks.talks.has_request(conv) {
            return Ok(());
        }
        let asking = self.holders.asking();
        let keys = self.ring.keys();
        self.talks.carry_out(alloc, conv, word, keys, asking)?;
        self.serve_all();
        Ok(())
    }

    /// A reply is written to the question of a tag, for which this conversation waits: the question is forgotten, and the
    /// conversation goes on.
    pub fn reply(
        &mut self,
        alloc: Global,
        kind: PromptKind,
        tag: u64,
        conv: u64,
        agrees: bool,
    ) -> Result<(), NoMemory>
        ensures replied { OnOk result ((done : List Deed)
            → asker_of tag (prompts_of done kind) ≡ Some conv → Shares done self.old
            → Shares (resumed (Some conv) (said_by kind agrees)
            (OfPrompts kind (side.Replied tag) ∷ done)) self.new) }
        ensures ring { self.new.ring ≡ self.old.ring }
        ensures room { SameRoom self.old.mailboxes self.new.mailboxes }
        ensures same { OnErr result (SameShared self.old self.new) }
    {
        let asking = self.holders.asking();
        let keys = self.ring.keys();
        self.talks
            .reply(alloc, kind, tag, conv, agrees, keys, asking)?;
        self.follow(alloc, Some(conv));
        Ok(())
    }

    /// The authentication server answered the question of this number.
    pub fn hear(&mut self, alloc: Global, call: u64, bytes: &[u8]) -> Result<(), NoMemory>
        ensures shares { OnOk result ((done : List Deed) → Shares done self.old
            → Shares (swept (resumed (asker done call) (c.Heard bytes.now) done)) self.new) }
        ensures ring { self.new.ring ≡ self.old.ring }
        ensures same { OnErr result (SameShared self.old self.new) }
        ensures fewer { unasked (talks_in self.new.talks) ≤ unasked (talks_in self.old.talks) }
        ensures drops { GivesOne self.old self.new }
        ensures unknown { is_asked call (questions_in (talks_in self.old.talks)) ≡ false
            → IsOk result }
    {
        let asker = self.talks.talks.asker(call);
        self.talks.server_told(alloc, call, Said::Answer(bytes))?;
        self.follow_and_sweep(alloc, asker);
        Ok(())
    }

    /// The question of this number stays without an answer. It takes no memory.
    pub fn hear_nothing(&mut self, alloc: Global, call: u64)
        ensures shares { (done : List Deed) → Shares done self.old
            → Shares (swept (resumed (asker done call) c.Unheard done)) self.new }
        ensures ring { self.new.ring ≡ self.old.ring }
        ensures fewer { unasked (talks_in self.new.talks) ≤ unasked (talks_in self.old.talks) }
        ensures drops { GivesOne self.old self.new }
    {
        let asker = self.talks.talks.asker(call);
        self.talks.server_told(alloc, call, Said::Nothing).unwrap();
        self.follow_and_sweep(alloc, asker);
    }

    /// There was no memory for the answer to the question of this number. It takes no memory itself.
    pub fn lack_room(&mut self, alloc: Global, call: u64)
        ensures shares { (done : List Deed) → Shares done self.old
            → Shares (swept (resumed (asker done call) c.Roomless done)) self.new }
        ensures ring { self.new.ring ≡ self.old.ring }
        ensures fewer { unasked (talks_in self.new.talks) ≤ unasked (talks_in self.old.talks) }
        ensures drops { GivesOne self.old self.new }
    {
        let asker = self.talks.talks.asker(call);
        self.talks.server_told(alloc, call, Said::NoRoom).unwrap();
        self.follow_and_sweep(alloc, asker);
    }

    // Behind what a conversation met, where one is meant: the reads that wait for a line are told those that came, and the
    // conversation's answer is delivered.
    fn follow(&mut self, alloc: Global, conv: Option<u64>)
        ensures shares { (done : List Deed) → Shares done self.old
            → Shares (followed conv done) self.new }
        ensures ring { self.new.ring ≡ self.old.ring }
        ensures room { SameRoom self.old.mailboxes self.new.mailboxes }
        ensures questions { (talks_in self.new.talks).questions
            ≡ (talks_in self.old.talks).questions }
        ensures drops { calls_in self.new.talks ≡ calls_in self.old.talks }
    {
        if let Some(conv) = conv {
            self.serve_all();
            self.deliver(alloc, conv);
        }
    }

    // The same as the last of an event.
    fn follow_and_sweep(&mut self, alloc: Global, conv: Option<u64>)
        ensures shares { (done : List Deed) → Shares done self.old
            → Shares (swept (followed conv done)) self.new }
        ensures ring { self.new.ring ≡ self.old.ring }
        ensures questions { (talks_in self.new.talks).questions
            ≡ (talks_in self.old.talks).questions }
        ensures drops { calls_in self.new.talks ≡ calls_in self.old.talks }
    {
        self.follow(alloc, conv);
        self.mailboxes.sweep();
    }
}
