// The questions of conversations for the authentication server, and what comes of them.
ghost use Rattle.std.specs.Prelude.{◌≡◌, ◌≤◌, ◌-◌, ◌∷◌, List, Option, IsOk, OnOk, OnErr, false, is_some, nat_lt, option_copied, option_map};
ghost use Rattle.talks.specs.Calls as c;
ghost use Rattle.agent_history.specs.Deeds.{Deed, HandedOut};
ghost use Rattle.agent_history.specs.Conversations.{asker, next_question};
ghost use Rattle.agent_talks.specs.Kept as kept;
ghost use Rattle.agent_talks.specs.Changes.{Drops, Ended, Hands, Meets};
ghost use Rattle.agent_talks.specs.Speaks.{SameTalks, Speak, talked_by};

use crate::held::Talks;
use crate::question::{Question, drop_conv, find_asker, find_next, hand_first};
use std::alloc::Global;
use wire_base::NoMemory;

// ---- whose they are, and that they are handed out

impl Talks {
    /// The conversation whose question has this number.
    pub fn asker(&self, call: u64) -> Option<u64>
        ensures told { (done : List Deed) → Speak done self.now → result ≡ asker done call }
        ensures found { result ≡ kept.asker_of call self.now.questions.items }
    {
        find_asker(&self.questions, call)
    }

    /// The oldest question that wasn't handed out yet.
    pub fn next_question(&self) -> Option<&Question>
        ensures left { is_some (option_copied result) ≡ nat_lt 0 (kept.unasked self.now) }
        ensures told { (done : List Deed) → Speak done self.now
            → option_map kept.question_of (option_copied result) ≡ next_question done }
    {
        find_next(&self.questions)
    }

    /// The oldest question that wasn't handed out yet is handed out, where there is one. It takes no memory.
    pub fn hand_out(&mut self)
        ensures fewer { kept.unasked self.new ≡ kept.unasked self.old - 1 }
        ensures handed { (done : List Deed) → Speak done self.old
            → Speak (HandedOut ∷ done) self.new }
    {
        self.hand_one();
    }

    fn hand_one(&mut self)
        ensures { Hands self.old self.new }
    {
        hand_first(&mut self.questions);
    }
}

// ---- the authentication server is done with one

impl Talks {
    /// The authentication server answered the question of this number, where it stands.
    pub fn heard(&mut self, alloc: Global, call: u64, bytes: &[u8]) -> Result<(), NoMemory>
        ensures kept { OnOk result ((done : List Deed) → Speak done self.old
            → Speak (talked_by (asker done call) (c.Heard bytes.now) done) self.new) }
        ensures same { OnErr result (SameTalks self.old self.new) }
        ensures fewer { kept.unasked self.new ≤ kept.unasked self.old }
        ensures unknown { kept.is_asked call (kept.questions_in self.old) ≡ false → IsOk result }
    {
        match self.asker(call) {
            Some(conv) => self.end_heard(alloc, conv, bytes),
            None => Ok(()),
        }
    }

    /// The authentication server wasn't reached with the question of this number, where it stands. It takes no memory.
    pub fn unheard(&mut self, call: u64)
        ensures met { (done : List Deed) → Speak done self.old
            → Speak (talked_by (asker done call) c.Unheard done) self.new }
        ensures fewer { kept.unasked self.new ≤ kept.unasked self.old }
    {
        if let Some(conv) = self.asker(call) {
            self.end_unheard(conv);
        }
    }

    /// There was no memory for the answer to the question of this number, where it stands. It takes none itself.
    pub fn roomless(&mut self, call: u64)
        ensures met { (done : List Deed) → Speak done self.old
            → Speak (talked_by (asker done call) c.Roomless done) self.new }
        ensures fewer { kept.unasked self.new ≤ kept.unasked self.old }
    {
        if let Some(conv) = self.asker(call) {
            self.end_roomless(conv);
        }
    }

    fn end_heard(&mut self, alloc: Global, conv: u64, bytes: &[u8]) -> Result<(), NoMemory>
        ensures ended { OnOk result (Ended self.old self.new conv (c.Heard bytes.now)) }
        ensures same { OnErr result (SameTalks self.old self.new) }
    {
        self.hear_at(alloc, conv, bytes)?;
        self.drop_questions(conv);
        Ok(())
    }

    fn end_unheard(&mut self, conv: u64)
        ensures { Ended self.old self.new conv c.Unheard }
    {
        self.unhear_at(conv);
        self.drop_questions(conv);
    }

    fn end_roomless(&mut self, conv: u64)
        ensures { Ended self.old self.new conv c.Roomless }
    {
        self.lack_at(conv);
        self.drop_questions(conv);
    }

    fn hear_at(&mut self, alloc: Global, conv: u64, bytes: &[u8]) -> Result<(), NoMemory>
        ensures meets { OnOk result (Meets self.old self.new conv (c.Heard bytes.now)) }
        ensures questions { self.new.questions ≡ self.old.questions }
        ensures same { OnErr result (SameTalks self.old self.new) }
    {
        match self.table.get_mut(conv) {
            Some(conversation) => conversation.heard(alloc, bytes),
            None => Ok(()),
        }
    }

    fn unhear_at(&mut self, conv: u64)
        ensures meets { Meets self.old self.new conv c.Unheard }
        ensures questions { self.new.questions ≡ self.old.questions }
    {
        if let Some(conversation) = self.table.get_mut(conv) {
            conversation.unheard();
        }
    }

    fn lack_at(&mut self, conv: u64)
        ensures meets { Meets self.old self.new conv c.Roomless }
        ensures questions { self.new.questions ≡ self.old.questions }
    {
        if let Some(conversation) = self.table.get_mut(conv) {
            conversation.roomless();
        }
    }

    fn drop_questions(&mut self, conv: u64)
        ensures { Drops self.old self.new conv }
    {
        drop_conv(&mut self.questions, conv);
    }
}
