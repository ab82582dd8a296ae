// The authentication server is done with a question, and what is handed out to it.
ghost use Rattle.std.specs.Prelude.{◌≡◌, ◌≤◌, ◌+◌, ◌-◌, ◌∷◌, List, Option, false, true, length, drop, IsOk, OnErr, OnOk};
ghost use Rattle.talks.specs.Standings.{question_of};
ghost use Rattle.agent_history.specs.Deeds.{Deed, DropTaken, HandedOut};
ghost use Rattle.agent_history.specs.Conversations.{asker, asks_challenge, standing_of};
ghost use Rattle.agent_talks.specs.Kept.{is_asked, questions_in, unasked};
ghost use Rattle.agent_talks.specs.Speaks.{SameTalks, Speak, stands, talked_by};
ghost use Rattle.agent_talks.specs.Keeps.{EndsAsker, EndsOver, Keeps};
ghost use Rattle.agent_talks.specs.Server.{call_of, is_answer};
ghost use Rattle.agent_talks.specs.Logging.{Logs, SameLogs, calls_in, logged_by, talks_in};

use crate::ahead::is_over_at;
use crate::held::Talks;
use crate::kept::KeptCalls;
use crate::standing::Conversations;
use std::alloc::Global;
use wire_base::{NoMemory, Shape};

/// What came of a question to the authentication server.
#[derive(Clone, Copy)]
pub enum Said<'a> {
    /// Its answer.
    Answer(&'a [u8]),
    /// The server wasn't reached.
    Nothing,
    /// There was no memory for its answer.
    NoRoom,
}

// ---- it is done with a question

impl Conversations {
    /// The authentication server is done with the question of this number, where it stands. Only an answer takes memory.
    pub fn server_told(&mut self, alloc: Global, call: u64, said: Said<'_>) -> Result<(), NoMemory>
        ensures told { OnOk result ((done : List Deed) → Logs done self.old
            → Logs (logged_by (asker done call) (call_of said.entry) done) self.new) }
        ensures same { OnErr result (SameLogs self.old self.new) }
        ensures fewer { unasked (talks_in self.new) ≤ unasked (talks_in self.old) }
        ensures drops { length (calls_in self.new).drops
            ≤ length (calls_in self.old).drops + 1 }
        ensures unknown { is_asked call (questions_in (talks_in self.old)) ≡ false → IsOk result }
        ensures takes_none { is_answer said.entry ≡ false → IsOk result }
    {
        let asker = self.talks.asker(call);
        let behind = self.talks.raised();
        let over = self.is_asker_over(asker);
        tell_talks(&mut self.talks, alloc, call, said)?;
        end_asker(&self.talks, &mut self.calls, asker, behind);
        self.log_asker(asker, over);
        Ok(())
    }
}

fn tell_talks(talks: &mut Talks, alloc: Global, call: u64, said: Said<'_>) -> Result<(), NoMemory>
    ensures told { OnOk result ((done : List Deed) → Speak done talks.old
        → Speak (talked_by (asker done call) (call_of said.entry) done) talks.new) }
    ensures same { OnErr result (SameTalks talks.old talks.new) }
    ensures fewer { unasked talks.new ≤ unasked talks.old }
    ensures unknown { is_asked call (questions_in talks.old) ≡ false → IsOk result }
    ensures takes_none { is_answer said.entry ≡ false → IsOk result }
{
    match said {
        Said::Answer(bytes) => talks.heard(alloc, call, bytes),
        Said::Nothing => {
            talks.unheard(call);
            Ok(())
        }
        Said::NoRoom => {
            talks.roomless(call);
            Ok(())
        }
    }
}

// The conversation that asked, where one is meant, gives up the connection that it keeps, if it has come to its end.
fn end_asker(talks: &Talks, calls: &mut KeptCalls, asker: Option<u64>, behind: u64)
    ensures calls { EndsAsker asker behind talks.now calls.old calls.new }
    ensures drops { length calls.new.drops ≤ length calls.old.drops + 1 }
{
    if let Some(conv) = asker {
        end_if_over(talks, calls, conv, behind);
    }
}

/// A conversation gives up the connection that it keeps, if it has come to its end.
pub(crate) fn end_if_over(talks: &Talks, calls: &mut KeptCalls, conv: u64, behind: u64)
    ensures calls { EndsOver conv behind talks.now calls.old calls.new }
    ensures drops { length calls.new.drops ≤ length calls.old.drops + 1 }
{
    if is_over_at(talks, conv) {
        calls.end(conv, behind);
    }
}

// ---- what is handed out

impl Conversations {
    /// The oldest question that wasn't handed out yet is handed out, where there is one. Its conversation keeps the
    /// connection over which it asks for a challenge, and else has used up the one that it kept.
    pub fn hand_out(&mut self) -> Result<(), NoMemory>
        ensures handed { OnOk result ((done : List Deed) → Logs done self.old
            → Logs (HandedOut ∷ done) self.new) }
        ensures same { OnErr result (self.new ≡ self.old) }
        ensures fewer { OnOk result (unasked (talks_in self.new)
            ≡ unasked (talks_in self.old) - 1) }
        ensures drops { (calls_in self.new).drops ≡ (calls_in self.old).drops }
    {
        hand_next(&self.talks, &mut self.calls)?;
        self.talks.hand_out();
        Ok(())
    }

    /// The oldest connection that is to be given up was given up. It takes no memory.
    pub fn take_drop(&mut self)
        ensures taken { (done : List Deed) → Logs done self.old
            → Logs (DropTaken ∷ done) self.new }
        ensures talks { talks_in self.new ≡ talks_in self.old }
        ensures drops { (calls_in self.new).drops ≡ drop 1 (calls_in self.old).drops }
    {
        self.calls.pop();
    }
}

// What the conversation of the next question keeps then, where there is one.
fn hand_next(talks: &Talks, calls: &mut KeptCalls) -> Result<(), NoMemory>
    ensures handed { OnOk result ((done : List Deed) → Speak done talks.now
        → Keeps done calls.old → Keeps (HandedOut ∷ done) calls.new) }
    ensures same { OnErr result (calls.new ≡ calls.old) }
    ensures drops { calls.new.drops ≡ calls.old.drops }
{
    let Some(question) = talks.next_question() else {
        return Ok(());
    };
    let conv = question.conv;
    let keeps = asks_challenge(talks, conv);
    calls.hand(conv, keeps)
}

fn asks_challenge(talks: &Talks, conv: u64) -> bool
    ensures { (done : List Deed) → stands done conv ≡ true → Speak done talks.now
        → result ≡ asks_challenge (question_of (standing_of done conv)) }
{
    match talks.conversation(conv) {
        Some(conversation) => match conversation.question() {
            Some((_, Shape::Challenge)) => true,
            Some((_, Shape::Vouch)) | Some((_, Shape::Tickets)) | None => false,
        },
        None => false,
    }
}
