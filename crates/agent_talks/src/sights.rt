// What is shown of the conversation that a fid of a connection has open.
ghost use Rattle.std.specs.Prelude.{◌≡◌, List, Option, option_copied};
ghost use Rattle.agent_history.specs.Deeds.{Deed};
ghost use Rattle.agent_history.specs.Conversations.{chosen_at, conv_of, outcome_at};
ghost use Rattle.agent_history.specs.Requests.{has_answer, is_resting, phase_of};
ghost use Rattle.agent_talks.specs.Speaks.{IsOpenAt, Speak};

use crate::held::Talks;
use conversations::Conversation;
use key_ring::Key;
use roles::Outcome;

impl Talks {
    /// Whether the conversation that a fid has open, if it has one, has neither a request nor an answer. It takes no
    /// memory.
    pub fn is_resting_at(&self, conn: u64, fid: u32) -> bool
        ensures { (done : List Deed) → Speak done self.now
            → result ≡ is_resting (phase_of done conn fid) }
    {
        match self.conversation_at(conn, fid) {
            Some(conversation) => conversation.is_resting(),
            None => true,
        }
    }

    /// Whether the conversation that a fid has open has an answer that wasn't read yet. It takes no memory.
    pub fn has_answer_at(&self, conn: u64, fid: u32) -> bool
        ensures { (done : List Deed) → Speak done self.now
            → result ≡ has_answer (phase_of done conn fid) }
    {
        match self.conversation_at(conn, fid) {
            Some(conversation) => conversation.has_answer(),
            None => false,
        }
    }

    /// How the conversation that a fid has open stands as to its end; None where it hasn't started. It takes no memory.
    pub fn outcome_at(&self, conn: u64, fid: u32) -> Option<Outcome>
        ensures { (done : List Deed) → Speak done self.now
            → result ≡ outcome_at done conn fid }
    {
        match self.conversation_at(conn, fid) {
            Some(conversation) => conversation.outcome(),
            None => None,
        }
    }

    /// The key that the conversation of a fid has chosen, if it has. It takes no memory.
    pub fn chosen_at(&self, conn: u64, fid: u32) -> Option<&Key>
        ensures { (done : List Deed) → Speak done self.now
            → option_copied result ≡ chosen_at done conn fid }
    {
        match self.conversation_at(conn, fid) {
            Some(conversation) => conversation.chosen(),
            None => None,
        }
    }

    /// The conversation that a fid has open.
    fn conversation_at(&self, conn: u64, fid: u32) -> Option<&Conversation>
        ensures { (done : List Deed) → Speak done self.now
            → IsOpenAt done (conv_of done conn fid) (option_copied result) }
    {
        match self.conv_at(conn, fid) {
            Some(conv) => self.table.get(conv),
            None => None,
        }
    }
}
