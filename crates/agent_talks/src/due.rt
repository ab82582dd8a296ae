// What is due to be handed out next.
ghost use Rattle.std.specs.Prelude.{◌≡◌, ◌<◌, [], List, length, nat_lt, is_some, option_map};
ghost use Rattle.agent_history.specs.Deeds.{Deed};
ghost use Rattle.agent_history.specs.Conversations.{due, first_due};
ghost use Rattle.agent_history.specs.Conversations as told;
ghost use Rattle.agent_talks.specs.Kept.{question_of, unasked};
ghost use Rattle.agent_talks.specs.Calls.{drop_of};
ghost use Rattle.agent_talks.specs.Keeps.{IsLeft, KeepingTalks, due_of};
ghost use Rattle.agent_talks.specs.Logging.{Logs, keeping_of};

use crate::kept::GivenUp;
use crate::question::Question;
use crate::standing::Conversations;

/// What is due to be handed out next, if anything is: a connection that is to be given up, or a question.
#[derive(Clone, Copy, Debug)]
pub enum Due {
    Nothing,
    Call(GivenUp),
    Question(Question),
}

// Of a connection and a question the one that came first.
fn choose_due(given: GivenUp, question: Option<Question>) -> Due
    ensures first { due_of result
        ≡ first_due (drop_of given) (option_map question_of question) }
    ensures left { (k : KeepingTalks) → 0 < length k.calls.drops
        → is_some question ≡ nat_lt 0 (unasked k.talks) → IsLeft result k }
{
    match question {
        Some(question) if question.call <= given.behind => Due::Question(question),
        _ => Due::Call(given),
    }
}

// The question that is next, if one is.
fn ask_due(question: Option<Question>) -> Due
    ensures first { due_of result
        ≡ told.due_of [] (option_map question_of question) }
    ensures left { (k : KeepingTalks) → k.calls.drops ≡ []
        → is_some question ≡ nat_lt 0 (unasked k.talks) → IsLeft result k }
{
    match question {
        Some(question) => Due::Question(question),
        None => Due::Nothing,
    }
}

impl Conversations {
    /// What is due to be handed out next. It takes no memory.
    pub fn due(&self) -> Due
        ensures told { (done : List Deed) → Logs done self.now → due_of result ≡ due done }
        ensures left { IsLeft result (keeping_of self.now) }
    {
        let question = self.talks.next_question().copied();
        match self.calls.front() {
            Some(given) => choose_due(given, question),
            None => ask_due(question),
        }
    }
}
