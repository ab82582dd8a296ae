// What a read is told.
ghost use Rattle.std.specs.Prelude.{◌≡◌, List, IfSome, option_copied, option_map, true};
ghost use Rattle.talks.specs.Calls as c;
ghost use Rattle.agent_history.specs.Deeds.{Deed};
ghost use Rattle.agent_history.specs.Conversations.{fits, standing_of};
ghost use Rattle.agent_talks.specs.Changes.{Meets};
ghost use Rattle.agent_talks.specs.Speaks.{Speak, stands};
ghost use Rattle.agent_talks.specs.declared.tell.Told.TheVariants as t;
ghost use Rattle.agent_talks.specs.Tells.{IsShort, ShowsAnswer, Tells, answer_at};

use crate::held::Talks;
use talks::{RpcAnswer, answer_fits};

/// What a read is told that may hold so many bytes: the answer, or that it may hold too few. It has no Debug, which
/// would print secrets.
#[derive(Drop)]
pub enum Told {
    Answer(RpcAnswer),
    TooSmall,
}

impl Talks {
    /// A read that may hold so many bytes is told the answer of a conversation that stands, if one is there: the answer
    /// is handed out, or it is kept, where it doesn't fit. It takes no memory.
    pub fn tell(&mut self, conv: u64, count: u32) -> Option<Told>
        ensures tells { (done : List Deed) → stands done conv ≡ true → Speak done self.old
            → Tells (standing_of done conv).phase done self.new conv count result }
        ensures short { IfSome result (IsShort count) }
        ensures questions { self.new.questions ≡ self.old.questions }
    {
        match self.fits(conv, count) {
            Some(true) => self.hand_answer(conv),
            Some(false) => Some(Told::TooSmall),
            None => None,
        }
    }

    // Whether the answer that is there fits.
    fn fits(&self, conv: u64, count: u32) -> Option<bool>
        ensures shown { ShowsAnswer self.now conv (λ answer. result
            ≡ option_map (fits count) answer) }
        ensures held { result ≡ option_map (fits count) (answer_at self.now conv) }
    {
        match self.table.get(conv) {
            Some(conversation) => match conversation.answer() {
                Some(answer) => Some(answer_fits(answer, count)),
                None => None,
            },
            None => None,
        }
    }

    fn hand_answer(&mut self, conv: u64) -> Option<Told>
        ensures meets { Meets self.old self.new conv c.Took }
        ensures questions { self.new.questions ≡ self.old.questions }
        ensures told { ShowsAnswer self.old conv (λ answer. result ≡ option_map t.Answer answer) }
        ensures held { result ≡ option_map t.Answer (answer_at self.old conv) }
    {
        match self.table.get_mut(conv) {
            Some(conversation) => match conversation.take_answer() {
                Some(answer) => Some(Told::Answer(answer)),
                None => None,
            },
            None => None,
        }
    }
}
