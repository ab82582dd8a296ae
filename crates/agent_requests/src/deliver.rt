// The answer of a conversation, told to the read that waits for it.
ghost use Rattle.std.specs.Prelude.{◌≡◌, List};
ghost use Rattle.nine.specs.Messages.{r_frame};
ghost use Rattle.agent_history.specs.Deeds.{Deed};
ghost use Rattle.agent_history.specs.Replies.{too_small};
ghost use Rattle.agent_history.specs.Conversations.{delivered};
ghost use Rattle.agent_talks.specs.Tells.{IsShort, told_body};
ghost use Rattle.mailboxes.specs.Kept.{reply_bytes};
ghost use Rattle.mailboxes.specs.Deliveries.{SamePlace, SameRoom, StillNone, under};
ghost use Rattle.agent_talks.specs.Logging.{calls_in, talks_in};
ghost use Rattle.agent_requests.specs.Sharing.{Shares};

use crate::shared::Shared;
use agent_talks::{Speaker, Told};
use mailboxes::{ErrorText, Reply, ToldAnswer};
use std::alloc::Global;

const READ_TOO_SMALL: &[u8; 14] = b"read too small";

/// The reply to a read that may hold less than what there is to read. It takes no memory.
pub fn read_too_small(tag: u16) -> Reply
    ensures { reply_bytes result ≡ r_frame (under tag too_small) }
{
    Reply::Refused {
        tag,
        text: ErrorText::new(READ_TOO_SMALL),
    }
}

/// The reply to a read that may hold so many bytes and is told this. It takes no memory.
pub fn spell_told(alloc: Global, tag: u16, count: u16, told: Told) -> Reply
    requires { IsShort count told }
    ensures { reply_bytes result ≡ r_frame (under tag (told_body told)) }
{
    match told {
        Told::Answer(answer) => Reply::Answer {
            tag,
            answer: ToldAnswer::new(alloc, answer),
        },
        Told::TooSmall => read_too_small(tag),
    }
}

impl Shared {
    /// The answer of a conversation goes to the read that waits for it, if one does. It takes no memory.
    pub(crate) fn deliver(&mut self, alloc: Global, conv: u64)
        ensures shares { (done : List Deed) → Shares done self.old
            → Shares (delivered conv done) self.new }
        ensures ring { self.new.ring ≡ self.old.ring }
        ensures room { SameRoom self.old.mailboxes self.new.mailboxes }
        ensures place { SamePlace self.old.mailboxes self.new.mailboxes }
        ensures none { StillNone self.old.mailboxes self.new.mailboxes }
        ensures questions { (talks_in self.new.talks).questions
            ≡ (talks_in self.old.talks).questions }
        ensures drops { calls_in self.new.talks ≡ calls_in self.old.talks }
    {
        let Some(speaker) = self.talks.talks.speaker_of(conv) else {
            return;
        };
        let Speaker { conn, fid, .. } = *speaker;
        let Some(read) = self.mailboxes.reader(conn, fid) else {
            return;
        };
        if let Some(told) = self.tell(conv, u32::from(read.count)) {
            let reply = spell_told(alloc, read.tag, read.count, told);
            self.mailboxes.settle(conn, read.tag, reply);
        }
    }
}
