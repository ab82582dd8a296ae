// Replies, as their frames tell them.
ghost use Rattle.std.specs.Prelude.{◌≡◌, ◌<◌, List, is_some, option_map};
ghost use Rattle.nine.specs.declared.message.RMsg.{RMsg};
ghost use Rattle.nine.specs.Messages.{r_frame};
ghost use Rattle.agent_turns.specs.Drives.{frames_of};
ghost use Rattle.agent_turns.specs.Texts.{content_of, error_of, has_error, text_at};
ghost use Rattle.world_history.specs.Driving.{is_refused};
ghost use Rattle.agent_turns.specs.declared.driven_replies.TheConstants.{KIND_AT};

use wire_base::Bytes;

// Where the type of a message stands, and where the text of a refusal and the content of a read begin.
const KIND_AT: usize = 4;

const TEXT_AT: usize = 9;

const CONTENT_AT: usize = 11;

// The types of these two.
const ERROR: u8 = 107;

const READ: u8 = 117;

// What stands behind so many bytes of a frame of this type.
#[tactic(auto, unfolding(crate::specs::Texts::text_at))]
fn text_at(frame: &[u8], kind: u8, skip: usize) -> Option<&[u8]>
    requires { KIND_AT < skip }
    ensures { option_map (λ text. text.now) result ≡ text_at kind skip frame.now }
{
    if frame.len() < skip || frame[KIND_AT] != kind {
        return None;
    }
    let (_, text) = frame.split_at(skip);
    Some(text)
}

/// The text of a reply that refuses.
pub fn error_in(frame: &[u8]) -> Option<&[u8]>
    ensures stands { option_map (λ text. text.now) result ≡ text_at 107 9 frame.now }
    ensures told { (m : RMsg) → frame.now ≡ r_frame m
        → option_map (λ text. text.now) result ≡ error_of m.body }
{
    text_at(frame, ERROR, TEXT_AT)
}

/// What a reply to a read gives.
pub fn content_in(frame: &[u8]) -> Option<&[u8]>
    ensures stands { option_map (λ text. text.now) result ≡ text_at 117 11 frame.now }
    ensures told { (m : RMsg) → frame.now ≡ r_frame m
        → option_map (λ text. text.now) result ≡ content_of m.body }
{
    text_at(frame, READ, CONTENT_AT)
}

// Whether a frame refuses.
fn refuses(frame: &[u8]) -> bool
    ensures { result ≡ is_some (text_at 107 9 frame.now) }
{
    match text_at(frame, ERROR, TEXT_AT) {
        Some(_) => true,
        None => false,
    }
}

// Whether some frame does.
fn has_error(replies: &[Bytes]) -> bool
    ensures { result ≡ has_error replies.now }
{
    replies.iter().any(|frame| refuses(frame.as_slice()))
}

/// Whether some reply refuses.
pub fn is_refused(replies: &[Bytes]) -> bool
    ensures { (ms : List RMsg) → replies.now ≡ frames_of ms → result ≡ is_refused ms }
{
    has_error(replies)
}
