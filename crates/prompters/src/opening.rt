// The requests by which both files are opened, and what they are answered.
ghost use Rattle.std.specs.Prelude.{◌≡◌, ◌++◌, map};
ghost use Rattle.nine.specs.Messages.{t_frame};
ghost use Rattle.nine.specs.Streams.{frames};
ghost use Rattle.side_files.specs.declared.line.PromptKind.TheVariants.{Confirm, Needkey};
ghost use Rattle.prompters.specs.Requests.{opening};
ghost use Rattle.prompters.specs.Replies.{are_open, ends_by, granted, meets_use, used};

const OPENING: &[u8; 142] =
    b"\x13\x00\x00\x00d\xff\xff\x18\x20\x00\x00\x06\x009P2000\x1b\x00\x00\x00h\x01\x00\x00\x00\x00\x00\xff\xff\xff\xff\x08\x00factotum\x00\x00\x24\x00\x00\x00n\x03\x00\x00\x00\x00\x00\x01\x00\x00\x00\x02\x00\x08\x00factotum\x07\x00confirm\x24\x00\x00\x00n\x03\x00\x00\x00\x00\x00\x02\x00\x00\x00\x02\x00\x08\x00factotum\x07\x00needkey\x0c\x00\x00\x00p\x03\x00\x01\x00\x00\x00\x02\x0c\x00\x00\x00p\x03\x00\x02\x00\x00\x00\x02";

const BOTH_GRANTED: &[u8; 48] =
    b"\x18\x00\x00\x00q\x03\x00\x20\x00\x00\x00\x00\x04\x00\x00\x00\x00\x00\x00\x00\x00\x00\x00\x00\x18\x00\x00\x00q\x03\x00\x20\x00\x00\x00\x00\x05\x00\x00\x00\x00\x00\x00\x00\x00\x00\x00\x00";

const LAST_USED: &[u8; 40] = b"\x28\x00\x00\x00k\x03\x00\x1f\x00exclusive use file already open";

const FIRST_USED: &[u8; 64] =
    b"\x28\x00\x00\x00k\x03\x00\x1f\x00exclusive use file already open\x18\x00\x00\x00q\x03\x00\x20\x00\x00\x00\x00\x05\x00\x00\x00\x00\x00\x00\x00\x00\x00\x00\x00";

/// The frames of the requests by which both files are opened, one behind the other. The first of them gives up all that the
/// connection had open.
#[tactic(auto, unfolding(nine::specs::Messages::frame, nine::specs::Streams::frames, nine::specs::Streams::front))]
pub fn opening_requests() -> &'static [u8]
    ensures { frames 8216 result.now ≡ map t_frame opening }
{
    OPENING.as_slice()
}

#[tactic(auto, unfolding(nine::specs::Messages::frame))]
fn both_granted() -> &'static [u8]
    ensures { result.now ≡ granted Confirm ++ granted Needkey }
{
    BOTH_GRANTED.as_slice()
}

#[tactic(auto, unfolding(nine::specs::Messages::frame))]
fn last_used() -> &'static [u8]
    ensures { result.now ≡ used }
{
    LAST_USED.as_slice()
}

#[tactic(auto, unfolding(nine::specs::Messages::frame))]
fn first_used() -> &'static [u8]
    ensures { result.now ≡ used ++ granted Needkey }
{
    FIRST_USED.as_slice()
}

fn ends_by(last: &[u8], text: &[u8]) -> bool
    ensures { result ≡ ends_by last.now text.now }
{
    let at = text.len().saturating_sub(last.len());
    text.split_at(at).1 == last
}

/// Whether both files are open after an opening in whose turn these replies were taken, one behind the other.
#[tactic(auto, unfolding(crate::specs::Replies::are_open))]
pub fn are_open(heard: &[u8]) -> bool
    ensures { result ≡ are_open heard.now }
{
    ends_by(both_granted(), heard)
}

/// Whether another client had one of both files open at an opening in whose turn these replies were taken, one behind the
/// other.
#[tactic(auto, unfolding(crate::specs::Replies::meets_use))]
pub fn meets_use(heard: &[u8]) -> bool
    ensures { result ≡ meets_use heard.now }
{
    ends_by(last_used(), heard) || ends_by(first_used(), heard)
}
