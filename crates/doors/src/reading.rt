// What a read of a conversation finds.
ghost use Rattle.std.specs.Prelude.{◌≡◌, ℕ, [], List, IfOk};
ghost use Rattle.doors.specs.Calls.{PortCall, heard};
ghost use Rattle.doors.specs.Answers.{Finds, IsFound, asked, heard_of, said_of};

use crate::asking::{Answer, ask, given};
use crate::fid::AuthFid;
use crate::port::Port;
use std::alloc::Global;
use wire_base::{Bytes, NoMemory};

const READ: &[u8; 4] = b"read";

/// The bytes that a read may give, or why it gives none. It has no Debug, as all that was read of an agent.
#[derive(Drop)]
pub enum Found {
    Given(Bytes),
    /// The answer, which tells neither bytes nor the end.
    Refused(Bytes),
    /// The agent is gone.
    Lost,
}

// What an answer gives.
fn found_in(alloc: Global, came: Option<Answer>, answer: Bytes) -> Result<Found, NoMemory>
    ensures { IfOk result (λ found. (conv : ℕ) (request : List ℕ)
        → heard (said_of came) answer ≡ heard_of came answer
        → IsFound found [] (asked conv request came answer)) }
{
    match came {
        Some(Answer::Well) => {
            let bytes = Bytes::from_slice(alloc, given(answer.as_slice()))?;
            Ok(Found::Given(bytes))
        }
        Some(Answer::Ended) => Ok(Found::Given(Bytes::new(alloc))),
        Some(Answer::Else) => Ok(Found::Refused(answer)),
        None => Ok(Found::Lost),
    }
}

/// Looks for bytes: those that are kept of an earlier answer come first, and where there are none the conversation is asked.
pub(crate) fn find<P: Port>(
    alloc: Global,
    conversation: &AuthFid,
    port: &mut P,
) -> Result<Found, NoMemory>
    ensures { IfOk result (λ found. (setting : P.Setting) (past : List PortCall)
        → P.stands setting past port.old
        → Finds (P.stands setting) past port.new conversation.now.conv conversation.now.kept found) }
{
    if conversation.kept.len() > 0 {
        let kept = conversation.kept.copy()?;
        return Ok(Found::Given(kept));
    }
    let mut answer = Bytes::new(alloc);
    let came = ask(port, conversation.conv, READ, &mut answer)?;
    found_in(alloc, came, answer)
}
