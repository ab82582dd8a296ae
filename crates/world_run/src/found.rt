// What is looked up for a line: conversations, bytes, and what becomes of a node.
ghost use Rattle.std.specs.Prelude.{◌≡◌};
ghost use Rattle.agent_turns.specs.Turning.{IsTurn, said_turn};
ghost use Rattle.world_run.specs.PlayStanding.{or_else};
ghost use Rattle.world_run.specs.Looking.{FindsSo, SpellsSo, TakesSo};

use crate::named_talks::Talks;
use crate::nodes::Nodes;
use crate::stops::{NO_SUCH_MESSAGE, Stop, UNKNOWN_CONV, UNKNOWN_NODE};
use agent_turns::{Turn, Turned};
use wire_base::Bytes;
use world_history::Record;
use world_scripts::Pieces;

/// A conversation that is open.
#[derive(Drop)]
pub(crate) struct Found {
    pub(crate) node: Bytes,
    pub(crate) fid: u32,
    pub(crate) call: Option<u64>,
}

/// The conversation of a name.
pub(crate) fn find(talks: &Talks, conv: &[u8]) -> Result<Found, Stop>
    ensures { FindsSo talks.now conv.now result }
{
    match talks.find(conv) {
        Some(talk) => Ok(Found {
            node: talk.node.copy()?,
            fid: talk.fid,
            call: talk.call,
        }),
        None => Err(UNKNOWN_CONV),
    }
}

/// A question, or else another.
pub(crate) fn either(question: Option<u64>, other: Option<u64>) -> Option<u64>
    ensures { result ≡ or_else question other }
{
    match question {
        Some(call) => Some(call),
        None => other,
    }
}

/// The bytes of pieces.
pub(crate) fn spell(record: &Record, pieces: Pieces<'_>) -> Result<Bytes, Stop>
    ensures { SpellsSo record.now pieces.entry result }
{
    match record.spell(pieces)? {
        Some(bytes) => Ok(bytes),
        None => Err(NO_SUCH_MESSAGE),
    }
}

/// Something is done to the agent of a node.
pub(crate) fn take(
    nodes: &mut Nodes,
    record: &Record,
    node: &[u8],
    turn: Turn<'_>,
) -> Result<Turned, Stop>
    requires { IsTurn turn }
    ensures { TakesSo node.now (said_turn turn.entry) nodes.old record.now result nodes.new }
{
    let number = record.next_message()?;
    match nodes.turn(node, number, turn)? {
        Some(turned) => Ok(turned),
        None => Err(UNKNOWN_NODE),
    }
}
