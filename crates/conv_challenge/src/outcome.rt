// How a conversation that isn't broken stands, as to its end. Nothing here takes memory.
ghost use Rattle.std.specs.Prelude.{◌≡◌};
ghost use Rattle.conv_challenge.specs.Courses.{is_last, outcome_of};

use crate::stage::Stage;
use roles::{Cause, Outcome, find_accepted};

/// How a stage stands, as to the end.
pub fn find_outcome(stage: &Stage) -> Outcome
    ensures { result ≡ outcome_of stage.now }
{
    match stage {
        Stage::ClientDone { .. } => Outcome::Finished,
        Stage::ServerDone { key, vouch, .. } => find_accepted(key, vouch, Cause::BadKey),
        Stage::ClientFirst
        | Stage::ClientKey { .. }
        | Stage::ClientSecond { .. }
        | Stage::ServerKey
        | Stage::ServerAsk { .. }
        | Stage::ServerFirst { .. }
        | Stage::ServerSecond { .. }
        | Stage::ServerThird { .. }
        | Stage::ServerVouch { .. } => Outcome::Running,
    }
}

/// Whether the last move was made.
pub fn is_last(stage: &Stage) -> bool
    ensures { result ≡ is_last stage.now }
{
    match stage {
        Stage::ClientDone { .. } | Stage::ServerDone { .. } => true,
        Stage::ClientFirst
        | Stage::ClientKey { .. }
        | Stage::ClientSecond { .. }
        | Stage::ServerKey
        | Stage::ServerAsk { .. }
        | Stage::ServerFirst { .. }
        | Stage::ServerSecond { .. }
        | Stage::ServerThird { .. }
        | Stage::ServerVouch { .. } => false,
    }
}
