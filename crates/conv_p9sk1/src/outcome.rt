// How a conversation that isn't broken stands, as to its end. Nothing here takes memory.
ghost use Rattle.std.specs.Prelude.{◌≡◌};
ghost use Rattle.roles.specs.Courses.{outcome_of};

use roles::{Cause, Outcome, Stage, find_accepted};

/// How a stage stands, as to the end.
pub fn find_outcome(stage: &Stage) -> Outcome
    ensures { result ≡ outcome_of stage.now }
{
    match stage {
        Stage::ClientDone { key, tickets, .. } => find_accepted(key, tickets, Cause::BadKey),
        Stage::ServerFourth { key, shown, .. } => find_accepted(key, shown, Cause::WrongKind),
        Stage::ServerDone { key, shown, .. } => find_accepted(key, shown, Cause::WrongKind),
        Stage::ClientFirst
        | Stage::ClientSecond
        | Stage::ClientKey { .. }
        | Stage::ClientAsk { .. }
        | Stage::ClientThird { .. }
        | Stage::ClientFourth { .. }
        | Stage::ServerKey
        | Stage::ServerFirst { .. }
        | Stage::ServerSecond { .. }
        | Stage::ServerThird { .. } => Outcome::Running,
    }
}
