// What a call comes to.
ghost use Rattle.std.specs.Prelude.{◌≡◌};
ghost use Rattle.conv_challenge.specs.Courses.{idle};
ghost use Rattle.conv_challenge.specs.Steps.{Fits};

use crate::stage::Stage;
use roles::{Cause, Gave, PhaseWord};

/// What a call comes to that gets no bytes. It has no Debug, which would print keys and passwords.
#[derive(Drop)]
pub enum Step {
    /// The move passed.
    Goes(Stage),
    /// It passed, and something is needed.
    Waits(Stage),
    /// Nothing changes.
    Stays(Gave),
    /// The conversation is broken.
    Breaks(Cause),
}

/// What a message comes to that has fewer bytes than the least or more than the most.
pub fn find_misfit(bytes: &[u8], least: u32, most: u32) -> Option<Gave>
    ensures { Fits least most result bytes.now }
{
    if bytes.len() < least as usize {
        Some(Gave::TooSmall(least))
    } else if bytes.len() > most as usize {
        Some(Gave::TooLong)
    } else {
        None
    }
}

/// What a stage answers to a call that isn't its move.
pub fn idle(stage: &Stage) -> Gave
    ensures { result ≡ idle stage.now }
{
    match stage {
        Stage::ClientSecond { .. } | Stage::ServerFirst { .. } => {
            Gave::Phase(PhaseWord::AwaitsRead)
        }
        Stage::ClientFirst | Stage::ServerSecond { .. } | Stage::ServerThird { .. } => {
            Gave::Phase(PhaseWord::AwaitsWrite)
        }
        Stage::ClientKey { .. }
        | Stage::ServerKey
        | Stage::ServerAsk { .. }
        | Stage::ServerVouch { .. } => Gave::Wait,
        Stage::ClientDone { .. } => Gave::Done { haveai: false },
        Stage::ServerDone { .. } => Gave::Done { haveai: true },
    }
}
