// What a call comes to.
ghost use Rattle.std.specs.Prelude.{◌≡◌, ◌<◌, ◌^◌};
ghost use Rattle.roles.specs.Courses.{idle};
ghost use Rattle.conv_p9sk1.specs.Steps.{Sizes};

use roles::{Cause, Gave, PhaseWord, Stage};

/// What a call comes to that gets no bytes.
#[derive(Clone, Copy)]
pub enum Step {
    /// The move passed.
    Goes(Stage),
    /// It passed, and something is needed.
    Waits(Stage),
    /// Nothing changes.
    Stays(Gave),
    /// The conversation is broken.
    Breaks(Cause),
}

/// A message of `N` bytes, or what one of another length comes to.
pub fn take_sized<const N: usize>(bytes: &[u8]) -> Result<[u8; N], Step>
    requires { N < 2 ^ 32 }
    ensures { Sizes N result bytes.now }
{
    if bytes.len() < N {
        return Err(Step::Stays(Gave::TooSmall(N as u32)));
    }
    if bytes.len() > N {
        return Err(Step::Stays(Gave::TooLong));
    }
    let mut whole = [0; N];
    whole.copy_from_slice(bytes);
    Ok(whole)
}

/// What a stage answers to a call that isn't its move.
pub fn idle(stage: &Stage) -> Gave
    ensures { result ≡ idle stage.now }
{
    match stage {
        Stage::ClientFirst
        | Stage::ClientThird { .. }
        | Stage::ServerSecond { .. }
        | Stage::ServerFourth { .. } => Gave::Phase(PhaseWord::AwaitsRead),
        Stage::ClientSecond
        | Stage::ClientFourth { .. }
        | Stage::ServerFirst { .. }
        | Stage::ServerThird { .. } => Gave::Phase(PhaseWord::AwaitsWrite),
        Stage::ClientKey { .. } | Stage::ClientAsk { .. } | Stage::ServerKey => Gave::Wait,
        Stage::ClientDone { .. } | Stage::ServerDone { .. } => Gave::Done { haveai: true },
    }
}
