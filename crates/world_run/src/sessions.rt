// What a line does that concerns a session of the authentication server.
ghost use Rattle.std.specs.Prelude.{◌≡◌, ◌∷◌, ◌++◌, [], IfOk, OnOk};
ghost use Rattle.wire_histories.specs.declared.step.Step.TheVariants.{AsGave, AsGot};
ghost use Rattle.world_run.specs.Serving.{end_if, served_steps};

use crate::clients::Served;
use crate::found::spell;
use crate::run::Run;
use crate::stops::{BAD_LINE, Done};
use std::alloc::Global;
use wire_base::{Bytes, NoMemory};
use wire_histories::Step;
use world_scripts::Pieces;

fn put_got(
    alloc: Global,
    session: &[u8],
    bytes: Bytes,
    words: &[[u8; 8]; 3],
    steps: &mut Vec<Step>,
) -> Result<(), NoMemory>
    ensures { OnOk result (steps.new.items
        ≡ steps.old.items ++ AsGot session.now bytes words.now ∷ []) }
{
    steps.push(Step::AsGot {
        session: Bytes::from_slice(alloc, session)?,
        bytes,
        words: *words,
    })?;
    Ok(())
}

fn put_gave(
    alloc: Global,
    number: u32,
    session: &[u8],
    bytes: Bytes,
    steps: &mut Vec<Step>,
) -> Result<(), NoMemory>
    ensures { OnOk result (steps.new.items
        ≡ steps.old.items ++ AsGave number session.now bytes ∷ []) }
{
    steps.push(Step::AsGave {
        number,
        session: Bytes::from_slice(alloc, session)?,
        bytes,
    })?;
    Ok(())
}

fn put_end_if(
    alloc: Global,
    session: &[u8],
    ends: bool,
    steps: &mut Vec<Step>,
) -> Result<(), NoMemory>
    ensures { OnOk result (steps.new.items ≡ steps.old.items ++ end_if session.now ends) }
{
    if !ends {
        return Ok(());
    }
    let session = Bytes::from_slice(alloc, session)?;
    steps.push(Step::AsEnd { session })?;
    Ok(())
}

// The steps of a request, its answer as a message of this number.
fn steps_of(
    alloc: Global,
    number: u32,
    session: &[u8],
    request: Bytes,
    words: &[[u8; 8]; 3],
    served: Served,
    answer: Bytes,
) -> Result<Vec<Step>, NoMemory>
    ensures { IfOk result (λ steps. steps.items
        ≡ served_steps number session.now request words.now served answer) }
{
    let mut steps = Vec::new(alloc);
    match served {
        Served::Refused => Ok(steps),
        Served::Ended => {
            put_got(alloc, session, request, words, &mut steps)?;
            put_end_if(alloc, session, true, &mut steps)?;
            Ok(steps)
        }
        Served::Answered { ends } => {
            put_got(alloc, session, request, words, &mut steps)?;
            put_gave(alloc, number, session, answer, &mut steps)?;
            put_end_if(alloc, session, ends, &mut steps)?;
            Ok(steps)
        }
    }
}

impl Run {
    ghost use Rattle.std.specs.Prelude.{◌≡◌};
    ghost use Rattle.world_scripts.specs.Lines as l;
    ghost use Rattle.world_run.specs.Standing.{Carries};

    /// A request to a session of the authentication server, with the three random words that are drawn for it.
    pub(crate) fn serve(
        &mut self,
        session: &[u8],
        pieces: Pieces<'_>,
        first: [u8; 8],
        second: [u8; 8],
        third: [u8; 8],
    ) -> Done
        ensures carried { Carries (l.AsGive session.now pieces.entry first second third)
            self.old result self.new }
        ensures recorded { self.new.recorded ≡ self.old.recorded }
    {
        let words = &[first, second, third];
        let request = spell(&self.recorded, pieces)?;
        let number = self.recorded.next_message()?;
        let mut answer = Bytes::new(self.alloc);
        let asked = request.as_slice();
        let core = &self.tables.core;
        let served = self
            .clients
            .serve(core, session, asked, words, &mut answer)?;
        if let Served::Refused = served {
            return Err(BAD_LINE);
        }
        self.asked = true;
        self.used = true;
        let steps = steps_of(self.alloc, number, session, request, words, served, answer)?;
        Ok(steps)
    }
}
