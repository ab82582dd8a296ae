// Laws of an agent, each the contract of a function that does nothing.
ghost use Rattle.world_promises.specs.Answers.{AbsencesDo, AbsencesLeave, AnswersDo, AnswersLeave};

/// The conversation whose question is answered goes on by the answer, and its read is told what the role answers.
pub fn answers_do()
    ensures { AnswersDo }
{}

/// So it does where there is no answer.
pub fn absences_do()
    ensures { AbsencesDo }
{}

/// No other conversation changes by an answer.
pub fn answers_leave()
    ensures { AnswersLeave }
{}

/// Nor by its absence.
pub fn absences_leave()
    ensures { AbsencesLeave }
{}
