// Laws of conversations, each the contract of a function that does nothing.
ghost use Rattle.std.specs.Prelude.{ℕ, List};
ghost use Rattle.roles.specs.Talks.{heard, unheard};
ghost use Rattle.talks.specs.Calls.{Call};
ghost use Rattle.talks.specs.Standings.{standing};
ghost use Rattle.wire_histories.specs.Histories.{answered, unanswered};
ghost use Rattle.world_promises.specs.Begun.{StartsWell};
ghost use Rattle.world_promises.specs.Telling.{AnswersLeave, RequestsLeave};

/// Each request of a conversation whose searches ask nobody leaves in its talk what is recorded of it, and so does each
/// answer of the authentication server, and its absence.
pub fn a_request_leaves_what_is_recorded()
    ensures request { RequestsLeave }
    ensures answer { (bytes : List ℕ) → AnswersLeave (heard bytes) (answered bytes) }
    ensures absence { AnswersLeave unheard unanswered }
{}

/// What a conversation was started with may start one, whatever it met.
pub fn what_was_started_may_start()
    ensures { (talk : List Call) → StartsWell (standing talk).begun }
{}
