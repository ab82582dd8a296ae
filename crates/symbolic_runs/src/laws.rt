// Laws of all runs, each the contract of a function that does nothing. specs/Statements.antt has what they say.
ghost use Rattle.std.specs.Prelude.{List};
ghost use Rattle.symbolic_runs.specs.declared.kind.MacKind.TheVariants.{Apop, Cram};
ghost use Rattle.symbolic_runs.specs.Trees.{Tree};
ghost use Rattle.symbolic_runs.specs.Forms.{pair, server_message, tickets, vouch};
ghost use Rattle.symbolic_runs.specs.Runs.{Run, Setting};
ghost use Rattle.symbolic_runs.specs.Logins.{Login, MailLogin};
ghost use Rattle.symbolic_runs.specs.Statements.{AcceptsOnce, AnswersOnce, AuthenticatorParts, ChallengeParts, ClientMessageParts, ComputedAreAllowed, DigestsAreMade, FollowsFromMore, GiftsAreComputed, GuardedIsClosed, IsLogin, IsMailLogin, IsMailRun, IsP9anyRun, IsP9sk1Run, KeepsSecrets, MovesBehindStarts, MovesInTurn, OfEveryRun, OneEvent, PairParts, PartsAreRuns, RequestParts, RequestsOnce, SealsAreMade, StartsOnce, StaysKnown, TicketParts, TurnsOnce, VouchesAtHome, VouchesOnce};

/// Of every run, at each place, no uncompromised secret follows from what an attacker knows there.
pub fn symbolic_secrecy()
    ensures { OfEveryRun KeepsSecrets }
{}

/// Whatever follows from guarded terms is guarded.
pub fn guarded_terms_are_closed()
    ensures { (s : Setting) (terms : List Tree) → GuardedIsClosed s terms }
{}

/// Every seal that an attacker can have, under a key that may not be known, was made by a row that seals.
pub fn seals_have_an_origin()
    ensures { OfEveryRun SealsAreMade }
{}

/// Every digest that an attacker can have, under a secret that may not be known, was made by a mail client.
pub fn digests_have_an_origin()
    ensures { OfEveryRun DigestsAreMade }
{}

/// A part of a run is a run.
pub fn a_part_of_a_run_is_a_run()
    ensures { OfEveryRun PartsAreRuns }
{}

/// What follows from trees that themselves follow from others follows from those.
pub fn what_follows_from_less_follows_from_more()
    ensures { (less more : List Tree) → FollowsFromMore less more }
{}

/// What an attacker can have at a place it can have at each later one, in a run and in any other list of events.
pub fn what_is_known_stays_known()
    ensures { (s : Setting) (run : Run) → StaysKnown s run }
{}

/// A conversation gives, asks and accepts in the turns of its role alone.
pub fn each_move_is_in_its_turn()
    ensures { OfEveryRun MovesInTurn }
{}

/// A conversation takes each turn once, so that each of its moves has one question and one gift.
pub fn each_turn_is_taken_once()
    ensures { (run : Run) → TurnsOnce run }
{}

/// A conversation accepts once.
pub fn a_conversation_accepts_once()
    ensures { OfEveryRun AcceptsOnce }
{}

/// Each start has a number of its own.
pub fn a_conversation_starts_once()
    ensures { (run : Run) → StartsOnce run }
{}

/// A conversation moves behind the start that has its number.
pub fn a_conversation_moves_behind_its_start()
    ensures { OfEveryRun MovesBehindStarts }
{}

/// Each request has a number of its own.
pub fn each_request_comes_once()
    ensures { OfEveryRun RequestsOnce }
{}

/// Each request is answered once.
pub fn each_request_is_answered_once()
    ensures { OfEveryRun AnswersOnce }
{}

/// A challenge is vouched for once.
pub fn a_challenge_is_vouched_for_once()
    ensures { OfEveryRun VouchesOnce }
{}

/// A challenge is vouched for in the session that gave it.
pub fn a_challenge_is_vouched_for_in_its_session()
    ensures { OfEveryRun VouchesAtHome }
{}

/// At a place of a run stands one event.
pub fn a_place_has_one_event()
    ensures { (run : Run) → OneEvent run }
{}

/// A message determines what it was made of.
pub fn forms_are_injective()
    ensures requests { RequestParts }
    ensures tickets { TicketParts }
    ensures authenticators { AuthenticatorParts }
    ensures pairs { PairParts pair }
    ensures answers { PairParts tickets }
    ensures vouches { PairParts vouch }
    ensures client_messages { ClientMessageParts }
    ensures server_messages { PairParts server_message }
    ensures challenges { ChallengeParts }
{}

/// What a conversation gives or asks next is computed from what it did and from the names that it puts in: each move of
/// the table that gives or asks is computed, and each that is computed is one of the table.
pub fn gifts_are_computed()
    ensures computed { GiftsAreComputed }
    ensures allowed { ComputedAreAllowed }
{}

/// A p9sk1 login, written out, is a run.
pub fn a_p9sk1_login_is_a_run()
    ensures { (login : Login) → IsLogin login → IsP9sk1Run login }
{}

/// A login whose protocol is chosen first, written out, is a run, whatever the network makes of the offers and of the
/// choice.
pub fn a_p9any_login_is_a_run()
    ensures { (login : Login) → IsLogin login → IsP9anyRun login }
{}

/// An APOP login, written out, is a run.
pub fn an_apop_login_is_a_run()
    ensures { (login : MailLogin) → IsMailLogin login → IsMailRun Apop login }
{}

/// A CRAM login, written out, is a run.
pub fn a_cram_login_is_a_run()
    ensures { (login : MailLogin) → IsMailLogin login → IsMailRun Cram login }
{}
