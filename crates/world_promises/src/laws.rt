// Laws of every script, each the contract of a function that does nothing.
ghost use Rattle.std.specs.Prelude.{ℕ, List};
ghost use Rattle.clean_runs.specs.Statements.{IsBridged, IsSecret};
ghost use Rattle.clean_runs.specs.AgreementStatements.{ClientsAreAnswered, ClientsAreHosts, ClientsMatch, EachByATicket, OneByAMatch, OneByAText, OneByATicket, OneUnderAGrant, ServersAgree, ServersNameTheUser};
ghost use Rattle.world_promises.specs.MadeRuns.{MadeIsNotRefused};
ghost use Rattle.world_promises.specs.Statements.{EachIsPromised, FrontsAreLegal, OfEveryCleanScript};

/// Each front of the record of a script of at most 2^22 bytes is a history that a network can have, under the setting of the
/// whole: so is what was recorded of a run that was cut short.
pub fn fronts_of_records_are_legal()
    ensures { (script : List ℕ) → FrontsAreLegal script }
{}

/// Where a front of the record of a script is clean it is a symbolic run, and each message that it gives is spelled by its
/// label.
pub fn scripts_are_symbolic_runs()
    ensures { OfEveryCleanScript IsBridged }
{}

/// No uncompromised secret derives from what the network saw of it, at any place.
pub fn scripts_keep_their_secrets()
    ensures { OfEveryCleanScript IsSecret }
{}

/// The step by which a server accepts names the user whose field it accepted. A server whose holder isn't compromised accepts
/// on the authentication server's word; where also none of the names that may speak for the user is compromised, a
/// conversation of the user's client matches. A client accepts on a server's.
pub fn servers_accept_by_grants()
    ensures named { OfEveryCleanScript (λ history z atoms l. ServersNameTheUser history l) }
    ensures agree { OfEveryCleanScript (λ history z atoms l. ServersAgree history z l) }
    ensures matched { OfEveryCleanScript (λ history z atoms l. ClientsMatch history z l) }
    ensures answered { OfEveryCleanScript (λ history z atoms l. ClientsAreAnswered history z l) }
    ensures hosted { OfEveryCleanScript (λ history z atoms l. ClientsAreHosts history z l) }
{}

/// Two acceptances by servers are by different tickets, under one key by different bytes; where their holders aren't
/// compromised they are under different grants, and no conversation matches both.
pub fn tickets_serve_once()
    ensures by_a_ticket { OfEveryCleanScript (λ history z atoms l. EachByATicket history l) }
    ensures by_one_ticket { OfEveryCleanScript (λ history z atoms l. OneByATicket history l) }
    ensures by_one_text { OfEveryCleanScript (λ history z atoms l. OneByAText history atoms l) }
    ensures under_one_grant { OfEveryCleanScript (λ history z atoms l. OneUnderAGrant history z l) }
    ensures matched_by_one { OfEveryCleanScript (λ history z atoms l. OneByAMatch history z l) }
{}

/// All of this is promised of each front of the record of every script of at most 2^22 bytes, whatever comes behind it.
pub fn every_script_is_promised()
    ensures { EachIsPromised }
{}

/// No line of a script that is made of a number, of at most 1,000 rounds, is refused: all of it is carried out.
pub fn no_made_script_is_refused()
    ensures { MadeIsNotRefused }
{}
