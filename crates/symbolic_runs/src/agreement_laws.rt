// Laws of all runs, each the contract of a function that does nothing. specs/Statements.antt has what they say.
ghost use Rattle.symbolic_runs.specs.Statements.{OfEveryRun};
ghost use Rattle.symbolic_runs.specs.AgreementStatements.{ClientsAreAnswered, ClientsAreHosts, ClientsMatch, EachByATicket, OneByAMatch, OneByATicket, OneUnderAGrant, ServersAgree};

/// Server agreement: a server whose holder isn't compromised accepts on the authentication server's word alone. The grant
/// was made before; its ticket was sealed for this server, for the user accepted and for this conversation's own word.
pub fn server_agreement()
    ensures { OfEveryRun ServersAgree }
{}

/// The matching conversation: where also none of the names that may speak for the user is compromised, a conversation of
/// the user's client matches before the acceptance, and its holder's key or password was used for the grant.
pub fn matching_conversation()
    ensures { OfEveryRun ClientsMatch }
{}

/// Two acceptances by servers, wherever they stand and whoever is compromised, are by different tickets: each is by a
/// ticket, and those that are by one ticket are one.
pub fn different_tickets()
    ensures by_a_ticket { OfEveryRun EachByATicket }
    ensures by_one_ticket { OfEveryRun OneByATicket }
{}

/// Two acceptances by servers whose holders aren't compromised are under different grants, and no conversation matches both.
/// Of the names that may speak for the users nothing is asked.
pub fn different_grants()
    ensures under_one_grant { OfEveryRun OneUnderAGrant }
    ensures matched_by_one { OfEveryRun OneByAMatch }
{}

/// Client agreement: where a p9sk1 client accepts under a grant that isn't exposed, the server for which the grant's ticket
/// was sealed opened it and answered this client before. Where the client's holder isn't compromised, there is such a grant
/// with the holder as its host, exposed or not.
pub fn client_agreement()
    ensures answered { OfEveryRun ClientsAreAnswered }
    ensures hosted { OfEveryRun ClientsAreHosts }
{}
