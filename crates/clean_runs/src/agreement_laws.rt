// Laws of clean histories, each the contract of a function that does nothing. specs/Statements.antt has what they say.
ghost use Rattle.clean_runs.specs.Statements.{OfEveryCleanHistory};
ghost use Rattle.clean_runs.specs.AgreementStatements.{ClientsAreAnswered, ClientsAreHosts, ClientsMatch, EachByATicket, OneByAMatch, OneByAText, OneByATicket, OneUnderAGrant, ServersAgree, ServersNameTheUser};

/// Server agreement: a server whose holder isn't compromised accepts on the authentication server's word alone. The grant
/// was made before, for a request that named the holder; its ticket was sealed for this server, for the user accepted and
/// for this conversation's own word.
pub fn server_agreement()
    ensures { OfEveryCleanHistory (λ history z atoms l. ServersAgree history z l) }
{}

/// The step by which a server accepts tells the user whose name stands in the field that it accepted, whoever is compromised.
pub fn acceptances_name_the_user()
    ensures { OfEveryCleanHistory (λ history z atoms l. ServersNameTheUser history l) }
{}

/// The matching conversation: where also none of the names that may speak for the user is compromised, a conversation of
/// the user's client matches before the acceptance, and its holder's key or password was used for the grant.
pub fn matching_conversation()
    ensures { OfEveryCleanHistory (λ history z atoms l. ClientsMatch history z l) }
{}

/// Two acceptances by servers, wherever they stand and whoever is compromised, are by different tickets, and under one key
/// by different bytes.
pub fn different_tickets()
    ensures by_a_ticket { OfEveryCleanHistory (λ history z atoms l. EachByATicket history l) }
    ensures by_one_ticket { OfEveryCleanHistory (λ history z atoms l. OneByATicket history l) }
    ensures by_one_text { OfEveryCleanHistory (λ history z atoms l. OneByAText history atoms l) }
{}

/// Two acceptances by servers whose holders aren't compromised are under different grants, and no conversation matches both.
/// Of the names that may speak for the users nothing is asked.
pub fn different_grants()
    ensures under_one_grant { OfEveryCleanHistory (λ history z atoms l. OneUnderAGrant history z l) }
    ensures matched_by_one { OfEveryCleanHistory (λ history z atoms l. OneByAMatch history z l) }
{}

/// Client agreement: where a p9sk1 client accepts under a grant that isn't exposed, the server for which the grant's ticket
/// was sealed opened it and answered this client before. Where the client's holder isn't compromised, there is such a grant
/// with the holder as its host, exposed or not.
pub fn client_agreement()
    ensures answered { OfEveryCleanHistory (λ history z atoms l. ClientsAreAnswered history z l) }
    ensures hosted { OfEveryCleanHistory (λ history z atoms l. ClientsAreHosts history z l) }
{}
