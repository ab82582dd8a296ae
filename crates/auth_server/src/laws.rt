// Laws of the definitions, each the contract of a function that does nothing.
ghost use Rattle.std.specs.Prelude.{◌≡◌, ◌⊎◌, ◌++◌, ℕ, List, Ok};
ghost use Rattle.sealing.specs.declared.request.TicketReq.{TicketReq};
ghost use Rattle.sealing.specs.Request.{request_of};
ghost use Rattle.wire_base.specs.Kinds.{ticket_request};
ghost use Rattle.auth_server.specs.Answers.{HasKeys, HasWords, IsGrant, Knowledge, Posed, answer_in};
ghost use Rattle.auth_server.specs.Notices.{IsUnderKeys, LacksKeys, outcome_of_ticket};
ghost use Rattle.auth_server.specs.declared.log.Outcome.TheVariants.{Granted, Refused};
ghost use Rattle.auth_server.specs.Sessions.{GoesOnFrom, IsSession, bytes_of, exactly, words_of};

/// A client's bytes, the words that are drawn, and what the server knows at each request make one session: of two that
/// stand at the front of the same bytes and the same words, one is the other or goes on from it.
pub fn a_stream_has_one_session()
    ensures { (tables : ℕ → Knowledge) (a b : List Posed) (x y : List ℕ) (u v : List (List ℕ))
        → IsSession (exactly tables) a → IsSession (exactly tables) b
        → bytes_of a ++ x ≡ bytes_of b ++ y → words_of a ++ u ≡ words_of b ++ v
        → GoesOnFrom a b ⊎ GoesOnFrom b a }
{}

/// Every ticket request whose fields are well is answered by two tickets of 72 bytes under their byte, each sealed under
/// some key of seven bytes, whether or not the tables know its names and let the host speak for the user: which keys
/// these are is all that the tables decide.
pub fn every_ticket_request_gets_two_tickets()
    ensures { (before : List Posed) (p : Posed) (r : TicketReq)
        → HasKeys p.known → HasWords p.asked.words
        → request_of p.asked.request ≡ Ok r → r.kind ≡ ticket_request
        → IsGrant r p.asked.words (answer_in before p) }
{}

/// A ticket request that is noted as granted is answered by two tickets under keys of the table, for a host that may speak for
/// the user. One that is noted as refused lacks something of that.
pub fn what_is_noted_of_a_grant_is_so()
    ensures granted { (known : Knowledge) (words : List (List ℕ)) (r : TicketReq)
        → outcome_of_ticket known r ≡ Granted → IsUnderKeys known words r }
    ensures refused { (known : Knowledge) (r : TicketReq)
        → outcome_of_ticket known r ≡ Refused → LacksKeys known r }
{}
