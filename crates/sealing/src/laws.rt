// Laws of the definitions, each the contract of a function that does nothing.
ghost use Rattle.std.specs.Prelude.{◌≡◌, ℕ, List, Ok};
ghost use Rattle.sealing.specs.Sealing.{opened, sealed};
ghost use Rattle.sealing.specs.Authenticator.{authenticator_of, authenticator_text};
ghost use Rattle.sealing.specs.Fitting.{FitsAuthenticator, FitsRequest, FitsTicket};
ghost use Rattle.sealing.specs.Request.{request_of, request_text};
ghost use Rattle.sealing.specs.Ticket.{ticket_of, ticket_text};
ghost use Rattle.sealing.specs.declared.authenticator.Authenticator.{Authenticator};
ghost use Rattle.sealing.specs.declared.request.TicketReq.{TicketReq};
ghost use Rattle.sealing.specs.declared.ticket.Ticket.{Ticket};
ghost use Rattle.sealing.specs.declared.kind.TheConstants.{AUTH_AC, AUTH_APOP, AUTH_AS, AUTH_CRAM, AUTH_ERR, AUTH_OK, AUTH_OK_VAR, AUTH_PASS, AUTH_TC, AUTH_TP, AUTH_TREQ, AUTH_TS};
ghost use Rattle.wire_base.specs.Kinds.{answer_counted, answer_error, answer_ok, apop_request, client_authenticator, client_ticket, cram_request, password_request, password_ticket, server_authenticator, server_ticket, ticket_request};

/// What is sealed is opened again as the ticket, or the authenticator, that was written.
pub fn what_is_sealed_is_opened()
    ensures tickets { (key : List ℕ) (t : Ticket) → FitsTicket t
        → ticket_of (opened key (sealed key (ticket_text t))) ≡ Ok t }
    ensures authenticators { (key : List ℕ) (a : Authenticator) → FitsAuthenticator a
        → authenticator_of (opened key (sealed key (authenticator_text a))) ≡ a }
{}

/// A request is read again as it was written.
pub fn what_is_asked_is_read()
    ensures { (r : TicketReq) → FitsRequest r → request_of (request_text r) ≡ Ok r }
{}

/// The numbers of messages and of what is sealed are those of authsrv(6).
pub fn kinds_are_those_of_the_manual()
    ensures requests { (AUTH_TREQ ≡ ticket_request) × (AUTH_PASS ≡ password_request)
        × (AUTH_APOP ≡ apop_request) × (AUTH_CRAM ≡ cram_request) }
    ensures answers { (AUTH_OK ≡ answer_ok) × (AUTH_ERR ≡ answer_error)
        × (AUTH_OK_VAR ≡ answer_counted) }
    ensures tickets { (AUTH_TS ≡ server_ticket) × (AUTH_TC ≡ client_ticket)
        × (AUTH_TP ≡ password_ticket) }
    ensures authenticators { (AUTH_AS ≡ server_authenticator)
        × (AUTH_AC ≡ client_authenticator) }
{}
