// Runs written out: what the laws of agreement speak of, and why they have their premises. Each is the contract of a
// function that does nothing.
ghost use Rattle.std.specs.Prelude.{◌≡◌, true, false};
ghost use Rattle.symbolic_runs.specs.Runs.{IsSymbolicRun};
ghost use Rattle.symbolic_runs.specs.Secrets.{is_compromised, is_exposed};
ghost use Rattle.symbolic_runs.specs.Agreement.{IsClientUnder, IsUnder, Matches};
ghost use Rattle.symbolic_runs.specs.Cast.{ann, bob, field, srv};
ghost use Rattle.symbolic_runs.specs.Examples.{crossed, crossed_past, crossed_run, guessing, refused_run, reversed, reversed_past, reversed_run, shared, shared_past, shared_run, unknown, unknown_run};
ghost use Rattle.symbolic_runs.specs.Attacks.{IsUnanswered, IsUnderNone, IsUnmatched, anybody, anybody_run, betrayed_server, betrayed_server_run, betrayed_speaker, betrayed_speaker_past, betrayed_speaker_run, exposed_acceptance, exposed_run, exposed_server, turned, turned_run, without_grant, without_match};

/// A p9sk1 server accepts a user by a mail login; what matches its acceptance is the user's mail client.
pub fn a_mail_login_satisfies_a_p9sk1_server()
    ensures run { IsSymbolicRun crossed crossed_run }
    ensures matched { Matches crossed crossed_past 1 (field bob) 0 }
{}

/// A mail server accepts a user by a p9sk1 login; what matches its acceptance is the user's p9sk1 client.
pub fn a_p9sk1_login_satisfies_a_mail_server()
    ensures run { IsSymbolicRun reversed reversed_run }
    ensures matched { Matches reversed reversed_past 0 (field ann) 0 }
{}

/// Two clients hold one ticket, and both match the one acceptance by it.
pub fn two_clients_hold_one_ticket()
    ensures run { IsSymbolicRun shared shared_run }
    ensures first { Matches shared shared_past 0 (field ann) 0 }
    ensures second { Matches shared shared_past 0 (field ann) 2 }
{}

/// The authentication server makes a ticket under a key that it made up, which nobody opens.
pub fn a_key_is_made_up()
    ensures { IsSymbolicRun unknown unknown_run }
{}

/// The authentication server refuses an answer that isn't right, and the mail server accepts nobody.
pub fn the_authentication_server_refuses()
    ensures { IsSymbolicRun guessing refused_run }
{}

/// Why server agreement asks that the server isn't compromised: a betrayed server accepts a user for whom nothing was
/// granted.
pub fn a_betrayed_server_accepts_without_a_grant()
    ensures run { IsSymbolicRun betrayed_server betrayed_server_run }
    ensures under_none { IsUnderNone betrayed_server betrayed_server_run without_grant }
{}

/// Why the matching conversation asks that no speaker is compromised: neither the server nor the user is, but one who may
/// speak for the user, and no conversation matches.
pub fn a_betrayed_speaker_is_accepted_without_a_match()
    ensures run { IsSymbolicRun betrayed_speaker betrayed_speaker_run }
    ensures true_server { is_compromised betrayed_speaker srv ≡ false }
    ensures true_user { is_compromised betrayed_speaker ann ≡ false }
    ensures under { IsUnder betrayed_speaker betrayed_speaker_run without_match 0 }
    ensures unmatched { IsUnmatched betrayed_speaker betrayed_speaker_past }
{}

/// Why client agreement asks that the grant isn't exposed: a client whose own key isn't compromised accepts under a grant
/// that is, and no server answered it.
pub fn an_exposed_grant_deceives_a_client()
    ensures run { IsSymbolicRun exposed_server exposed_run }
    ensures true_client { is_compromised exposed_server ann ≡ false }
    ensures under { IsClientUnder exposed_server exposed_run exposed_acceptance 0 }
    ensures exposed { is_exposed exposed_server 0 ≡ true }
    ensures unanswered { IsUnanswered exposed_server exposed_run exposed_acceptance }
{}

/// A client that asked for one server is turned to another, with which it agrees.
pub fn a_client_is_turned_to_another_server()
    ensures { IsSymbolicRun turned turned_run }
{}

/// A mail client answers a challenge that the network made up.
pub fn a_mail_client_answers_anybody()
    ensures { IsSymbolicRun anybody anybody_run }
{}
