// Laws of logins, each the contract of a function that does nothing.
ghost use Rattle.complete_logins.specs.Choices.{ChoicesEnd};
ghost use Rattle.complete_logins.specs.Logins.{LoginsEnd};
ghost use Rattle.complete_logins.specs.MailLogins.{MailLoginsEnd};

/// A client and a server of p9sk1 whose keys are those that the authentication server knows, and whose messages all arrive
/// as they were sent: every call of both is answered well, and both accept the same names and the same secret. The client
/// may be one that speaks for another user, where its own user may.
pub fn a_login_by_p9sk1_ends_well()
    ensures { LoginsEnd }
{}

/// The same under p9any: the server offers a list, which it has at once or behind keys that it is told while it has nothing to
/// offer, the client picks a domain of it, and the login in that domain goes as one by p9sk1 alone.
pub fn a_login_by_p9any_ends_well()
    ensures { ChoicesEnd }
{}

/// A client and a server of APOP, or of CRAM, where the authentication server knows the client's password as that of the user
/// who is named: every call of both is answered well, the client comes to its end, and the server accepts the user. The
/// session may have had any requests before, but for one that left a challenge of the protocol which isn't answered.
pub fn a_mail_login_ends_well()
    ensures { MailLoginsEnd }
{}
