// Laws of examples, each the contract of a function that does nothing.
ghost use Rattle.clean_runs.specs.ExampleStatements.{LoginIsClean, LoginIsLegal, MailLoginIsLegal, RemovalIsLegal, WordsAreUsedOnce};

/// The record of a login by p9any and p9sk1, with its labelling, is clean where its words, keys and passwords differ.
pub fn a_login_is_clean()
    ensures { LoginIsClean }
{}

/// It is also one that a network can have, where its conversations started by p9any and found these keys: so what is said of
/// legal and clean records is said of this one, whatever its words, keys and passwords are, as long as they differ.
pub fn a_login_is_legal_and_clean()
    ensures { LoginIsLegal }
{}

/// So is this record where the authentication server's tables are read again behind it, without the user, and her node is
/// restarted.
pub fn a_login_and_a_removal_are_legal_and_clean()
    ensures { RemovalIsLegal }
{}

/// So is the record of a login by APOP, whatever its words, keys and passwords are, as long as the keys and the passwords
/// differ.
pub fn a_mail_login_is_legal_and_clean()
    ensures { MailLoginIsLegal }
{}

/// In a clean record no two conversations that use their words start by the same one.
pub fn a_clean_record_uses_a_word_once()
    ensures { WordsAreUsedOnce }
{}
