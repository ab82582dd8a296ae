// Laws of clean histories, each the contract of a function that does nothing.
ghost use Rattle.clean_runs.specs.KeyNames.{KeyNamesTellKeys};
ghost use Rattle.clean_runs.specs.Statements.{IsBridged, IsSecret, OfEveryCleanHistory};

/// Two key names are the same exactly where the users, their keys and their passwords are, in whichever tables: so a name
/// that is told by its key name is one secret, however often the tables were read again.
pub fn key_names_tell_keys_apart()
    ensures { KeyNamesTellKeys }
{}

/// A clean legal history is a symbolic run, and each message that it gives is spelled by its label, whatever the protocols
/// and the roles of its conversations are and whatever sessions the authentication server has.
pub fn clean_histories_are_symbolic_runs()
    ensures { OfEveryCleanHistory IsBridged }
{}

/// No uncompromised secret derives from what the network saw of such a history, at any place.
pub fn clean_histories_keep_their_secrets()
    ensures { OfEveryCleanHistory IsSecret }
{}
