// Laws of the requests of a connection, each the contract of a function that does nothing.
ghost use Rattle.doors.specs.Attaching.{AttachesAreVouchedFor};

/// An attach is granted only where its afid names a conversation that was begun for its user and its tree, and that answers
/// that this user was accepted.
pub fn attaches_are_vouched_for()
    ensures { AttachesAreVouchedFor }
{}
