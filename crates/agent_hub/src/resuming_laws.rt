// Laws of a hub's histories, each the contract of a function that does nothing.
ghost use Rattle.agent_hub.specs.Resuming.{SubmitsGoOn};

/// Between two moments that a seat has seen, whatever others did meanwhile, each search of a conversation is over the keys
/// of its own event, also behind a user's reply; and a key that a conversation has chosen stays the same while it stands.
pub fn a_login_goes_on_by_the_history_of_all()
    ensures { SubmitsGoOn }
{}
