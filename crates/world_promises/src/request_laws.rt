// Laws of an agent, each the contract of a function that does nothing.
ghost use Rattle.world_promises.specs.OpenSearches.{NoSearchIsOpen};
ghost use Rattle.world_promises.specs.Requests.{RequestsDo, RequestsLeave};

/// Where an agent is idle, and isn't stopped by it, a request of a conversation is refused, or its
/// read is, or it is carried out by searches that ask nobody. The agent is idle again, the same
/// conversations stand, and each question keeps its conversation.
pub fn requests_are_done()
    ensures { RequestsDo }
{}

/// It leaves every other conversation as it was.
pub fn requests_leave_the_others()
    ensures { RequestsLeave }
{}

/// Of no agent, driven by a network or not, is a conversation left at a search of the keys between two events.
pub fn no_search_is_left_open()
    ensures { NoSearchIsOpen }
{}
