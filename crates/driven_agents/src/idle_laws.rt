// Laws of an agent that a network drives, each the contract of a function that does nothing.
ghost use Rattle.driven_agents.specs.Idle.{ClosingsKeepIdle, EventsDo, NewNodesAreIdle, OpeningsKeepIdle, TakesGetWhatIsLeft, TakesLeaveNothing, WritesKeepIdle};

/// An agent that runs behind an event ran before it, and the event did what is defined.
pub fn an_event_does_what_is_defined()
    ensures { EventsDo }
{}

/// The replies that come of an event are all that it left to be taken.
pub fn takes_get_what_is_left()
    ensures { TakesGetWhatIsLeft }
{}

/// The takes that follow an event leave no reply, no question and no connection to give up, where the event left the agent calm,
/// and it is calm behind them.
pub fn takes_leave_nothing()
    ensures { TakesLeaveNothing }
{}

/// A write keeps an agent idle, whatever is written, and to whatever fid.
pub fn a_write_keeps_an_agent_idle()
    ensures { WritesKeepIdle }
{}

/// So does a fid that is given up which had rpc open.
pub fn a_closing_keeps_an_agent_idle()
    ensures { ClosingsKeepIdle }
{}

/// A fid that comes to rpc and opens it has the next conversation open, and the agent is idle again.
pub fn an_opening_keeps_an_agent_idle()
    ensures { OpeningsKeepIdle }
{}

/// A new node is idle.
pub fn a_new_node_is_idle()
    ensures { NewNodesAreIdle }
{}
