// What is new behind the events of late, for those who wait for it. It carries no claim: who is awake looks for himself.
ghost use Rattle.std.specs.Prelude.{◌≡◌};
ghost use Rattle.agent_requests.specs.Sharing.{SameShared};

use agent_requests::Shared;
use agent_talks::Due;
pub use mailboxes::SettledFor;

/// What is new for others than the connection whose event it was.
#[derive(Clone, Copy, Debug, PartialEq, Eq)]
pub struct News {
    /// Whose reads that wait were given a reply since this was last asked. Once the agent stopped, that is new to several.
    pub settled: SettledFor,
    /// Whether something is due to be taken for the authentication server, or the agent stopped.
    pub asks: bool,
}

/// There is nothing new.
pub const NO_NEWS: News = News {
    settled: SettledFor::Nobody,
    asks: false,
};

/// The agent stopped, which is new to all.
pub(crate) const STOPPED: News = News {
    settled: SettledFor::Several,
    asks: true,
};

/// What is new of what the connections share.
pub(crate) fn news_of(shared: &mut Shared) -> News
    ensures same { SameShared shared.old shared.new }
    ensures ring { shared.new.ring ≡ shared.old.ring }
{
    News {
        settled: shared.mailboxes.take_settled(),
        asks: !matches!(shared.talks.due(), Due::Nothing),
    }
}
