// What stands behind the lock, and what a caller does with it while it has the turn.

/// A value that stands for a list of events, the newest first: those which made it what it is.
pub trait Logged {
    type Event;

    ghost use Rattle.std.specs.Prelude.{List};

    ghost stands: { List Self.Event → Self → Type 0 };
}

/// What a caller does in one turn. It makes any number of events.
pub trait TurnCall<S: Logged> {
    type Reply;

    ghost use Rattle.std.specs.Prelude.{List, ◌++◌};

    // The events that it makes, the newest first, by the call before and the reply.
    ghost entries: { Self → Self.Reply → List S.Event };

    // What the reply and the call after it are, for the call before, on a value that stands for these events. A call
    // that has a `&mut` in it says here that the loan stays the same one.
    ghost gives: { Self → List S.Event → Self.Reply → Self → Type 0 };

    /// Does it. Afterwards the value stands for the events made and those before.
    fn run(&mut self, state: &mut S) -> Self::Reply
        ensures stands { (history : List S.Event) → S.stands history state.old
            → S.stands (entries self.old result ++ history) state.new }
        ensures gives { (history : List S.Event) → S.stands history state.old
            → gives self.old history result self.new };
}
