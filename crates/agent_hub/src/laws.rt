// What holds of a hub's calls, as contracts of functions that do nothing.
ghost use Rattle.std.specs.Prelude.{◌≡◌, ◌∷◌, List, ℕ, Ok};
ghost use Rattle.turn_lock.specs.Fronts.{events};
ghost use Rattle.turn_lock.specs.Seats.{front};
ghost use Rattle.agent_history.specs.declared.event.Event.{Event};
ghost use Rattle.agent_history.specs.declared.event.StepAnswer.{StepAnswer};
ghost use Rattle.agent_history.specs.Histories.{History};
ghost use Rattle.agent_core.specs.Events.{Answers};
ghost use Rattle.agent_hub.specs.Submits.{HubSeat, IsSubmitted};

/// An event that is submitted is one event of the agent: the front afterwards is the history before it with the event, and
/// it is answered after that history. So what is said of an agent's histories holds of the front.
pub fn a_submit_is_one_event_of_the_agent()
    ensures { (event : Event) (a : StepAnswer) (old new : List ℕ) (before after : HubSeat)
        → IsSubmitted event (Ok a) old new before after → (history : History)
        × (events (front after) ≡ event ∷ history) × Answers history event a old new }
{}
