// What the rule and the contracts of the calls say, sentence by sentence. Each law is the contract of a function that
// does nothing.
ghost use Rattle.std.specs.Prelude.{◌≡◌, ℕ, ◌<◌, ◌↔◌, ◌⊎◌, List, [], ◌∷◌, ◌++◌, All, length, slice_index, true, Option, Some};
ghost use mathlib.Core.Option.{some, none};
ghost use Rattle.atomic_table.specs.Table.{State};
ghost use Rattle.turn_lock.specs.declared.views.Entry.{Entry};
ghost use Rattle.turn_lock.specs.declared.views.Stage.TheVariants.{HasTurn};
ghost use Rattle.turn_lock.specs.declared.views.View.{View};
ghost use Rattle.turn_lock.specs.Fronts.{Front, among, events, made, own};
ghost use Rattle.turn_lock.specs.Rule.{HoldsTurn, IsFree, IsTaken, Ruled};
ghost use Rattle.turn_lock.specs.Seats.{SeatOf, front, numbers, Turned, Joined};
ghost use Rattle.turn_lock.specs.Sentences.{Always, Begins, EntriesWereMade, IsLeast, IsLongest, IsView, NextHasNoEntries, NextIsNobodys, NumbersHaveOneSeat, NumbersHaveTheirEntries, NumbersWereMade, SeenAndToldAreApart, SightsAreOfOneHistory, StandsForLongest, with_newcomer};

use crate::logged::{Logged, TurnCall};

/// Of two fronts one is the beginning of the other.
pub fn fronts_are_of_one_history<S: Logged>()
    ensures { (s : State (Option S) (View S.Event)) (j k : ℕ) (v w : View S.Event)
        → Ruled S.stands s → IsView s j v → IsView s k w
        → Begins v.seen.front w.seen.front ⊎ Begins w.seen.front v.seen.front }
{}

/// No number is in two views. Each number was made: it is less than the number of views.
pub fn a_number_is_in_one_view<S: Logged>()
    ensures one_view { (s : State (Option S) (View S.Event)) (j k : ℕ) (v w : View S.Event) (n : ℕ)
        → Ruled S.stands s → IsView s j v → IsView s k w → among v.seen.numbers n ≡ true
        → among w.seen.numbers n ≡ true → j ≡ k }
    ensures was_made { (s : State (Option S) (View S.Event)) (j : ℕ) (v : View S.Event) (n : ℕ)
        → Ruled S.stands s → IsView s j v → among v.seen.numbers n ≡ true → n < length s.views }
{}

/// No front holds an entry with a view's number that this view's own front lacks, nor one with a number that wasn't
/// made yet.
pub fn a_view_has_all_entries_of_its_numbers<S: Logged>()
    ensures own_entries { (s : State (Option S) (View S.Event)) (j k : ℕ) (v w : View S.Event)
        → Ruled S.stands s → IsView s j v → IsView s k w
        → Begins (own v.seen.numbers w.seen.front) (own v.seen.numbers v.seen.front) }
    ensures made_before { (s : State (Option S) (View S.Event)) (j : ℕ) (v : View S.Event)
        → Ruled S.stands s → IsView s j v
        → All (λ (entry : Entry S.Event). entry.seat < length s.views) v.seen.front }
{}

/// Word 0 is odd exactly while a view has the turn, and even exactly while none has it.
pub fn the_turn_is_taken_while_its_number_is_odd<S: Logged>()
    ensures taken { Always S.stands (λ s. IsTaken (slice_index s.words 0)
        ↔ ((j : ℕ) × HoldsTurn s.views j)) }
    ensures free { Always S.stands (λ s. IsFree (slice_index s.words 0)
        ↔ ((j : ℕ) → HoldsTurn s.views j → ⊥)) }
{}

/// At most one view has the turn. It has the longest front, and the slot is out.
pub fn one_view_has_the_turn<S: Logged>()
    ensures one { (s : State (Option S) (View S.Event)) (j k : ℕ) → Ruled S.stands s
        → HoldsTurn s.views j → HoldsTurn s.views k → j ≡ k }
    ensures longest { (s : State (Option S) (View S.Event)) (j : ℕ) (v : View S.Event)
        → Ruled S.stands s → IsView s j v → v.stage ≡ HasTurn → IsLongest s v.seen.front }
    ensures slot_out { (s : State (Option S) (View S.Event)) (j : ℕ) → Ruled S.stands s
        → HoldsTurn s.views j → s.homes ≡ none ∷ [] }
{}

/// While no view has the turn the slot is at home, with a value that stands for the longest front.
pub fn the_value_at_home_stands_for_the_longest_front<S: Logged>()
    ensures at_home { (s : State (Option S) (View S.Event)) → Ruled S.stands s
        → ((j : ℕ) → HoldsTurn s.views j → ⊥)
        → (state : S) × (s.homes ≡ some (Some state) ∷ []) }
    ensures stands { (s : State (Option S) (View S.Event)) (state : S) (log : Front S.Event)
        → Ruled S.stands s → s.homes ≡ some (Some state) ∷ [] → IsLongest s log
        → S.stands (events log) state }
{}

/// There is a longest front at all times. While the slot is at home its value stands for it.
pub fn a_longest_front_exists<S: Logged>()
    ensures exists { Always S.stands (λ s. (log : Front S.Event) × IsLongest s log) }
    ensures at_home { Always S.stands (λ s. StandsForLongest s S.stands) }
{}

/// A new seat's number is the count of views before it came: with that number the rule holds of one view more. Nobody had
/// the number, and no entry was made with it.
pub fn a_new_seat_is_numbered_by_the_count<S: Logged>()
    ensures comes { Always S.stands (λ s. Ruled S.stands (with_newcomer s)) }
    ensures nobody_has { Always S.stands (λ s. NextIsNobodys s) }
    ensures no_entries { Always S.stands (λ s. NextHasNoEntries s) }
{}

/// What a seat was only told of another obeys the rule as what it has seen: fronts are of one history, a number is with one
/// seat and was made, and no front holds an entry of a number that the front beside the number lacks.
pub fn what_a_seat_was_told_obeys_the_rule<S: Logged>()
    ensures one_history { Always S.stands (λ s. SightsAreOfOneHistory s) }
    ensures one_seat { Always S.stands (λ s. NumbersHaveOneSeat s) }
    ensures apart { Always S.stands (λ s. SeenAndToldAreApart s) }
    ensures was_made { Always S.stands (λ s. NumbersWereMade s) }
    ensures own_entries { Always S.stands (λ s. NumbersHaveTheirEntries s) }
    ensures made_before { Always S.stands (λ s. EntriesWereMade s) }
{}

/// A turn makes an entry for each of its events, with the least of its seat's numbers.
pub fn an_entry_has_the_least_number<S: Logged>()
    ensures each { (ns : List ℕ) (done : List S.Event) → events (made ns done) ≡ done }
    ensures least { (ns : List ℕ) (n : ℕ) (done : List S.Event) → among ns n ≡ true
        → All (λ (entry : Entry S.Event). IsLeast ns entry.seat) (made ns done) }
{}

/// Of the seat's own entries a turn adds those of its events, in their order, and changes no other.
pub fn a_turn_adds_its_own_entries_alone<S: Logged, C: TurnCall<S>>()
    ensures { (call after : C) (reply : C.Reply) (came went : SeatOf S S.Event) (n : ℕ)
        → among (numbers came) n ≡ true
        → Turned (C.entries call reply) (λ history. C.gives call history reply after) came went
        → own (numbers came) (front went)
        ≡ made (numbers came) (C.entries call reply) ++ own (numbers came) (front came) }
{}

/// A joined seat has the own entries of both seats, and they are the same that each had.
pub fn a_joined_seat_owns_the_entries_of_both<S: Logged>()
    ensures of_one { (one other both : SeatOf S S.Event) → Joined one other both
        → own (numbers one) (front both) ≡ own (numbers one) (front one) }
    ensures of_other { (one other both : SeatOf S S.Event) → Joined one other both
        → own (numbers other) (front both) ≡ own (numbers other) (front other) }
    ensures either { (one other both : SeatOf S S.Event) (entry : Entry S.Event)
        → Joined one other both → among (numbers both) entry.seat ≡ true
        ↔ ((among (numbers one) entry.seat ≡ true) ⊎ (among (numbers other) entry.seat ≡ true)) }
{}
