// Laws of the definitions, each the contract of a function that does nothing.
ghost use Rattle.std.specs.Prelude.{◌≡◌, ◌≢◌, ◌<◌, ◌≤◌, ℕ, List, Option, None, Some, length, true};
ghost use Rattle.client_doors.specs.declared.address.Address.{Address};
ghost use Rattle.client_doors.specs.declared.limits.Limits.{Limits};
ghost use Rattle.client_doors.specs.declared.wrongs.Guesser.{Guesser};
ghost use Rattle.client_doors.specs.declared.wrongs.TheConstants.{MOST_ADDRESSES};
ghost use Rattle.client_doors.specs.Inside.{count_of};
ghost use Rattle.client_doors.specs.Wrongs.{after_wrong, is_recent, rest_of, times_of, wait_of};
ghost use Rattle.client_doors.specs.Minutes.{IsTimely, last_time, wrongs_of};
ghost use Rattle.client_doors.specs.Histories.{Entry, Seen, came, is_let_in, left, seen_of};

/// Whatever happened, no more are inside than the limits say, in all and of each address; and no more addresses are
/// remembered for their wrong answers than 4,096.
pub fn no_more_are_inside()
    ensures clients { (limits : Limits) (history : List Entry)
        → length (seen_of limits history).inside ≤ limits.clients }
    ensures per_address { (limits : Limits) (history : List Entry) (a : Address)
        → count_of (Some a) (seen_of limits history).inside ≤ limits.per_address }
    ensures remembered { (limits : Limits) (history : List Entry)
        → length (seen_of limits history).guessers ≤ MOST_ADDRESSES }
{}

/// Whatever happened, a client is let in where fewer are inside than the limits say, in all and of its address, if it has
/// one.
pub fn who_is_under_the_limits_is_let_in()
    ensures address { (limits : Limits) (history : List Entry) (a : Address)
        → length (seen_of limits history).inside < limits.clients
        → count_of (Some a) (seen_of limits history).inside < limits.per_address
        → is_let_in (Some a) (seen_of limits history) ≡ true }
    ensures no_address { (limits : Limits) (history : List Entry)
        → length (seen_of limits history).inside < limits.clients
        → is_let_in None (seen_of limits history) ≡ true }
{}

/// Who comes and goes of one address isn't counted for another. Nor are its wrong answers, as long as the other's last one is
/// within the last minute and fewer than 4,096 addresses are remembered.
pub fn others_do_not_count()
    ensures came { (seen : Seen) (a b : Address) → a.bits ≢ b.bits
        → count_of (Some a) (came (Some b) seen).inside ≡ count_of (Some a) seen.inside }
    ensures left { (seen : Seen) (a b : Address) → a.bits ≢ b.bits
        → count_of (Some a) (left (Some b) seen).inside ≡ count_of (Some a) seen.inside }
    ensures wronged { (guessers : List Guesser) (a b : Address) (now : ℕ) → a.bits ≢ b.bits
        → is_recent now (times_of a guessers) ≡ true → length guessers < MOST_ADDRESSES
        → times_of a (after_wrong b now guessers) ≡ times_of a guessers }
{}

/// As long as the clock doesn't fall and fewer than 4,096 addresses are remembered, an address waits by all the wrong answers
/// that it ever gave: until a minute has gone by since the 20th last of them.
pub fn waits_are_by_all_that_happened()
    ensures { (limits : Limits) (history : List Entry) (a : Address) (now : ℕ)
        → IsTimely limits history → last_time history ≤ now
        → wait_of (Some a) now (seen_of limits history).guessers
        ≡ rest_of (wrongs_of a history) now }
{}
