// A turn: it is taken where it is free, or waited for; then the value is taken out, the call runs on it, the value is put
// back, and the turn is given back.
ghost use Rattle.std.specs.Prelude.{◌≡◌, ℕ, [], ◌++◌, true, false};
ghost use Rattle.turn_lock.specs.Fronts.{among, events};
ghost use Rattle.turn_lock.specs.Seats.{front, numbers, IsSeatOf, IsSame, HoldsValue, Turned};
ghost use Rattle.turn_lock.specs.Steps.{after_turn, Took};

use crate::lock::{MOST_LOOKS, Seat, TURNS, TurnLock, VALUE};
use crate::logged::{Logged, TurnCall};
use crate::plays::{Give, Made, Peek, Try};
use std::hint::spin_loop;
use std::marker::Brand;
use std::snapshot::Snapshot;
use std::sync::Wait;

impl<S: Logged> TurnLock<S> {
    // Takes the turn, unless another has it, or takes it between the look and the try.
    fn try_turn(&self, seat: &mut Seat<S>) -> bool
        requires { IsSeatOf self.now seat.old }
        ensures same { IsSame seat.old seat.new }
        ensures took { result ≡ true → Took S.stands seat.old.me seat.new.me }
        ensures missed { result ≡ false → seat.new.me ≡ seat.old.me }
    {
        let turns = self.table.shared.load::<Peek>(seat, TURNS);
        if turns % 2 == 1 {
            return false;
        }
        let found = self
            .table
            .shared
            .compare_exchange::<Try>(seat, TURNS, turns, turns + 1);
        found == turns
    }

    // Takes the turn, which others may have. Looks some times before it sleeps, since most turns are shorter than it takes to
    // sleep and to be woken.
    fn await_turn<R: Wait>(&self, rt: &R, seat: &mut Seat<S>)
        requires { IsSeatOf self.now seat.old }
        ensures same { IsSame seat.old seat.new }
        ensures took { Took S.stands seat.old.me seat.new.me }
    {
        for _ in 0..MOST_LOOKS {
            if self.try_turn(seat) {
                return;
            }
            spin_loop();
        }
        self.bell.begin_wait();
        self.sleep_for_turn(rt, seat);
        self.bell.end_wait();
    }

    // Takes the turn, and sleeps while others have it. The bell is read before the turn is looked at, so that a turn which is
    // given back behind the look is heard.
    fn sleep_for_turn<R: Wait>(&self, rt: &R, seat: &mut Seat<S>)
        requires { IsSeatOf self.now seat.old }
        ensures same { IsSame seat.old seat.new }
        ensures took { Took S.stands seat.old.me seat.new.me }
    {
        for _ in rt.forever() {
            let count = self.bell.count();
            if self.try_turn(seat) {
                return;
            }
            self.bell.sleep(rt, count);
        }
        unreachable!()
    }

    // Takes the value out of the slot, runs the call on it, and puts it back.
    fn serve<C: TurnCall<S>>(&self, seat: &mut Seat<S>, call: &mut C) -> C::Reply
        requires table { seat.old.table_id ≡ self.now.table.shared.table_id }
        requires value { HoldsValue S.stands seat.old (events (front seat.old)) }
        ensures same { IsSame seat.old seat.new }
        ensures view { seat.new.me.0 ≡ seat.old.me.0 }
        ensures value { HoldsValue S.stands seat.new (C.entries call.old result
            ++ events (front seat.old)) }
        ensures gives { C.gives call.old (events (front seat.old)) result call.new }
    {
        let mut state = self.table.shared.exchange(seat, VALUE, None).unwrap();
        let reply = call.run(&mut state);
        let left = self.table.shared.exchange(seat, VALUE, Some(state));
        let None = left else { unreachable!() };
        reply
    }

    // Gives the turn back, with the entries of the events that the call made, and wakes one who sleeps, if anyone waits.
    fn give_back<N: Made<S::Event>, C: TurnCall<S>>(
        &self,
        seat: &mut Seat<S>,
        _before: &Snapshot<C>,
        _reply: &C::Reply,
    )
        requires table { seat.old.table_id ≡ self.now.table.shared.table_id }
        requires events { N.events ≡ C.entries _before.now.value _reply.now }
        requires value { HoldsValue S.stands seat.old
            (C.entries _before.now.value _reply.now ++ events (front seat.old)) }
        requires numbered { (number : ℕ) × (among (numbers seat.old) number ≡ true) }
        ensures same { IsSame seat.old seat.new }
        ensures gave { seat.new.me
            ≡ (after_turn seat.old.me.0 (C.entries _before.now.value _reply.now), []) }
    {
        self.table.shared.fetch_add::<Give<N>>(seat, TURNS, 1);
        self.bell.ring();
    }

    /// One turn: waits until nobody has it, and then runs the call on the value. May wait for ever.
    ///
    /// The seat's front afterwards goes on from the one that came, by others' entries and at last the call's own, one for
    /// each event that it made. The reply is what the call gives on a value that stands for all before these entries.
    pub fn with_turn<C: TurnCall<S>>(
        &self,
        rt: &impl Wait,
        mut seat: Seat<S>,
        call: &mut C,
    ) -> (Seat<S>, C::Reply)
        requires { IsSeatOf self.now seat }
        ensures seat { IsSeatOf self.now result.0 }
        ensures turned { Turned (C.entries call.old result.1)
            (λ history. C.gives call.old history result.1 call.new) seat result.0 }
    {
        self.await_turn(rt, &mut seat);
        let before = Snapshot::of(call);
        let reply = self.serve(&mut seat, call);
        self.give_back::<Brand, C>(&mut seat, &before, &reply);
        (seat, reply)
    }
}
