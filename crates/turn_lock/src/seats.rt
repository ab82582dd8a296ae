// The calls on seats that don't wait.
ghost use Rattle.std.specs.Prelude.{◌≡◌, [], ◌∷◌, IfOk, IfErr};
ghost use Rattle.turn_lock.specs.Seats.{front, numbers, IsSeatOf, Parted, Joined};

use crate::lock::{Seat, TURNS, TurnLock};
use crate::logged::Logged;
use crate::plays::{Cut, Enter, Settle, Tell, Weigh};
use crate::turn_bell::TurnBell;
use atomic_table::{Refused, Table};
use std::alloc::{AllocFailed, Global};

impl<S: Logged> TurnLock<S> {
    /// A lock round a value that stands for no event, and its first seat. Where memory is short the value comes back.
    pub fn new(alloc: Global, state: S) -> Result<(TurnLock<S>, Seat<S>), S>
        requires { S.stands [] state }
        ensures seat { IfOk result (λ made. IsSeatOf made.0 made.1) }
        ensures front { IfOk result (λ made. front made.1 ≡ []) }
        ensures number { IfOk result (λ made. numbers made.1 ≡ 0 ∷ []) }
        ensures err { IfErr result (λ back. back ≡ state) }
    {
        let mut slots = Vec::new(alloc);
        if let Err(AllocFailed { value }) = slots.push(Some(state)) {
            slots.destroy_empty();
            return Err(value.unwrap());
        }
        match Table::new(alloc, &[0], slots, &()) {
            Ok((table, seat)) => {
                let bell = TurnBell::new();
                Ok((TurnLock { table, bell }, seat))
            }
            Err(Refused { mut slots }) => {
                let state = slots.pop().unwrap().unwrap();
                slots.destroy_empty();
                Err(state)
            }
        }
    }

    /// Two seats with the front of the one that came: it keeps its numbers, and the other has a new number. It takes
    /// no memory and doesn't wait.
    pub fn split(&self, mut seat: Seat<S>) -> (Seat<S>, Seat<S>)
        requires { IsSeatOf self.now seat }
        ensures one { IsSeatOf self.now result.0 }
        ensures other { IsSeatOf self.now result.1 }
        ensures parted { Parted seat result.0 result.1 }
    {
        // No step sees how many seats there are, so the number is made by a seat that comes. It is noted in this one,
        // which learns that the number is new and has no entries; then it is cut off again, with the front.
        let (_, note) = self.table.shared.load_new_seat::<Enter>(TURNS);
        self.table.shared.join_seat::<Tell>(&mut seat, note);
        self.table.shared.load::<Weigh>(&mut seat, TURNS);
        let other = self.table.shared.split_seat::<Cut>(&mut seat);
        (seat, other)
    }

    /// One seat of two: it has the longer front, and the numbers of both. It takes no memory and doesn't wait.
    pub fn join(&self, mut a: Seat<S>, b: Seat<S>) -> Seat<S>
        requires one { IsSeatOf self.now a }
        requires other { IsSeatOf self.now b }
        ensures seat { IsSeatOf self.now result }
        ensures joined { Joined a b result }
    {
        self.table.shared.join_seat::<Tell>(&mut a, b);
        self.table.shared.load::<Settle>(&mut a, TURNS);
        a
    }
}
