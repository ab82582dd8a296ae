// What a seat knows of the history, and the rule of the lock's table. No value of these types is ever made: they are
// for contracts and proofs alone.

use crate::logged::Logged;
use atomic_table::TableRule;
use std::collections::LinkedList;
use std::marker::PhantomData;

/// What happened, and the number of the seat that did it.
pub struct Entry<E> {
    pub seat: u64,
    pub event: E,
}

/// A front of the history, and numbers whose entries all stand in it.
pub struct Sight<E> {
    pub front: LinkedList<Entry<E>>,
    pub numbers: LinkedList<u64>,
}

/// Whether a seat has the turn.
pub enum Stage {
    Outside,
    HasTurn,
}

/// What a seat has seen, and what it was told of another seat that it took in.
pub struct View<E> {
    pub seen: Sight<E>,
    pub told: Sight<E>,
    pub stage: Stage,
}

/// The rule of a turn lock, in `specs/Rule.antt`.
pub struct Turns<S> {
    marker: PhantomData<S>,
}

impl<S: Logged> TableRule<Option<S>, View<S::Event>, ()> for Turns<S> {
    ghost use Rattle.turn_lock.specs.Rule.{Ruled, newcomer};

    ghost holds = { λ _. Ruled S.stands };

    ghost first = { λ _. newcomer 0 };
}
