// What each atomic step tells, and how views are cut and joined. These types are for the proofs alone.
ghost use Rattle.turn_lock.specs.Rule.{spent};
ghost use Rattle.turn_lock.specs.Steps.{entered, peeked, tried, gave, weighed, settled, told_of, kept, cut};

use crate::logged::Logged;
use crate::views::View;
use atomic_table::{Join, Play, Split};
use std::marker::{Brand, PhantomData};

// A seat comes.
pub(crate) struct Enter;

impl<S, E> Play<Option<S>, View<E>> for Enter {
    ghost then = { entered };
}

// A seat looks whether the turn is free.
pub(crate) struct Peek;

impl<S, E> Play<Option<S>, View<E>> for Peek {
    ghost then = { peeked };
}

// A seat tries to take the turn.
pub(crate) struct Try;

impl<S: Logged> Play<Option<S>, View<S::Event>> for Try {
    ghost then = { tried S.stands };
}

// The events that a turn made, the newest first. Who gives the turn back picks them.
pub(crate) trait Made<E> {
    ghost use Rattle.std.specs.Prelude.{List};

    ghost events: { List E };
}

impl<E> Made<E> for Brand {
    ghost use Rattle.std.specs.Prelude.{[]};

    ghost events = { [] };
}

// A seat gives the turn back.
pub(crate) struct Give<N> {
    marker: PhantomData<N>,
}

impl<S, E, N: Made<E>> Play<Option<S>, View<E>> for Give<N> {
    ghost then = { gave N.events };
}

// A seat compares what it has seen with what it was told.
pub(crate) struct Weigh;

impl<S, E> Play<Option<S>, View<E>> for Weigh {
    ghost then = { weighed };
}

// A seat makes what it was told its own.
pub(crate) struct Settle;

impl<S, E> Play<Option<S>, View<E>> for Settle {
    ghost then = { settled };
}

// A seat is told what another has seen.
pub(crate) struct Tell;

impl<E> Join<View<E>> for Tell {
    ghost both = { told_of };

    ghost spent = { spent };
}

// The numbers that a seat was told are cut off.
pub(crate) struct Cut;

impl<E> Split<View<E>> for Cut {
    ghost left = { kept };

    ghost right = { cut };
}
