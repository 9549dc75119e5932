// The kinds of step of the lock's seats, and what each tells its seat. Taking the state out of the slot and putting it
// back are plain exchanges, of which no other seat is told.
ghost use Rattle.dg_turn.specs.Seats.{noted, without_first, first_only, joined, spent, impossible};
ghost use Rattle.dg_turn.specs.Steps.{drew, loaded, added, learned, never};

use crate::logged::Logged;
use crate::view::View;
use atomic_table::{Join, Play, Split};

// An add to the ticket word: the seat has the ticket.
pub struct Draw;

impl<S, E> Play<Option<S>, View<E>> for Draw {
    ghost then = { drew };
}

// A load of the serving word: where it is the seat's ticket, the seat is in turn and has the slot.
pub struct Load;

impl<S: Logged> Play<Option<S>, View<S::Entry>> for Load {
    ghost then = { loaded S.history S.author };
}

// An add to the serving word: the slot goes back with the state, whose last entry is now part of the history.
pub struct Add;

impl<S: Logged> Play<Option<S>, View<S::Entry>> for Add {
    ghost then = { added S.history S.author };
}

// A load of the ticket word after a join: the longer of what was seen and what was told is seen.
pub struct Learn;

impl<S: Logged> Play<Option<S>, View<S::Entry>> for Learn {
    ghost then = { learned S.history S.author };
}

// A split: the new seat has seen the same, and has no number.
pub struct SeenAlone;

impl<E> Split<View<E>> for SeenAlone {
    ghost left = { λ v. v };

    ghost right = { noted };
}

// A split: the new seat has the first number, and the old one the others.
pub struct FirstNumber;

impl<E> Split<View<E>> for FirstNumber {
    ghost left = { without_first };

    ghost right = { first_only };
}

// A join: the first seat is told what the second has seen, and has its numbers too.
pub struct TellAll;

impl<E> Join<View<E>> for TellAll {
    ghost both = { joined };

    ghost spent = { spent };
}

// Three kinds that are made in the law on two held states alone, and so never: a split whose new seat has all that the
// old one had, a join of two seats in turn, and the load after it.
pub struct HandOver;

impl<E> Split<View<E>> for HandOver {
    ghost left = { λ v. spent };

    ghost right = { λ v. v };
}

pub struct BothInTurn;

impl<E> Join<View<E>> for BothInTurn {
    ghost both = { λ v w. impossible };

    ghost spent = { spent };
}

pub struct Never;

impl<S, E> Play<Option<S>, View<E>> for Never {
    ghost then = { never };
}
