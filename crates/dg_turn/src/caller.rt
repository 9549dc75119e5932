// Callers of a lock, and notes of what they have seen.
ghost use Rattle.std.specs.Prelude.{◌≡◌};

use crate::logged::Logged;
use crate::view::View;
use atomic_table::Seat;
use std::marker::Model;

/// One caller of a lock. Contracts see which lock it is of, the caller's number, the history that it has seen, and
/// the places of its own entries in it.
#[derive(Drop)]
pub struct Caller<S: Logged> {
    pub(crate) number: u32,
    pub(crate) seat: Seat<Option<S>, View<S::Entry>>,
}

impl<S: Logged> Model for Caller<S> {
    ghost use Rattle.std.specs.Prelude.{◌≡◌, [], List, ℕ};
    ghost use Rattle.dg_turn.specs.Values.{CallerValue};
    ghost use Rattle.dg_turn.specs.History.{places_of};
    ghost use Rattle.dg_turn.specs.Seats.{caller_view};

    ghost Value = { CallerValue S.Entry };

    ghost view = { λ c. record { turn = c.seat.table_id; number = c.number; seen = c.seat.me.0.seen; mine = places_of S.author c.seat.me.0.seen c.number } };

    ghost invariant = { λ c. c.seat.me ≡ (caller_view c.seat.me.0.seen c.number (places_of S.author c.seat.me.0.seen c.number), []) };
}

impl<S: Logged> Caller<S> {
    /// The caller's number. Callers of one lock are numbered from 0.
    pub fn number(&self) -> u32
        ensures { result ≡ self.now.number }
    {
        self.number
    }
}

/// What a caller had seen when the note was made, for another caller of the same lock. Contracts see the lock and
/// that history.
#[derive(Drop)]
pub struct Note<S: Logged> {
    pub(crate) seat: Seat<Option<S>, View<S::Entry>>,
}

impl<S: Logged> Model for Note<S> {
    ghost use Rattle.std.specs.Prelude.{◌≡◌, [], List, ℕ};
    ghost use Rattle.dg_turn.specs.Values.{NoteValue};
    ghost use Rattle.dg_turn.specs.Rule.{idle};

    ghost Value = { NoteValue S.Entry };

    ghost view = { λ c. record { turn = c.seat.table_id; seen = c.seat.me.0.seen } };

    ghost invariant = { λ c. c.seat.me ≡ (idle c.seat.me.0.seen [], []) };
}
