// The state in the hands of the caller whose turn it is.
use crate::logged::Logged;
use crate::view::View;
use atomic_table::Seat;
use std::marker::Model;

/// The state, with the caller whose turn it is. Contracts see the caller as it was when the state was taken, with the
/// whole history of that moment seen, and the state as it is now. It can't be dropped: `Turn::finish` takes it.
pub struct Held<S: Logged> {
    pub(crate) number: u32,
    pub(crate) seat: Seat<Option<S>, View<S::Entry>>,
    pub(crate) state: S,
}

impl<S: Logged> Model for Held<S> {
    ghost use Rattle.std.specs.Prelude.{◌≡◌, [], ◌∷◌, List, ℕ, None};
    ghost use Rattle.dg_turn.specs.Values.{HeldValue};
    ghost use Rattle.dg_turn.specs.History.{places_of};
    ghost use Rattle.dg_turn.specs.Rule.{view_of};
    ghost use Rattle.dg_turn.specs.declared.view.Stage.TheVariants.{InTurn};

    ghost Value = { HeldValue S S.Entry };

    ghost view = { λ c. record { turn = c.seat.table_id; number = c.number; seen = c.seat.me.0.seen; mine = places_of S.author c.seat.me.0.seen c.number; state = c.state } };

    ghost invariant = { λ c. c.seat.me ≡ (view_of c.seat.me.0.seen [] ((c.number, places_of S.author c.seat.me.0.seen c.number) ∷ []) InTurn c.seat.me.0.ticket, (0, None) ∷ []) };
}
