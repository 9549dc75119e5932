// The end of a lock: all callers are given back for the state.
ghost use Rattle.std.specs.Prelude.{◌≡◌, ℕ, ◌<◌, length};
ghost use Rattle.dg_turn.specs.History.{AuthorsBelow};
ghost use Rattle.dg_turn.specs.Seats.{IsIdle, Gathered, Ends};
ghost use Rattle.dg_turn.specs.Values.{OfTurn, BeginsWithEach, HavePlaces, EachAscends, owners};

use crate::caller::Caller;
use crate::lock::{HOME, Turn};
use crate::logged::Logged;
use crate::view::View;
use atomic_table::Seat;

impl<S: Logged> Turn<S> {
    /// The state, for all of its callers. It doesn't wait: with all callers here, none has the state or waits for it.
    pub fn close(self, mut callers: Vec<Caller<S>>) -> S
        requires all { length callers.items ≡ self.callers }
        requires turn { OfTurn self.id callers.items }
        ensures begins { BeginsWithEach (S.history result) callers.items }
        ensures authors { AuthorsBelow S.author self.callers (S.history result) }
        ensures mine { HavePlaces S.author (S.history result) callers.items }
        ensures ascend { EachAscends callers.items }
        ensures places { (i : ℕ) → i < length (S.history result) → owners i callers.items ≡ 1 }
    {
        match callers.pop() {
            None => unreachable!(),
            Some(last) => {
                let Caller {
                    number: _,
                    mut seat,
                } = last;
                self.gather(&mut seat, callers);
                self.into_state(seat)
            }
        }
    }

    // The seat has then seen what all of these callers had seen, and has their numbers.
    fn gather(&self, seat: &mut Seat<Option<S>, View<S::Entry>>, mut callers: Vec<Caller<S>>)
        requires turn { (seat.old.table_id ≡ self.now.id) × OfTurn self.now.id callers.items }
        requires idle { IsIdle seat.old.me }
        ensures turn { seat.new.table_id ≡ seat.old.table_id }
        ensures gathered { Gathered seat.old.me callers.items seat.new.me }
    {
        while let Some(caller) = callers.pop() {
            let Caller {
                number: _,
                seat: other,
            } = caller;
            self.merge(seat, other);
        }
        callers.destroy_empty();
    }

    // The state, for a seat with the numbers of all callers.
    fn into_state(self, seat: Seat<Option<S>, View<S::Entry>>) -> S
        requires turn { seat.table_id ≡ self.id }
        requires all { IsIdle seat.me × (length seat.me.0.numbers ≡ self.callers) }
        ensures { Ends S.history S.author self.callers seat.me result }
    {
        let Turn { table } = self;
        let mut closed = table.close_with(seat);
        let slot = closed.take(HOME);
        closed.free();
        match slot {
            Some(state) => state,
            None => unreachable!(),
        }
    }
}
