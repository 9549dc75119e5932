// The lock: taking the state and giving it back.
ghost use Rattle.std.specs.Prelude.{◌≡◌, ◌+◌, ◌++◌, ◌∷◌, [], length, Some, MatchBool};
ghost use mathlib.Core.List.{IsPrefix};
ghost use Rattle.dg_turn.specs.History.{places_of, GrewByOthers, GrewByOne, Ascend};
ghost use Rattle.dg_turn.specs.Seats.{IsWaiting};
ghost use Rattle.dg_turn.specs.Steps.{Enters};

use crate::caller::Caller;
use crate::held::Held;
use crate::logged::Logged;
use crate::rule::TurnRule;
use crate::steps::{Add, Draw, Load};
use crate::view::View;
use atomic_table::{Seat, Table};
use std::alloc::Global;
use std::marker::Model;
use std::sync::Wait;
use std::thread::yield_now;

// The words and the slot of the table of a lock.
pub const TICKET: usize = 0;

pub const SERVING: usize = 1;

pub const HOME: usize = 0;

/// A state behind a ticket word, a serving word and a slot. Contracts see which lock it is, and how many callers were
/// made for it. Both words count modulo 2^64, and the history has no bound.
#[derive(Drop)]
pub struct Turn<S: Logged> {
    pub(crate) table: Table<Option<S>, View<S::Entry>, u32, TurnRule<S>, Global>,
}

impl<S: Logged> Model for Turn<S> {
    ghost use Rattle.std.specs.Prelude.{◌≡◌, ◌<◌, ◌^◌};
    ghost use Rattle.dg_turn.specs.Values.{TurnValue};

    ghost Value = { TurnValue };

    ghost view = { λ t. record { id = t.table.shared.table_id; callers = t.table.shared.key } };

    ghost invariant = { λ t. (0 < t.table.shared.key) × (t.table.shared.key < 2 ^ 32) × (t.table.shared.table_id.words ≡ 2) × (t.table.shared.table_id.slots ≡ 1) };
}

impl<S: Logged> Turn<S> {
    /// Waits for the caller's turn, and takes the state. The state's history begins with all that the caller had seen,
    /// and what is new was made by others.
    pub fn take<R: Wait>(&self, rt: &R, caller: Caller<S>) -> Held<S>
        requires { caller.turn ≡ self.now.id }
        ensures turn { result.turn ≡ caller.turn }
        ensures number { result.number ≡ caller.number }
        ensures state { S.history result.state ≡ result.seen }
        ensures seen { IsPrefix caller.seen result.seen }
        ensures others { GrewByOthers S.author caller.number caller.seen result.seen }
        ensures same { result.mine ≡ caller.mine }
        ensures mine { result.mine ≡ places_of S.author result.seen result.number }
        ensures ascend { Ascend result.mine }
    {
        let Caller { number, mut seat } = caller;
        let ticket = self.table.shared.fetch_add::<Draw>(&mut seat, TICKET, 1);
        self.wait(rt, &mut seat, ticket);
        match self.table.shared.exchange(&mut seat, HOME, None) {
            Some(state) => Held {
                number,
                seat,
                state,
            },
            None => unreachable!(),
        }
    }

    // Waits until the ticket is served, and takes the slot.
    fn wait<R: Wait>(&self, rt: &R, seat: &mut Seat<Option<S>, View<S::Entry>>, ticket: u64)
        requires turn { seat.old.table_id ≡ self.now.id }
        requires waits { IsWaiting seat.old.me ticket }
        ensures turn { seat.new.table_id ≡ seat.old.table_id }
        ensures enters { Enters S.history S.author seat.old.me seat.new.me }
    {
        for _ in rt.forever() {
            if self.look(seat, ticket) {
                return;
            }
            yield_now();
        }
        unreachable!()
    }

    // Reads the serving word, and takes the slot where the ticket is served.
    fn look(&self, seat: &mut Seat<Option<S>, View<S::Entry>>, ticket: u64) -> bool
        requires turn { seat.old.table_id ≡ self.now.id }
        requires waits { IsWaiting seat.old.me ticket }
        ensures turn { seat.new.table_id ≡ seat.old.table_id }
        ensures enters { MatchBool result (Enters S.history S.author seat.old.me seat.new.me) (seat.new.me ≡ seat.old.me) }
    {
        self.table.shared.load::<Load>(seat, SERVING) == ticket
    }

    /// Gives the state back, with one entry more, and ends the turn. The caller has then seen the whole history, and
    /// the last entry is the newest of its own.
    pub fn finish(&self, held: Held<S>) -> Caller<S>
        requires turn { held.turn ≡ self.now.id }
        requires entry { GrewByOne S.author held.number held.seen (S.history held.state) }
        ensures turn { result.turn ≡ held.turn }
        ensures number { result.number ≡ held.number }
        ensures seen { result.seen ≡ S.history held.state }
        ensures last { length result.seen ≡ length held.seen + 1 }
        ensures newest { result.mine ≡ held.mine ++ length held.seen ∷ [] }
        ensures mine { result.mine ≡ places_of S.author result.seen result.number }
        ensures ascend { Ascend result.mine }
    {
        let Held {
            number,
            mut seat,
            state,
        } = held;
        match self.table.shared.exchange(&mut seat, HOME, Some(state)) {
            None => {}
            Some(_) => unreachable!(),
        }
        self.table.shared.fetch_add::<Add>(&mut seat, SERVING, 1);
        Caller { number, seat }
    }
}
