// Making a lock and its callers.
ghost use Rattle.std.specs.Prelude.{◌≡◌, ◌+◌, ◌-◌, ◌<◌, [], ◌∷◌, Some, IfOk, IfErr, vec_capacity};
ghost use Rattle.dg_turn.specs.Rule.{idle, numbers_from};
ghost use Rattle.dg_turn.specs.Values.{new_caller, new_callers};

use crate::caller::Caller;
use crate::lock::Turn;
use crate::logged::Logged;
use crate::steps::FirstNumber;
use crate::view::View;
use atomic_table::{Refused, Seat, Table};
use std::alloc::{AllocError, Global};

impl<S: Logged> Turn<S> {
    /// A lock round the state, and so many callers, numbered from 0 in the order of the list. For want of memory the
    /// state is handed back.
    pub fn new(
        alloc: Global,
        state: S,
        callers: u32,
    ) -> Result<(Turn<S>, Vec<Caller<S>>), (AllocError, S)>
        requires some { 0 < callers }
        requires empty { S.history state ≡ [] }
        ensures callers { IfOk result (λ made. made.0.callers ≡ callers) }
        ensures numbered { IfOk result (λ made. made.1.items ≡ new_callers made.0.id 0 callers) }
        ensures back { IfErr result (λ refused. refused.1 ≡ state) }
    {
        let made = match Vec::with_capacity(alloc, callers as usize) {
            Ok(made) => made,
            Err(error) => return Err((error, state)),
        };
        let mut slots = match Vec::with_capacity(alloc, 1) {
            Ok(slots) => slots,
            Err(error) => return Err((error, state)),
        };
        slots.push_reserved(Some(state));
        match Table::new(alloc, &[0, 0], slots, &callers) {
            Ok((table, seat)) => {
                let turn = Turn { table };
                let made = turn.deal_all(seat, made, callers);
                Ok((turn, made))
            }
            Err(Refused { slots }) => Err((AllocError, only_state(slots))),
        }
    }

    // All callers, out of the first seat, which has all numbers.
    fn deal_all(
        &self,
        mut seat: Seat<Option<S>, View<S::Entry>>,
        mut made: Vec<Caller<S>>,
        callers: u32,
    ) -> Vec<Caller<S>>
        requires turn { (seat.table_id ≡ self.now.id) × (callers ≡ self.now.callers) }
        requires room { (made.items ≡ []) × (vec_capacity made ≡ callers) }
        requires left { seat.me ≡ (idle [] (numbers_from 0 callers), []) }
        ensures { result.items ≡ new_callers self.now.id 0 callers }
    {
        for number in 0..callers {
            made.push_reserved(self.deal(&mut seat, number));
        }
        made
    }

    // The caller with the least number that is left.
    fn deal(&self, seat: &mut Seat<Option<S>, View<S::Entry>>, number: u32) -> Caller<S>
        requires turn { (seat.old.table_id ≡ self.now.id) × (number < self.now.callers) }
        requires left { seat.old.me ≡ (idle [] (numbers_from number (self.now.callers - number)), []) }
        ensures turn { seat.new.table_id ≡ seat.old.table_id }
        ensures left { seat.new.me ≡ (idle [] (numbers_from (number + 1) (self.now.callers - (number + 1))), []) }
        ensures caller { result ≡ new_caller self.now.id number }
    {
        let seat = self.table.shared.split_seat::<FirstNumber>(seat);
        Caller { number, seat }
    }
}

// The state that was to be put into the slot.
fn only_state<S>(mut slots: Vec<Option<S>>) -> S
    requires { (y : S) × (slots.items ≡ Some y ∷ []) }
    ensures { slots.items ≡ Some result ∷ [] }
{
    match slots.pop() {
        Some(Some(state)) => {
            slots.destroy_empty();
            state
        }
        Some(None) | None => unreachable!(),
    }
}
