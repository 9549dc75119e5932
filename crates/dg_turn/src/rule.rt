// The rule that the lock's words, slot and seats keep between any two steps.
use crate::logged::Logged;
use crate::view::View;
use atomic_table::TableRule;
use std::marker::PhantomData;

// The rule of a lock. It stands in types alone.
pub struct TurnRule<S> {
    of: PhantomData<S>,
}

impl<S: Logged> TableRule<Option<S>, View<S::Entry>, u32> for TurnRule<S> {
    ghost use Rattle.dg_turn.specs.Rule.{Rule, first_view};

    ghost holds = { Rule S.history S.author };

    ghost first = { first_view };
}
