// Blocks that have run or were found, in their order, and the same places as a front of all places and a set.
ghost use Rattle.std.specs.Prelude.{◌≡◌, [], ◌∷◌, ◌++◌, OnOk, slice_get};
ghost use Rattle.dg_check.specs.Cycles.{is_place_in};

use dg_values::{Mem, OutOfMemory};
use std::alloc::Global;
use std::collections::BTreeSet;
use std::marker::Model;

/// The places of blocks that have run, or that were found. Contracts see them in their order.
#[derive(Drop)]
pub struct Ran {
    order: Vec<usize>,
    // The blocks before this one are there. They aren't put into the set, so that blocks which run in turn take no memory there.
    turn: usize,
    places: BTreeSet<usize>,
}

impl Model for Ran {
    ghost use Rattle.std.specs.Prelude.{◌≡◌, ◌||◌, List, ℕ, nat_lt};
    ghost use Rattle.std.specs.BTreeSet.{contains};
    ghost use Rattle.std.specs.Ordering.{nat_cmp};
    ghost use Rattle.dg_check.specs.Cycles.{is_place_in};

    ghost Value = { List ℕ };

    ghost view = { λ ran. ran.order.items };

    ghost invariant = { λ ran. (at : ℕ) → (nat_lt at ran.turn || contains nat_cmp ran.places at) ≡ is_place_in ran.order.items at };
}

impl Ran {
    /// No block.
    pub fn none(alloc: Global) -> Ran
        ensures { result ≡ [] }
    {
        Ran {
            order: Vec::new(alloc),
            turn: 0,
            places: BTreeSet::new(alloc),
        }
    }

    /// Whether a block has run. It looks by halves among those that ran out of turn.
    pub fn has(&self, at: usize) -> bool
        ensures { result ≡ is_place_in self.now at }
    {
        at < self.turn || self.places.contains(&at)
    }

    /// One block more has run. Where there is no memory the blocks stay as they are.
    pub fn push(&mut self, at: usize) -> Mem<()>
        ensures { OnOk result (self.new ≡ self.old ++ at ∷ []) }
    {
        self.order.push(at)?;
        if at == self.turn && at < usize::MAX {
            self.turn = at + 1;
            return Ok(());
        }
        match self.places.insert(at) {
            Ok(_) => Ok(()),
            Err(_) => {
                self.order.pop();
                Err(OutOfMemory)
            }
        }
    }

    /// The block at a place of the order, where there is one.
    pub fn get(&self, i: usize) -> Option<usize>
        ensures { result ≡ slice_get self.now i }
    {
        self.order.as_slice().get(i).copied()
    }

    /// The places, in the order in which the blocks ran.
    pub fn as_slice(&self) -> &[usize]
        ensures { result.now ≡ self.now }
    {
        self.order.as_slice()
    }

    /// The places, in the order in which the blocks ran.
    pub fn into_order(self) -> Vec<usize>
        ensures { result.items ≡ self }
    {
        let Ran { order, .. } = self;
        order
    }
}
