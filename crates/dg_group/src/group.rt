// What a group holds, and what a record makes of it.
ghost use Rattle.std.specs.Prelude.{[], ◌≡◌, IfOk, OnOk, OnErr, ℕ, List, Some, option_copied, option_map};
ghost use Rattle.dg_keys.specs.declared.record.Record.{Record};
ghost use Rattle.dg_zero.specs.declared.entry.Entry.{Entry};
ghost use Rattle.dg_zero.specs.Legal.{IsLegal};
ghost use Rattle.dg_zero.specs.Records.{next_record};
ghost use Rattle.dg_group.specs.Groups.{copy_of, group_after, CanApply};
ghost use Rattle.dg_group.specs.Stands.{IsInStep};
ghost use Rattle.dg_zero.specs.Exact.{AreExact};

use crate::Pinned;
use crate::applying::put_record;
use crate::copied::{Copied, find};
use dg_keys::Record;
use dg_store::Store;
use dg_values::{Mem, OutOfMemory};
use std::alloc::Global;
use std::marker::Model;
use std::sync::Arc;

/// What a group holds. Contracts see its number, the timestamp of the last record that it applied (0 before the first), and
/// its copies of tablets, ascending by predicate.
#[derive(Drop)]
pub struct GroupState {
    alloc: Global,
    number: u32,
    last: u64,
    copies: Arc<Vec<Copied>>,
}

impl Model for GroupState {
    ghost use Rattle.std.specs.Arc.{arc_value};
    ghost use Rattle.dg_group.specs.Groups.{Group, IsWhole};

    ghost Value = { Group };

    ghost view = { λ g. record { number = g.number; last = g.last; copies = (arc_value g.copies).items } };

    ghost invariant = { λ g. IsWhole (record { number = g.number; last = g.last; copies = (arc_value g.copies).items }) };
}

impl GroupState {
    /// A group that has applied nothing.
    pub fn new(alloc: Global, number: u32) -> Mem<GroupState>
        ensures { IfOk result (λ group. group ≡ record { number = number; last = 0; copies = [] }) }
    {
        Ok(GroupState {
            alloc,
            number,
            last: 0,
            copies: Arc::new(alloc, Vec::new(alloc))?,
        })
    }

    /// Applies the next record: it is given the tablets that are new at this group, and each copy that is read still gets one
    /// more layer for each part of its predicate. A record of one part changes its list in place, where no pin shares it.
    /// After an error nothing has changed.
    pub fn apply(&mut self, rec: &Record) -> Mem<()>
        requires next { CanApply self.old rec.now }
        ensures ok { OnOk result (self.new ≡ group_after self.old rec.now) }
        ensures err { OnErr result (self.new ≡ self.old) }
        ensures in_step { (n : ℕ) (history : List Entry) → IsLegal n history → AreExact history → IsInStep self.old history → next_record history self.old.last ≡ Some rec.now → OnOk result (IsInStep self.new history) }
    {
        put_record(self.alloc, &mut self.copies, self.number, rec)?;
        self.last = rec.ts;
        Ok(())
    }

    /// A pin that is equal to the group, and shares with it all that it holds. The error is want of memory.
    pub fn share(&self) -> Mem<Pinned>
        ensures { IfOk result (λ pinned. pinned ≡ self.now) }
    {
        let copies = Arc::try_clone(&self.copies)?;
        Ok(Pinned::new(self.number, self.last, copies))
    }

    /// The group's number.
    pub fn number(&self) -> u32
        ensures { result ≡ self.now.number }
    {
        self.number
    }

    /// The timestamp of the last record that was applied, and 0 before the first.
    pub fn last(&self) -> u64
        ensures { result ≡ self.now.last }
    {
        self.last
    }

    /// Up to where the copy of a predicate is merged. None exactly where there is no copy.
    pub fn rolled(&self, pred: &str) -> Option<u64>
        ensures { result ≡ option_map (λ copy. copy.mark) (copy_of self.now.copies pred.now) }
    {
        match find(self.copies.as_slice(), pred) {
            Some(copy) => Some(copy.mark),
            None => None,
        }
    }

    /// The lists of a predicate. None exactly where there is no copy.
    pub fn store(&self, pred: &str) -> Option<&Store>
        ensures { option_copied result ≡ option_map (λ copy. copy.store) (copy_of self.now.copies pred.now) }
    {
        match find(self.copies.as_slice(), pred) {
            Some(copy) => Some(&copy.store),
            None => None,
        }
    }
}
