// One counter of timestamps, the active starts, and the keys of commits.
ghost use Rattle.std.specs.Bool.{OnFalse};
ghost use Rattle.std.specs.Prelude.{◌≡◌, ◌+◌, ◌-◌, ◌^◌, ◌<◌, ◌≤◌, ◌↔◌, [], ◌∷◌, ◌++◌, IsTrue, IfOk, OnOk, OnErr, IfErr, IfSome, IfNone};
ghost use Rattle.std.specs.List.Sorted.{IsSorted};
ghost use Rattle.dg_oracle.specs.Commits.{IsOracle, is_active, begun, committed, ended, two_drawn, first_start, below_first, purged};
ghost use Rattle.dg_oracle.specs.Faults.{IsFaultAt};
ghost use Rattle.dg_oracle.specs.Verdicts.{verdict, IsVerdict, HasSameVerdicts};

use crate::history::History;
use crate::{OracleFault, Verdict, judging, kept};
use std::alloc::{AllocError, Global};
use std::marker::Model;

// The least number that is no timestamp.
const SPENT: u64 = 1 << 62;

// Room for so many starts is had at once.
const FIRST_STARTS: usize = 16;

/// Draws start and commit timestamps from one counter, and judges the keys of commits. Timestamps are 1 to
/// 2^62 - 1. The purge line is 0 at first and never falls; starts and commits that are kept are above it.
#[derive(Drop)]
pub struct Oracle<K: Ord> {
    next: u64,
    active: Vec<u64>,
    commits: History<K>,
    line: u64,
}

impl<K: Ord> Model for Oracle<K> {
    ghost use Rattle.dg_oracle.specs.Commits.{OracleState, IsOracle};

    ghost Value = { OracleState K };

    ghost view = { λ o. record { next = o.next; active = o.active.items; commits = o.commits; line = o.line } };

    ghost invariant = { λ o. IsOracle (record { next = o.next; active = o.active.items; commits = o.commits; line = o.line }) };
}

impl<K: Ord> Oracle<K> {
    /// An oracle whose first timestamp is `next`, with no active transaction and no commit. The error is want of
    /// memory.
    pub fn starting_at(alloc: Global, next: u64) -> Result<Self, AllocError>
        requires first { 1 ≤ next }
        requires below { next ≤ 2 ^ 62 }
        ensures new { IfOk result (λ oracle. oracle ≡ record { next = next; active = []; commits = []; line = 0 }) }
        ensures valid { IfOk result IsOracle }
    {
        Ok(Oracle {
            next,
            active: Vec::with_capacity(alloc, FIRST_STARTS)?,
            commits: History::new(alloc),
            line: 0,
        })
    }

    /// Draws a start, and its transaction is active. After an error the oracle is as before.
    pub fn begin(&mut self) -> Result<u64, OracleFault>
        ensures start { IfOk result (λ start. start ≡ self.old.next) }
        ensures ok { OnOk result (self.new ≡ begun self.old) }
        ensures not_spent { OnOk result (self.old.next < 2 ^ 62) }
        ensures fault { IfErr result (IsFaultAt self.old.next) }
        ensures err { OnErr result (self.new ≡ self.old) }
        ensures valid { IsOracle self.new }
    {
        let next = self.next;
        if next >= SPENT {
            return Err(OracleFault::TimestampsSpent { next });
        }
        if self.active.push(next).is_err() {
            return Err(OracleFault::OutOfMemory);
        }
        self.next = next + 1;
        Ok(next)
    }

    /// The verdict on the ascending keys of a transaction with this start, over all commits above it. It takes no
    /// memory.
    pub fn judge(&self, start: u64, keys: &[K]) -> Verdict
        requires ascend { IsSorted K.cmp keys.now }
        requires line { self.now.line ≤ start }
        ensures verdict { result ≡ verdict K.cmp self.now.commits start keys.now }
        ensures meaning { IsVerdict K.cmp self.now.commits start keys.now result }
    {
        judging::judge(&self.commits, start, keys)
    }

    /// Ends a transaction, and says whether it was active. It takes no memory.
    pub fn end(&mut self, start: u64) -> bool
        ensures was_active { result ≡ is_active self.old.active start }
        ensures ended { self.new ≡ ended self.old start }
        ensures not_active { OnFalse result (self.new ≡ self.old) }
        ensures valid { IsOracle self.new }
    {
        let was_active = kept::is_active(self.active.as_slice(), start);
        kept::drop_start(&mut self.active, start);
        was_active
    }

    /// Draws two timestamps, or none where not both are left. It takes no memory.
    pub fn draw_two(&mut self) -> Option<(u64, u64)>
        ensures some { IfSome result (λ drawn. (drawn.0 ≡ self.old.next) × (drawn.1 ≡ self.old.next + 1) × (self.new ≡ two_drawn self.old)) }
        ensures not_spent { IfSome result (λ _. self.old.next < 2 ^ 62 - 1) }
        ensures none { IfNone result ((2 ^ 62 - 1 ≤ self.old.next) × (self.new ≡ self.old)) }
        ensures valid { IsOracle self.new }
    {
        let next = self.next;
        if next >= SPENT - 1 {
            return None;
        }
        self.next = next + 2;
        Some((next, next + 1))
    }

    /// The next timestamp that would be drawn.
    pub fn next(&self) -> u64
        ensures next { result ≡ self.now.next }
        ensures valid { IsOracle self.now }
    {
        self.next
    }

    /// The least active start; none exactly where no transaction is active.
    pub fn first_active(&self) -> Option<u64>
        ensures first { result ≡ first_start self.now.active }
        ensures valid { IsOracle self.now }
    {
        match self.active.first() {
            Some(start) => Some(*start),
            None => None,
        }
    }

    /// The line that a purge may take now: the number below the least active start, or, where no transaction is
    /// active, the last timestamp that was drawn, taken as the next one less 1. It is never below the purge line.
    pub fn line(&self) -> u64
        ensures line { result ≡ below_first self.now.active self.now.next }
        ensures not_below { self.now.line ≤ result }
        ensures valid { IsOracle self.now }
    {
        match self.active.first() {
            Some(start) => *start - 1,
            None => self.next - 1,
        }
    }
}

impl<K: Ord + Drop> Oracle<K> {
    /// Draws the commit timestamp of a transaction whose keys are clear, keeps the keys, and ends the transaction.
    /// An error hands the keys back and leaves the oracle as before, the transaction active.
    pub fn commit(&mut self, start: u64, keys: Vec<K>) -> Result<u64, (OracleFault, Vec<K>)>
        requires active { IsTrue (is_active self.old.active start) }
        requires ascend { IsSorted K.cmp keys.items }
        requires clear { verdict K.cmp self.old.commits start keys.items ≡ Verdict.Clear }
        ensures ts { IfOk result (λ ts. ts ≡ self.old.next) }
        ensures ok { OnOk result (self.new ≡ committed self.old start keys.items) }
        ensures not_spent { OnOk result (self.old.next < 2 ^ 62) }
        ensures fault { IfErr result (λ e. IsFaultAt self.old.next e.0) }
        ensures back { IfErr result (λ e. e.1.items ≡ keys.items) }
        ensures err { OnErr result (self.new ≡ self.old) }
        ensures valid { IsOracle self.new }
    {
        let next = self.next;
        if next >= SPENT {
            return Err((OracleFault::TimestampsSpent { next }, keys));
        }
        match self.commits.push(next, keys) {
            Err(keys) => Err((OracleFault::OutOfMemory, keys)),
            Ok(()) => {
                kept::drop_start(&mut self.active, start);
                self.next = next + 1;
                Ok(next)
            }
        }
    }

    /// Raises the purge line to this one, where it is below, and forgets the commits at or below it, which no active
    /// transaction can meet: from the line on, verdicts are as before. It takes no memory, and no time where the line
    /// isn't below.
    pub fn purge(&mut self, line: u64)
        requires { line ≤ below_first self.old.active self.old.next }
        ensures purged { self.new ≡ purged self.old line }
        ensures same_verdicts { HasSameVerdicts K.cmp self.new.line self.new.commits self.old.commits }
        ensures valid { IsOracle self.new }
    {
        if line <= self.line {
            return;
        }
        self.commits.drop_up_to(line);
        self.line = line;
    }
}
