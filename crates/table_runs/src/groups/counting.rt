// The state and its groups, with what may be asked of them.
ghost use Rattle.std.specs.Prelude.{◌≡◌, ◌≢◌, ◌+◌, [], true, IfOk};
ghost use Rattle.std.specs.Arc.{arc_value};
ghost use Rattle.dg_zero.specs.Offers.{IsSound, IsMadeOf};
ghost use Rattle.dg_zero.specs.Worlds.{schema_at, graph_at};
ghost use Rattle.table_runs.specs.Opened.{HasBegun, StayOpen, ends};

use crate::groups::fault::{Answer, Fault};
use crate::groups::starts::{Start, drop_ended, drop_start, is_active_of, may_end};
use dg_group::Pinned;
use dg_node::{Cluster, ClusterFault, Owned};
use dg_schema::Schema;
use dg_txn::Present;
use dg_values::OutOfMemory;
use dg_zero::{Begun, CommitFault, Offer, Slip, ZeroFault};
use std::alloc::Global;
use std::marker::Model;

// The state and its groups, and the active starts with their authors, which no call tells.
#[derive(Drop)]
pub(crate) struct Counting {
    owned: Owned,
    starts: Vec<Start>,
}

impl Model for Counting {
    ghost use Rattle.std.specs.Prelude.{◌≡◌};
    ghost use Rattle.dg_zero.specs.Counters.{active};
    ghost use Rattle.dg_zero.specs.States.{Zero};

    ghost Value = { Zero };

    ghost view = { λ kept. kept.owned };

    ghost invariant = { λ kept. kept.starts.items ≡ active kept.owned.history };
}

impl Counting {
    // Nothing has happened.
    pub(crate) fn new(alloc: Global, groups: u32) -> Answer<Counting> {
        if groups < 1 || 16 < groups {
            return Err(Fault::Unfit);
        }
        Ok(Counting {
            owned: Owned::new(alloc, groups)?,
            starts: Vec::new(alloc),
        })
    }

    pub(crate) fn owned(&self) -> &Owned {
        &self.owned
    }

    // The present graph. Nothing is appended.
    pub(crate) fn present(&mut self, alloc: Global) -> Answer<Present>
        ensures stay { StayOpen self.old self.new }
    {
        Ok(self.owned.present(alloc)?)
    }

    // Begins a transaction of an author.
    pub(crate) fn begin(
        &mut self,
        alloc: Global,
        author: u32,
    ) -> Answer<Result<(Begun, Vec<Pinned>), ZeroFault>>
        ensures begun { IfOk result (λ r. IfOk r (λ b. HasBegun self.new.history b.0.start (arc_value b.0.schema) (arc_value b.0.owners) b.1.items)) }
        ensures stay { StayOpen self.old self.new }
    {
        let slip = Slip::new(alloc, author)?;
        self.starts.reserve(1)?;
        match self.owned.begin(alloc, slip) {
            Ok((begun, pins)) => {
                self.starts.push_reserved(Start::new(begun.start, author));
                Ok(Ok((begun, pins)))
            }
            Err(fault) => Ok(Err(fault)),
        }
    }

    // Ends a transaction of this author, and says whether it was active.
    pub(crate) fn end(&mut self, slip: Slip, author: u32, start: u64) -> Answer<bool>
        requires { slip ≡ author }
        ensures stay { StayOpen self.old self.new }
    {
        if !may_end(self.starts.as_slice(), start, author) {
            return Err(Fault::Unfit);
        }
        let was_active = self.owned.end(slip, start);
        drop_ended(&mut self.starts, start, was_active);
        Ok(was_active)
    }

    pub(crate) fn lease(
        &mut self,
        alloc: Global,
        author: u32,
        top: u64,
        count: u64,
    ) -> Answer<Result<u64, ZeroFault>>
        ensures stay { StayOpen self.old self.new }
    {
        let slip = Slip::new(alloc, author)?;
        Ok(self.owned.lease(slip, top, count))
    }

    // Adds or replaces definitions.
    pub(crate) fn alter(
        &mut self,
        alloc: Global,
        newer: &Schema,
    ) -> Answer<Result<(u64, u64), ClusterFault>>
        ensures stay { StayOpen self.old self.new }
    {
        let slip = Slip::new(alloc, 0)?;
        Ok(self.owned.alter(alloc, slip, newer))
    }

    // Commits an offer for an active start of this author.
    pub(crate) fn commit(
        &mut self,
        alloc: Global,
        author: u32,
        offer: Offer,
    ) -> Answer<Result<u64, CommitFault>>
        requires sound { IsSound (schema_at self.old.history offer.start) (graph_at self.old.history offer.start []) offer.preds offer.keys offer.parts }
        requires made_of { IsMadeOf (schema_at self.old.history offer.start) (graph_at self.old.history offer.start []) offer.changes offer.keys offer.parts }
        ensures stay { StayOpen self.old self.new }
    {
        let start = offer.start;
        if !is_active_of(self.starts.as_slice(), start, author) {
            return Err(Fault::Unfit);
        }
        let slip = Slip::new(alloc, author)?;
        match self.owned.commit(slip, offer) {
            Ok(ts) => {
                drop_start(&mut self.starts, start);
                Ok(Ok(ts))
            }
            Err(fault) => {
                drop_ended(&mut self.starts, start, has_ended(&fault));
                Ok(Err(fault))
            }
        }
    }
}

// Whether a commit that is refused ends its transaction.
pub(crate) fn has_ended(fault: &CommitFault) -> bool
    ensures { result ≡ ends fault.now }
{
    match fault {
        CommitFault::Moving { .. } | CommitFault::Conflict { .. } => true,
        CommitFault::OutOfMemory { .. } | CommitFault::TimestampsSpent { .. } => false,
    }
}
