// A state of Zero with the present graph beside it: offers are made over that, so that making one doesn't go over the history.
ghost use Rattle.std.specs.Prelude.{◌≡◌, ◌≢◌, ◌<◌, ◌≤◌, [], IfOk, OnOk};
ghost use Rattle.dg_graph.specs.Graphs.{after_change, after_changes};
ghost use Rattle.dg_graph.specs.declared.plain.Plain.{Plain};
ghost use Rattle.dg_edges.specs.Deltas.{AreFitting};
ghost use Rattle.dg_graph.specs.Graphs.{IsLawful};
ghost use Rattle.dg_zero.specs.Offers.{IsSound, IsMadeOf};
ghost use Rattle.table_zero.specs.Mirrors.{IsMirror, IsOpen, IsBare};

use crate::bench::fault::Fault;
use dg_edges::{are_fitting, offer_of};
use dg_graph::{Change, Graph, Plain};
use dg_schema::{Schema, read_schema};
use dg_values::{List, Mem, OutOfMemory, Steps};
use dg_zero::{Begun, CommitFault, Offer, Slip, ZeroState};
use std::alloc::Global;
use std::marker::Brand;
use std::sync::ledger::{Blank, Ledger};

// How many groups there are.
pub(crate) const GROUPS: u32 = 16;

// The most bytes that a text of definitions has.
const MOST: usize = 1_048_576;

// A state of Zero, and the present schema and graph.
#[derive(Drop)]
pub(crate) struct Mirror {
    pub(crate) zero: ZeroState,
    pub(crate) at: Plain,
}

// The definitions of a text.
pub(crate) fn definitions(alloc: Global, text: &str) -> Result<Schema, Fault> {
    if text.len() > MOST {
        return Err(Fault::Refused);
    }
    Ok(read_schema(alloc, text)?)
}

// Nothing has happened.
pub(crate) fn bare(alloc: Global) -> Result<ZeroState, Fault>
    ensures { IfOk result IsBare }
{
    Ok(ZeroState::new(alloc, GROUPS)?)
}

// Adds or replaces definitions, where there is no triple, and answers the alter's timestamp.
pub(crate) fn alter(alloc: Global, zero: &mut ZeroState, newer: &Schema) -> Result<u64, Fault>
    requires { IsBare zero.old }
    ensures { OnOk result (IsBare zero.new) }
{
    let slip = Slip::new(alloc, 0)?;
    let (_, ts) = zero.alter(slip, newer, List::new(alloc))?;
    Ok(ts)
}

impl Mirror {
    // These definitions alone, and no triple.
    pub(crate) fn new(alloc: Global, text: &str) -> Result<Mirror, Fault>
        ensures { IfOk result (λ m. IsMirror m.zero m.at) }
    {
        let mut zero = bare(alloc)?;
        alter(alloc, &mut zero, &definitions(alloc, text)?)?;
        let schema = zero.schema().copy()?;
        let graph = Graph::new(alloc)?;
        Ok(Mirror {
            zero,
            at: Plain { schema, graph },
        })
    }

    // Begins a transaction.
    pub(crate) fn begin(&mut self, alloc: Global) -> Result<Begun, Fault>
        requires { IsMirror self.old.zero self.old.at }
        ensures mirror { OnOk result (IsMirror self.new.zero self.new.at) }
        ensures opened { IfOk result (λ b. IsOpen self.new.zero b.start self.new.at) }
    {
        let slip = Slip::new(alloc, 0)?;
        Ok(self.zero.begin(slip)?)
    }

    // Ends a transaction.
    pub(crate) fn end(&mut self, alloc: Global, start: u64) -> Result<bool, Fault>
        requires mirror { IsMirror self.old.zero self.old.at }
        requires opened { IsOpen self.old.zero start self.old.at }
        ensures { OnOk result (IsMirror self.new.zero self.new.at) }
    {
        let slip = Slip::new(alloc, 0)?;
        Ok(self.zero.end(slip, start))
    }

    // The offer of changes of a transaction that saw the present graph.
    pub(crate) fn offer(
        &self,
        alloc: Global,
        start: u64,
        changes: &[Change],
    ) -> Result<Offer, Fault>
        requires mirror { IsMirror self.now.zero self.now.at }
        requires some { changes.now ≢ [] }
        ensures start { IfOk result (λ offer. offer.start ≡ start) }
        ensures changes { IfOk result (λ offer. offer.changes ≡ changes.now) }
        ensures sound { IfOk result (λ offer. IsSound self.now.at.schema self.now.at.graph offer.preds offer.keys offer.parts) }
        ensures made_of { IfOk result (λ offer. IsMadeOf self.now.at.schema self.now.at.graph offer.changes offer.keys offer.parts) }
    {
        if !are_fitting(&self.at.schema, changes) {
            return Err(Fault::Refused);
        }
        Ok(offered(alloc, &self.at, start, changes)?)
    }

    // Commits an offer of a transaction that saw the present graph. The graph beside is left as it was.
    pub(crate) fn commit(&mut self, alloc: Global, offer: Offer) -> Result<u64, Fault>
        requires mirror { IsMirror self.old.zero self.old.at }
        requires opened { IsOpen self.old.zero offer.start self.old.at }
        requires sound { IsSound self.old.at.schema self.old.at.graph offer.preds offer.keys offer.parts }
        requires made_of { IsMadeOf self.old.at.schema self.old.at.graph offer.changes offer.keys offer.parts }
        ensures at { self.new.at ≡ self.old.at }
        ensures led { OnOk result (IsMirror self.new.zero (record { schema = self.old.at.schema; graph = after_changes self.old.at.schema self.old.at.graph offer.changes })) }
    {
        let slip = Slip::new(alloc, 0)?;
        match self.zero.commit(slip, offer) {
            Ok(ts) => Ok(ts),
            Err(CommitFault::OutOfMemory { .. }) => Err(Fault::OutOfMemory),
            Err(
                CommitFault::Moving { .. }
                | CommitFault::Conflict { .. }
                | CommitFault::TimestampsSpent { .. },
            ) => Err(Fault::Refused),
        }
    }

    // Makes a change that was committed in the graph beside too.
    pub(crate) fn follow(&mut self, change: &Change) -> Result<(), Fault>
        requires { IsMirror self.old.zero (record { schema = self.old.at.schema; graph = after_change self.old.at.schema self.old.at.graph change.now }) }
        ensures { OnOk result (IsMirror self.new.zero self.new.at) }
    {
        self.at.graph.apply(&self.at.schema, change)?;
        Ok(())
    }

    // Begins a transaction and commits a change, and answers its timestamp.
    pub(crate) fn commit_one(&mut self, alloc: Global, change: Change) -> Result<u64, Fault>
        requires { IsMirror self.old.zero self.old.at }
        ensures { OnOk result (IsMirror self.new.zero self.new.at) }
    {
        let begun = self.begin(alloc)?;
        let changes = [change];
        let offer = self.offer(alloc, begun.start, &changes)?;
        let ts = self.commit(alloc, offer)?;
        self.follow(&changes[0])?;
        Ok(ts)
    }
}

// The offer of changes that fit, over a lawful graph.
fn offered(alloc: Global, at: &Plain, start: u64, changes: &[Change]) -> Mem<Offer>
    requires fitting { AreFitting at.now.schema changes.now }
    requires lawful { IsLawful at.now.schema at.now.graph }
    ensures start { IfOk result (λ offer. offer.start ≡ start) }
    ensures changes { IfOk result (λ offer. offer.changes ≡ changes.now) }
    ensures sound { changes.now ≢ [] → IfOk result (λ offer. IsSound at.now.schema at.now.graph offer.preds offer.keys offer.parts) }
    ensures made_of { IfOk result (λ offer. IsMadeOf at.now.schema at.now.graph offer.changes offer.keys offer.parts) }
{
    offered_in::<Brand>(alloc, at, start, changes, Blank::new(1))
}

// The same, on a ledger of its own for the lists that are read.
fn offered_in<L: Ledger>(
    alloc: Global,
    at: &Plain,
    start: u64,
    changes: &[Change],
    blank: Blank,
) -> Mem<Offer>
    requires name { blank.name ≡ L.name }
    requires parts { blank.parts ≡ L.parts }
    requires some { 0 < blank.parts }
    requires fitting { AreFitting at.now.schema changes.now }
    requires lawful { IsLawful at.now.schema at.now.graph }
    ensures start { IfOk result (λ offer. offer.start ≡ start) }
    ensures changes { IfOk result (λ offer. offer.changes ≡ changes.now) }
    ensures sound { changes.now ≢ [] → IfOk result (λ offer. IsSound at.now.schema at.now.graph offer.preds offer.keys offer.parts) }
    ensures made_of { IfOk result (λ offer. IsMadeOf at.now.schema at.now.graph offer.changes offer.keys offer.parts) }
{
    let mut reads = Steps::<L>::new(blank);
    offer_of(alloc, at, start, changes, &mut reads)
}
