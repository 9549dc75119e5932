// The state that coordinates all, and the groups that follow it.
ghost use Rattle.std.specs.Prelude.{◌≡◌, ◌+◌, ◌-◌, ◌^◌, ◌<◌, ◌≤◌, [], true, None, Some, IfOk, IfErr, OnOk, OnErr, if◌then◌else◌, map};
ghost use Rattle.std.specs.Arc.{arc_value};
ghost use Rattle.std.specs.List.{AllByRecursion};
ghost use Rattle.dg_graph.specs.Graphs.{IsLawful};
ghost use Rattle.dg_group.specs.Groups.{Group};
ghost use Rattle.dg_group.specs.Stands.{IsInStep};
ghost use Rattle.dg_oracle.specs.Commits.{is_active};
ghost use Rattle.dg_schema.specs.Definitions.{with_definitions};
ghost use Rattle.dg_txn.specs.Pins.{ArePinsOf};
ghost use Rattle.dg_zero.specs.Counters.{next, next_uid, leased, active, starts_of, is_active_of};
ghost use Rattle.dg_zero.specs.Legal.{IsLegal};
ghost use Rattle.dg_zero.specs.Listings.{AreGainsAndLosses};
ghost use Rattle.dg_zero.specs.Offers.{IsSound, IsMadeOf};
ghost use Rattle.dg_zero.specs.Pasts.{spent};
ghost use Rattle.dg_zero.specs.Places.{groups, tablets};
ghost use Rattle.dg_zero.specs.States.{and_then, owners, alter_of, commit_of, first_held, IsBeginFault, IsAlterFault, IsRefusal, KeepKinds, AreAlterParts};
ghost use Rattle.dg_zero.specs.Verdicts.{verdict};
ghost use Rattle.dg_node.specs.Alters.{first_with_data};
ghost use Rattle.dg_node.specs.Clusters.{Meets, EndsAt, IsAlterFault as IsHindrance};
ghost use Rattle.dg_zero.specs.Worlds.{world, schema, schema_at, graph_at};
ghost use Rattle.dg_node.specs.Owning.{AreAtRest};

use crate::cluster::{Cluster, ClusterFault};
use crate::current::{new_groups, pinned};
use crate::obstacles::first_with_data;
use dg_edges::schema_deltas;
use dg_group::{GroupState, Pinned, entries_of_histories};
use dg_keys::Part;
use dg_schema::Schema;
use dg_turn::Logged;
use dg_txn::Present;
use dg_values::{List, Mem, OutOfMemory, Steps};
use dg_zero::{Begun, CommitFault, Entry, Event, Offer, Slip, ZeroFault, ZeroState};
use std::alloc::Global;
use std::marker::{Brand, Model};
use std::sync::Arc;
use std::sync::ledger::{Blank, Ledger};

/// The state that coordinates all, and the groups, each of which agrees with its history. Contracts see the state.
#[derive(Drop)]
pub struct Owned {
    zero: ZeroState,
    groups: Vec<GroupState>,
}

impl Model for Owned {
    ghost use Rattle.dg_zero.specs.States.{Zero};
    ghost use Rattle.dg_node.specs.Owning.{IsOwned};

    ghost Value = { Zero };

    ghost view = { λ owned. owned.zero };

    ghost invariant = { λ owned. IsOwned owned.zero owned.groups.items };
}

/// It has Zero's history.
impl Logged for Owned {
    type Entry = Entry;

    ghost history = { λ owned. owned.history };

    ghost author = { λ e. e.author };
}

impl Owned {
    /// Nothing has happened, with so many groups. The error is want of memory.
    pub fn new(alloc: Global, groups: u32) -> Mem<Owned>
        requires least { 1 ≤ groups }
        requires most { groups ≤ 16 }
        ensures new { IfOk result (λ o. o ≡ record { groups = groups; history = [] }) }
    {
        Owned::starting_at(alloc, groups, 1)
    }

    /// The same, but the first timestamp is `next`: as though those below it had been drawn by transactions that changed
    /// nothing. The error is want of memory.
    pub fn starting_at(alloc: Global, groups: u32, next: u64) -> Mem<Owned>
        requires least { 1 ≤ groups }
        requires most { groups ≤ 16 }
        requires first { 1 ≤ next }
        requires last { next ≤ 2 ^ 62 }
        ensures new { IfOk result (λ o. o ≡ record { groups = groups; history = spent (next - 1) }) }
    {
        Ok(Owned {
            zero: ZeroState::starting_at(alloc, groups, next)?,
            groups: new_groups(alloc, groups)?,
        })
    }

    /// The state that coordinates all.
    pub fn zero(&self) -> &ZeroState
        ensures { result.now ≡ self.now }
    {
        &self.zero
    }

    /// The groups, in the order of their numbers, each with what it has applied so far. Each is in step with the history:
    /// its lists agree with it as far as it has applied it.
    pub fn groups(&self) -> &[GroupState]
        ensures numbers { map (λ (g : Group). g.number) result.now ≡ groups self.now.groups }
        ensures in_step { AllByRecursion (λ g. IsInStep g self.now.history) result.now }
    {
        self.groups.as_slice()
    }

    /// Brings each group up to date and pins it, and draws a start, whose transaction is active from then on. The pins hold
    /// the graph there.
    ///
    /// `TimestampsSpent` comes where no timestamp is left. After an error a look is appended, and nothing is drawn;
    /// after want of memory some groups may be further on.
    pub fn begin(&mut self, alloc: Global, slip: Slip) -> Result<(Begun, Vec<Pinned>), ZeroFault>
        ensures start { IfOk result (λ b. b.0.start ≡ next self.old.history) }
        ensures schema { IfOk result (λ b. arc_value b.0.schema ≡ schema self.old.history) }
        ensures owners { IfOk result (λ b. arc_value b.0.owners ≡ owners self.old.history) }
        ensures pins { IfOk result (λ b. ArePinsOf (next self.old.history) (schema self.old.history) (owners self.old.history) b.1.items (graph_at self.old.history (next self.old.history) [])) }
        ensures ok { OnOk result (self.new ≡ and_then self.old slip (Event.Begin (next self.old.history))) }
        ensures not_spent { OnOk result (next self.old.history < 2 ^ 62) }
        ensures fault { IfErr result (IsBeginFault (next self.old.history)) }
        ensures err { OnErr result (self.new ≡ and_then self.old slip Event.Look) }
        ensures legal { IsLegal self.new.groups self.new.history }
    {
        let Ok(pins) = pinned(alloc, &self.zero, &mut self.groups) else {
            self.zero.look(slip);
            return Err(ZeroFault::OutOfMemory);
        };
        match self.zero.begin(slip) {
            Ok(begun) => Ok((begun, pins)),
            Err(fault) => Err(fault),
        }
    }

    /// The present graph, which is read from pins of the groups, each of which is brought up to date first. Nothing is appended.
    /// The error is want of memory; after it some groups may be further on.
    pub fn present(&mut self, alloc: Global) -> Mem<Present>
        ensures same { self.new ≡ self.old }
        ensures present { IfOk result (λ p. p ≡ world self.old.history) }
    {
        let pins = pinned(alloc, &self.zero, &mut self.groups)?;
        let schema = Arc::try_clone(self.zero.schema())?;
        let owners = Arc::try_clone(self.zero.owners())?;
        Ok(Present::of(schema, owners, pins, self.zero.last()))
    }

    /// Ends a transaction, and says whether it was active; where it wasn't, a look is appended. It takes no memory.
    pub fn end(&mut self, slip: Slip, start: u64) -> bool
        requires author { is_active (starts_of (active self.old.history)) start ≡ true → is_active_of (active self.old.history) start slip ≡ true }
        ensures was_active { result ≡ is_active (starts_of (active self.old.history)) start }
        ensures history { self.new ≡ and_then self.old slip (if result then Event.End start else Event.Look) }
        ensures legal { IsLegal self.new.groups self.new.history }
    {
        self.zero.end(slip, start)
    }

    /// Leases `count` nodes above `top` and above all that were leased, and answers the first. `UidsSpent` comes exactly
    /// where so many aren't left, with the next node; then a look is appended. It takes no memory.
    pub fn lease(&mut self, slip: Slip, top: u64, count: u64) -> Result<u64, ZeroFault>
        ensures first { IfOk result (λ first. leased self.old.history top count ≡ Some first) }
        ensures spent { IfErr result (λ fault. (leased self.old.history top count ≡ None) × (fault ≡ ZeroFault.UidsSpent (next_uid self.old.history))) }
        ensures ok { IfOk result (λ first. self.new ≡ and_then self.old slip (Event.Lease top count first)) }
        ensures err { OnErr result (self.new ≡ and_then self.old slip Event.Look) }
        ensures legal { IsLegal self.new.groups self.new.history }
    {
        self.zero.lease(slip, top, count)
    }

    /// Commits an offer at the next timestamp, or says why not. The groups apply it when they are next brought up to date.
    ///
    /// After `Conflict` and `Moving` the transaction has ended, and the refusal is appended. After `TimestampsSpent` and
    /// `OutOfMemory`, which hand the offer back, it is still active, and a look is appended.
    pub fn commit(&mut self, slip: Slip, offer: Offer) -> Result<u64, CommitFault>
        requires active { is_active_of (active self.old.history) offer.start slip ≡ true }
        requires sound { IsSound (schema_at self.old.history offer.start) (graph_at self.old.history offer.start []) offer.preds offer.keys offer.parts }
        requires made_of { IsMadeOf (schema_at self.old.history offer.start) (graph_at self.old.history offer.start []) offer.changes offer.keys offer.parts }
        ensures ts { IfOk result (λ ts. ts ≡ next self.old.history) }
        ensures ok { IfOk result (λ ts. self.new ≡ and_then self.old slip (commit_of offer ts)) }
        ensures clear { OnOk result (verdict self.old.history offer.start offer.preds offer.keys ≡ None) }
        ensures not_spent { OnOk result (next self.old.history < 2 ^ 62) }
        ensures fault { IfErr result (IsRefusal self.old self.new slip offer) }
        ensures legal { IsLegal self.new.groups self.new.history }
    {
        self.zero.commit(slip, offer)
    }

    /// The history is legal, and no tablet is being moved, since moves aren't built.
    pub fn at_rest(&self)
        ensures legal { IsLegal self.now.groups self.now.history }
        ensures rest { AreAtRest self.now.history }
    {
        let _ = &self.zero;
    }

    // What an alter writes, or why the definitions may not be added now. Nothing is appended.
    fn prepare(&mut self, alloc: Global, newer: &Schema) -> Result<List<Part>, ClusterFault>
        ensures same { self.new ≡ self.old }
        ensures parts { IfOk result (AreAlterParts self.old.history newer.now) }
        ensures no_data { OnOk result (first_with_data (schema self.old.history) (world self.old.history).graph newer.now ≡ None) }
        ensures fault { IfErr result (IsHindrance self.old.history newer.now) }
    {
        if let Some(start) = self.zero.first_active() {
            return Err(ClusterFault::Pending { start });
        }
        let present = self.present(alloc)?;
        if let Some(pred) = first_with_data(alloc, &present, newer.definitions())? {
            return Err(ClusterFault::HasData { pred });
        }
        Ok(alter_parts(alloc, &present, newer)?)
    }
}

// What lists gain and lose in a graph where definitions are added or replaced.
fn alter_parts(alloc: Global, present: &Present, newer: &Schema) -> Mem<List<Part>>
    requires { IsLawful present.now.schema present.now.graph }
    ensures { IfOk result (λ parts. AreGainsAndLosses present.now.schema present.now.graph (with_definitions present.now.schema newer.now) present.now.graph parts) }
{
    parts_in::<Brand>(alloc, present, newer, Blank::new(1))
}

// The same, on a ledger of its own for the lists that are read.
fn parts_in<L: Ledger>(
    alloc: Global,
    present: &Present,
    newer: &Schema,
    blank: Blank,
) -> Mem<List<Part>>
    requires name { blank.name ≡ L.name }
    requires parts { blank.parts ≡ L.parts }
    requires some { 0 < blank.parts }
    requires lawful { IsLawful present.now.schema present.now.graph }
    ensures { IfOk result (λ parts. AreGainsAndLosses present.now.schema present.now.graph (with_definitions present.now.schema newer.now) present.now.graph parts) }
{
    let parts = schema_deltas(alloc, present, newer, &mut Steps::<L>::new(blank))?;
    Ok(List::from_vec(parts))
}

/// It takes each author, and no one else appends.
impl Cluster for Owned {
    ghost use Rattle.std.specs.Prelude.{true};

    ghost zero = { λ owned. owned };

    ghost takes = { λ owned author. true };

    fn begin(&mut self, alloc: Global, slip: Slip) -> Result<(Begun, Vec<Pinned>), ClusterFault> {
        let Ok(pins) = pinned(alloc, &self.zero, &mut self.groups) else {
            self.zero.look(slip);
            return Err(ClusterFault::OutOfMemory);
        };
        match self.zero.begin(slip) {
            Ok(begun) => Ok((begun, pins)),
            Err(fault) => Err(ClusterFault::whole(fault)),
        }
    }

    fn lease(&mut self, slip: Slip, top: u64, count: u64) -> Result<u64, ClusterFault> {
        match self.zero.lease(slip, top, count) {
            Ok(first) => Ok(first),
            Err(fault) => Err(ClusterFault::whole(fault)),
        }
    }

    fn commit(&mut self, slip: Slip, offer: Offer) -> Result<u64, CommitFault> {
        self.zero.commit(slip, offer)
    }

    fn end(&mut self, slip: Slip, start: u64) -> bool {
        self.zero.end(slip, start)
    }

    fn alter(
        &mut self,
        alloc: Global,
        slip: Slip,
        newer: &Schema,
    ) -> Result<(u64, u64), ClusterFault> {
        let parts = match self.prepare(alloc, newer) {
            Ok(parts) => parts,
            Err(fault) => {
                self.zero.look(slip);
                return Err(fault);
            }
        };
        // An alter keeps the groups in step.
        entries_of_histories();
        match self.zero.alter(slip, newer, parts) {
            Ok(drawn) => Ok(drawn),
            Err(fault) => Err(ClusterFault::whole(fault)),
        }
    }

    fn declared(&self, pred: &str) -> bool {
        self.zero.schema().lookup(pred).is_some()
    }

    fn history_is_legal(&self) {
        let _ = &self.zero;
    }
}
