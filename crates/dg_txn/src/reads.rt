// What needs reads that nobody counts, each on a ledger of its own.
ghost use Rattle.std.specs.Prelude.{◌≡◌, ◌<◌, ◌++◌, IfOk};
ghost use Rattle.dg_zero.specs.Listings as listed;
ghost use Rattle.dg_zero.specs.Listings.{listing};
ghost use Rattle.dg_edges.specs.Deltas.{AreFitting};
ghost use Rattle.dg_txn.specs.Own.{AreOwn};

use crate::gains::Gains;
use crate::{Present, Txn};
use dg_edges::{conflict_keys, deltas_of};
use dg_graph::Change;
use dg_keys::ConflictKey;
use dg_values::{Mem, OutOfMemory, Steps};
use std::alloc::Global;
use std::sync::ledger::{Blank, Ledger};

// What lists gain and lose from the start by a transaction's own changes and by more of them.
pub fn stepped<L: Ledger>(alloc: Global, txn: &Txn, changes: &[Change], blank: Blank) -> Mem<Gains>
    requires name { blank.name ≡ L.name }
    requires parts { blank.parts ≡ L.parts }
    requires room { 0 < blank.parts }
    requires fitting { AreFitting txn.now.schema changes.now }
    ensures { IfOk result (AreOwn txn.now.schema txn.now.base (txn.now.own ++ changes.now)) }
{
    let gains = &txn.gains;
    let mut reads = Steps::<L>::new(blank);
    let step = deltas_of(alloc, txn, changes, &mut reads)?;
    gains.after(alloc, step.as_slice())
}

// The keys by which changes conflict.
pub fn keys_of<L: Ledger>(
    alloc: Global,
    base: &Present,
    own: &[Change],
    blank: Blank,
) -> Mem<Vec<ConflictKey>>
    requires name { blank.name ≡ L.name }
    requires parts { blank.parts ≡ L.parts }
    requires room { 0 < blank.parts }
    ensures { IfOk result (λ v. v.items ≡ listed.conflict_keys base.now.schema base.now.graph own.now) }
{
    let mut reads = Steps::<L>::new(blank);
    conflict_keys(alloc, base, own, &mut reads)
}
