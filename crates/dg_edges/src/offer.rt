// Whole offers.
ghost use Rattle.std.specs.Prelude.{◌≡◌, ◌≢◌, [], IfOk};
ghost use Rattle.dg_graph.specs.Graphs.{after_changes, IsLawful};
ghost use Rattle.dg_zero.specs.Listings.{AreGainsAndLosses, conflict_keys};
ghost use Rattle.dg_zero.specs.Offers.{IsSound, IsMadeOf};
ghost use Rattle.dg_edges.specs.Deltas.{preds_of, AreFitting};

use crate::{conflict_keys, deltas_of, preds_of};
use dg_graph::{Change, Snapshot};
use dg_values::{List, Mem, OutOfMemory, Steps};
use dg_zero::Offer;
use std::alloc::Global;
use std::sync::ledger::Ledger;

/// The offer to commit changes of a transaction with this start, which saw the graph of the snapshot there. It is made of
/// them, and sound where there is a change. The changes are copied. The error is want of memory.
pub fn offer_of<S: Snapshot, L: Ledger>(
    alloc: Global,
    snap: &S,
    start: u64,
    changes: &[Change],
    reads: &mut Steps<L>,
) -> Mem<Offer>
    requires fitting { AreFitting (S.declared snap.now) changes.now }
    requires lawful { IsLawful (S.declared snap.now) (S.graph snap.now) }
    ensures start { IfOk result (λ offer. offer.start ≡ start) }
    ensures preds { IfOk result (λ offer. offer.preds ≡ preds_of changes.now) }
    ensures keys { IfOk result (λ offer. offer.keys ≡ conflict_keys (S.declared snap.now) (S.graph snap.now) changes.now) }
    ensures parts { IfOk result (λ offer. AreGainsAndLosses (S.declared snap.now) (S.graph snap.now) (S.declared snap.now) (after_changes (S.declared snap.now) (S.graph snap.now) changes.now) offer.parts) }
    ensures changes { IfOk result (λ offer. offer.changes ≡ changes.now) }
    ensures sound { changes.now ≢ [] → IfOk result (λ offer. IsSound (S.declared snap.now) (S.graph snap.now) offer.preds offer.keys offer.parts) }
    ensures made_of { IfOk result (λ offer. IsMadeOf (S.declared snap.now) (S.graph snap.now) offer.changes offer.keys offer.parts) }
{
    let asked = List::from_vec(copies(alloc, changes)?);
    let preds = List::from_vec(preds_of(alloc, changes)?);
    let keys = List::from_vec(conflict_keys(alloc, snap, changes, reads)?);
    let parts = List::from_vec(deltas_of(alloc, snap, changes, reads)?);
    Ok(Offer {
        start,
        preds,
        keys,
        changes: asked,
        parts,
    })
}

// An equal change.
fn copy_of(alloc: Global, change: &Change) -> Mem<Change>
    ensures { IfOk result (λ copy. copy ≡ change.now) }
{
    match change {
        Change::Set(triple) => Ok(Change::Set(triple.copy(alloc)?)),
        Change::Del(triple) => Ok(Change::Del(triple.copy(alloc)?)),
    }
}

/// Equal changes, in their order. The error is want of memory.
pub fn copies(alloc: Global, changes: &[Change]) -> Mem<Vec<Change>>
    ensures { IfOk result (λ copies. copies.items ≡ changes.now) }
{
    let mut copies = Vec::with_capacity(alloc, changes.len())?;
    for change in changes {
        copies.push(copy_of(alloc, change)?)?;
    }
    Ok(copies)
}
