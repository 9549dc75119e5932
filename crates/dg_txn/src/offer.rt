// What a transaction offers to commit.
ghost use Rattle.std.specs.Prelude.{[], ◌≡◌, ◌≢◌, IfOk};
ghost use Rattle.dg_zero.specs.Listings as listed;
ghost use Rattle.dg_zero.specs.Listings.{AreGainsAndLosses};
ghost use Rattle.dg_zero.specs.Offers.{IsSound, IsMadeOf};
ghost use Rattle.dg_edges.specs.Deltas as named;
ghost use Rattle.dg_txn.specs.Own.{graph};

use crate::Txn;
use crate::reads::keys_of;
use dg_edges::{copies, preds_of};
use dg_values::{List, Mem, OutOfMemory};
use dg_zero::Offer;
use std::alloc::Global;
use std::marker::Brand;
use std::sync::ledger::Blank;

impl Txn {
    /// The offer to commit its changes, which is made of them, and sound where there are some, under any schema. Its parts are
    /// copied as they stand, so no list is read for them; the keys by which the changes conflict are made from the lists of
    /// their subjects at the start. The error is want of memory.
    pub fn offer(&self, alloc: Global) -> Mem<Offer>
        ensures start { IfOk result (λ offer. offer.start ≡ self.now.start) }
        ensures preds { IfOk result (λ offer. offer.preds ≡ named.preds_of self.now.own) }
        ensures keys { IfOk result (λ offer. offer.keys ≡ listed.conflict_keys self.now.schema self.now.base self.now.own) }
        ensures changes { IfOk result (λ offer. offer.changes ≡ self.now.own) }
        ensures parts { IfOk result (λ offer. AreGainsAndLosses self.now.schema self.now.base self.now.schema (graph self.now) offer.parts) }
        ensures sound { self.now.own ≢ [] → IfOk result (λ offer. IsSound self.now.schema self.now.base offer.preds offer.keys offer.parts) }
        ensures made_of { IfOk result (λ offer. IsMadeOf self.now.schema self.now.base offer.changes offer.keys offer.parts) }
    {
        let own = self.own.as_slice();
        let keys = keys_of::<Brand>(alloc, &self.base, own, Blank::new(1))?;
        Ok(Offer {
            start: self.start,
            preds: List::from_vec(preds_of(alloc, own)?),
            keys: List::from_vec(keys),
            changes: List::from_vec(copies(alloc, own)?),
            parts: List::from_vec(self.gains.parts(alloc)?),
        })
    }
}
