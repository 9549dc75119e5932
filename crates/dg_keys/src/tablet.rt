// Tablets in order.
ghost use Rattle.std.specs.Prelude.{◌≡◌, IfOk};

use crate::Tablet;
use dg_sets::InOrder;
use dg_values::{Mem, OutOfMemory};
use std::alloc::Global;
use std::cmp::Ordering;

impl Tablet {
    /// An equal tablet.
    pub fn copy(&self, alloc: Global) -> Mem<Tablet>
        ensures { IfOk result (λ t. t ≡ self.now) }
    {
        let pred = self.pred.copy(alloc)?;
        Ok(Tablet {
            pred,
            group: self.group,
        })
    }
}

/// By predicate, and then by group.
impl InOrder for Tablet {
    ghost use Rattle.std.specs.Ordering.{nat_cmp};
    ghost use Rattle.dg_values.specs.Order.{text_cmp};
    ghost use Rattle.dg_sets.proofs.MadeOrders.{nat_order, text_order, then_order};
    ghost use Rattle.dg_keys.specs.declared.record.Tablet.{Tablet};
    ghost use Rattle.dg_keys.specs.Tablets.{tablet_cmp};

    ghost order = { tablet_cmp };

    fn compare(&self, other: &Tablet) -> Ordering {
        self.pred
            .compare(&other.pred)
            .then(self.group.cmp(&other.group))
    }

    ghost total = { then_order (λ (t : Tablet). t.pred) (λ t. t.group) text_cmp nat_cmp text_order nat_order (λ x y e f. λ i. record { pred = e i; group = f i }) };
}
