// What stands in an order.
ghost use Rattle.std.specs.Prelude.{◌≡◌};
ghost use Rattle.std.specs.declared.cmp.Ordering.{Ordering};
ghost use Rattle.dg_values.specs.Order.{IsOrder};

use std::cmp::Ordering;

/// Things that stand in an order in which only the same are equal.
pub trait InOrder {
    /// The order.
    ghost order: { Self → Self → Ordering };

    /// Compares two by the order. It takes no memory.
    fn compare(&self, other: &Self) -> Ordering
        ensures { result ≡ order self.now other.now };

    /// The order is total, and only the same are equal.
    ghost total: { IsOrder order };
}
