// Items in order, each once.
ghost use Rattle.std.specs.Prelude.{◌≡◌};
ghost use Rattle.dg_values.specs.Ascending.{Ascends, ascending};

use crate::InOrder;

/// The same items in ascending order, each once. It sorts in place and takes no memory.
pub fn in_order<T: InOrder + Drop>(mut items: Vec<T>) -> Vec<T>
    ensures items { result.items ≡ ascending T.order items.items }
    ensures ascends { Ascends T.order result.items }
{
    items.sort_unstable_by(|a, b| a.compare(b));
    items.dedup_by(|a, b| a.compare(b).is_eq());
    items
}
