// Vectors that ascend strictly, found in by halves and changed at one place.
ghost use Rattle.std.specs.Prelude.{◌≡◌, ◌≤◌, ◌↔◌, IsTrue, IfOk, IfErr, OnOk, OnErr, true, false, length};
ghost use Rattle.std.specs.List.Sorted.{IsPartitionPoint};
ghost use Rattle.std.specs.Ordering.{is_lt};
ghost use Rattle.dg_values.specs.Ascending.{Ascends, has, with_one, without_one};
ghost use Rattle.dg_sets.specs.Placing.{StandsAt, BelongsAt};

use crate::InOrder;
use dg_values::{Mem, OutOfMemory};

/// Whether items ascend strictly. It takes no memory.
pub fn ascend<T: InOrder>(items: &[T]) -> bool
    ensures { IsTrue result ↔ Ascends T.order items.now }
{
    items.is_sorted_by(|a, b| a.compare(b).is_lt())
}

// How many items are below this one.
fn below<T: InOrder>(items: &[T], item: &T) -> usize
    requires ascend { Ascends T.order items.now }
    ensures within { result ≤ length items.now }
    ensures point { IsPartitionPoint (λ y. is_lt (T.order y item.now) ≡ true) (λ y. is_lt (T.order y item.now) ≡ false) items.now result }
{
    items.partition_point(|y| y.compare(item).is_lt())
}

/// Where an item stands among items that ascend strictly, or else where it belongs. It looks by halves, and takes no
/// memory.
pub fn place_of<T: InOrder>(items: &[T], item: &T) -> Result<usize, usize>
    requires ascend { Ascends T.order items.now }
    ensures there { IfOk result (StandsAt T.order items.now item.now) }
    ensures missing { IfErr result (BelongsAt T.order items.now item.now) }
{
    let place = below(items, item);
    if place < items.len() && items[place].compare(item).is_eq() {
        Ok(place)
    } else {
        Err(place)
    }
}

/// Whether an item is among items that ascend strictly. It takes no memory.
pub fn is_there<T: InOrder>(items: &[T], item: &T) -> bool
    requires ascend { Ascends T.order items.now }
    ensures { result ≡ has T.order items.now item.now }
{
    place_of(items, item).is_ok()
}

/// Puts an item at its place, unless it is there. After an error the items are as before.
pub fn put<T: InOrder + Drop>(items: &mut Vec<T>, item: T) -> Mem<()>
    requires ascend { Ascends T.order items.old.items }
    ensures ok { OnOk result (items.new.items ≡ with_one T.order items.old.items item) }
    ensures err { OnErr result (items.new.items ≡ items.old.items) }
    ensures ascends { Ascends T.order items.new.items }
{
    match place_of(items.as_slice(), &item) {
        Ok(_) => Ok(()),
        Err(place) => Ok(items.insert(place, item)?),
    }
}

/// Takes an item out, where it is there. It takes no memory.
pub fn take_out<T: InOrder + Drop>(items: &mut Vec<T>, item: &T)
    requires ascend { Ascends T.order items.old.items }
    ensures without { items.new.items ≡ without_one T.order items.old.items item.now }
    ensures ascends { Ascends T.order items.new.items }
{
    match place_of(items.as_slice(), item) {
        Ok(place) => {
            items.remove(place);
        }
        Err(_) => {}
    }
}
