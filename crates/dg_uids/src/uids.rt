// Sets of nodes.
ghost use Rattle.std.specs.Prelude.{◌≡◌, ◌↔◌, length, IsSome, IfSome, IfOk, slice_get};
ghost use Rattle.std.specs.Ordering.{nat_cmp};
ghost use Rattle.dg_values.specs.Ascending.{Ascends, ascending, has};
ghost use Rattle.dg_uids.specs.Sets.{common, lacking, either, page_of};

use crate::differences::difference;
use crate::intersections::intersection;
use crate::pages::{above, behind, chosen};
use crate::unions::both;
use dg_sets::{ascend, in_order, is_there};
use dg_values::{Mem, OutOfMemory};
use std::alloc::Global;
use std::marker::Model;

/// Nodes by their uids, which contracts see as a strictly ascending list.
#[derive(Debug, Drop)]
pub struct Uids {
    items: Vec<u64>,
}

impl Model for Uids {
    ghost use Rattle.std.specs.Prelude.{List, ℕ};
    ghost use Rattle.std.specs.Ordering.{nat_cmp};
    ghost use Rattle.dg_values.specs.Ascending.{Ascends};

    ghost Value = { List ℕ };

    ghost view = { λ uids. uids.items.items };

    ghost invariant = { λ uids. Ascends nat_cmp uids.items.items };
}

impl Uids {
    /// The set of these uids. None exactly where they don't ascend strictly. It takes no memory.
    pub fn from_sorted(items: Vec<u64>) -> Option<Uids>
        ensures accepts { IsSome result ↔ Ascends nat_cmp items.items }
        ensures made { IfSome result (λ uids. uids ≡ items.items) }
    {
        if ascend(items.as_slice()) {
            Some(Uids { items })
        } else {
            None
        }
    }

    /// The set of these uids, which may stand in any order and more than once. It sorts in place and takes no memory.
    pub fn gathered(items: Vec<u64>) -> Uids
        ensures nodes { result ≡ ascending nat_cmp items.items }
        ensures ascend { Ascends nat_cmp result }
    {
        let items = in_order(items);
        Uids { items }
    }

    /// An equal set. The error is want of memory.
    pub fn copy(&self, alloc: Global) -> Mem<Uids>
        ensures { IfOk result (λ uids. uids ≡ self.now) }
    {
        let items = Vec::from_slice(alloc, self.as_slice())?;
        Ok(Uids { items })
    }

    /// Whether the node is in the set. It looks by halves, and takes no memory.
    pub fn has(&self, uid: u64) -> bool
        ensures { result ≡ has nat_cmp self.now uid }
    {
        is_there(self.items.as_slice(), &uid)
    }

    /// How many nodes are in the set.
    pub fn len(&self) -> usize
        ensures { result ≡ length self.now }
    {
        self.items.len()
    }

    /// The uid at a place, from 0 on. None exactly past the end.
    pub fn get(&self, at: usize) -> Option<u64>
        ensures { result ≡ slice_get self.now at }
    {
        self.items.get(at).copied()
    }

    /// The uids, ascending.
    pub fn as_slice(&self) -> &[u64]
        ensures items { result.now ≡ self.now }
        ensures ascend { Ascends nat_cmp self.now }
    {
        self.items.as_slice()
    }

    /// The nodes of both sets. The error is want of memory.
    pub fn and(&self, alloc: Global, other: &Uids) -> Mem<Uids>
        ensures { IfOk result (λ uids. uids ≡ common self.now other.now) }
    {
        let items = intersection(alloc, self.as_slice(), other.as_slice())?;
        Ok(Uids { items })
    }

    /// The nodes of either set. The error is want of memory.
    pub fn or(&self, alloc: Global, other: &Uids) -> Mem<Uids>
        ensures { IfOk result (λ uids. uids ≡ either self.now other.now) }
    {
        let items = both(alloc, self.as_slice(), other.as_slice())?;
        Ok(Uids { items })
    }

    /// The nodes of this set that the other lacks. The error is want of memory.
    pub fn without(&self, alloc: Global, other: &Uids) -> Mem<Uids>
        ensures { IfOk result (λ uids. uids ≡ lacking self.now other.now) }
    {
        let items = difference(alloc, self.as_slice(), other.as_slice())?;
        Ok(Uids { items })
    }

    /// The uids above `after`, without the first `offset` of them; of these the first `first`, or the last `-first` where
    /// it is negative, or all where it is None. The error is want of memory.
    pub fn page(&self, alloc: Global, after: u64, offset: u64, first: Option<i64>) -> Mem<Uids>
        ensures { IfOk result (λ uids. uids ≡ page_of self.now after offset first) }
    {
        let page = chosen(behind(above(self.as_slice(), after), offset), first);
        let items = Vec::from_slice(alloc, page)?;
        Ok(Uids { items })
    }
}
