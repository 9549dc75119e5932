// Ascending lists of postings that never change.
ghost use Rattle.std.specs.Prelude.{◌≡◌, ◌≤◌, IfOk, OnOk, ◌++◌, length, take, drop};
ghost use Rattle.dg_values.specs.Ascending.{Ascends, has};
ghost use Rattle.dg_values.specs.Order.{posting_cmp};
ghost use Rattle.dg_base.specs.Places.{count_below};
ghost use Rattle.dg_base.specs.Packed.{packed, uids_of};

use crate::nodes::Nodes;
use dg_sets::is_there;
use dg_values::{Mem, OutOfMemory, Posting, cmp_posting};
use std::alloc::Global;
use std::marker::Model;

/// Postings that never change, which contracts see as a strictly ascending list.
///
/// Nodes are packed in blocks of 128, and values stand behind them as they are.
#[derive(Debug, Drop)]
pub struct Base {
    nodes: Nodes,
    values: Vec<Posting>,
}

impl Model for Base {
    ghost use Rattle.std.specs.Prelude.{List, ◌++◌, map};
    ghost use Rattle.dg_values.specs.declared.value.Posting.{Posting};
    ghost use Rattle.dg_values.specs.declared.value.Posting.TheVariants.{Uid};
    ghost use Rattle.dg_base.specs.Places.{AreParted};

    ghost Value = { List Posting };

    ghost view = { λ base. map (λ n. Uid n) base.nodes ++ base.values.items };

    ghost invariant = { λ base. AreParted base.nodes base.values.items };
}

impl Base {
    /// A base of equal postings. The error is want of memory.
    pub fn pack(alloc: Global, items: &[Posting]) -> Mem<Base>
        requires { Ascends posting_cmp items.now }
        ensures { IfOk result (λ base. base ≡ items.now) }
    {
        let nodes = Nodes::pack(alloc, items)?;
        let (_, rest) = items.split_at(nodes.len());
        let values = copies(alloc, rest)?;
        Ok(Base { nodes, values })
    }

    /// How many postings it has.
    pub fn len(&self) -> usize
        ensures len { result ≡ length self.now }
        ensures ascend { Ascends posting_cmp self.now }
    {
        self.nodes.len() + self.values.len()
    }

    /// The packed bytes of its nodes: this project's own byte form of ascending numbers.
    pub fn packed(&self) -> &[u8]
        ensures { result.now ≡ packed (uids_of self.now) }
    {
        self.nodes.packed()
    }

    /// Whether a posting is there. It looks by halves, for a node then along one block, and takes no memory.
    pub fn find(&self, item: &Posting) -> bool
        ensures { result ≡ has posting_cmp self.now item.now }
    {
        match item {
            Posting::Uid(number) => self.nodes.place(*number).there,
            Posting::Val(_) => is_there(self.values.as_slice(), item),
        }
    }

    /// How many postings are below this one. It looks by halves, for a node then along one block, and takes no memory.
    pub fn seek(&self, item: &Posting) -> usize
        ensures below { result ≡ count_below self.now item.now }
        ensures within { result ≤ length self.now }
    {
        match item {
            Posting::Uid(number) => self.nodes.place(*number).below,
            Posting::Val(_) => self.nodes.len() + values_below(self.values.as_slice(), item),
        }
    }

    /// Equal postings from a place on, and only the first `most` of them where there are more. The error is want of memory.
    pub fn walk(&self, alloc: Global, from: usize, most: usize) -> Mem<Vec<Posting>>
        ensures { IfOk result (λ items. items.items ≡ take most (drop from self.now)) }
    {
        let nodes = self.nodes.len();
        let first = from.min(nodes);
        let some = most.min(nodes - first);
        let values = part(self.values.as_slice(), from - first, most - some);
        let mut items = Vec::with_capacity(alloc, some + values.len())?;
        self.nodes.push_to(&mut items, first, some)?;
        push_copies(alloc, &mut items, values)?;
        Ok(items)
    }
}

// How many values are below a posting.
fn values_below(values: &[Posting], item: &Posting) -> usize
    requires { Ascends posting_cmp values.now }
    ensures below { result ≡ count_below values.now item.now }
    ensures within { result ≤ length values.now }
{
    values.partition_point(|other| cmp_posting(other, item).is_lt())
}

// Some postings from a place on.
fn part(items: &[Posting], from: usize, most: usize) -> &[Posting]
    ensures { result.now ≡ take most (drop from items.now) }
{
    let rest = &items[from.min(items.len())..];
    &rest[..most.min(rest.len())]
}

// Equal postings.
fn copies(alloc: Global, items: &[Posting]) -> Mem<Vec<Posting>>
    ensures { IfOk result (λ copied. copied.items ≡ items.now) }
{
    let mut copied = Vec::with_capacity(alloc, items.len())?;
    push_copies(alloc, &mut copied, items)?;
    Ok(copied)
}

// Adds equal postings.
fn push_copies(alloc: Global, copied: &mut Vec<Posting>, items: &[Posting]) -> Mem<()>
    ensures { OnOk result (copied.new.items ≡ copied.old.items ++ items.now) }
{
    for item in items {
        copied.push(item.copy(alloc)?)?;
    }
    Ok(())
}
