// What lists gain and lose by the changes of a transaction, by key.
ghost use Rattle.std.specs.Prelude.{[], ◌≡◌, ◌+◌, ◌<◌, ◌++◌, IfOk, OnOk, length, map, take, option_copied};
ghost use Rattle.std.specs.Arc.{arc_value};
ghost use Rattle.std.specs.Ordering.{is_le, is_lt};
ghost use Rattle.dg_values.specs.Ascending.{Ascends};
ghost use Rattle.dg_delta.specs.Ops.{op_cmp};
ghost use Rattle.dg_keys.specs.Keys.{key_cmp, ops_at, AreParts};
ghost use Rattle.dg_pages.specs.Entries.{change_of, changes_of, entries_of};
ghost use Rattle.dg_txn.specs.Gains.{parts_from, change_by, parts_after};
ghost use Rattle.dg_pages.specs.Paged.{joined};
ghost use Rattle.dg_txn.specs.Walks.{part_keys, is_changed, IsLeast};

use crate::composing::{composed, push_copies};
use dg_delta::Op;
use dg_keys::{Key, Part};
use dg_pages::Pages;
use dg_values::{List, Mem, OutOfMemory};
use std::alloc::Global;
use std::marker::Model;
use std::sync::Arc;

// The operations on each list that changes change. Contracts see them as parts.
#[derive(Drop)]
pub struct Gains {
    lists: Pages<Key, List<Op>>,
}

impl Model for Gains {
    ghost use Rattle.std.specs.Prelude.{List as Items};
    ghost use Rattle.dg_keys.specs.declared.record.Part.{Part};
    ghost use Rattle.dg_keys.specs.Keys.{AreParts};
    ghost use Rattle.dg_pages.specs.Paged.{joined};
    ghost use Rattle.dg_txn.specs.Gains.{parts_from};

    ghost Value = { Items Part };

    ghost view = { λ g. parts_from (joined g.lists) };

    ghost invariant = { λ g. AreParts (parts_from (joined g.lists)) };
}

impl Gains {
    // Those of no change.
    pub fn none(alloc: Global) -> Mem<Gains>
        ensures { IfOk result (λ g. g ≡ []) }
    {
        Ok(Gains {
            lists: Pages::new(alloc)?,
        })
    }

    // The operations on the list of a key.
    pub fn ops_at(&self, key: &Key) -> &[Op]
        ensures ops { result.now ≡ ops_at self.now key.now }
        ensures ascend { Ascends op_cmp result.now }
    {
        match self.lists.get(key) {
            Some(ops) => ops.as_slice(),
            None => &[],
        }
    }

    // Whether the list of a key changes.
    pub fn has(&self, key: &Key) -> bool
        ensures { result ≡ is_changed self.now key.now }
    {
        self.lists.get(key).is_some()
    }

    // The least key at or above this one whose list changes.
    pub fn key_from(&self, key: &Key) -> Option<&Key>
        ensures { IsLeast (λ other. is_le (key_cmp key.now other)) (part_keys self.now) (option_copied result) }
    {
        match self.lists.next_from(key) {
            Some((found, _)) => Some(&**found),
            None => None,
        }
    }

    // The least key above this one whose list changes.
    pub fn key_above(&self, key: &Key) -> Option<&Key>
        ensures { IsLeast (λ other. is_lt (key_cmp key.now other)) (part_keys self.now) (option_copied result) }
    {
        match self.lists.next_above(key) {
            Some((found, _)) => Some(&**found),
            None => None,
        }
    }

    // The parts, copied.
    pub fn parts(&self, alloc: Global) -> Mem<Vec<Part>>
        ensures { IfOk result (λ v. v.items ≡ self.now) }
    {
        let lists = &self.lists;
        let mut parts = Vec::new(alloc);
        for at in 0..lists.pages() {
            push_page_at(alloc, &mut parts, lists, at)?;
        }
        parts.shrink_to_fit();
        Ok(parts)
    }

    // The change of the operations by a step that is the part. A list that is as at the start has none.
    fn change(&self, alloc: Global, part: &Part) -> Mem<(Arc<Key>, Option<Arc<List<Op>>>)>
        requires ascend { Ascends op_cmp part.now.ops }
        ensures { IfOk result (λ c. change_of c ≡ change_by self.now part.now) }
    {
        let key = Arc::new(alloc, part.key.copy(alloc)?)?;
        let own = self.ops_at(&part.key);
        let ops = composed(alloc, own, part.ops.as_slice())?;
        if ops.is_empty() {
            return Ok((key, None));
        }
        Ok((key, Some(Arc::new(alloc, List::from_vec(ops))?)))
    }

    // The changes by each part.
    fn changes(&self, alloc: Global, step: &[Part]) -> Mem<Vec<(Arc<Key>, Option<Arc<List<Op>>>)>>
        requires step { AreParts step.now }
        ensures { IfOk result (λ v. changes_of v.items ≡ map (change_by self.now) step.now) }
    {
        let mut changes = Vec::with_capacity(alloc, step.len())?;
        for part in step {
            changes.push(self.change(alloc, part)?)?;
        }
        Ok(changes)
    }

    // What lists gain and lose from the start by these and by a further step, which goes on from where these lead. No list is
    // read. These stay as they are.
    pub fn after(&self, alloc: Global, step: &[Part]) -> Mem<Gains>
        requires step { AreParts step.now }
        ensures { IfOk result (λ g. g ≡ parts_after self.now step.now) }
    {
        let changes = self.changes(alloc, step)?;
        Ok(Gains {
            lists: self.lists.with_changes(alloc, changes)?,
        })
    }
}

// An equal part.
fn part_copy(alloc: Global, key: &Key, ops: &List<Op>) -> Mem<Part>
    ensures { IfOk result (λ part. part ≡ record { key = key.now; ops = ops.now }) }
{
    let ops = op_copies(alloc, ops.as_slice())?;
    Ok(Part {
        key: key.copy(alloc)?,
        ops: List::from_vec(ops),
    })
}

// Adds the parts of the page at a place behind those of the pages before it.
fn push_page_at(
    alloc: Global,
    parts: &mut Vec<Part>,
    lists: &Pages<Key, List<Op>>,
    at: usize,
) -> Mem<()>
    requires there { at < length lists.now }
    requires before { parts.old.items ≡ parts_from (joined (take at lists.now)) }
    ensures { OnOk result (parts.new.items ≡ parts_from (joined (take (at + 1) lists.now))) }
{
    match lists.page(at) {
        Some(page) => push_page(alloc, parts, page),
        None => unreachable!(),
    }
}

// Adds the parts of a page behind others.
fn push_page(alloc: Global, parts: &mut Vec<Part>, page: &[(Arc<Key>, Arc<List<Op>>)]) -> Mem<()>
    ensures { OnOk result (parts.new.items ≡ parts.old.items ++ parts_from (entries_of page.now)) }
{
    for (key, ops) in page {
        parts.push(part_copy(alloc, key, ops)?)?;
    }
    Ok(())
}

// Equal operations.
fn op_copies(alloc: Global, ops: &[Op]) -> Mem<Vec<Op>>
    ensures { IfOk result (λ v. v.items ≡ ops.now) }
{
    let mut copies = Vec::with_capacity(alloc, ops.len())?;
    push_copies(alloc, &mut copies, ops)?;
    Ok(copies)
}
