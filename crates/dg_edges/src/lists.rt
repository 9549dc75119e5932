// The objects of the subjects that are changed, before changes and after some.
ghost use Rattle.std.specs.Prelude.{◌≡◌, ◌+◌, List, IfOk, OnOk, map, length, sum_by};
ghost use Rattle.dg_values.specs.Ascending.{Ascends};
ghost use Rattle.dg_values.specs.Order.{posting_cmp};
ghost use Rattle.dg_graph.specs.Graphs.{triple_cmp};
ghost use Rattle.dg_keys.specs.declared.key.Key.{Key};
ghost use Rattle.dg_keys.specs.Keys.{key_cmp};
ghost use Rattle.dg_edges.specs.Deltas.{data_key, data_keys};
ghost use Rattle.dg_edges.specs.Lists.{Lists, objects_at, reads_at, unchanged_at, changed_at, lists_after};

use dg_graph::{Change, Snapshot, change_objects};
use dg_keys::Key;
use dg_schema::Schema;
use dg_sets::{in_order, place_of};
use dg_values::{Mem, OutOfMemory, Posting, Steps};
use std::alloc::Global;
use std::marker::Model;
use std::sync::ledger::Ledger;

// The objects of a subject, before changes and after some.
#[derive(Drop)]
pub struct Objects {
    before: Vec<Posting>,
    after: Vec<Posting>,
}

impl Model for Objects {
    ghost use Rattle.dg_values.specs.Ascending.{Ascends};
    ghost use Rattle.dg_values.specs.Order.{posting_cmp};
    ghost use Rattle.dg_edges.specs.Lists.{Lists};

    ghost Value = { Lists };

    ghost view = { λ o. record { before = o.before.items; after = o.after.items } };

    ghost invariant = { λ o. Ascends posting_cmp o.before.items × Ascends posting_cmp o.after.items };
}

impl Objects {
    // The objects before.
    pub fn before(&self) -> &[Posting]
        ensures items { result.now ≡ self.now.before }
        ensures ascend { Ascends posting_cmp result.now }
    {
        self.before.as_slice()
    }

    // The objects after.
    pub fn after(&self) -> &[Posting]
        ensures items { result.now ≡ self.now.after }
        ensures ascend { Ascends posting_cmp result.now }
    {
        self.after.as_slice()
    }
}

// The key of the subject that a change is of.
pub fn key_of(alloc: Global, change: &Change) -> Mem<Key>
    ensures { IfOk result (λ key. key ≡ data_key change.now) }
{
    let triple = change.triple();
    Ok(Key::Data {
        p: triple.p.copy(alloc)?,
        s: triple.s,
    })
}

// The keys of the subjects that are changed, ascending.
pub fn keys_of(alloc: Global, changes: &[Change]) -> Mem<Vec<Key>>
    ensures { IfOk result (λ v. v.items ≡ data_keys changes.now) }
{
    let mut keys = Vec::with_capacity(alloc, changes.len())?;
    for change in changes {
        keys.push(key_of(alloc, change)?)?;
    }
    Ok(in_order(keys))
}

// Equal postings.
fn copies(alloc: Global, postings: &[Posting]) -> Mem<Vec<Posting>>
    ensures { IfOk result (λ copies. copies.items ≡ postings.now) }
{
    let mut copies = Vec::with_capacity(alloc, postings.len())?;
    for posting in postings {
        copies.push(posting.copy(alloc)?)?;
    }
    Ok(copies)
}

// The objects at a key.
pub fn objects_at<S: Snapshot, L: Ledger>(
    alloc: Global,
    snap: &S,
    key: &Key,
    reads: &mut Steps<L>,
) -> Mem<Vec<Posting>>
    ensures items { IfOk result (λ v. v.items ≡ objects_at (S.graph snap.now) key.now) }
    ensures reads { OnOk result (reads.new ≡ reads.old + reads_at key.now) }
{
    match key {
        Key::Data { p, s } => snap.objects(alloc, p.as_str(), *s, reads),
        _ => Ok(Vec::new(alloc)),
    }
}

// The objects at a key, before changes and after none.
fn unchanged<S: Snapshot, L: Ledger>(
    alloc: Global,
    snap: &S,
    key: &Key,
    reads: &mut Steps<L>,
) -> Mem<Objects>
    requires ascend { Ascends triple_cmp (S.graph snap.now) }
    ensures lists { IfOk result (λ o. o ≡ unchanged_at (S.graph snap.now) key.now) }
    ensures reads { OnOk result (reads.new ≡ reads.old + reads_at key.now) }
{
    let before = objects_at(alloc, snap, key, reads)?;
    let after = copies(alloc, before.as_slice())?;
    Ok(Objects { before, after })
}

// The objects at some keys, before changes and after none.
fn all_unchanged<S: Snapshot, L: Ledger>(
    alloc: Global,
    snap: &S,
    keys: &[Key],
    reads: &mut Steps<L>,
) -> Mem<Vec<Objects>>
    requires ascend { Ascends triple_cmp (S.graph snap.now) }
    ensures lists { IfOk result (λ v. v.items ≡ map (unchanged_at (S.graph snap.now)) keys.now) }
    ensures reads { OnOk result (reads.new ≡ reads.old + sum_by reads_at keys.now) }
{
    let mut lists = Vec::with_capacity(alloc, keys.len())?;
    for key in keys {
        lists.push(unchanged(alloc, snap, key, reads)?)?;
    }
    Ok(lists)
}

// Makes a change of the objects at a key.
fn change_one(
    alloc: Global,
    schema: &Schema,
    key: &Key,
    objects: &mut Objects,
    change: &Change,
) -> Mem<()>
    ensures { OnOk result (objects.new ≡ changed_at schema.now change.now key.now objects.old) }
{
    match key {
        Key::Data { p, s } => {
            change_objects(alloc, schema, p.as_str(), *s, &mut objects.after, change)
        }
        _ => Ok(()),
    }
}

// Makes a change of the objects at the one of some keys that it is of, which it looks for by halves.
fn change_at(
    alloc: Global,
    schema: &Schema,
    keys: &[Key],
    lists: &mut Vec<Objects>,
    change: &Change,
) -> Mem<()>
    requires ascend { Ascends key_cmp keys.now }
    requires each { length lists.old.items ≡ length keys.now }
    ensures { (f : Key → Lists) → lists.old.items ≡ map f keys.now → OnOk result (lists.new.items ≡ map (λ k. changed_at schema.now change.now k (f k)) keys.now) }
{
    let key = key_of(alloc, change)?;
    match place_of(keys, &key) {
        Ok(place) => change_one(alloc, schema, &key, &mut lists[place], change),
        Err(_) => Ok(()),
    }
}

// The objects at some keys, before and after changes.
pub fn lists_of<S: Snapshot, L: Ledger>(
    alloc: Global,
    snap: &S,
    keys: &[Key],
    changes: &[Change],
    reads: &mut Steps<L>,
) -> Mem<Vec<Objects>>
    requires graph { Ascends triple_cmp (S.graph snap.now) }
    requires ascend { Ascends key_cmp keys.now }
    ensures lists { IfOk result (λ v. v.items ≡ map (lists_after (S.declared snap.now) (S.graph snap.now) changes.now) keys.now) }
    ensures reads { OnOk result (reads.new ≡ reads.old + sum_by reads_at keys.now) }
{
    let mut lists = all_unchanged(alloc, snap, keys, reads)?;
    for change in changes {
        change_at(alloc, snap.schema(), keys, &mut lists, change)?;
    }
    Ok(lists)
}
