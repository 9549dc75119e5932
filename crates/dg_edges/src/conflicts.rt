// The keys by which changes conflict, and their predicates.
ghost use Rattle.std.specs.Prelude.{◌≡◌, ◌+◌, ◌++◌, [], true, List, IfOk, OnOk, map, length};
ghost use Rattle.std.specs.List.{AllByRecursion};
ghost use Rattle.dg_values.specs.Ascending.{Ascends, has};
ghost use Rattle.dg_values.specs.declared.value.Posting.{Posting};
ghost use Rattle.dg_schema.specs.Definitions.{definition_of};
ghost use Rattle.dg_graph.specs.Changes.{changed};
ghost use Rattle.dg_keys.specs.declared.key.Key.{Key};
ghost use Rattle.dg_keys.specs.Keys.{key_cmp};
ghost use Rattle.dg_zero.specs.Listings as listings;
ghost use Rattle.dg_zero.specs.Listings.{keys_of_changes};
ghost use Rattle.dg_edges.specs.Deltas as definitions;
ghost use Rattle.dg_edges.specs.Deltas.{data_key};
ghost use Rattle.dg_edges.specs.Replaced as changing;
ghost use Rattle.dg_edges.specs.Replaced.{read_key, kept_after, keys_by};

use crate::lists::key_of;
use crate::replaced::{change_at, objects_in, objects_of, read_keys, replaced};
use crate::touched::push_keys;
use dg_graph::{Change, Snapshot};
use dg_keys::{ConflictKey, Key};
use dg_schema::Schema;
use dg_sets::{in_order, put};
use dg_values::{List, Mem, OutOfMemory, Posting, Steps, Str};
use std::alloc::Global;
use std::sync::ledger::Ledger;

// Adds the keys of a change, by the objects of its subject; of an undeclared predicate it has none.
fn push_change(
    alloc: Global,
    schema: &Schema,
    change: &Change,
    objects: &[Posting],
    found: &mut Vec<ConflictKey>,
) -> Mem<()>
    ensures { OnOk result (found.new.items ≡ found.old.items ++ keys_by (definition_of schema.now (changed change.now).p) objects.now change.now) }
{
    let triple = change.triple();
    match schema.lookup(triple.p.as_str()) {
        Some(def) => push_keys(alloc, def, triple, replaced(def, objects, change), found),
        None => Ok(()),
    }
}

// Adds the keys of a change, and makes it of the objects of the subjects that were read.
fn push_next(
    alloc: Global,
    schema: &Schema,
    keys: &[Key],
    lists: &mut Vec<List<Posting>>,
    change: &Change,
    found: &mut Vec<ConflictKey>,
) -> Mem<()>
    requires ascend { Ascends key_cmp keys.now }
    requires each { length lists.old.items ≡ length keys.now }
    requires there { AllByRecursion (λ k. has key_cmp keys.now k ≡ true) (read_key schema.now change.now) }
    ensures lists { (f : Key → List Posting) → lists.old.items ≡ map f keys.now → OnOk result (lists.new.items ≡ map (λ k. kept_after change.now k (f k)) keys.now) }
    ensures found { (f : Key → List Posting) → lists.old.items ≡ map f keys.now → OnOk result (found.new.items ≡ found.old.items ++ keys_by (definition_of schema.now (changed change.now).p) (f (data_key change.now)) change.now) }
{
    let key = key_of(alloc, change)?;
    let objects = objects_in(keys, lists.as_slice(), &key);
    push_change(alloc, schema, change, objects, found)?;
    change_at(alloc, keys, lists, &key, change)
}

// The keys of changes in turn, where these are the subjects whose objects they have to know.
fn keys_in_turn<S: Snapshot, L: Ledger>(
    alloc: Global,
    snap: &S,
    keys: &[Key],
    changes: &[Change],
    reads: &mut Steps<L>,
) -> Mem<Vec<ConflictKey>>
    requires keys { keys.now ≡ changing.read_keys (S.declared snap.now) changes.now }
    ensures keys { IfOk result (λ v. v.items ≡ keys_of_changes (S.declared snap.now) (S.graph snap.now) changes.now) }
    ensures reads { OnOk result (reads.new ≡ reads.old + length (changing.read_keys (S.declared snap.now) changes.now)) }
    ensures none { keys.now ≡ [] → reads.new ≡ reads.old }
{
    let mut lists = objects_of(alloc, snap, keys, reads)?;
    let mut found = Vec::with_capacity(alloc, changes.len())?;
    for change in changes {
        push_next(alloc, snap.schema(), keys, &mut lists, change, &mut found)?;
    }
    Ok(found)
}

/// The keys by which changes conflict, ascending and each once. Of each subject it reads the objects once, where a change
/// takes the place of them and they have keys; where no predicate has index, reverse or count, it reads none. The error is
/// want of memory.
pub fn conflict_keys<S: Snapshot, L: Ledger>(
    alloc: Global,
    snap: &S,
    changes: &[Change],
    reads: &mut Steps<L>,
) -> Mem<Vec<ConflictKey>>
    ensures keys { IfOk result (λ v. v.items ≡ listings.conflict_keys (S.declared snap.now) (S.graph snap.now) changes.now) }
    ensures reads { OnOk result (reads.new ≡ reads.old + length (changing.read_keys (S.declared snap.now) changes.now)) }
{
    let keys = read_keys(alloc, snap.schema(), changes)?;
    let found = keys_in_turn(alloc, snap, keys.as_slice(), changes, reads)?;
    Ok(in_order(found))
}

/// The predicates of changes, ascending and each once. The error is want of memory.
pub fn preds_of(alloc: Global, changes: &[Change]) -> Mem<Vec<Str>>
    ensures { IfOk result (λ v. v.items ≡ definitions.preds_of changes.now) }
{
    let mut found = Vec::new(alloc);
    for change in changes {
        put(&mut found, change.triple().p.copy(alloc)?)?;
    }
    found.shrink_to_fit();
    Ok(found)
}
