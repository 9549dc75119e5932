// The objects that sets take the place of, of the subjects whose lists were read for them.
ghost use Rattle.std.specs.Prelude.{◌≡◌, ◌+◌, ◌++◌, ◌∷◌, [], List, Some, if◌then◌else◌, IfOk, OnOk, map, length, sum_by};
ghost use Rattle.dg_values.specs.Ascending.{Ascends, has, without_one};
ghost use Rattle.dg_values.specs.Order.{posting_cmp};
ghost use Rattle.dg_values.specs.declared.value.Posting.{Posting};
ghost use Rattle.dg_schema.specs.Definitions.{definition_of};
ghost use Rattle.dg_graph.specs.Changes.{changed};
ghost use Rattle.dg_keys.specs.declared.key.Key.{Key};
ghost use Rattle.dg_keys.specs.Keys.{key_cmp};
ghost use Rattle.dg_edges.specs.Deltas.{data_key};
ghost use Rattle.dg_edges.specs.Lists as listed;
ghost use Rattle.dg_edges.specs.Lists.{reads_at};
ghost use Rattle.dg_edges.specs.Replaced as definitions;
ghost use Rattle.dg_edges.specs.Replaced.{read_by, read_key, sole_after, kept_after};

use crate::lists::objects_at;
use dg_graph::{Change, Snapshot};
use dg_keys::Key;
use dg_schema::{PredDef, Schema};
use dg_sets::{InOrder, in_order, place_of};
use dg_values::{List, Mem, OutOfMemory, Posting, Steps, Tokenizer};
use std::alloc::Global;
use std::sync::ledger::Ledger;

// Whether there is a tokenizer.
fn is_indexed(tokenizers: &[Tokenizer]) -> bool
    ensures { result ≡ definitions.is_indexed tokenizers.now }
{
    match tokenizers {
        [] => false,
        [_, ..] => true,
    }
}

// Whether the objects that a set takes the place of have keys.
fn keys_replaced(def: &PredDef) -> bool
    ensures { result ≡ definitions.keys_replaced def.now }
{
    !def.list && (is_indexed(def.tokens.as_slice()) || (def.reverse && def.count))
}

// Of the objects of a change's subject those that it takes the place of, where they have keys.
pub fn replaced<'a>(def: &PredDef, objects: &'a [Posting], change: &Change) -> &'a [Posting]
    ensures { result.now ≡ definitions.replaced def.now objects.now change.now }
{
    match change {
        Change::Set(_) => { if keys_replaced(def) { objects } else { &[] } }
        Change::Del(_) => &[],
    }
}

// Adds the subject whose objects a change has to know, under a definition.
fn push_read_by(alloc: Global, def: &PredDef, change: &Change, keys: &mut Vec<Key>) -> Mem<()>
    ensures { OnOk result (keys.new.items ≡ keys.old.items ++ read_by (Some def.now) change.now) }
{
    match change {
        Change::Set(t) => {
            if keys_replaced(def) {
                let p = t.p.copy(alloc)?;
                keys.push(Key::Data { p, s: t.s })?;
            }
            Ok(())
        }
        Change::Del(_) => Ok(()),
    }
}

// Adds the subject whose objects a change has to know.
fn push_read_key(alloc: Global, schema: &Schema, change: &Change, keys: &mut Vec<Key>) -> Mem<()>
    ensures { OnOk result (keys.new.items ≡ keys.old.items ++ read_key schema.now change.now) }
{
    match schema.lookup(change.triple().p.as_str()) {
        Some(def) => push_read_by(alloc, def, change, keys),
        None => Ok(()),
    }
}

// The subjects whose objects changes have to know, ascending.
pub fn read_keys(alloc: Global, schema: &Schema, changes: &[Change]) -> Mem<Vec<Key>>
    ensures { IfOk result (λ v. v.items ≡ definitions.read_keys schema.now changes.now) }
{
    let mut keys = Vec::new(alloc);
    for change in changes {
        push_read_key(alloc, schema, change, &mut keys)?;
    }
    Ok(in_order(keys))
}

// The objects at some keys.
pub fn objects_of<S: Snapshot, L: Ledger>(
    alloc: Global,
    snap: &S,
    keys: &[Key],
    reads: &mut Steps<L>,
) -> Mem<Vec<List<Posting>>>
    ensures lists { IfOk result (λ v. v.items ≡ map (listed.objects_at (S.graph snap.now)) keys.now) }
    ensures reads { OnOk result (reads.new ≡ reads.old + sum_by reads_at keys.now) }
    ensures none { keys.now ≡ [] → reads.new ≡ reads.old }
{
    let mut lists = Vec::with_capacity(alloc, keys.len())?;
    for key in keys {
        lists.push(List::from_vec(objects_at(alloc, snap, key, reads)?))?;
    }
    Ok(lists)
}

// The objects at one of some keys, which it looks for by halves; none, where it isn't one of them.
pub fn objects_in<'a>(keys: &[Key], lists: &'a [List<Posting>], key: &Key) -> &'a [Posting]
    requires ascend { Ascends key_cmp keys.now }
    requires each { length lists.now ≡ length keys.now }
    ensures { (f : Key → List Posting) → lists.now ≡ map f keys.now → result.now ≡ (if has key_cmp keys.now key.now then f key.now else []) }
{
    match place_of(keys, key) {
        Ok(place) => lists[place].as_slice(),
        Err(_) => &[],
    }
}

// Copies of objects, but of one.
fn all_but(alloc: Global, objects: &[Posting], one: &Posting) -> Mem<Vec<Posting>>
    ensures { IfOk result (λ v. v.items ≡ without_one posting_cmp objects.now one.now) }
{
    let mut others = Vec::new(alloc);
    for object in objects {
        if !object.compare(one).is_eq() {
            others.push(object.copy(alloc)?)?;
        }
    }
    Ok(others)
}

// A list of one copied object.
fn sole(alloc: Global, object: &Posting) -> Mem<Vec<Posting>>
    ensures { IfOk result (λ v. v.items ≡ object.now ∷ []) }
{
    let mut objects = Vec::with_capacity(alloc, 1)?;
    objects.push(object.copy(alloc)?)?;
    Ok(objects)
}

// Makes a change of its subject's objects.
fn change_sole(alloc: Global, objects: &mut List<Posting>, change: &Change) -> Mem<()>
    ensures { OnOk result (objects.new ≡ sole_after objects.old change.now) }
{
    let after = match change {
        Change::Set(t) => sole(alloc, &t.o)?,
        Change::Del(t) => all_but(alloc, objects.as_slice(), &t.o)?,
    };
    *objects = List::from_vec(after);
    Ok(())
}

// Makes a change of the objects at its key, where that is one of these keys.
pub fn change_at(
    alloc: Global,
    keys: &[Key],
    lists: &mut Vec<List<Posting>>,
    key: &Key,
    change: &Change,
) -> Mem<()>
    requires ascend { Ascends key_cmp keys.now }
    requires each { length lists.old.items ≡ length keys.now }
    requires own { key.now ≡ data_key change.now }
    ensures { (f : Key → List Posting) → lists.old.items ≡ map f keys.now → OnOk result (lists.new.items ≡ map (λ k. kept_after change.now k (f k)) keys.now) }
{
    match place_of(keys, key) {
        Ok(place) => change_sole(alloc, &mut lists[place], change),
        Err(_) => Ok(()),
    }
}
