// The subjects that are read for new definitions, filed under the older definitions and the newer ones.
ghost use Rattle.std.specs.Prelude.{◌≡◌, ◌++◌, IfOk, OnOk, map, option_copied};
ghost use Rattle.dg_values.specs.Ascending.{has};
ghost use Rattle.dg_values.specs.Order.{tokenizer_cmp};
ghost use Rattle.dg_keys.specs.declared.key.Key.TheVariants.{Data};
ghost use Rattle.dg_edges.specs.Altering as altering;
ghost use Rattle.dg_edges.specs.Altering.{has_each, are_alike, list_alike, reread_keys, filed_under_schema};
ghost use Rattle.dg_edges.specs.Filing.{filed_at};
ghost use Rattle.dg_edges.specs.Lists as objects;

use crate::filing::{Filings, file_at};
use crate::lists::objects_at;
use dg_graph::Snapshot;
use dg_keys::Key;
use dg_schema::{PredDef, Schema};
use dg_values::{Mem, OutOfMemory, Steps, Str, Tokenizer};
use std::alloc::Global;
use std::sync::ledger::Ledger;

// Whether a tokenizer is among others.
fn has_tokenizer(tokenizers: &[Tokenizer], wanted: Tokenizer) -> bool
    ensures { result ≡ has tokenizer_cmp tokenizers.now wanted }
{
    for tokenizer in tokenizers {
        if tokenizer.cmp(&wanted).is_eq() {
            return true;
        }
    }
    false
}

// Whether each of some tokenizers is among others.
fn has_each(tokenizers: &[Tokenizer], some: &[Tokenizer]) -> bool
    ensures { result ≡ has_each tokenizers.now some.now }
{
    for tokenizer in some {
        if !has_tokenizer(tokenizers, *tokenizer) {
            return false;
        }
    }
    true
}

// Whether both hold or neither.
fn are_alike(a: bool, b: bool) -> bool
    ensures { result ≡ are_alike a b }
{
    if a { b } else { !b }
}

// Whether two definitions have one index, reverse and count.
fn list_alike(old: &PredDef, new: &PredDef) -> bool
    ensures { result ≡ list_alike old.now new.now }
{
    has_each(old.tokens.as_slice(), new.tokens.as_slice())
        && has_each(new.tokens.as_slice(), old.tokens.as_slice())
        && are_alike(old.reverse, new.reverse)
        && are_alike(old.count, new.count)
}

// Whether the subjects of a predicate are read for a newer definition.
fn is_reread(old: Option<&PredDef>, newer: &PredDef) -> bool
    ensures { result ≡ altering.is_reread (option_copied old.entry) newer.now }
{
    match old {
        Some(old) => !list_alike(old, newer),
        None => false,
    }
}

// Adds the keys of subjects.
fn push_subjects(alloc: Global, p: &Str, subjects: &[u64], keys: &mut Vec<Key>) -> Mem<()>
    ensures { OnOk result (keys.new.items ≡ keys.old.items ++ map (Data p.now) subjects.now) }
{
    for s in subjects {
        let p = p.copy(alloc)?;
        keys.push(Key::Data { p, s: *s })?;
    }
    Ok(())
}

// Adds the keys of the subjects that are read for a newer definition.
fn push_reread<S: Snapshot, L: Ledger>(
    alloc: Global,
    snap: &S,
    newer: &PredDef,
    keys: &mut Vec<Key>,
    reads: &mut Steps<L>,
) -> Mem<()>
    ensures { OnOk result (keys.new.items ≡ keys.old.items ++ reread_keys (S.declared snap.now) (S.graph snap.now) newer.now) }
{
    let p = &newer.name;
    if !is_reread(snap.schema().lookup(p.as_str()), newer) {
        return Ok(());
    }
    let subjects = snap.holders(alloc, p.as_str(), reads)?;
    push_subjects(alloc, p, subjects.as_slice(), keys)
}

// The keys of the subjects that are read for newer definitions.
pub fn altered_keys<S: Snapshot, L: Ledger>(
    alloc: Global,
    snap: &S,
    newer: &[PredDef],
    reads: &mut Steps<L>,
) -> Mem<Vec<Key>>
    ensures { IfOk result (λ v. v.items ≡ altering.altered_keys (S.declared snap.now) (S.graph snap.now) newer.now) }
{
    let mut keys = Vec::new(alloc);
    for definition in newer {
        push_reread(alloc, snap, definition, &mut keys, reads)?;
    }
    Ok(keys)
}

// Files the subject of a key under its objects, as it is under the schema and as it is under a later one.
fn file_reread<S: Snapshot, L: Ledger>(
    alloc: Global,
    snap: &S,
    later: &Schema,
    key: &Key,
    found: &mut Filings,
    reads: &mut Steps<L>,
) -> Mem<()>
    ensures before { OnOk result (found.new.before.items ≡ found.old.before.items ++ filed_at (S.declared snap.now) key.now (objects.objects_at (S.graph snap.now) key.now)) }
    ensures after { OnOk result (found.new.after.items ≡ found.old.after.items ++ filed_at later.now key.now (objects.objects_at (S.graph snap.now) key.now)) }
{
    let own = objects_at(alloc, snap, key, reads)?;
    file_at(alloc, snap.schema(), key, own.as_slice(), &mut found.before)?;
    file_at(alloc, later, key, own.as_slice(), &mut found.after)
}

// The filings of the subjects of keys, under the schema and under a later one.
pub fn filings_under<S: Snapshot, L: Ledger>(
    alloc: Global,
    snap: &S,
    later: &Schema,
    keys: &[Key],
    reads: &mut Steps<L>,
) -> Mem<Filings>
    ensures before { IfOk result (λ found. found.before.items ≡ filed_under_schema (S.declared snap.now) (S.graph snap.now) keys.now) }
    ensures after { IfOk result (λ found. found.after.items ≡ filed_under_schema later.now (S.graph snap.now) keys.now) }
{
    let mut found = Filings {
        before: Vec::new(alloc),
        after: Vec::new(alloc),
    };
    for key in keys {
        file_reread(alloc, snap, later, key, &mut found, reads)?;
    }
    Ok(found)
}
