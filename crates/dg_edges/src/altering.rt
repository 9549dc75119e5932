// What new definitions make of index, reverse and count lists, as parts.
ghost use Rattle.std.specs.Prelude.{◌≡◌, ◌++◌, List, IfOk, OnOk, flat_map, map, length};
ghost use Rattle.dg_values.specs.declared.value.Posting.{Posting};
ghost use Rattle.dg_schema.specs.Definitions.{with_definitions};
ghost use Rattle.dg_graph.specs.Graphs.{IsLawful};
ghost use Rattle.dg_keys.specs.declared.key.Key.{Key};
ghost use Rattle.dg_zero.specs.Listings.{AreGainsAndLosses};
ghost use Rattle.dg_edges.specs.Altering.{filed_long, altered_parts};

use crate::deltas::{parts_between, parts_by};
use crate::filing::{Filed, Filings};
use crate::gathering::{Nodes, filed_keys, gathered};
use crate::joining::sorted;
use crate::numbers::{file_subjects, is_counted};
use crate::rereading::{altered_keys, filings_under};
use dg_graph::Snapshot;
use dg_keys::{Key, Part};
use dg_schema::Schema;
use dg_values::{Mem, OutOfMemory, Steps};
use std::alloc::Global;
use std::sync::ledger::Ledger;

// Files the node of a key under the number of its subjects, where these are counted.
fn file_long(
    alloc: Global,
    schema: &Schema,
    key: &Key,
    subjects: &Nodes,
    filed: &mut Vec<Filed>,
) -> Mem<()>
    ensures { OnOk result (filed.new.items ≡ filed.old.items ++ filed_long schema.now key.now subjects.now) }
{
    match key {
        Key::Reverse { p, o } => {
            if is_counted(schema, p) {
                let number = subjects.as_slice().len() as u64;
                file_subjects(alloc, p, *o, number, filed)
            } else {
                Ok(())
            }
        }
        _ => Ok(()),
    }
}

// The nodes of keys under the numbers of their subjects.
fn numbers_at(alloc: Global, schema: &Schema, keys: &[Key], lists: &[Nodes]) -> Mem<Vec<Filed>>
    requires each { length lists.now ≡ length keys.now }
    ensures { (f : Key → List Posting) → lists.now ≡ map f keys.now → IfOk result (λ v. v.items ≡ flat_map (λ k. filed_long schema.now k (f k)) keys.now) }
{
    let mut filed = Vec::new(alloc);
    for (place, key) in keys.iter().enumerate() {
        file_long(alloc, schema, key, &lists[place], &mut filed)?;
    }
    Ok(filed)
}

// The parts of two lists.
fn both(mut parts: Vec<Part>, mut more: Vec<Part>) -> Mem<Vec<Part>>
    ensures { IfOk result (λ v. v.items ≡ parts.items ++ more.items) }
{
    parts.append(&mut more)?;
    Ok(parts)
}

// What lists of nodes gain and lose from filings under one schema to filings under another.
fn parts_under(alloc: Global, old: &Schema, new: &Schema, found: &Filings) -> Mem<Vec<Part>>
    ensures { IfOk result (λ v. v.items ≡ altered_parts old.now new.now found.now.before.items found.now.after.items) }
{
    let before = found.before.as_slice();
    let after = found.after.as_slice();
    let keys = filed_keys(alloc, before, after)?;
    let lost = gathered(alloc, keys.as_slice(), before)?;
    let gained = gathered(alloc, keys.as_slice(), after)?;
    let listed = parts_between(alloc, keys.as_slice(), lost.as_slice(), gained.as_slice())?;
    let less = numbers_at(alloc, old, keys.as_slice(), lost.as_slice())?;
    let more = numbers_at(alloc, new, keys.as_slice(), gained.as_slice())?;
    let numbers = Filings {
        before: less,
        after: more,
    };
    let numbered = parts_by(alloc, &numbers)?;
    both(listed, numbered)
}

/// Per key whose list changes, in ascending order, what the list gains and loses by newer definitions. Of each predicate that
/// is declared with another index, reverse or count, it reads the list of subjects, and the objects of each of these once;
/// of other predicates it reads nothing. It takes the time of sorting these. The error is want of memory.
pub fn schema_deltas<S: Snapshot, L: Ledger>(
    alloc: Global,
    snap: &S,
    newer: &Schema,
    reads: &mut Steps<L>,
) -> Mem<Vec<Part>>
    requires lawful { IsLawful (S.declared snap.now) (S.graph snap.now) }
    ensures exact { IfOk result (λ v. AreGainsAndLosses (S.declared snap.now) (S.graph snap.now) (with_definitions (S.declared snap.now) newer.now) (S.graph snap.now) v.items) }
{
    let keys = altered_keys(alloc, snap, newer.definitions(), reads)?;
    let later = snap.schema().with(newer)?;
    let found = filings_under(alloc, snap, &later, keys.as_slice(), reads)?;
    let parts = parts_under(alloc, snap.schema(), &later, &found)?;
    sorted(parts)
}
