// What changes make of posting lists, as parts.
ghost use Rattle.std.specs.Prelude.{◌≡◌, ◌+◌, ◌++◌, [], List, IfOk, map, length};
ghost use Rattle.dg_values.specs.Ascending.{Ascends};
ghost use Rattle.dg_values.specs.Order.{posting_cmp};
ghost use Rattle.dg_values.specs.declared.value.Posting.{Posting};
ghost use Rattle.dg_delta.specs.Ops.{changes_between};
ghost use Rattle.dg_graph.specs.Graphs.{after_changes, IsLawful};
ghost use Rattle.dg_keys.specs.declared.key.Key.{Key};
ghost use Rattle.dg_zero.specs.Listings.{AreGainsAndLosses};
ghost use Rattle.dg_edges.specs.Deltas.{and_part, parts_at, data_keys, AreFitting};
ghost use Rattle.dg_edges.specs.Filing.{filed_parts, counted_parts};
ghost use Rattle.dg_edges.specs.Lists.{Lists};

use crate::differing::between;
use crate::filing::{Filings, filings_of};
use crate::gathering::{Nodes, filed_keys, gathered};
use crate::joining::{joined, sorted};
use crate::lists::{Objects, keys_of, lists_of};
use crate::numbers::numbers_of;
use dg_delta::Op;
use dg_graph::{Change, Snapshot};
use dg_keys::{Key, Part};
use dg_values::{List, Mem, OutOfMemory, Steps};
use std::alloc::Global;
use std::sync::ledger::Ledger;

// Adds a part, where there are operations.
fn add_part(alloc: Global, parts: &mut Vec<Part>, key: &Key, ops: Vec<Op>) -> Mem<()>
    ensures { IfOk result (λ u. parts.new.items ≡ parts.old.items ++ and_part key.now ops.items []) }
{
    if ops.is_empty() {
        return Ok(());
    }
    parts.push(Part {
        key: key.copy(alloc)?,
        ops: List::from_vec(ops),
    })?;
    Ok(())
}

// Adds what the objects at a key gain and lose.
fn next_part(alloc: Global, parts: &mut Vec<Part>, key: &Key, objects: &Objects) -> Mem<()>
    ensures { IfOk result (λ u. parts.new.items ≡ parts.old.items ++ and_part key.now (changes_between objects.now.before objects.now.after) []) }
{
    let mut ops = between(alloc, objects.before(), objects.after())?;
    ops.shrink_to_fit();
    add_part(alloc, parts, key, ops)
}

// What the objects at keys gain and lose.
fn parts_of(alloc: Global, keys: &[Key], lists: &[Objects]) -> Mem<Vec<Part>>
    requires each { length lists.now ≡ length keys.now }
    ensures { (f : Key → Lists) → lists.now ≡ map f keys.now → IfOk result (λ v. v.items ≡ parts_at (λ k. changes_between (f k).before (f k).after) keys.now) }
{
    let mut parts = Vec::new(alloc);
    for (place, key) in keys.iter().enumerate() {
        next_part(alloc, &mut parts, key, &lists[place])?;
    }
    parts.shrink_to_fit();
    Ok(parts)
}

// Adds what a list of nodes gains and loses.
fn next_nodes(
    alloc: Global,
    parts: &mut Vec<Part>,
    key: &Key,
    before: &Nodes,
    after: &Nodes,
) -> Mem<()>
    ensures { IfOk result (λ u. parts.new.items ≡ parts.old.items ++ and_part key.now (changes_between before.now after.now) []) }
{
    let mut ops = between(alloc, before.as_slice(), after.as_slice())?;
    ops.shrink_to_fit();
    add_part(alloc, parts, key, ops)
}

// What lists of nodes at keys gain and lose.
pub fn parts_between(
    alloc: Global,
    keys: &[Key],
    before: &[Nodes],
    after: &[Nodes],
) -> Mem<Vec<Part>>
    requires before { length before.now ≡ length keys.now }
    requires after { length after.now ≡ length keys.now }
    ensures { (f g : Key → List Posting) → before.now ≡ map f keys.now → after.now ≡ map g keys.now → IfOk result (λ v. v.items ≡ parts_at (λ k. changes_between (f k) (g k)) keys.now) }
{
    let mut parts = Vec::new(alloc);
    for (place, key) in keys.iter().enumerate() {
        next_nodes(alloc, &mut parts, key, &before[place], &after[place])?;
    }
    Ok(parts)
}

// What lists of nodes gain and lose from some filings to others.
pub fn parts_by(alloc: Global, found: &Filings) -> Mem<Vec<Part>>
    ensures { IfOk result (λ v. v.items ≡ filed_parts found.now.before.items found.now.after.items) }
{
    let before = found.before.as_slice();
    let after = found.after.as_slice();
    let keys = filed_keys(alloc, before, after)?;
    let lost = gathered(alloc, keys.as_slice(), before)?;
    let gained = gathered(alloc, keys.as_slice(), after)?;
    parts_between(alloc, keys.as_slice(), lost.as_slice(), gained.as_slice())
}

/// Per key whose list changes, in ascending order, what the list gains and loses by changes. It reads the objects of each
/// subject that is changed once, and once the subjects of each node whose subjects change, where these are counted. The
/// error is want of memory.
pub fn deltas_of<S: Snapshot, L: Ledger>(
    alloc: Global,
    snap: &S,
    changes: &[Change],
    reads: &mut Steps<L>,
) -> Mem<Vec<Part>>
    requires fitting { AreFitting (S.declared snap.now) changes.now }
    requires lawful { IsLawful (S.declared snap.now) (S.graph snap.now) }
    ensures exact { IfOk result (λ v. AreGainsAndLosses (S.declared snap.now) (S.graph snap.now) (S.declared snap.now) (after_changes (S.declared snap.now) (S.graph snap.now) changes.now) v.items) }
    ensures reads { IfOk result (λ v. reads.new ≡ reads.old + (length (data_keys changes.now) + counted_parts (S.declared snap.now) v.items)) }
{
    let keys = keys_of(alloc, changes)?;
    let lists = lists_of(alloc, snap, keys.as_slice(), changes, reads)?;
    let own = parts_of(alloc, keys.as_slice(), lists.as_slice())?;
    let found = filings_of(alloc, snap.schema(), keys.as_slice(), lists.as_slice())?;
    let listed = parts_by(alloc, &found)?;
    let numbers = numbers_of(alloc, snap, listed.as_slice(), reads)?;
    let numbered = parts_by(alloc, &numbers)?;
    let parts = joined(own, listed, numbered)?;
    sorted(parts)
}
