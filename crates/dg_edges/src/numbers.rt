// How many subjects point to nodes, before changes and after them.
ghost use Rattle.std.specs.Prelude.{◌≡◌, ◌+◌, ◌++◌, ◌<◌, ◌≤◌, ◌^◌, true, IfOk, OnOk, flat_map, length, sum_by};
ghost use Rattle.dg_values.specs.declared.value.Posting.TheVariants.{Uid};
ghost use Rattle.dg_graph.specs.Lookups.{subjects_of};
ghost use Rattle.dg_edges.specs.Filing as filings;
ghost use Rattle.dg_edges.specs.Filing.{added_by, taken_by, filed_subjects, filed_before, filed_after, counted_reads, counted_parts};

use crate::filing::{Filed, Filings};
use dg_delta::Op;
use dg_graph::Snapshot;
use dg_keys::{Key, Part};
use dg_schema::Schema;
use dg_values::{Mem, OutOfMemory, Steps, Str};
use std::alloc::Global;
use std::sync::ledger::Ledger;

// How many subjects an operation adds.
fn added_by(op: &Op) -> u64
    ensures { result ≡ added_by op.now }
{
    match op {
        Op::Set(_) => 1,
        Op::Del(_) => 0,
    }
}

// How many it takes away.
fn taken_by(op: &Op) -> u64
    ensures { result ≡ taken_by op.now }
{
    match op {
        Op::Set(_) => 0,
        Op::Del(_) => 1,
    }
}

// How many subjects operations add.
fn added(ops: &[Op]) -> u64
    ensures sum { result ≡ sum_by added_by ops.now }
    ensures bound { result ≤ length ops.now }
{
    let mut sum = 0;
    for op in ops {
        sum += added_by(op);
    }
    sum
}

// How many they take away.
fn taken(ops: &[Op]) -> u64
    ensures { result ≡ sum_by taken_by ops.now }
{
    let mut sum = 0;
    for op in ops {
        sum += taken_by(op);
    }
    sum
}

// A number after operations.
fn number_after(before: u64, ops: &[Op]) -> u64
    requires { before < 2 ^ 63 }
    ensures { result ≡ filings.number_after before ops.now }
{
    (before + added(ops)).saturating_sub(taken(ops))
}

// Files a node under the number of its subjects, from 1 on.
pub fn file_subjects(alloc: Global, p: &Str, o: u64, n: u64, filed: &mut Vec<Filed>) -> Mem<()>
    ensures { OnOk result (filed.new.items ≡ filed.old.items ++ filed_subjects p.now o n) }
{
    if n < 1 {
        return Ok(());
    }
    let p = p.copy(alloc)?;
    let key = Key::RCount { p, n };
    Ok(filed.push(Filed { key, node: o })?)
}

// Whether a predicate has lists of nodes by the numbers of their subjects.
pub fn is_counted(schema: &Schema, p: &Str) -> bool
    ensures { result ≡ filings.is_counted schema.now p.now }
{
    match schema.lookup(p.as_str()) {
        Some(def) => def.reverse && def.count,
        None => false,
    }
}

// Files the node of a part under the numbers of its subjects, before the operations and after them.
fn number_node<S: Snapshot, L: Ledger>(
    alloc: Global,
    snap: &S,
    p: &Str,
    o: u64,
    ops: &[Op],
    numbers: &mut Filings,
    reads: &mut Steps<L>,
) -> Mem<()>
    requires counted { filings.is_counted (S.declared snap.now) p.now ≡ true }
    ensures before { OnOk result (numbers.new.before.items ≡ numbers.old.before.items ++ filed_subjects p.now o (length (subjects_of (S.graph snap.now) p.now (Uid o)))) }
    ensures after { OnOk result (numbers.new.after.items ≡ numbers.old.after.items ++ filed_subjects p.now o (filings.number_after (length (subjects_of (S.graph snap.now) p.now (Uid o))) ops.now)) }
    ensures one_read { OnOk result (reads.new ≡ reads.old + 1) }
{
    let subjects = snap.subjects(alloc, p.as_str(), o, reads)?;
    let before = subjects.as_slice().len() as u64;
    file_subjects(alloc, p, o, before, &mut numbers.before)?;
    file_subjects(alloc, p, o, number_after(before, ops), &mut numbers.after)
}

// The same of any part, where the subjects of its node are counted.
fn number_part<S: Snapshot, L: Ledger>(
    alloc: Global,
    snap: &S,
    part: &Part,
    numbers: &mut Filings,
    reads: &mut Steps<L>,
) -> Mem<()>
    ensures before { OnOk result (numbers.new.before.items ≡ numbers.old.before.items ++ filed_before (S.declared snap.now) (S.graph snap.now) part.now.key) }
    ensures after { OnOk result (numbers.new.after.items ≡ numbers.old.after.items ++ filed_after (S.declared snap.now) (S.graph snap.now) part.now.key part.now.ops) }
    ensures reads { OnOk result (reads.new ≡ reads.old + counted_reads (S.declared snap.now) part.now.key) }
{
    match &part.key {
        Key::Reverse { p, o } => {
            if is_counted(snap.schema(), p) {
                number_node(alloc, snap, p, *o, part.ops.as_slice(), numbers, reads)
            } else {
                Ok(())
            }
        }
        _ => Ok(()),
    }
}

// The nodes of parts under the numbers of their subjects, before the operations and after them.
pub fn numbers_of<S: Snapshot, L: Ledger>(
    alloc: Global,
    snap: &S,
    parts: &[Part],
    reads: &mut Steps<L>,
) -> Mem<Filings>
    ensures before { IfOk result (λ n. n.before.items ≡ flat_map (λ part. filed_before (S.declared snap.now) (S.graph snap.now) part.key) parts.now) }
    ensures after { IfOk result (λ n. n.after.items ≡ flat_map (λ part. filed_after (S.declared snap.now) (S.graph snap.now) part.key part.ops) parts.now) }
    ensures reads { OnOk result (reads.new ≡ reads.old + counted_parts (S.declared snap.now) parts.now) }
{
    let mut numbers = Filings {
        before: Vec::new(alloc),
        after: Vec::new(alloc),
    };
    for part in parts {
        number_part(alloc, snap, part, &mut numbers, reads)?;
    }
    Ok(numbers)
}
