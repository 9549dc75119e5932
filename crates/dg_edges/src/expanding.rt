// The changes of checked statements.
ghost use Rattle.std.specs.Prelude.{◌≡◌, ◌+◌, ◌<◌, ◌^◌, ◌++◌, IfOk, OnOk, length, map};
ghost use Rattle.dg_values.specs.declared.value.Posting.{Posting};
ghost use Rattle.dg_graph.specs.declared.change.Change.TheVariants as kinds;
ghost use Rattle.dg_edges.specs.Expanding.{new_names, number_of, change_of, changes_in, expanded, reads_by, lists_read};

use crate::names::{Names, names_of};
use crate::{Edge, Named, Resolved, Target};
use dg_graph::{Change, Snapshot, Triple};
use dg_values::{Mem, OutOfMemory, Posting, Steps, Str};
use std::alloc::Global;
use std::sync::ledger::Ledger;

/// The changes that checked statements stand for, in their order. New names are numbered from `first` on, in the order
/// in which they first appear; `*` stands for one delete for each object that the subject has in the snapshot,
/// ascending. It reads one list for each `*`. The error is want of memory.
pub fn expand<S: Snapshot, L: Ledger>(
    alloc: Global,
    snap: &S,
    r: &Resolved,
    first: u64,
    reads: &mut Steps<L>,
) -> Mem<Vec<Change>>
    requires room { first + length (new_names r.now) < 2 ^ 64 }
    ensures changes { IfOk result (λ changes. changes.items ≡ expanded (S.graph snap.now) r.now first) }
    ensures reads { OnOk result (reads.new ≡ reads.old + lists_read r.now) }
{
    let edges = r.edges.as_slice();
    let names = names_of(alloc, edges)?;
    let mut changes = Vec::with_capacity(alloc, edges.len())?;
    for edge in edges {
        push_changes(alloc, snap, &names, first, edge, &mut changes, reads)?;
    }
    Ok(changes)
}

// The number of a node, where new names are numbered in their order.
fn number(names: &Names<'_>, first: u64, node: &Named) -> u64
    requires room { first + length names.now < 2 ^ 64 }
    ensures { result ≡ number_of names.now first node.now }
{
    match node {
        Named::Uid(uid) => *uid,
        Named::New(name) => first + names.place(name.as_str()) as u64,
    }
}

// A triple set or deleted.
fn change(delete: bool, triple: Triple) -> Change
    ensures { result ≡ change_of delete triple }
{
    if delete {
        Change::Del(triple)
    } else {
        Change::Set(triple)
    }
}

// Adds that each of these objects of a subject is deleted.
fn push_deletes(
    alloc: Global,
    changes: &mut Vec<Change>,
    s: u64,
    p: &Str,
    objects: Vec<Posting>,
) -> Mem<()>
    ensures { OnOk result (changes.new.items ≡ changes.old.items ++ map (λ o. kinds.Del (record { s = s; p = p.now; o = o })) objects.items) }
{
    for o in objects {
        let p = p.copy(alloc)?;
        changes.push(Change::Del(Triple { s, p, o }))?;
    }
    Ok(())
}

// Adds the changes of a statement.
fn push_changes<S: Snapshot, L: Ledger>(
    alloc: Global,
    snap: &S,
    names: &Names<'_>,
    first: u64,
    edge: &Edge,
    changes: &mut Vec<Change>,
    reads: &mut Steps<L>,
) -> Mem<()>
    requires room { first + length names.now < 2 ^ 64 }
    ensures changes { OnOk result (changes.new.items ≡ changes.old.items ++ changes_in (S.graph snap.now) (number_of names.now first) edge.now) }
    ensures reads { OnOk result (reads.new ≡ reads.old + reads_by edge.now.o) }
{
    let s = number(names, first, &edge.s);
    let o = match &edge.o {
        Target::Node(node) => Posting::Uid(number(names, first, node)),
        Target::Value(value) => Posting::Val(value.copy(alloc)?),
        Target::All => {
            let objects = snap.objects(alloc, edge.p.as_str(), s, reads)?;
            return push_deletes(alloc, changes, s, &edge.p, objects);
        }
    };
    let p = edge.p.copy(alloc)?;
    changes.push(change(edge.delete, Triple { s, p, o }))?;
    Ok(())
}
