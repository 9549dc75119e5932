// Edges, followed either way.
ghost use Rattle.std.specs.Prelude.{◌≡◌, pos, length, nat_le, IfOk};
ghost use Rattle.std.specs.List.{list_any};
ghost use Rattle.std.specs.Ordering.{nat_cmp};
ghost use Rattle.dg_values.specs.Ascending.{has};
ghost use Rattle.dg_values.specs.declared.value.Posting.TheVariants as postings;
ghost use Rattle.dg_graph.specs.Graphs.{objects};
ghost use Rattle.dg_graph.specs.Lookups.{subjects_of};
ghost use Rattle.dg_funcs.specs.Truth.{nodes_along, count_along};
ghost use Rattle.dg_funcs.specs.Tests.{is_node, is_node_among};

use crate::roots::ends_of;
use dg_graph::Snapshot;
use dg_parse::QEdge;
use dg_uids::Uids;
use dg_values::{Mem, OutOfMemory, Posting, Steps, cmp_posting};
use std::alloc::Global;
use std::sync::ledger::Ledger;

// Whether some object is this node.
fn any_is(objects: &[Posting], node: u64) -> bool
    ensures { result ≡ list_any (is_node node) objects.now }
{
    let wanted = Posting::Uid(node);
    objects
        .iter()
        .any(|object| cmp_posting(object, &wanted).is_eq())
}

// Whether a subject points to a node.
fn points_to<S: Snapshot, L: Ledger>(
    alloc: Global,
    snap: &S,
    p: &str,
    subject: u64,
    node: u64,
    reads: &mut Steps<L>,
) -> Mem<bool>
    ensures { IfOk result (λ b. b ≡ list_any (is_node node) (objects (S.graph snap.now) p.now subject)) }
{
    let objects = snap.objects(alloc, p, subject, reads)?;
    Ok(any_is(objects.as_slice(), node))
}

// The nodes that point to a node, found by going over all that have an object.
fn subjects_by_search<S: Snapshot, L: Ledger>(
    alloc: Global,
    snap: &S,
    p: &str,
    node: u64,
    reads: &mut Steps<L>,
) -> Mem<Uids>
    ensures { IfOk result (λ uids. uids ≡ subjects_of (S.graph snap.now) p.now (postings.Uid node)) }
{
    let all = snap.holders(alloc, p, reads)?;
    let mut found = Vec::new(alloc);
    for subject in all.as_slice() {
        if points_to(alloc, snap, p, *subject, node, reads)? {
            found.push(*subject)?;
        }
    }
    Ok(Uids::gathered(found))
}

// The nodes that point to a node. It reads one list where the predicate is declared with these, and searches where it
// isn't: the predicates of a checked query are then not declared at all, and have no object.
fn subjects_at<S: Snapshot, L: Ledger>(
    alloc: Global,
    snap: &S,
    p: &str,
    node: u64,
    reads: &mut Steps<L>,
) -> Mem<Uids>
    ensures { IfOk result (λ uids. uids ≡ subjects_of (S.graph snap.now) p.now (postings.Uid node)) }
{
    match snap.schema().lookup(p) {
        Some(definition) => {
            if definition.reverse {
                snap.subjects(alloc, p, node, reads)
            } else {
                subjects_by_search(alloc, snap, p, node, reads)
            }
        }
        None => subjects_by_search(alloc, snap, p, node, reads),
    }
}

// How many objects these are.
fn number_of_objects(objects: &[Posting]) -> i64
    ensures { result ≡ pos (length objects.now) }
{
    objects.len() as i64
}

// How many nodes these are.
fn number_of_nodes(nodes: &[u64]) -> i64
    ensures { result ≡ pos (length nodes.now) }
{
    nodes.len() as i64
}

/// Whether a node has an object by an edge, or a subject that points to it.
pub(crate) fn has_some<S: Snapshot, L: Ledger>(
    alloc: Global,
    snap: &S,
    edge: &QEdge,
    node: u64,
    reads: &mut Steps<L>,
) -> Mem<bool>
    ensures { IfOk result (λ b. b ≡ nat_le 1 (count_along (S.graph snap.now) edge.now node)) }
{
    if edge.back {
        let subjects = subjects_at(alloc, snap, edge.pred.as_str(), node, reads)?;
        Ok(1 <= subjects.len())
    } else {
        let objects = snap.objects(alloc, edge.pred.as_str(), node, reads)?;
        Ok(1 <= objects.len())
    }
}

/// How many objects a node has by an edge, or how many subjects point to it. It reads one list, but for an edge backwards by a
/// predicate that isn't declared with lists for that. The error is want of memory.
pub fn count_along<S: Snapshot, L: Ledger>(
    alloc: Global,
    snap: &S,
    edge: &QEdge,
    node: u64,
    reads: &mut Steps<L>,
) -> Mem<i64>
    ensures { IfOk result (λ n. n ≡ pos (count_along (S.graph snap.now) edge.now node)) }
{
    if edge.back {
        let subjects = subjects_at(alloc, snap, edge.pred.as_str(), node, reads)?;
        Ok(number_of_nodes(subjects.as_slice()))
    } else {
        let objects = snap.objects(alloc, edge.pred.as_str(), node, reads)?;
        Ok(number_of_objects(objects.as_slice()))
    }
}

/// The nodes at the other end of an edge: the nodes among the objects of a node, or the subjects that point to it. It reads
/// one list, but for an edge backwards by a predicate that isn't declared with lists for that. The error is want of memory.
pub fn nodes_along<S: Snapshot, L: Ledger>(
    alloc: Global,
    snap: &S,
    edge: &QEdge,
    node: u64,
    reads: &mut Steps<L>,
) -> Mem<Vec<u64>>
    ensures { IfOk result (λ v. v.items ≡ nodes_along (S.graph snap.now) edge.now node) }
{
    if edge.back {
        let subjects = subjects_at(alloc, snap, edge.pred.as_str(), node, reads)?;
        Ok(Vec::from_slice(alloc, subjects.as_slice())?)
    } else {
        ends_of(alloc, snap, edge.pred.as_str(), node, reads)
    }
}

// Whether some object is one of these nodes.
fn any_object_among(objects: &[Posting], nodes: &Uids) -> bool
    ensures { result ≡ list_any (is_node_among nodes.now) objects.now }
{
    objects.iter().any(|object| is_node_among(object, nodes))
}

// Whether an object is one of these nodes.
fn is_node_among(object: &Posting, nodes: &Uids) -> bool
    ensures { result ≡ is_node_among nodes.now object.now }
{
    match object {
        Posting::Uid(n) => nodes.has(*n),
        Posting::Val(_) => false,
    }
}

// Whether some node is one of these.
fn any_node_among(found: &[u64], nodes: &Uids) -> bool
    ensures { result ≡ list_any (has nat_cmp nodes.now) found.now }
{
    found.iter().any(|n| nodes.has(*n))
}

/// Whether some node at the other end of an edge is one of these.
pub(crate) fn leads_to<S: Snapshot, L: Ledger>(
    alloc: Global,
    snap: &S,
    edge: &QEdge,
    nodes: &Uids,
    node: u64,
    reads: &mut Steps<L>,
) -> Mem<bool>
    ensures { IfOk result (λ b. b ≡ list_any (has nat_cmp nodes.now) (nodes_along (S.graph snap.now) edge.now node)) }
{
    if edge.back {
        let subjects = subjects_at(alloc, snap, edge.pred.as_str(), node, reads)?;
        Ok(any_node_among(subjects.as_slice(), nodes))
    } else {
        let objects = snap.objects(alloc, edge.pred.as_str(), node, reads)?;
        Ok(any_object_among(objects.as_slice(), nodes))
    }
}
