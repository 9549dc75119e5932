// Nodes found by how many objects they have, or how many nodes point to them.
ghost use Rattle.std.specs.Prelude.{◌≡◌, nat_le, ◌&&◌, IfOk};
ghost use Rattle.dg_graph.specs.Lookups.{number_of, is_number_up_to, has_number, counted, by_count};

use crate::Graph;
use crate::found::{holders, pointed_to, subjects};
use dg_uids::Uids;
use dg_values::{Mem, OutOfMemory};
use std::alloc::Global;

// How many objects a node has, or how many nodes point to it.
fn number_of(alloc: Global, graph: &Graph, p: &str, reverse: bool, n: u64) -> Mem<u64>
    ensures { IfOk result (λ number. number ≡ number_of graph.now p.now reverse n) }
{
    if reverse {
        let found = subjects(alloc, graph.triples(), p, n)?;
        Ok(found.len() as u64)
    } else {
        let found = graph.objects(alloc, p, n)?;
        Ok(found.len() as u64)
    }
}

// The nodes of which that number is at least 1.
fn counted(alloc: Global, graph: &Graph, p: &str, reverse: bool) -> Mem<Uids>
    ensures { IfOk result (λ uids. uids ≡ counted graph.now p.now reverse) }
{
    if reverse {
        pointed_to(alloc, graph.triples(), p)
    } else {
        holders(alloc, graph.triples(), p)
    }
}

// Whether a number is at or below the high end, if there is one.
fn is_up_to(number: u64, high: Option<u64>) -> bool
    ensures { result ≡ is_number_up_to high number }
{
    match high {
        Some(high) => number <= high,
        None => true,
    }
}

// Whether a number lies between two ends.
fn is_within(number: u64, low: u64, high: Option<u64>) -> bool
    ensures { result ≡ (nat_le low number && is_number_up_to high number) }
{
    low <= number && is_up_to(number, high)
}

// Whether a node's number lies between two.
fn has_number(
    alloc: Global,
    graph: &Graph,
    p: &str,
    reverse: bool,
    low: u64,
    high: Option<u64>,
    n: u64,
) -> Mem<bool>
    ensures { IfOk result (λ b. b ≡ has_number graph.now p.now reverse low high n) }
{
    let number = number_of(alloc, graph, p, reverse, n)?;
    Ok(is_within(number, low, high))
}

// The nodes that have at least one object, or at least one node that points to them, and so many.
pub(crate) fn by_count(
    alloc: Global,
    graph: &Graph,
    p: &str,
    reverse: bool,
    low: u64,
    high: Option<u64>,
) -> Mem<Uids>
    ensures { IfOk result (λ uids. uids ≡ by_count graph.now p.now reverse low high) }
{
    let nodes = counted(alloc, graph, p, reverse)?;
    let mut found = Vec::new(alloc);
    for n in nodes.as_slice() {
        if has_number(alloc, graph, p, reverse, low, high, *n)? {
            found.push(*n)?;
        }
    }
    Ok(Uids::gathered(found))
}
