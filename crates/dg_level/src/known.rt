// The lists and values of the nodes of a level, where they are known.
ghost use Rattle.std.specs.Prelude.{◌≡◌, ℕ, List as Items, Some, map, slice_get, option_to_list, IfOk, IfSome};
ghost use Rattle.dg_level.specs.Answers.{values_shown};
ghost use Rattle.dg_level.specs.Known.{KnowsLists, values_by, KnowsValues};
ghost use Rattle.dg_level.specs.Levels.{list_of};

use crate::answers::{objects_shown, values_of, values_shown};
use crate::left::Left;
use crate::lists::{list_at, lists_of};
use dg_check::{Filter, OrderKey, Vars};
use dg_graph::Snapshot;
use dg_parse::{QArg, QEdge};
use dg_sets::place_of;
use dg_tree::Tree;
use dg_uids::Uids;
use dg_values::{List, Mem, OutOfMemory, Steps, Value};
use std::alloc::Global;
use std::sync::ledger::Ledger;

// The place of a node in a set, if it is there.
fn place_among(of: &Uids, node: u64) -> Option<usize>
    ensures { IfSome result (λ place. slice_get of.now place ≡ Some node) }
{
    match place_of(of.as_slice(), &node) {
        Ok(place) => Some(place),
        Err(_) => None,
    }
}

// An equal list.
fn copied(alloc: Global, list: &[u64]) -> Mem<List<u64>>
    ensures { IfOk result (λ made. made ≡ list.now) }
{
    Ok(List::from_vec(Vec::from_slice(alloc, list)?))
}

// The list of each node, where those of the nodes of a set are known and all are in it.
fn lists_among(
    alloc: Global,
    of: &Uids,
    lists: &[List<u64>],
    nodes: &[u64],
) -> Mem<Option<Vec<List<u64>>>>
    ensures { (list : ℕ → Items ℕ) → lists.now ≡ map list of.now → IfOk result (λ found. IfSome found (λ made. made.items ≡ map list nodes.now)) }
{
    let mut made = Vec::new(alloc);
    for node in nodes {
        match place_among(of, *node) {
            None => return Ok(None),
            Some(place) => made.push(copied(alloc, list_at(lists, place))?)?,
        }
    }
    Ok(Some(made))
}

// The list of each node of a level, where they are known.
fn known_lists(alloc: Global, left: &Left, nodes: &[u64]) -> Mem<Option<Vec<List<u64>>>>
    ensures { (list : ℕ → Items ℕ) → KnowsLists list left.now → IfOk result (λ found. IfSome found (λ made. made.items ≡ map list nodes.now)) }
{
    match left {
        Left::Unknown | Left::Values { .. } => Ok(None),
        Left::Nodes { of, lists, .. } => lists_among(alloc, of, lists.as_slice(), nodes),
    }
}

/// The list of each node of a level: what is known of all of them isn't read again. The error is want of memory.
pub fn lists_under<S: Snapshot, L: Ledger>(
    alloc: Global,
    snap: &S,
    single: bool,
    edge: &QEdge,
    args: &[QArg],
    orders: &[OrderKey],
    filters: &[Filter],
    vars: &Vars,
    nodes: &[u64],
    left: &Left,
    reads: &mut Steps<L>,
) -> Mem<Vec<List<u64>>>
    ensures { KnowsLists (list_of (S.graph snap.now) vars.now.variables edge.now args.now orders.now filters.now single) left.now → IfOk result (λ lists. lists.items ≡ map (list_of (S.graph snap.now) vars.now.variables edge.now args.now orders.now filters.now single) nodes.now) }
{
    match known_lists(alloc, left, nodes)? {
        Some(lists) => Ok(lists),
        None => lists_of(
            alloc, snap, single, edge, args, orders, filters, vars, nodes, reads,
        ),
    }
}

// Equal values.
fn copied_values(alloc: Global, values: &[Value]) -> Mem<Vec<Value>>
    ensures { IfOk result (λ made. made.items ≡ values.now) }
{
    let mut made = Vec::new(alloc);
    for value in values {
        made.push(value.copy(alloc)?)?;
    }
    Ok(made)
}

// The values of the node at a place.
fn values_at(all: &[List<Value>], place: usize) -> &[Value]
    ensures { (values : ℕ → Items Value) (nodes : Items ℕ) (node : ℕ) → all.now ≡ map values nodes → slice_get nodes place ≡ Some node → result.now ≡ values node }
{
    match all.get(place) {
        Some(values) => values.as_slice(),
        None => &[],
    }
}

// The values of a node, where those of the nodes of a set are known and it is in it.
fn values_among(alloc: Global, of: &Uids, all: &[List<Value>], node: u64) -> Mem<Option<Vec<Value>>>
    ensures { (values : ℕ → Items Value) → all.now ≡ map values of.now → IfOk result (λ found. IfSome found (λ v. v.items ≡ values node)) }
{
    match place_among(of, node) {
        None => Ok(None),
        Some(place) => Ok(Some(copied_values(alloc, values_at(all, place))?)),
    }
}

// The values of a node, where they are known.
fn known_values(alloc: Global, left: &Left, node: u64) -> Mem<Option<Vec<Value>>>
    ensures { (values : ℕ → Items Value) → KnowsValues values left.now → IfOk result (λ found. IfSome found (λ v. v.items ≡ values node)) }
{
    match left {
        Left::Unknown | Left::Nodes { .. } => Ok(None),
        Left::Values { of, values } => values_among(alloc, of, values.as_slice(), node),
    }
}

/// The values of a node by a predicate, as they are read. The error is want of memory.
pub fn values_read<S: Snapshot, L: Ledger>(
    alloc: Global,
    snap: &S,
    pred: &str,
    node: u64,
    reads: &mut Steps<L>,
) -> Mem<Vec<Value>>
    ensures { IfOk result (λ v. v.items ≡ values_by (S.graph snap.now) pred.now node) }
{
    values_of(alloc, snap.objects(alloc, pred, node, reads)?)
}

/// The tree of the values of a node by a predicate, if there are any: what is known of them isn't read again. The error is want of
/// memory.
pub fn tree_under<S: Snapshot, L: Ledger>(
    alloc: Global,
    snap: &S,
    pred: &str,
    list: bool,
    node: u64,
    left: &Left,
    reads: &mut Steps<L>,
) -> Mem<Option<Tree>>
    ensures { KnowsValues (values_by (S.graph snap.now) pred.now) left.now → IfOk result (λ tree. option_to_list tree ≡ values_shown list (values_by (S.graph snap.now) pred.now node)) }
{
    match known_values(alloc, left, node)? {
        Some(values) => values_shown(alloc, list, values),
        None => objects_shown(alloc, list, snap.objects(alloc, pred, node, reads)?),
    }
}

/// The values of a node by a predicate: what is known of them isn't read again. The error is want of memory.
pub fn values_under<S: Snapshot, L: Ledger>(
    alloc: Global,
    snap: &S,
    pred: &str,
    node: u64,
    left: &Left,
    reads: &mut Steps<L>,
) -> Mem<Vec<Value>>
    ensures { KnowsValues (values_by (S.graph snap.now) pred.now) left.now → IfOk result (λ v. v.items ≡ values_by (S.graph snap.now) pred.now node) }
{
    match known_values(alloc, left, node)? {
        Some(values) => Ok(values),
        None => values_read(alloc, snap, pred, node, reads),
    }
}
