// The lists of nodes under an edge of the nodes of a level.
ghost use Rattle.std.specs.Prelude.{◌≡◌, ℕ, List as Items, Some, map, flat_map, slice_get, IfOk};
ghost use Rattle.std.specs.Ordering.{nat_cmp};
ghost use Rattle.dg_values.specs.Ascending.{ascending};
ghost use Rattle.dg_uids.specs.Sets.{common};
ghost use Rattle.dg_funcs.specs.Truth.{nodes_along};
ghost use Rattle.dg_shape.specs.Orders.{ordered, page, meant};
ghost use Rattle.dg_level.specs.Planned.{planned_keys, passed_each, cut_to, planned_list};
ghost use Rattle.dg_level.specs.OrderKeys.{known_nodes};

use crate::order_keys::{key_values, keys_over};
use dg_check::{Filter, OrderKey, Vars};
use dg_funcs::{nodes_along, passing};
use dg_graph::Snapshot;
use dg_parse::{QArg, QEdge};
use dg_shape::{Key, order, page};
use dg_uids::Uids;
use dg_values::{List, Mem, OutOfMemory, Steps};
use std::alloc::Global;
use std::sync::ledger::Ledger;

// The nodes at the other end of an edge, as a set.
fn set_along<S: Snapshot, L: Ledger>(
    alloc: Global,
    snap: &S,
    edge: &QEdge,
    node: u64,
    reads: &mut Steps<L>,
) -> Mem<Uids>
    ensures { IfOk result (λ uids. uids ≡ ascending nat_cmp (nodes_along (S.graph snap.now) edge.now node)) }
{
    Ok(Uids::gathered(nodes_along(alloc, snap, edge, node, reads)?))
}

// The same of each node of a level.
fn sets_along<S: Snapshot, L: Ledger>(
    alloc: Global,
    snap: &S,
    edge: &QEdge,
    nodes: &[u64],
    reads: &mut Steps<L>,
) -> Mem<Vec<Uids>>
    ensures { IfOk result (λ lists. lists.items ≡ map (λ n. ascending nat_cmp (nodes_along (S.graph snap.now) edge.now n)) nodes.now) }
{
    let mut lists = Vec::new(alloc);
    for node in nodes {
        let list = set_along(alloc, snap, edge, *node, reads)?;
        lists.push(list)?;
    }
    Ok(lists)
}

// The nodes of all sets.
fn union(alloc: Global, lists: &[Uids]) -> Mem<Uids>
    ensures { IfOk result (λ uids. uids ≡ ascending nat_cmp (flat_map (λ list. list) lists.now)) }
{
    let mut found = Vec::new(alloc);
    for list in lists {
        found.extend_from_slice(list.as_slice())?;
    }
    Ok(Uids::gathered(found))
}

/// Those of a set that pass each filter. The error is want of memory.
pub fn passing_each<S: Snapshot, L: Ledger>(
    alloc: Global,
    snap: &S,
    filters: &[Filter],
    nodes: Uids,
    vars: &Vars,
    reads: &mut Steps<L>,
) -> Mem<Uids>
    ensures { IfOk result (λ uids. uids ≡ passed_each (S.graph snap.now) vars.now.variables filters.now nodes) }
{
    let mut left = nodes;
    for filter in filters {
        left = passing(alloc, snap, filter, &left, vars, reads)?;
    }
    Ok(left)
}

// Those of each set that are in another one.
fn narrowed(alloc: Global, lists: &[Uids], pass: &Uids) -> Mem<Vec<Uids>>
    ensures { IfOk result (λ made. made.items ≡ map (λ list. common list pass.now) lists.now) }
{
    let mut made = Vec::new(alloc);
    for list in lists {
        let common = list.and(alloc, pass)?;
        made.push(common)?;
    }
    Ok(made)
}

// Those of each set that pass the filters, which are asked once of each node.
fn passing_lists<S: Snapshot, L: Ledger>(
    alloc: Global,
    snap: &S,
    filters: &[Filter],
    lists: Vec<Uids>,
    vars: &Vars,
    reads: &mut Steps<L>,
) -> Mem<Vec<Uids>>
    ensures { IfOk result (λ made. made.items ≡ map (passed_each (S.graph snap.now) vars.now.variables filters.now) lists.items) }
{
    if filters.is_empty() {
        return Ok(lists);
    }
    let all = union(alloc, lists.as_slice())?;
    let pass = passing_each(alloc, snap, filters, all, vars, reads)?;
    narrowed(alloc, lists.as_slice(), &pass)
}

// A page of a list, of which a single edge leads to one node at most.
fn cut(single: bool, nodes: Vec<u64>, args: &[QArg]) -> List<u64>
    ensures { result ≡ cut_to single (page args.now nodes.items) }
{
    let mut nodes = page(nodes, args);
    if single {
        nodes.truncate(1);
    }
    List::from_vec(nodes)
}

// Each set in the order of its keys, and cut.
fn put_in_order(
    alloc: Global,
    single: bool,
    args: &[QArg],
    by: &[Key],
    lists: &[Uids],
) -> Mem<Vec<List<u64>>>
    ensures { IfOk result (λ made. made.items ≡ map (λ list. cut_to single (page args.now (ordered (map meant by.now) list))) lists.now) }
{
    let mut made = Vec::new(alloc);
    for list in lists {
        let nodes = order(alloc, list, by)?;
        made.push(cut(single, nodes, args))?;
    }
    Ok(made)
}

// The nodes of which keys have to know the values.
fn known_nodes(alloc: Global, orders: &[OrderKey], lists: &[Uids]) -> Mem<Uids>
    ensures { IfOk result (λ uids. uids ≡ known_nodes orders.now lists.now) }
{
    if orders.is_empty() {
        return Ok(Uids::gathered(Vec::new(alloc)));
    }
    union(alloc, lists)
}

// The same by the keys of a plan. A value of a predicate is looked up once for each node.
fn ordered_lists<S: Snapshot, L: Ledger>(
    alloc: Global,
    snap: &S,
    single: bool,
    args: &[QArg],
    orders: &[OrderKey],
    lists: &[Uids],
    vars: &Vars,
    reads: &mut Steps<L>,
) -> Mem<Vec<List<u64>>>
    ensures { IfOk result (λ made. made.items ≡ map (λ list. cut_to single (page args.now (ordered (planned_keys (S.graph snap.now) vars.now.variables orders.now) list))) lists.now) }
{
    let all = known_nodes(alloc, orders, lists)?;
    let values = key_values(alloc, snap, orders, vars, &all, reads)?;
    let by = keys_over(alloc, orders, values.as_slice())?;
    put_in_order(alloc, single, args, by.as_slice(), lists)
}

/// The list of each node of a level. An edge is followed once for each node, and a filter and an order key are asked once
/// of each node that some list has. The error is want of memory.
pub fn lists_of<S: Snapshot, L: Ledger>(
    alloc: Global,
    snap: &S,
    single: bool,
    edge: &QEdge,
    args: &[QArg],
    orders: &[OrderKey],
    filters: &[Filter],
    vars: &Vars,
    nodes: &[u64],
    reads: &mut Steps<L>,
) -> Mem<Vec<List<u64>>>
    ensures { IfOk result (λ lists. lists.items ≡ map (λ n. cut_to single (planned_list (S.graph snap.now) vars.now.variables edge.now args.now orders.now filters.now n)) nodes.now) }
{
    let lists = sets_along(alloc, snap, edge, nodes, reads)?;
    let lists = passing_lists(alloc, snap, filters, lists, vars, reads)?;
    ordered_lists(
        alloc,
        snap,
        single,
        args,
        orders,
        lists.as_slice(),
        vars,
        reads,
    )
}

/// All nodes of lists. The error is want of memory.
pub fn nodes_below(alloc: Global, lists: &[List<u64>]) -> Mem<Uids>
    ensures { IfOk result (λ uids. uids ≡ ascending nat_cmp (flat_map (λ list. list) lists.now)) }
{
    let mut found = Vec::new(alloc);
    for list in lists {
        found.extend_from_slice(list.as_slice())?;
    }
    Ok(Uids::gathered(found))
}

/// The list of the node at a place.
pub fn list_at(lists: &[List<u64>], place: usize) -> &[u64]
    ensures { (list : ℕ → Items ℕ) (nodes : Items ℕ) (node : ℕ) → lists.now ≡ map list nodes → slice_get nodes place ≡ Some node → result.now ≡ list node }
{
    match lists.get(place) {
        Some(list) => list.as_slice(),
        None => &[],
    }
}
