// The values by which the nodes of a level are put in order.
ghost use Rattle.std.specs.Prelude.{◌≡◌, map, filter, filter_map, is_some, length, option_copied, IfOk};
ghost use Rattle.dg_shape.specs.Orders.{meant};
ghost use Rattle.dg_level.specs.Lists.{first_value, least_value};
ghost use Rattle.dg_level.specs.Planned.{value_by};
ghost use Rattle.dg_level.specs.OrderKeys.{is_down, compared_by, values_among, keyed};

use crate::answers::values_of;
use dg_check::{By, OrderKey, Variable, Vars};
use dg_funcs::value_at;
use dg_graph::Snapshot;
use dg_shape::Key;
use dg_uids::Uids;
use dg_values::{List, Mem, OutOfMemory, Steps, Value};
use std::alloc::Global;
use std::sync::ledger::Ledger;

// The first of these values.
fn first_value(values: Vec<Value>) -> Option<Value>
    ensures { result ≡ first_value values.items }
{
    values.into_iter().next()
}

// The least value of a node by a predicate.
#[tactic(auto, using(crate::proofs::ValueLaws::same_values))]
fn least_value<S: Snapshot, L: Ledger>(
    alloc: Global,
    snap: &S,
    p: &str,
    node: u64,
    reads: &mut Steps<L>,
) -> Mem<Option<Value>>
    ensures { IfOk result (λ value. value ≡ least_value (S.graph snap.now) p.now node) }
{
    let objects = snap.objects(alloc, p, node, reads)?;
    Ok(first_value(values_of(alloc, objects)?))
}

// A copy of a value, where there is one.
fn copied(alloc: Global, value: Option<&Value>) -> Mem<Option<Value>>
    ensures { IfOk result (λ copy. copy ≡ option_copied value.entry) }
{
    match value {
        None => Ok(None),
        Some(value) => Ok(Some(value.copy(alloc)?)),
    }
}

// The value by which a key puts a node in its place.
fn value_by<S: Snapshot, L: Ledger>(
    alloc: Global,
    snap: &S,
    key: &By,
    vars: &Vars,
    node: u64,
    reads: &mut Steps<L>,
) -> Mem<Option<Value>>
    ensures { IfOk result (λ value. value ≡ value_by (S.graph snap.now) vars.now.variables key.now node) }
{
    match key {
        By::Pred(p) => least_value(alloc, snap, p.as_str(), node, reads),
        By::Val(place) => copied(alloc, value_at(vars, *place, node)),
    }
}

// Nodes in their order, and a value of each beside it.
#[derive(Drop)]
struct Pairs {
    nodes: Vec<u64>,
    values: Vec<Value>,
}

// The nodes that have a value by a key, and that of each.
fn pairs_by<S: Snapshot, L: Ledger>(
    alloc: Global,
    snap: &S,
    key: &By,
    vars: &Vars,
    nodes: &[u64],
    reads: &mut Steps<L>,
) -> Mem<Pairs>
    ensures nodes { IfOk result (λ pairs. pairs.nodes.items ≡ filter (λ n. is_some (value_by (S.graph snap.now) vars.now.variables key.now n)) nodes.now) }
    ensures values { IfOk result (λ pairs. pairs.values.items ≡ filter_map (value_by (S.graph snap.now) vars.now.variables key.now) nodes.now) }
{
    let mut pairs = Pairs {
        nodes: Vec::new(alloc),
        values: Vec::new(alloc),
    };
    for node in nodes {
        if let Some(value) = value_by(alloc, snap, key, vars, *node, reads)? {
            pairs.nodes.push(*node)?;
            pairs.values.push(value)?;
        }
    }
    Ok(pairs)
}

/// The values of nodes by a key, each looked up once. The error is want of memory.
pub fn values_among<S: Snapshot, L: Ledger>(
    alloc: Global,
    snap: &S,
    key: &By,
    vars: &Vars,
    nodes: &Uids,
    reads: &mut Steps<L>,
) -> Mem<Variable>
    ensures { IfOk result (λ v. v ≡ values_among (S.graph snap.now) vars.now.variables nodes.now key.now) }
{
    let pairs = pairs_by(alloc, snap, key, vars, nodes.as_slice(), reads)?;
    Ok(Variable {
        nodes: Uids::gathered(pairs.nodes),
        values: List::from_vec(pairs.values),
    })
}

// What a key compares.
fn compared_by(key: &OrderKey) -> &By
    ensures { result.now ≡ compared_by key.now }
{
    match key {
        OrderKey::Asc(by) | OrderKey::Desc(by) => by,
    }
}

// Whether the greatest value comes first.
fn is_down(key: &OrderKey) -> bool
    ensures { result ≡ is_down key.now }
{
    match key {
        OrderKey::Asc(_) => false,
        OrderKey::Desc(_) => true,
    }
}

/// The values of nodes by each key. The error is want of memory.
pub fn key_values<S: Snapshot, L: Ledger>(
    alloc: Global,
    snap: &S,
    orders: &[OrderKey],
    vars: &Vars,
    nodes: &Uids,
    reads: &mut Steps<L>,
) -> Mem<Vec<Variable>>
    ensures { IfOk result (λ made. made.items ≡ map (λ key. values_among (S.graph snap.now) vars.now.variables nodes.now (compared_by key)) orders.now) }
{
    let mut made = Vec::new(alloc);
    for key in orders {
        let values = values_among(alloc, snap, compared_by(key), vars, nodes, reads)?;
        made.push(values)?;
    }
    Ok(made)
}

/// Keys over the values of some nodes. The error is want of memory.
pub fn keys_over<'a>(
    alloc: Global,
    orders: &[OrderKey],
    values: &'a [Variable],
) -> Mem<Vec<Key<'a>>>
    requires { length values.now ≡ length orders.now }
    ensures { IfOk result (λ by. map meant by.items ≡ keyed orders.now values.now) }
{
    let mut by = Vec::new(alloc);
    for (place, key) in orders.iter().enumerate() {
        by.push(Key {
            down: is_down(key),
            values: &values[place],
        })?;
    }
    Ok(by)
}
